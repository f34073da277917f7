// What the calls on places and rows answer. Structs of numbers, since C has no Option and no Result.
ghost use Rattle.std.specs.Prelude.{◌≡◌};
ghost use Rattle.ground.specs.Answer.{refused};
ghost use Rattle.picture.specs.Place.{paper_placed};
ghost use Rattle.dividing.specs.Row.{paper_copied};
ghost use Rattle.span.specs.Blanking.{paper_filled};
ghost use Rattle.way_back.specs.Back.{paper_back};
ghost use Rattle.picture_answers.specs.Pictures.{place_answer_of, way_back_answer_of};
ghost use Rattle.boundary.specs.Numbers.{number_in};

use boundary::numbers::{PictureLineNumber, StreamLineNumber};
use dividing::row::CopyError;
use picture::place::{Outside, Place};
use span::blanking::FillError;
use way_back::back::{BackError, ImageLine};

#[repr(C)]
#[derive(Drop)]
pub struct PlaceAnswer {
    pub number: u32,
    pub image: u32,
    pub image_line: u32,
    pub stream_line: StreamLineNumber,
    pub sample: u32,
}

pub fn place_answer(r: Result<Place, Outside>) -> PlaceAnswer
    ensures { result ≡ place_answer_of (paper_placed r) }
{
    match r {
        Ok(p) => PlaceAnswer {
            number: 0,
            image: p.image as u32,
            image_line: line::picture::number_of(p.line) as u32,
            stream_line: boundary::numbers::stream_line_number(p.stream),
            sample: p.sample as u32,
        },
        Err(Outside) => PlaceAnswer {
            number: 2,
            image: 0,
            image_line: 0,
            stream_line: StreamLineNumber { number: 0 },
            sample: 0,
        },
    }
}

#[repr(C)]
#[derive(Drop)]
pub struct WayBackAnswer {
    pub number: u32,
    pub image: u32,
    pub line: PictureLineNumber,
}

fn no_line(number: u32) -> WayBackAnswer
    ensures { result ≡ way_back_answer_of (refused number 0) }
{
    WayBackAnswer {
        number,
        image: 0,
        line: PictureLineNumber { number: 0 },
    }
}

pub fn way_back_answer(r: Result<ImageLine, BackError>) -> WayBackAnswer
    ensures { result ≡ way_back_answer_of (paper_back r) }
{
    match r {
        Ok(x) => WayBackAnswer {
            number: 0,
            image: x.image as u32,
            line: boundary::numbers::picture_line_number(x.line),
        },
        Err(BackError::UnknownFormat) => no_line(1),
        Err(BackError::NoLine) => no_line(2),
    }
}

// Dividing and joining.
pub fn copied_number(r: Result<(), CopyError>) -> u32
    ensures { result ≡ number_in (paper_copied r) }
{
    match r {
        Ok(()) => 0,
        Err(CopyError::WrongInput) => 3,
        Err(CopyError::WrongOutput) => 4,
    }
}

// Filling a row with blanking. Each kind of refusal has its own numbers of document 01, so each has its `match`.
pub fn filled_number(r: Result<(), FillError>) -> u32
    ensures { result ≡ number_in (paper_filled r) }
{
    match r {
        Ok(()) => 0,
        Err(FillError::UnknownFormat) => 1,
        Err(FillError::WrongOutput) => 4,
    }
}
