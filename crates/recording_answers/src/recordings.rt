// What the calls on a recording answer. `found` says whether there is a span, and place 0 is a place like any other: C has no Option.
ghost use Rattle.std.specs.Prelude.{◌≡◌};
ghost use Rattle.std.proofs.Math.Option.{some};
ghost use Rattle.ground.specs.Answer.{refused, given};
ghost use Rattle.recording.specs.Call.{paper_found, paper_next};
ghost use Rattle.recording_answers.specs.Recordings.{find_answer_of, next_answer_of};

use recording::answer::{FindError, Next, NextError, Spanned};
use span_answers::spans::Values;

#[repr(C)]
#[derive(Drop)]
pub struct FindAnswer {
    pub number: u32,
    pub found: bool,
    pub place: u64,
}

#[repr(C)]
#[derive(Drop)]
pub struct NextAnswer {
    pub number: u32,
    pub found: bool,
    pub place: u64,
    pub resume: u64,
    pub delivery: Values,
}

fn found(number: u32, found: bool, place: usize) -> FindAnswer
    ensures { result ≡ record { number = number; found = found; place = place } }
{
    FindAnswer {
        number,
        found,
        place: place as u64,
    }
}

pub fn find_answer(r: Result<Option<usize>, FindError>) -> FindAnswer
    ensures { result ≡ find_answer_of (paper_found r) }
{
    match r {
        Ok(Some(place)) => found(0, true, place),
        Ok(None) => found(0, false, 0),
        Err(FindError::UnknownFormat) => found(1, false, 0),
        Err(FindError::WrongInput) => found(3, false, 0),
        Err(FindError::WrongStart) => found(5, false, 0),
    }
}

fn delivered(s: Spanned, resume: usize) -> NextAnswer
    ensures { result ≡ next_answer_of (given (some s)) resume }
{
    NextAnswer {
        number: 0,
        found: true,
        place: s.place as u64,
        resume: resume as u64,
        delivery: span_answers::spans::values_of(s.delivery),
    }
}

// None, or a refusal, which has no place.
fn none(number: u32, resume: usize) -> NextAnswer
    ensures { result ≡ next_answer_of (refused number 0) resume }
{
    NextAnswer {
        number,
        found: false,
        place: 0,
        resume: resume as u64,
        delivery: span_answers::spans::no_values(),
    }
}

pub fn next_answer(r: Next) -> NextAnswer
    ensures { result ≡ next_answer_of (paper_next r.answer) r.after }
{
    match r.answer {
        Ok(Some(s)) => delivered(s, r.after),
        Ok(None) => none(0, r.after),
        Err(NextError::UnknownFormat) => none(1, r.after),
        Err(NextError::WrongInput) => none(3, r.after),
        Err(NextError::WrongOutput) => none(4, r.after),
        Err(NextError::WrongStart) => none(5, r.after),
    }
}
