// Pictures: the place of a sample, rows divided and joined, and the row that a line carries.
ghost use Rattle.std.specs.Prelude.{◌≡◌};
ghost use Rattle.face.specs.Calls.{carries_picture·answer, join·answer, join·row, place·answer, split·answer, split·first, split·second, way_back·answer};

use boundary::numbers::{FormatNumbers, PictureLineNumber, StreamLineNumber};
use picture_answers::pictures::{PlaceAnswer, WayBackAnswer};

// The place of a sample of a picture line: 2.
#[unsafe(no_mangle)]
pub extern "C" fn brazulint4_place(line: PictureLineNumber, sample: u32) -> PlaceAnswer
    ensures { result ≡ place·answer line sample }
{
    let l = boundary::numbers::picture_line_from(line);
    let j = boundary::numbers::at_most_65535(sample);
    picture_answers::pictures::place_answer(picture::place::place_of(l, j))
}

// The line of the picture on a stream line of a link: 1, 2.
#[unsafe(no_mangle)]
pub extern "C" fn brazulint4_way_back(
    format: FormatNumbers,
    link: u32,
    stream: u32,
    line: StreamLineNumber,
) -> WayBackAnswer
    ensures { result ≡ way_back·answer format link stream line }
{
    let f = boundary::numbers::format_from(format);
    let k = boundary::numbers::at_most_65535(link);
    let t = boundary::numbers::at_most_65535(stream);
    let l = boundary::numbers::stream_line_from(line);
    picture_answers::pictures::way_back_answer(way_back::back::picture_line_of(f, k, t, l))
}

// The row of a picture into those of two images: 3, 4.
#[unsafe(no_mangle)]
pub extern "C" fn brazulint4_split(row: &[u16], first: &mut [u16], second: &mut [u16]) -> u32
    ensures answer { result ≡ split·answer row.now first.old second.old }
    ensures first { first.new ≡ split·first row.now first.old second.old }
    ensures second { second.new ≡ split·second row.now first.old second.old }
{
    picture_answers::pictures::copied_number(dividing::split::split(row, first, second))
}

// The rows of two images into that of their picture: 3, 4.
#[unsafe(no_mangle)]
pub extern "C" fn brazulint4_join(first: &[u16], second: &[u16], row: &mut [u16]) -> u32
    ensures answer { result ≡ join·answer first.now second.now row.old }
    ensures row { row.new ≡ join·row first.now second.now row.old }
{
    picture_answers::pictures::copied_number(dividing::join::join(first, second, row))
}

// The choice of row: whether it is the picture.
#[unsafe(no_mangle)]
pub extern "C" fn brazulint4_carries_picture(line: StreamLineNumber) -> bool
    ensures { result ≡ carries_picture·answer line }
{
    line::stream::is_active(boundary::numbers::stream_line_from(line))
}
