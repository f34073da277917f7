// The lines of a picture or an image, including a basic image, and the stream line that carries a line of a basic image.
ghost use Rattle.std.specs.Prelude.{◌≡◌};
ghost use Rattle.line.specs.Picture.{stream_line_of, basic_line_of, number_on, number_carried};

use crate::stream::StreamLine;

// A line of a picture or an image by its number, which may be any number, as with a stream line.
#[derive(Clone, Copy)]
pub struct PictureLine(u16);

// The line with a number, for the edges.
pub fn picture_line(n: u16) -> PictureLine
    ensures { result.0 ≡ n }
{
    PictureLine(n)
}

// The number of a line, for the same edges.
pub fn number_of(l: PictureLine) -> u16
    ensures { result ≡ l.0 }
{
    l.0
}

// The stream line on which a line of a basic image travels, 41 further on; none if no basic image has the line.
pub fn stream_line_of(l: PictureLine) -> Option<StreamLine>
    ensures { number_on result ≡ stream_line_of l.0 }
{
    if ground::range::within(1, 1080, l.0) {
        return Some(crate::stream::stream_line(l.0 + 41));
    }
    None
}

// The line of a basic image that a stream line carries; none if it is one of frame blanking, or no line at all.
pub fn basic_line_of(l: StreamLine) -> Option<PictureLine>
    ensures { number_carried result ≡ basic_line_of l.0 }
{
    if crate::stream::is_active(l) {
        return Some(PictureLine(crate::stream::number_of(l) - 41));
    }
    None
}
