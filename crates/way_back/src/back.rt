// From the link, the stream and the stream line of a span to the picture (document 01, "Dividing a picture").
ghost use Rattle.std.specs.Prelude.{◌≡◌, ◌≤◌};
ghost use Rattle.way_back.specs.Back.{paper_back, links_by, has_stream, back_of};
ghost use Rattle.way_back.specs.Inside.Image.{image_on};

use line::picture::PictureLine;
use line::stream::StreamLine;
use span::format::Format;

// A line of the picture, and the basic image in which a stream carries it.
#[derive(Clone, Copy)]
pub struct ImageLine {
    pub image: u8,
    pub line: PictureLine,
}

#[derive(Clone, Copy, Debug, PartialEq, Eq)]
pub enum BackError {
    // 1
    UnknownFormat,
    // 2: a component has no such link, or the link no such stream, or the stream line carries no picture.
    NoLine,
}

// The links of a component, by the pairs of streams of a link: four images make two links of two streams, or one of four.
fn links_of(pairs: usize) -> u16
    ensures { result ≡ links_by pairs }
{
    if pairs == 1 {
        return 2;
    }
    1
}

// Whether a component has such a link, and the link such a stream. Both count from 1.
fn has(f: Format, link: u16, stream: u16) -> bool
    ensures { result ≡ has_stream f link stream }
{
    let pairs = span::format::shape_of(f).stream_pairs;
    if ground::range::within(1, links_of(pairs), link) {
        return ground::range::within(1, (2 * pairs) as u16, stream);
    }
    false
}

// The basic image that a stream of a link carries: where there are four streams the link is the first.
fn image_on(link: u16, stream: u16) -> u8
    requires le_link { 1 ≤ link }
    requires link_bound { link ≤ 2 }
    requires le_stream { 1 ≤ stream }
    requires stream_bound { stream ≤ 4 }
    ensures { result ≡ image_on link stream }
{
    (2 * (link - 1) + stream) as u8
}

// The line of the picture on a stream line, and its basic image: 1, 2.
pub fn picture_line_of(
    f: Format,
    link: u16,
    stream: u16,
    l: StreamLine,
) -> Result<ImageLine, BackError>
    ensures { paper_back result ≡ back_of f link stream l.0 }
{
    if span::format::is_known(f) {
        if has(f, link, stream) {
            let image = image_on(link, stream);
            let Some(line) = picture::place::picture_line_on(l, image) else {
                return Err(BackError::NoLine);
            };
            return Ok(ImageLine { image, line });
        }
        return Err(BackError::NoLine);
    }
    Err(BackError::UnknownFormat)
}
