// The place of a sample of a 4K picture in its basic images, and the way back to the line of the picture.
ghost use Rattle.std.specs.Prelude.{◌≡◌};
ghost use Rattle.line.specs.Picture.{number_carried};
ghost use Rattle.picture.specs.Place.{paper_placed, placed_of, picture_line_on};

use line::picture::PictureLine;
use line::stream::StreamLine;

#[derive(Drop)]
pub struct Place {
    pub image: u8,
    pub line: PictureLine,
    // the stream line that carries it
    pub stream: StreamLine,
    pub sample: u16,
}

// 2: the line is not 1 to 2160, or the sample is above 3839.
#[derive(Clone, Copy, Debug, PartialEq, Eq)]
pub struct Outside;

// The basic image, line and sample that a sample of a picture line becomes, and the stream line that carries it.
pub fn place_of(line: PictureLine, sample: u16) -> Result<Place, Outside>
    ensures { paper_placed result ≡ placed_of line.0 sample }
{
    if sample <= 3839 {
        let q = crate::division::halve(line, sample);
        let basic = q.line;
        // lines 1 to 2160 are those of which the line in a basic image, 1 to 1080, travels
        if let Some(stream) = line::picture::stream_line_of(basic) {
            return Ok(Place {
                image: q.image,
                line: basic,
                stream,
                sample: q.sample,
            });
        }
    }
    Err(Outside)
}

// The way back: the picture line that a stream line carries for a basic image, which is 2l - 1 + h (01, "Dividing a picture"),
// if it carries one.
pub fn picture_line_on(l: StreamLine, image: u8) -> Option<PictureLine>
    ensures { number_carried result ≡ picture_line_on l.0 image }
{
    let u = image as u16;
    if !ground::range::within(1, 4, u) {
        return None;
    }
    let basic = line::picture::basic_line_of(l)?;
    let n = 2 * line::picture::number_of(basic) - 1 + (u - 1) / 2;
    Some(line::picture::picture_line(n))
}
