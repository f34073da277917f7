// One step of division: an image becomes four of half its lines and half its samples (004, 5.3).
ghost use Rattle.std.specs.Prelude.{◌≡◌};
ghost use Rattle.picture.specs.Division.{halved};

use line::picture::PictureLine;

// A line and a sample in one of the four images, 1 to 4.
#[derive(Drop)]
pub struct Quarter {
    pub image: u8,
    pub line: PictureLine,
    pub sample: u16,
}

// Where a sample goes. No size is needed: an image of any size is divided in the same way.
pub fn halve(line: PictureLine, sample: u16) -> Quarter
    ensures { result ≡ halved line.0 sample }
{
    let n = line::picture::number_of(line);
    let h = 1 - n % 2;
    let w = sample % 2;
    // half of n + 1, which would overflow if n is the largest number
    Quarter {
        image: (2 * h + w + 1) as u8,
        line: line::picture::picture_line(n / 2 + n % 2),
        sample: sample / 2,
    }
}
