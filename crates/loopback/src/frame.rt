// Sends the frame over the link, piece by piece, and writes its picture into the file as it arrives.
ghost use Rattle.std.specs.Prelude.{◌≡◌, ◌≤◌, length};
ghost use Rattle.loopback.specs.Frame.{FrameTold};

use rig::knock::Knock;
use std::io;
use std::io::Write;
use symbol::disparity::Disparity;

// Answers the disparity after the frame, or why a write failed. If all of it was written, the flags say which lines were heard.
pub(crate) fn write_frame(
    out: &mut impl Write,
    k: Knock,
    heard: &mut [u16],
    picture: &mut [u16],
    bytes: &mut [u8],
) -> io::Result<Disparity>
    requires heard_len { length heard.old ≡ 1125 }
    requires picture_len { length picture.old ≡ 38400 }
    requires in_bounds { 76800 ≤ length bytes.old }
    ensures { FrameTold k result heard.new }
{
    let mut d = symbol::disparity::before_fresh_signal();
    for piece in 0..225 {
        let from = 5 * piece;
        let to = from + 5;
        let Ok(after) = rig::carry::carry(piece, d, k, &mut heard[from..to], picture) else {
            // No piece of the frame is refused.
            return Err(io::Error::from(io::ErrorKind::InvalidInput));
        };
        d = after;
        let n = crate::file::put_piece(piece, picture, bytes);
        out.write_all(&bytes[..n])?;
    }
    Ok(d)
}
