// A row of the test picture.
ghost use Rattle.std.specs.Prelude.{◌≡◌, ◌≤◌, length};
ghost use Rattle.test_picture.specs.Putting.{paper_put, row_answer, row_put};
ghost use Rattle.test_picture.specs.TestPicture.{apart as distance, test_sample, row_in_steps};

use crate::answer::PutError;
use line::picture::PictureLine;

fn apart(a: u64, b: u64) -> u64
    ensures { result ≡ distance a b }
{
    a.abs_diff(b)
}

// The twelve-bit code of a sample.
fn sample_at(line: PictureLine, sample: u16) -> u16
    ensures { result ≡ test_sample line.0 sample }
{
    let dx = apart(sample as u64, 1280);
    let dy = apart(line::picture::number_of(line) as u64, 720);
    (4079 - (dx * dx + dy * dy) / 512 % 4064) as u16
}

// The codes of a line, in steps of this many.
pub(crate) fn put_codes(line: PictureLine, step: u16, row: &mut [u16])
    requires le_step { 1 ≤ step }
    requires row_len { length row.old ≡ 3840 }
    ensures { row.new ≡ row_in_steps step line.0 }
{
    for (x, sample) in row.iter_mut().enumerate() {
        *sample = sample_at(line, x as u16) / step;
    }
}

// The row of a picture line, in twelve-bit codes.
pub fn put_row(line: PictureLine, row: &mut [u16]) -> Result<(), PutError>
    ensures answer { paper_put result ≡ row_answer line.0 row.old }
    ensures row { row.new ≡ row_put line.0 row.old }
{
    if !ground::range::within(1, 2160, line::picture::number_of(line)) {
        return Err(PutError::NoLine);
    }
    if row.len() != 3840 {
        return Err(PutError::WrongOutput);
    }
    put_codes(line, 1, row);
    Ok(())
}
