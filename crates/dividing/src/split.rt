// A row of a picture divided into the rows of two basic images (004, 5.3). Samples are copied unchanged.
ghost use Rattle.std.specs.Prelude.{◌≡◌, ◌*◌, length};
ghost use Rattle.dividing.specs.Row.{divided, paper_copied, split_of, split_first, split_second};

use crate::row::CopyError;

// The even samples of a row go to the first, the odd ones to the second, n to each.
fn deal(n: usize, row: &[u16], first: &mut [u16], second: &mut [u16])
    requires row_len { length row.now ≡ 2 * n }
    requires first_len { length first.old ≡ n }
    requires second_len { length second.old ≡ n }
    ensures first { first.new ≡ divided 0 n row.now }
    ensures second { second.new ≡ divided 1 n row.now }
{
    for j in 0..n {
        first[j] = row[2 * j];
        second[j] = row[2 * j + 1];
    }
}

// Divides the row of a picture into the rows of its two images: 1 and 2 on an odd line, 3 and 4 on an even one.
pub fn split(row: &[u16], first: &mut [u16], second: &mut [u16]) -> Result<(), CopyError>
    ensures answer { paper_copied result ≡ split_of row.now first.old second.old }
    ensures first { first.new ≡ split_first row.now first.old second.old }
    ensures second { second.new ≡ split_second row.now first.old second.old }
{
    if row.len() != 3840 {
        return Err(CopyError::WrongInput);
    }
    if first.len() != 1920 {
        return Err(CopyError::WrongOutput);
    }
    if second.len() != 1920 {
        return Err(CopyError::WrongOutput);
    }
    deal(1920, row, first, second);
    Ok(())
}
