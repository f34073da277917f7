// The rows of two basic images joined into the row of their picture (004, 5.3). Samples are copied unchanged.
ghost use Rattle.std.specs.Prelude.{◌≡◌, ◌*◌, length};
ghost use Rattle.dividing.specs.Row.{joined, paper_copied, join_of, join_row};

use crate::row::CopyError;

// The n samples of the first row and of the second, alternating.
fn merge(n: usize, first: &[u16], second: &[u16], row: &mut [u16])
    requires first_len { length first.now ≡ n }
    requires second_len { length second.now ≡ n }
    requires row_len { length row.old ≡ 2 * n }
    ensures { row.new ≡ joined n first.now second.now }
{
    for j in 0..n {
        row[2 * j] = first[j];
        row[2 * j + 1] = second[j];
    }
}

// Joins the rows of two images into the row of their picture.
pub fn join(first: &[u16], second: &[u16], row: &mut [u16]) -> Result<(), CopyError>
    ensures answer { paper_copied result ≡ join_of first.now second.now row.old }
    ensures row { row.new ≡ join_row first.now second.now row.old }
{
    if first.len() != 1920 {
        return Err(CopyError::WrongInput);
    }
    if second.len() != 1920 {
        return Err(CopyError::WrongInput);
    }
    if row.len() != 3840 {
        return Err(CopyError::WrongOutput);
    }
    merge(1920, first, second, row);
    Ok(())
}
