// The CRC of each stream over its picture words (004, 6.4), from the rows.
ghost use Rattle.std.specs.Prelude.{◌≡◌};
ghost use Rattle.row_crc.specs.Inside.Sums.{summed_of};

use crcc::sums::Sums;

// Of two rows of 1,920 words, or of four; rows of another length have none.
pub fn sums_of_rows(rows: &[u16]) -> Option<Sums>
    ensures { result ≡ summed_of rows.now }
{
    if rows.len() == 3840 {
        let low = crate::fold::crc_of_two(&rows[0..1920], &rows[1920..3840]);
        return Some(Sums {
            first: low.a,
            second: low.b,
            third: 0,
            fourth: 0,
        });
    }
    if rows.len() == 7680 {
        let low = crate::fold::crc_of_two(&rows[0..1920], &rows[1920..3840]);
        let high = crate::fold::crc_of_two(&rows[3840..5760], &rows[5760..7680]);
        return Some(Sums {
            first: low.a,
            second: low.b,
            third: high.a,
            fourth: high.b,
        });
    }
    None
}
