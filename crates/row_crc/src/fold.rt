// A row of 1,920 words folded into its last 139, which have the same CRC.
//
// X^(12 * 139) + X^(12 * 53) + X^(12 * 46) + 1 is a multiple of the code's polynomial (004, 6.4 b). So a word counts the same where it is
// as at 86, 93 and 139 words further on together: it may be moved there, and no word less than 86 further on is touched. That lets the
// compiler move many words at a time, while a CRC goes word by word.
ghost use Rattle.std.specs.Prelude.{◌≡◌, ◌<◌, length};
ghost use Rattle.crcc.specs.Crcc.{crc};
ghost use Rattle.row_crc.specs.Inside.Fold.{with_moved, Empty, FoldInv};
ghost use Rattle.row_crc.specs.Inside.Sums.{words_in};

// A moved word j is put at 139 + j. So what word i gets is at i, which is the word 139 before it, at i + 53, the word 86 before, and at
// i + 46, the word 93 before.
const FURTHEST: usize = 139;

// How many words are folded: all but the last 139.
const FOLDED: usize = 1781;

#[derive(Drop)]
pub(crate) struct Two {
    pub(crate) a: u32,
    pub(crate) b: u32,
}

// Word j of a row, with what has been moved to it.
fn with_moved(row: &[u16], moved: &[u16; 1984], j: usize) -> u16
    requires row_len { length row.now ≡ 1920 }
    requires j_bound { j < 1920 }
    ensures { result ≡ with_moved row.now moved.now j }
{
    row[j] ^ moved[j] ^ moved[j + 53] ^ moved[j + 46]
}

// Moves the first words of a row, each with what has been moved to it; word j is put at 139 + j.
fn fold(row: &[u16], moved: &mut [u16; 1984])
    requires row_len { length row.now ≡ 1920 }
    requires empty { Empty moved.old }
    ensures folds { FoldInv row.now moved.new 1781 }
{
    for j in 0..FOLDED {
        moved[FURTHEST + j] = with_moved(row, moved, j);
    }
}

// The CRC of the last 139 words of two rows, a and b, each with what has been moved to it. The two are computed side by side.
fn crc_of_last(a: &[u16], ma: &[u16; 1984], b: &[u16], mb: &[u16; 1984]) -> Two
    requires a_len { length a.now ≡ 1920 }
    requires b_len { length b.now ≡ 1920 }
    requires fold_inv { FoldInv a.now ma.now 1781 }
    requires fold_inv_2 { FoldInv b.now mb.now 1781 }
    ensures { result ≡ record { a = crc 0 (words_in a.entry.now 0); b = crc 0 (words_in b.now 0) } }
{
    let mut c = 0;
    let mut d = 0;
    for j in FOLDED..1920 {
        c = crcc::crcc::crc_word(c, with_moved(a, ma, j));
        d = crcc::crcc::crc_word(d, with_moved(b, mb, j));
    }
    Two { a: c, b: d }
}

// The CRCs of two rows.
pub(crate) fn crc_of_two(a: &[u16], b: &[u16]) -> Two
    requires a_len { length a.now ≡ 1920 }
    requires b_len { length b.now ≡ 1920 }
    ensures { result ≡ record { a = crc 0 (words_in a.entry.now 0); b = crc 0 (words_in b.now 0) } }
{
    let mut ma = [0u16; 1984];
    let mut mb = [0u16; 1984];
    fold(a, &mut ma);
    fold(b, &mut mb);
    crc_of_last(a, &ma, b, &mb)
}
