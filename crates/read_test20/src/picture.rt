// The picture words of a window, put into rows stream by stream as their symbols are checked. The CRCs are computed from the rows
// afterwards (crate `row_crc`), so that this loop has less to do.
ghost use Rattle.std.specs.Prelude.{◌≡◌, true, ℕ, ◌+◌, ◌-◌, ◌*◌, ◌%◌, ◌≤◌, ◌<◌, List, length};
ghost use Rattle.decoder.specs.Inside.Decoder.{decoding_table};
ghost use Rattle.span.specs.Inside.Layout.{eav_symbol};
ghost use Rattle.read_test20.specs.declared.see.Kept.{Kept};
ghost use Rattle.read_test20.specs.Inside.Picture.{RowsInv, Come, put_pair};
ghost use Rattle.read_test20.specs.Inside.See.{TenBits, AreBytes, GatherInv, passes_by, seen_three, seen_six};

use crate::see::{Kept, Six, Three};
use packing::bytes::TwoWords;

// Words of each stream in a piece. Nothing is read after a piece with a fault, so anything that is not a window is soon dismissed.
const PIECE: usize = 120;

// What is gathered after the picture, or after the words of each stream before a fault.
#[derive(Drop)]
pub(crate) struct Pictured {
    // Over all words that were read: whether each was valid, as bits of the table's entries, gathered without a test.
    pub(crate) good: u32,
    // After this many words of each stream, all of them valid.
    pub(crate) flips: u32,
    pub(crate) words: usize,
}

// Puts two words into the rows of two streams.
fn put_pair(w: TwoWords, at: usize, rows: &mut [u16])
    requires { 1920 + at < length rows.old }
    ensures size { length rows.new ≡ length rows.old }
    ensures rows { rows.new ≡ put_pair w at rows.old }
{
    rows[at] = w.a;
    rows[1920 + at] = w.b;
}

// Word j of four streams: the second two rows follow the first two, in the same order.
fn put_six(x: Six, j: usize, rows: &mut [u16])
    requires j_bound { j < 1920 }
    requires rows_len { length rows.old ≡ 7680 }
    ensures size { length rows.new ≡ 7680 }
    ensures rows { rows.new ≡ put_pair x.high (3840 + j) (put_pair x.low j rows.old) }
{
    let low = x.low;
    let high = x.high;
    put_pair(low, j, rows);
    put_pair(high, 3840 + j, rows);
}

// Word j of each stream, as it is seen: of two streams, or of four.
trait Column: Copy {
    // How many pairs of streams.
    ghost pairs: { ℕ };

    // What is seen, after what was gathered before.
    ghost seen: { List ℕ → ℕ → Kept → Self };

    // What is gathered then.
    ghost passed: { Self → Kept };

    fn see(t: &[u16; 1024], symbols: &[u16], j: usize, v: Kept) -> Self
        requires t_value { t.now ≡ decoding_table }
        requires ten_bits { TenBits symbols.now }
        requires j_bound { j < 1920 }
        requires pairs_in_bounds { eav_symbol * pairs ≤ length symbols.now }
        ensures { result ≡ seen symbols.now j v };

    fn passed(self) -> Kept
        ensures { result ≡ passed self };

    // Puts the words into their rows.
    fn put(self, j: usize, rows: &mut [u16])
        requires j_bound { j < 1920 }
        requires rows_len { length rows.old ≡ 3840 * pairs }
        ensures size { length rows.new ≡ 3840 * pairs }
        ensures got { (w old : List ℕ) (v : Kept) → self ≡ seen w j v → RowsInv pairs w old j v rows.old → RowsInv pairs w old (j + 1) (passed self) rows.new };
}

impl Column for Three {
    ghost pairs = { 1 };

    ghost seen = { λ w j v. seen_three w (12 + 3 * j) v.good v.flips };

    ghost passed = { λ x. record { good = x.good; flips = x.flips } };

    fn see(t: &[u16; 1024], symbols: &[u16], j: usize, v: Kept) -> Three {
        crate::see::see_three(t, symbols, 12 + 3 * j, v.good, v.flips)
    }

    fn passed(self) -> Kept {
        Kept {
            good: self.good,
            flips: self.flips,
        }
    }

    fn put(self, j: usize, rows: &mut [u16]) {
        put_pair(self.words, j, rows);
    }
}

impl Column for Six {
    ghost pairs = { 2 };

    ghost seen = { λ w j v. seen_six w (24 + 6 * j) v.good v.flips };

    ghost passed = { λ x. record { good = x.good; flips = x.flips } };

    fn see(t: &[u16; 1024], symbols: &[u16], j: usize, v: Kept) -> Six {
        crate::see::see_six(t, symbols, 24 + 6 * j, v.good, v.flips)
    }

    fn passed(self) -> Kept {
        Kept {
            good: self.good,
            flips: self.flips,
        }
    }

    fn put(self, j: usize, rows: &mut [u16]) {
        put_six(self, j, rows);
    }
}

// Four words of each stream from j on. All their symbols are loaded before anything is stored: the compiler does not know that rows and
// symbols do not overlap, and would load each symbol only after the stores before it.
fn step<C: Column>(t: &[u16; 1024], symbols: &[u16], j: usize, v: Kept, rows: &mut [u16]) -> Kept
    requires t_value { t.now ≡ decoding_table }
    requires ten_bits { TenBits symbols.now }
    requires j_bound { j + 4 ≤ 1920 }
    requires pairs_in_bounds { eav_symbol * C.pairs ≤ length symbols.now }
    requires rows_len { length rows.old ≡ 3840 * C.pairs }
    ensures size { length rows.new ≡ 3840 * C.pairs }
    ensures got { (old : List ℕ) → RowsInv C.pairs symbols.now old j v rows.old → RowsInv C.pairs symbols.now old (j + 4) result rows.new }
{
    let a = C::see(t, symbols, j, v);
    let b = C::see(t, symbols, j + 1, a.passed());
    let c = C::see(t, symbols, j + 2, b.passed());
    let d = C::see(t, symbols, j + 3, c.passed());
    a.put(j, rows);
    b.put(j + 1, rows);
    c.put(j + 2, rows);
    d.put(j + 3, rows);
    d.passed()
}

// A piece of the words of each stream, four per iteration.
fn take<C: Column>(t: &[u16; 1024], symbols: &[u16], from: usize, v: Kept, rows: &mut [u16]) -> Kept
    requires t_value { t.now ≡ decoding_table }
    requires ten_bits { TenBits symbols.now }
    requires from_bound { from + 120 ≤ 1920 }
    requires pairs_in_bounds { eav_symbol * C.pairs ≤ length symbols.now }
    requires rows_len { length rows.old ≡ 3840 * C.pairs }
    ensures size { length rows.new ≡ 3840 * C.pairs }
    ensures got { (old : List ℕ) → RowsInv C.pairs symbols.now old from v rows.old → RowsInv C.pairs symbols.now old (from + 120) result rows.new }
{
    let mut p = v;
    for turn in 0..PIECE / 4 {
        p = step::<C>(t, symbols, from + 4 * turn, p, rows);
    }
    p
}

// A piece of the words of all streams.
fn take_piece(
    t: &[u16; 1024],
    pairs: usize,
    symbols: &[u16],
    from: usize,
    v: Kept,
    rows: &mut [u16],
) -> Kept
    requires t_value { t.now ≡ decoding_table }
    requires ten_bits { TenBits symbols.now }
    requires le_pairs { 1 ≤ pairs }
    requires pairs_bound { pairs ≤ 2 }
    requires from_bound { from + 120 ≤ 1920 }
    requires pairs_in_bounds { eav_symbol * pairs ≤ length symbols.now }
    requires rows_len { length rows.old ≡ 3840 * pairs }
    ensures size { length rows.new ≡ 3840 * pairs }
    ensures got { (old : List ℕ) → RowsInv pairs symbols.now old from v rows.old → RowsInv pairs symbols.now old (from + 120) result rows.new }
{
    if pairs == 1 {
        return take::<Three>(t, symbols, from, v, rows);
    }
    take::<Six>(t, symbols, from, v, rows)
}

// The picture words of all streams, piece by piece, as far as their symbols are valid.
pub(crate) fn take_picture(
    t: &[u16; 1024],
    pairs: usize,
    symbols: &[u16],
    flips: u32,
    rows: &mut [u16],
) -> Pictured
    requires t_value { t.now ≡ decoding_table }
    requires ten_bits { TenBits symbols.now }
    requires le_pairs { 1 ≤ pairs }
    requires pairs_bound { pairs ≤ 2 }
    requires pairs_in_bounds { eav_symbol * pairs ≤ length symbols.now }
    requires rows_len { length rows.old ≡ 3840 * pairs }
    requires gather_inv { GatherInv symbols.now (12 * pairs) (12 * pairs) 65535 flips }
    ensures size { length rows.new ≡ 3840 * pairs }
    ensures got { passes_by result.good ≡ true → RowsInv pairs symbols.now rows.old 1920 (record { good = result.good; flips = result.flips }) rows.new }
    ensures come { Come pairs symbols.now result.words result.flips }
    ensures kept { AreBytes symbols.now (12 * pairs) (eav_symbol * pairs) → passes_by result.good ≡ true }
{
    let mut p = Kept { good: 65535, flips };
    for piece in 0..1920 / PIECE {
        let words = PIECE * piece;
        let next = take_piece(t, pairs, symbols, words, p, rows);
        if !crate::see::passes(next.good) {
            return Pictured {
                good: next.good,
                flips: p.flips,
                words,
            };
        }
        p = next;
    }
    Pictured {
        good: p.good,
        flips: p.flips,
        words: 1920,
    }
}
