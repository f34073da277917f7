// The picture words of all streams, put into the symbol buffer. The CRCs are computed from the words afterwards (crate `row_crc`), so that the
// loop has less to do.
#![tactic(auto, using(crate::proofs::Putting::one_after))]

ghost use Rattle.std.specs.Prelude.{◌≡◌, ◌+◌, ◌*◌, ◌<◌, ◌≤◌, length};
ghost use Rattle.encoder.specs.Inside.Tables.{offset_of, of_offset};
ghost use Rattle.send.specs.Inside.Put.{offset_after, put, pair_chars_at, pair_place, picture_word, picture_chars, passed_at, AreWords};

use crcc::sums::Sums;
use encoder::tables::Tables;

// After the picture: the offset of the running disparity, and the CRC of each stream.
#[derive(Drop)]
pub(crate) struct Passed {
    pub(crate) offset: usize,
    pub(crate) sums: Sums,
}

// One word of each of two streams: the first stream's is at the given place.
fn put_at(
    tables: Tables,
    words: &[u16],
    place: usize,
    d: usize,
    out: &mut [u16],
    at: usize,
) -> usize
    requires are_words { AreWords words.now }
    requires place_in_bounds { place + 1920 < length words.now }
    requires d_value { d ≡ offset_of (of_offset d) }
    requires at_in_bounds { at + 3 ≤ length out.old }
    ensures offset { result ≡ offset_after d (pair_chars_at words.now place) }
    ensures out { out.new ≡ put d (pair_chars_at words.now place) at out.old }
{
    let a = words[place];
    let b = words[place + 1920];
    let both = a as u32 + b as u32 * 4096;
    crate::put::put_both(tables, d, both, out, at)
}

// Where pair m of those that are sent has its first word: each two streams send a pair in turn.
fn place_of<const PAIRS: usize>(m: usize) -> usize
    requires le_pairs { 1 ≤ PAIRS }
    requires pairs_bound { PAIRS ≤ 2 }
    requires m_bound { m < 1920 * PAIRS }
    ensures value { result ≡ pair_place PAIRS m }
    ensures bound { result + 1920 < 3840 * PAIRS }
{
    3840 * (m % PAIRS) + m / PAIRS
}

// All 1920 words of each stream, four pairs per iteration. The loop is compiled for each number of streams, so that no iteration asks for it.
fn put_words<const PAIRS: usize>(
    tables: Tables,
    words: &[u16],
    d: usize,
    out: &mut [u16],
    at: usize,
) -> usize
    requires le_pairs { 1 ≤ PAIRS }
    requires pairs_bound { PAIRS ≤ 2 }
    requires are_words { AreWords words.now }
    requires words_len { length words.now ≡ 3840 * PAIRS }
    requires d_value { d ≡ offset_of (of_offset d) }
    requires at_in_bounds { at + 5760 * PAIRS ≤ length out.old }
    ensures offset { result ≡ offset_after d (picture_chars PAIRS 1920 (picture_word words.now)) }
    ensures out { out.new ≡ put d (picture_chars PAIRS 1920 (picture_word words.now)) at out.old }
{
    let mut offset = d;
    for q in 0..480 * PAIRS {
        let m = 4 * q;
        let o = at + 3 * m;
        let a = put_at(tables, words, place_of::<PAIRS>(m), offset, out, o);
        let b = put_at(tables, words, place_of::<PAIRS>(m + 1), a, out, o + 3);
        let c = put_at(tables, words, place_of::<PAIRS>(m + 2), b, out, o + 6);
        offset = put_at(tables, words, place_of::<PAIRS>(m + 3), c, out, o + 9);
    }
    offset
}

// All 1920 words of each stream.
fn put_streams(
    tables: Tables,
    pairs: usize,
    words: &[u16],
    d: usize,
    out: &mut [u16],
    at: usize,
) -> usize
    requires le_pairs { 1 ≤ pairs }
    requires pairs_bound { pairs ≤ 2 }
    requires are_words { AreWords words.now }
    requires words_len { length words.now ≡ 3840 * pairs }
    requires d_value { d ≡ offset_of (of_offset d) }
    requires pairs_in_bounds { at + 5760 * pairs ≤ length out.old }
    ensures offset { result ≡ offset_after d (picture_chars pairs 1920 (picture_word words.now)) }
    ensures out { out.new ≡ put d (picture_chars pairs 1920 (picture_word words.now)) at out.old }
{
    if pairs == 1 {
        return put_words::<1>(tables, words, d, out, at);
    }
    put_words::<2>(tables, words, d, out, at)
}

// The same, and the CRC of each stream.
pub(crate) fn put_picture(
    tables: Tables,
    pairs: usize,
    words: &[u16],
    d: usize,
    out: &mut [u16],
    at: usize,
) -> Passed
    requires le_pairs { 1 ≤ pairs }
    requires pairs_bound { pairs ≤ 2 }
    requires are_words { AreWords words.now }
    requires words_len { length words.now ≡ 3840 * pairs }
    requires d_value { d ≡ offset_of (of_offset d) }
    requires pairs_in_bounds { at + 5760 * pairs ≤ length out.old }
    ensures passed { result ≡ passed_at pairs d words.now }
    ensures out { out.new ≡ put d (picture_chars pairs 1920 (picture_word words.now)) at out.old }
{
    let offset = put_streams(tables, pairs, words, d, out, at);
    let sums = row_crc::sums::sums_of_rows(words).unwrap();
    Passed { offset, sums }
}
