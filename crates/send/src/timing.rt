// The timing codes of all streams, with a special character and content bytes in place of their first four bytes (004, 7.1).
#![tactic(auto, using(crate::proofs::Putting::one_after))]

ghost use Rattle.std.specs.Prelude.{◌≡◌, ◌+◌, ◌*◌, ◌≤◌, length};
ghost use Rattle.encoder.specs.Inside.Tables.{offset_of, of_offset};
ghost use Rattle.symbol.specs.Character.{number_of};
ghost use Rattle.send.specs.Inside.Put.{offset_after, put, sync_chars, second_word, timing_chars};

use encoder::tables::Tables;
use symbol::special::Special;

// The special character twice, the content bytes, and the last two bytes of the second pair of words w.
fn put_sync(
    tables: Tables,
    d: usize,
    k: Special,
    content1: u8,
    content2: u8,
    w: u16,
    out: &mut [u16],
    at: usize,
) -> usize
    requires d_value { d ≡ offset_of (of_offset d) }
    requires at_in_bounds { at + 6 ≤ length out.old }
    ensures offset { result ≡ offset_after d (sync_chars (number_of k) content1 content2 w) }
    ensures out { out.new ≡ put d (sync_chars (number_of k) content1 content2 w) at out.old }
{
    let t = packing::bytes::bytes_of(w, w);
    let c = symbol::special::number(k);
    let d1 = crate::put::put_three(tables, d, c, c, content1 as u16, out, at);
    crate::put::put_three(
        tables,
        d1,
        content2 as u16,
        t.second as u16,
        t.third as u16,
        out,
        at + 3,
    )
}

// The word of its second pair: with two streams the code is at 000 already, with four it is still at FFF.
fn second_word(pairs: usize) -> u16
    ensures { result ≡ second_word pairs }
{
    if pairs == 1 {
        return 0x000;
    }
    0xFFF
}

// The whole code: what is replaced, the remaining pairs 000 000, and XYZ of each stream.
pub(crate) fn put_timing(
    tables: Tables,
    pairs: usize,
    d: usize,
    k: Special,
    content1: u8,
    content2: u8,
    xyz: u16,
    out: &mut [u16],
    at: usize,
) -> usize
    requires le_pairs { 1 ≤ pairs }
    requires pairs_bound { pairs ≤ 2 }
    requires d_value { d ≡ offset_of (of_offset d) }
    requires pairs_in_bounds { at + 12 * pairs ≤ length out.old }
    ensures offset { result ≡ offset_after d (timing_chars pairs (number_of k) content1 content2 xyz) }
    ensures out { out.new ≡ put d (timing_chars pairs (number_of k) content1 content2 xyz) at out.old }
{
    let w = second_word(pairs);
    let zeros = 3 * pairs - 2;
    let d1 = put_sync(tables, d, k, content1, content2, w, out, at);
    crate::put::put_run(tables, zeros, d1, 0x000, out, at + 6);
    crate::put::put_same(tables, pairs, d1, xyz, out, at + 9 * pairs)
}
