// Symbols run through the table without an early exit: what is gathered says afterwards whether each was a byte legal at its disparity.
ghost use Rattle.std.specs.Prelude.{◌≡◌, ◌+◌, ◌≤◌, ◌<◌, length};
ghost use Rattle.decoder.specs.Inside.Decoder.{decoding_table};
ghost use Rattle.read_test20.specs.Inside.See.{TenBits, GatherInv, seen, seen_three, seen_six, passes_by};

use packing::bytes::{ThreeBytes, TwoWords};

// The entry of a symbol, and what is gathered after it. Bits 9, 10 and 13 of `good` stay set as long as each symbol was a legal byte. Bits
// 11 and 12 of `flips` mark the disparity that is not the running one, at which a symbol need not be legal.
#[derive(Drop)]
pub(crate) struct Seen {
    pub(crate) entry: u32,
    pub(crate) good: u32,
    pub(crate) flips: u32,
}

// What is gathered after some symbols.
#[derive(Clone, Copy)]
pub(crate) struct Kept {
    pub(crate) good: u32,
    pub(crate) flips: u32,
}

// The words of three symbols, and what is gathered after them.
#[derive(Clone, Copy)]
pub(crate) struct Three {
    pub(crate) good: u32,
    pub(crate) flips: u32,
    pub(crate) words: TwoWords,
}

// The words of six symbols, and what is gathered after them.
#[derive(Clone, Copy)]
pub(crate) struct Six {
    pub(crate) good: u32,
    pub(crate) flips: u32,
    pub(crate) low: TwoWords,
    pub(crate) high: TwoWords,
}

// One symbol. What its entry says about the other disparity does not count.
fn see(t: &[u16; 1024], s: u16, good: u32, flips: u32) -> Seen
    requires t_value { t.now ≡ decoding_table }
    requires s_bound { s < 1024 }
    ensures { result ≡ seen s good flips }
{
    let entry = t[s as usize] as u32;
    Seen {
        entry,
        good: good & (entry | flips / 4),
        flips: flips ^ entry,
    }
}

// Three symbols, and their words.
pub(crate) fn see_three(t: &[u16; 1024], symbols: &[u16], o: usize, good: u32, flips: u32) -> Three
    requires t_value { t.now ≡ decoding_table }
    requires ten_bits { TenBits symbols.now }
    requires o_in_bounds { o + 3 ≤ length symbols.now }
    ensures { result ≡ seen_three symbols.now o good flips }
{
    let x = see(t, symbols[o], good, flips);
    let y = see(t, symbols[o + 1], x.good, x.flips);
    let z = see(t, symbols[o + 2], y.good, y.flips);
    let words = packing::bytes::unpack(ThreeBytes {
        first: (x.entry % 256) as u8,
        second: (y.entry % 256) as u8,
        third: (z.entry % 256) as u8,
    });
    Three {
        good: z.good,
        flips: z.flips,
        words,
    }
}

// Six symbols: one word of each of four streams.
pub(crate) fn see_six(t: &[u16; 1024], symbols: &[u16], o: usize, good: u32, flips: u32) -> Six
    requires t_value { t.now ≡ decoding_table }
    requires ten_bits { TenBits symbols.now }
    requires o_in_bounds { o + 6 ≤ length symbols.now }
    ensures { result ≡ seen_six symbols.now o good flips }
{
    let x = see_three(t, symbols, o, good, flips);
    let y = see_three(t, symbols, o + 3, x.good, x.flips);
    let low = x.words;
    let high = y.words;
    Six {
        good: y.good,
        flips: y.flips,
        low,
        high,
    }
}

// The symbols from one place to another.
pub(crate) fn see_run(t: &[u16; 1024], symbols: &[u16], from: usize, to: usize, flips: u32) -> Kept
    requires t_value { t.now ≡ decoding_table }
    requires ten_bits { TenBits symbols.now }
    requires from_le_to { from ≤ to }
    requires to_in_bounds { to ≤ length symbols.now }
    requires gather_inv { GatherInv symbols.now from from 65535 flips }
    ensures { GatherInv symbols.now from to result.good result.flips }
{
    let mut k = Kept { good: 65535, flips };
    for i in from..to {
        let x = see(t, symbols[i], k.good, k.flips);
        k = Kept {
            good: x.good,
            flips: x.flips,
        };
    }
    k
}

// Whether every symbol seen is a byte that is legal at its disparity.
pub(crate) fn passes(good: u32) -> bool
    ensures { result ≡ passes_by good }
{
    if good / 512 % 4 == 3 {
        return good / 8192 % 2 == 1;
    }
    false
}
