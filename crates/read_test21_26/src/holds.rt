// The tests at one interleaved place, and the lowest place at which one does not hold.
ghost use Rattle.std.specs.Prelude.{◌≡◌, ◌*◌, ◌/◌, ◌%◌, ◌≤◌, ◌<◌};
ghost use Rattle.std.proofs.Math.Option.{get_or};
ghost use Rattle.ground.specs.Search.{is_some};
ghost use Rattle.crcc.specs.Inside.Sums.{sum_in};
ghost use Rattle.line.specs.Stream.{v_of, line_before};
ghost use Rattle.span.specs.Format.{streams, pairs_in};
ghost use Rattle.window.specs.Read.{placed};
ghost use Rattle.window.specs.Tests.{named, holds21, holds22, holds23};
ghost use Rattle.window.specs.Words.{word_at};
ghost use Rattle.read_test21_26.specs.Inside.Line.{line_in};
ghost use Rattle.read_test21_26.specs.Inside.Holds.{holds24_by, holds_at, wrong_in, lowest_of, crcc_received};

use crate::given::{Tested, Window};
use crate::service::Test;
use crcc::crcc::CrccWords;
use crcc::sums::Sums;
use line::stream::StreamLine;
use word::line_number::NameError;

// The line that LN0 and LN1 of stream 1 name, if they name one. This and `read_line_words` rule out the fault that lost a recital: both
// words are from one stream and one span, and name a line only if both are what is sent for it.
pub(crate) fn next_line(w: Window) -> Result<StreamLine, NameError>
    ensures { line_in result ≡ named (streams w.entry.shape) (word_at w.entry.shape w.entry.symbols.now) }
{
    let s = 2 * w.shape.stream_pairs;
    let ln0 = crate::words::word_at(w, span::layout::LINE_NUMBER * s);
    let ln1 = crate::words::word_at(w, span::layout::LN1 * s);
    word::line_number::read_line_words(ln0, ln1)
}

// V of the line that is named. If none is, test 22 has failed before V is checked, and V is 1.
fn v_named(next: Result<StreamLine, NameError>) -> bool
    ensures { result ≡ v_of (get_or (line_in next) 0) }
{
    match next {
        Ok(l) => line::stream::v_of(l),
        Err(_) => true,
    }
}

// The same of the line before it. Apart, since the two differ in a call, and not in a value.
fn v_before(next: Result<StreamLine, NameError>) -> bool
    ensures { result ≡ v_of (line_before (get_or (line_in next) 0)) }
{
    match next {
        Ok(l) => line::stream::v_of(line::stream::line_before(l)),
        Err(_) => true,
    }
}

// 21: a timing word.
fn timing_holds(w: Window, k: usize) -> bool
    requires k_bound { k < 2 * pairs_in w.shape }
    ensures { result ≡ placed (streams w.entry.shape) (holds21 (streams w.entry.shape) (word_at w.entry.shape w.entry.symbols.now)) k }
{
    let j = k / (2 * w.shape.stream_pairs);
    let word = crate::words::word_at(w, k);
    if j < span::layout::PICTURE {
        return word::received::is_timing(false, j, word);
    }
    if span::layout::EAV <= j {
        if j < span::layout::LINE_NUMBER {
            return word::received::is_timing(true, j - span::layout::EAV, word);
        }
    }
    true
}

// 22: a line number word.
fn line_holds(x: Tested, k: usize) -> bool
    requires k_bound { k < 2 * pairs_in x.window.shape }
    ensures { result ≡ placed (streams x.entry.window.shape) (holds22 (streams x.entry.window.shape) (word_at x.entry.window.shape x.entry.window.symbols.now)) k }
{
    let s = 2 * x.window.shape.stream_pairs;
    let j = k / s;
    if k == span::layout::LINE_NUMBER * s {
        return x.next.is_ok();
    }
    if span::layout::LINE_NUMBER <= j {
        if j < span::layout::CRCC {
            let w = crate::words::word_at(x.window, k);
            return w == crate::words::word_at(x.window, s * j);
        }
    }
    true
}

// 23: V.
fn v_holds(x: Tested, k: usize) -> bool
    requires k_bound { k < 2 * pairs_in x.window.shape }
    ensures { result ≡ placed (streams x.entry.window.shape) (holds23 (streams x.entry.window.shape) (word_at x.entry.window.shape x.entry.window.symbols.now)) k }
{
    let j = k / (2 * x.window.shape.stream_pairs);
    let w = crate::words::word_at(x.window, k);
    if j == span::layout::SAV_XYZ {
        return word::received::v_in(w) == v_before(x.next);
    }
    if j == span::layout::EAV_XYZ {
        return word::received::v_in(w) == v_named(x.next);
    }
    true
}

// The CRCC of stream i, whose picture leaves the CRC at c: it continues over the EAV, with XYZ repaired, and the line number.
fn crcc_after(w: Window, i: usize, c: u32) -> CrccWords
    requires i_bound { i < streams w.shape }
    ensures { result ≡ crcc_received w.entry.shape w.entry.symbols.now i c }
{
    let s = 2 * w.shape.stream_pairs;
    let at = span::layout::EAV * s + i;
    let c1 = crcc::crcc::crc_word(c, crate::words::word_at(w, at));
    let c2 = crcc::crcc::crc_word(c1, crate::words::word_at(w, at + s));
    let c3 = crcc::crcc::crc_word(c2, crate::words::word_at(w, at + 2 * s));
    let xyz = crate::words::word_at(w, at + 3 * s);
    let c4 = crcc::crcc::crc_word(c3, word::received::repaired_word(xyz));
    let c5 = crcc::crcc::crc_word(c4, crate::words::word_at(w, at + 4 * s));
    crcc::crcc::crcc_words(crcc::crcc::crc_word(c5, crate::words::word_at(w, at + 5 * s)))
}

// The CRC of stream i.
fn sum_of(c: Sums, i: usize) -> u32
    ensures { result ≡ sum_in c i }
{
    match i {
        0 => c.first,
        1 => c.second,
        2 => c.third,
        _ => c.fourth,
    }
}

// 24: a CRCC word.
fn crcc_holds(w: Window, c: Sums, k: usize) -> bool
    requires k_bound { k < 2 * pairs_in w.shape }
    ensures { result ≡ placed (streams w.entry.shape) (holds24_by w.entry.shape w.entry.symbols.now c) k }
{
    let s = 2 * w.shape.stream_pairs;
    let j = k / s;
    if span::layout::CRCC <= j {
        if j < span::layout::ANCILLARY {
            let word = crate::words::word_at(w, k);
            let sent = crcc_after(w, k % s, sum_of(c, k % s));
            if j == span::layout::CRCC {
                return word == sent.crcc0;
            }
            return word == sent.crcc1;
        }
    }
    true
}

// Whether a test holds at place k.
fn holds(test: Test, x: Tested, k: usize) -> bool
    requires k_bound { k < 2 * pairs_in x.window.shape }
    ensures { result ≡ holds_at test x.entry.format x.entry.window.shape x.entry.window.symbols.now x.entry.sums k }
{
    match test {
        Test::Timing => timing_holds(x.window, k),
        Test::Line => line_holds(x, k),
        Test::V => v_holds(x, k),
        Test::Crcc => crcc_holds(x.window, x.sums, k),
        Test::Sample => packing::sample::allowed_word(
            span::format::depth_of(x.format),
            crate::words::word_at(x.window, k),
        ),
        Test::Fill => crate::words::word_at(x.window, k) == span::blanking::fill_word(),
    }
}

// The lowest place from one to another at which a test does not hold, if there is one.
pub(crate) fn first_wrong(test: Test, x: Tested, from: usize, to: usize) -> Option<usize>
    requires from_le_to { from ≤ to }
    requires to_bound { to ≤ 2 * pairs_in x.window.shape }
    ensures { result ≡ lowest_of (wrong_in (holds_at test x.entry.format x.entry.window.shape x.entry.window.symbols.now x.entry.sums) from to) }
{
    for k in from..to {
        if !holds(test, x, k) {
            return Some(k);
        }
    }
    None
}
