// A window whose symbols are all valid (document 01, refusal 20): its rows, the CRC of each stream, its disparities, and whether its fill is
// right. Otherwise the place of the first symbol that is not.
ghost use Rattle.std.specs.Prelude.{◌≡◌, true, ◌+◌, ◌-◌, ◌*◌, ◌%◌, ◌≤◌, IfSome, IsSome, length};
ghost use Rattle.decoder.specs.Inside.Decoder.{decoding_table};
ghost use Rattle.decoder.specs.Inside.Mask.{mask_of, of_mask};
ghost use Rattle.span.specs.Format.{shape_of, samples_in};
ghost use Rattle.span.specs.Inside.Layout.{eav_symbol, ancillary_symbol};
ghost use Rattle.window.specs.Scan.{start_of, running_at};
ghost use Rattle.window.specs.Inside.Fill.{fill_right};
ghost use Rattle.window.specs.Inside.Given.{Given};
ghost use Rattle.read_test20.specs.Inside.Fill.{AreFill};
ghost use Rattle.read_test20.specs.Inside.Run.{RunInv, ScanInv, place20};
ghost use Rattle.read_test20.specs.Inside.See.{TenBits, AreBytes, mask_by};
ghost use Rattle.read_test20.specs.Inside.Whole.{Twice, AllHold, PassedWindow, PassedIf, taken_if, rows_if, whole_if, rows_whole, Begun, EavHolds, Tied, FillSeen, Ending};

use crcc::sums::Sums;
use span::format::{Format, Shape};
use symbol::disparity::Disparity;

// What is known of a window whose symbols are all valid.
#[derive(Drop)]
pub struct Valid {
    // Whether every fill word is 100.
    pub filled: bool,
    // The disparity before the window, and after it.
    pub before: Disparity,
    pub after: Disparity,
    // The CRC of each stream over its picture words.
    pub sums: Sums,
}

#[derive(Clone, Copy, Debug, PartialEq, Eq)]
pub enum TakeError {
    // The first symbol that is not valid; the rows are all zero.
    Invalid(usize),
    // Not a window of a known format, or not rows of its length: nothing was examined, and the rows are as they were.
    NotExamined,
}

// How far test 20 is known to hold, where it does not hold at every symbol.
#[derive(Clone, Copy, Debug, PartialEq, Eq)]
pub(crate) struct Reached {
    // At every symbol before this one.
    pub(crate) place: usize,
    // The mask bit of the disparity there.
    pub(crate) mask: u16,
}

// Why the single pass tells nothing of a window whose symbols are all valid.
#[derive(Clone, Copy, Debug, PartialEq, Eq)]
pub(crate) enum PassError {
    Faulty(Reached),
    NotExamined,
}

// Whether each symbol has ten bits. No early exit, so that the loop takes many at a time.
fn are_ten_bits(symbols: &[u16]) -> bool
    ensures sound { result ≡ true → TenBits symbols.now }
    ensures kept { TenBits symbols.now → result ≡ true }
{
    let mut all = 0;
    for s in symbols {
        all |= *s;
    }
    all < 1024
}

// The running disparity that `flips` records.
fn disparity_by(flips: u32) -> Disparity
    ensures { result ≡ of_mask (mask_by flips) }
{
    if flips / 2048 % 4 == 2 {
        return Disparity::Negative;
    }
    Disparity::Positive
}

// What is gathered after K28.5 twice, if that is there.
fn after_sav(symbols: &[u16]) -> Option<u32>
    requires { 2 ≤ length symbols.now }
    ensures sound { IfSome result (λ flips. Begun symbols.now flips) }
    ensures kept { Twice symbols.now 261 0 → IsSome result }
{
    match (symbols[0], symbols[1]) {
        (0x17C, 0x283) => Some(4096),
        (0x283, 0x17C) => Some(2048),
        _ => None,
    }
}

// Whether K29.7 is at a place and at the next, at the running disparity that `flips` records, which it does not flip.
fn is_eav(symbols: &[u16], at: usize, flips: u32) -> bool
    requires { at + 2 ≤ length symbols.now }
    ensures sound { result ≡ true → EavHolds symbols.now at flips }
    ensures kept { mask_by flips ≡ mask_of (running_at symbols.now at) → Twice symbols.now 266 at → result ≡ true }
{
    if flips / 2048 % 4 == 2 {
        if symbols[at] == 0x05D {
            return symbols[at + 1] == 0x05D;
        }
        return false;
    }
    if symbols[at] == 0x3A2 {
        return symbols[at + 1] == 0x3A2;
    }
    false
}

// What comes after the picture, where its symbols are valid: whether the fill is right, and what is gathered after it.
#[derive(Clone, Copy)]
struct Ended {
    filled: bool,
    flips: u32,
}

// The fill: usually fill words, otherwise any bytes. In haste nothing but fill words is examined.
fn see_fill(
    t: &[u16; 1024],
    symbols: &[u16],
    from: usize,
    to: usize,
    flips: u32,
    haste: bool,
) -> Option<Ended>
    requires t_value { t.now ≡ decoding_table }
    requires ten_bits { TenBits symbols.now }
    requires from_bound { from + 3 ≤ to }
    requires to_in_bounds { to ≤ length symbols.now }
    requires from_value { (to - from) % 3 ≡ 0 }
    requires tied { Tied symbols.now from flips }
    ensures seen { IfSome result (λ e. FillSeen symbols.now from to flips e) }
    ensures kept { AreBytes symbols.now from to → (haste ≡ true → AreFill symbols.now from to flips) → IsSome result }
{
    if crate::fill::are_fill(symbols, from, to, flips) {
        return Some(Ended {
            filled: true,
            flips,
        });
    }
    // A truth value: it decides this return alone, and a closure for it would be handed through four functions.
    if haste {
        return None;
    }
    let rest = crate::see::see_run(t, symbols, from, to, flips);
    if !crate::see::passes(rest.good) {
        return None;
    }
    Some(Ended {
        filled: false,
        flips: rest.flips,
    })
}

// The ancillary area, and then the fill. In haste a wrong fill counts as invalid, and is not examined.
fn tail_of(t: &[u16; 1024], p: Shape, symbols: &[u16], flips: u32, haste: bool) -> Option<Ended>
    requires given { Given p t.now symbols.now }
    requires ten_bits { TenBits symbols.now }
    requires tied { Tied symbols.now (ancillary_symbol * p.stream_pairs) flips }
    ensures whole { IfSome result (λ e. RunInv symbols.now 0 255 (ancillary_symbol * p.stream_pairs) (length symbols.now) (mask_by e.flips)) }
    ensures filled { IfSome result (λ e. e.filled ≡ fill_right p symbols.now) }
    ensures kept { AreBytes symbols.now (ancillary_symbol * p.stream_pairs) (length symbols.now) → (haste ≡ true → fill_right p symbols.now ≡ true) → IsSome result }
{
    let from = span::layout::ANCILLARY_SYMBOL * p.stream_pairs;
    let fill = symbols.len() - 3 * p.fill_pairs;
    let area = crate::area::see_area(t, symbols, from, fill, flips);
    if !crate::see::passes(area.good) {
        return None;
    }
    see_fill(t, symbols, fill, symbols.len(), area.flips, haste)
}

// The EAV, the line number and the CRCC, and what follows them.
fn end_of(t: &[u16; 1024], p: Shape, symbols: &[u16], flips: u32, haste: bool) -> Option<Ended>
    requires given { Given p t.now symbols.now }
    requires ten_bits { TenBits symbols.now }
    requires tied { Tied symbols.now (eav_symbol * p.stream_pairs) flips }
    ensures whole { IfSome result (λ e. Ending p symbols.now flips e.flips) }
    ensures filled { IfSome result (λ e. e.filled ≡ fill_right p symbols.now) }
    ensures kept { AllHold p symbols.now → (haste ≡ true → fill_right p symbols.now ≡ true) → IsSome result }
{
    let eav = span::layout::EAV_SYMBOL * p.stream_pairs;
    let after = eav + 24 * p.stream_pairs;
    if !is_eav(symbols, eav, flips) {
        return None;
    }
    let k = crate::see::see_run(t, symbols, eav + 2, after, flips);
    if !crate::see::passes(k.good) {
        return None;
    }
    tail_of(t, p, symbols, k.flips, haste)
}

// The mask bit of the running disparity that `flips` records.
fn mask_by(flips: u32) -> u16
    ensures { result ≡ mask_by flips }
{
    (1536 - flips / 2048 % 4 * 512) as u16
}

// A fault before which nothing is known.
fn fault_from_start(symbols: &[u16]) -> Reached
    ensures { result ≡ record { place = 0; mask = mask_of (start_of symbols.now) } }
{
    Reached {
        place: 0,
        mask: decoder::mask::mask_of(crate::place::start_of(symbols)),
    }
}

// A fault, given that the first `words` picture words of each stream are valid and `flips` has been gathered after them.
fn fault_after(p: Shape, words: usize, flips: u32) -> Reached
    requires stream_pairs_bound { p.stream_pairs ≤ 2 }
    requires words_bound { words ≤ 1920 }
    ensures { result ≡ record { place = 12 * p.stream_pairs + 3 * p.stream_pairs * words; mask = mask_by flips } }
{
    Reached {
        place: span::layout::PICTURE_SYMBOL * p.stream_pairs + 3 * p.stream_pairs * words,
        mask: mask_by(flips),
    }
}

// The pass over a window of a known format whose symbols have ten bits; in haste a wrong fill is a fault.
fn pass_window(
    t: &[u16; 1024],
    p: Shape,
    symbols: &[u16],
    haste: bool,
    rows: &mut [u16],
) -> Result<Valid, Reached>
    requires given { Given p t.now symbols.now }
    requires ten_bits { TenBits symbols.now }
    requires rows_len { length rows.old ≡ samples_in p }
    ensures { PassedWindow p symbols.now haste rows.new result }
{
    let Some(first) = after_sav(symbols) else {
        return Err(fault_from_start(symbols));
    };
    let head = crate::see::see_run(
        t,
        symbols,
        2,
        span::layout::PICTURE_SYMBOL * p.stream_pairs,
        first,
    );
    if !crate::see::passes(head.good) {
        return Err(fault_from_start(symbols));
    }
    let v = crate::picture::take_picture(t, p.stream_pairs, symbols, head.flips, rows);
    if !crate::see::passes(v.good) {
        return Err(fault_after(p, v.words, v.flips));
    }
    let Some(e) = end_of(t, p, symbols, v.flips, haste) else {
        return Err(fault_after(p, v.words, v.flips));
    };
    // Only for a valid window: nothing else pays for the CRCs. The rows have their format's length, so they have sums.
    let sums = row_crc::sums::sums_of_rows(rows).unwrap();
    Ok(Valid {
        filled: e.filled,
        before: disparity_by(first),
        after: disparity_by(e.flips),
        sums,
    })
}

// The pass over a window with rows of its format's length; anything else is not examined. The table is copied here, once for each window.
fn pass(f: Format, symbols: &[u16], haste: bool, rows: &mut [u16]) -> Result<Valid, PassError>
    ensures { PassedIf f symbols.now haste rows.old rows.new result }
{
    if !span::fit::is_ready(f, symbols.len(), rows.len()) {
        return Err(PassError::NotExamined);
    }
    if !are_ten_bits(symbols) {
        return Err(PassError::Faulty(fault_from_start(symbols)));
    }
    let t = decoder::table::decoding_table();
    pass_window(&t, span::format::shape_of(f), symbols, haste, rows).map_err(PassError::Faulty)
}

// The place of a fault, searched for from where test 20 is known to hold.
fn fault_at(f: Format, symbols: &[u16], x: Reached) -> usize
    requires { ScanInv (shape_of f) symbols.now x.place x.mask }
    ensures { result ≡ place20 (shape_of f) symbols.now }
{
    let t = decoder::table::decoding_table();
    crate::place::first_wrong(&t, span::format::shape_of(f), symbols, x.place, x.mask)
}

// A window with rows of its format's length, and the place of its fault if it has one.
pub fn take(f: Format, symbols: &[u16], rows: &mut [u16]) -> Result<Valid, TakeError>
    ensures taken { result ≡ taken_if f symbols.now rows.old }
    ensures rows { rows.new ≡ rows_if f symbols.now rows.old }
{
    match pass(f, symbols, false, rows) {
        Ok(v) => Ok(v),
        Err(PassError::Faulty(x)) => {
            rows.fill(0);
            Err(TakeError::Invalid(fault_at(f, symbols, x)))
        },
        Err(PassError::NotExamined) => Err(TakeError::NotExamined),
    }
}

// What is known of a window whose symbols are all valid and whose fill is right; its rows then have the picture, and else hold anything.
pub fn examine(f: Format, symbols: &[u16], rows: &mut [u16]) -> Option<Valid>
    ensures answer { result ≡ whole_if f symbols.now (length rows.old) }
    ensures rows { rows.new ≡ rows_whole f symbols.now (length rows.old) rows.new }
{
    let v = pass(f, symbols, true, rows).ok()?;
    v.filled.then_some(v)
}
