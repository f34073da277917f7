// The search for places at which a span may begin. A window that is accepted has K28.5 at its first two symbols and at no other (test 20),
// so the last K28.5 of a window says how far the search may go on.
ghost use Rattle.std.specs.Prelude.{◌≡◌, true, ◌+◌, ◌≤◌, length};
ghost use Rattle.recording.specs.Inside.Look.{is_comma, begins_at, Clear, LastInv};

// Symbols that are examined together. The number is a constant, so that the compiler unrolls the loop over them.
const PIECE: usize = 64;

// Whether a symbol is K28.5, in either form.
fn is_comma(s: u16) -> bool
    ensures { result ≡ is_comma s }
{
    (s == 0x17C) | (s == 0x283)
}

// Whether none of `count` symbols is K28.5. None is tested by itself, so that the loop has one exit.
fn none_is_comma(symbols: &[u16], from: usize, count: usize) -> bool
    requires { from + count ≤ length symbols.now }
    ensures sound { result ≡ true → Clear symbols.now from (from + count) }
    ensures kept { Clear symbols.now from (from + count) → result ≡ true }
{
    let mut found = 0;
    for k in from..from + count {
        found |= u16::from(is_comma(symbols[k]));
    }
    found == 0
}

// Whether K28.5 is at a place and at the next.
pub(crate) fn begins(symbols: &[u16], i: usize) -> bool
    requires { i + 2 ≤ length symbols.now }
    ensures { result ≡ begins_at symbols.now i }
{
    is_comma(symbols[i]) && is_comma(symbols[i + 1])
}

// The place after the last K28.5 of a range, searched for from the end; the beginning of the range if there is none.
fn after_last_in(symbols: &[u16], from: usize, to: usize) -> usize
    requires from_le_to { from ≤ to }
    requires to_in_bounds { to ≤ length symbols.now }
    ensures { LastInv symbols.now from to result }
{
    for k in (from..to).rev() {
        if is_comma(symbols[k]) {
            return k + 1;
        }
    }
    from
}

// The same, piece by piece as long as there is none.
pub(crate) fn after_last(symbols: &[u16], from: usize, to: usize) -> usize
    requires from_le_to { from ≤ to }
    requires to_in_bounds { to ≤ length symbols.now }
    ensures { LastInv symbols.now from to result }
{
    let pieces = (to - from) / PIECE;
    for piece in 0..pieces {
        let k = to - piece * PIECE;
        if !none_is_comma(symbols, k - PIECE, PIECE) {
            return after_last_in(symbols, from, k);
        }
    }
    after_last_in(symbols, from, to - pieces * PIECE)
}
