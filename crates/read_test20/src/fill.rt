// Runs of symbols that repeat, and those that are nothing but fill words.
ghost use Rattle.std.specs.Prelude.{◌≡◌, true, ◌+◌, ◌-◌, ◌%◌, ◌≤◌, length};
ghost use Rattle.read_test20.specs.Inside.Fill.{Repeats, AreFill};

// Whether each symbol from the fourth on equals the one three before it. No early exit, so that the loop takes many at a time.
pub(crate) fn repeats(symbols: &[u16], from: usize, to: usize) -> bool
    requires from_bound { from + 3 ≤ to }
    requires to_in_bounds { to ≤ length symbols.now }
    ensures sound { result ≡ true → Repeats symbols.now from to }
    ensures kept { Repeats symbols.now from to → result ≡ true }
{
    let mut other = 0;
    for (s, before) in symbols[from + 3..to].iter().zip(&symbols[from..]) {
        other |= *s ^ *before;
    }
    other == 0
}

// The bytes 00 01 10 (hex) of two fill words, at the running disparity that `flips` records; they do not flip it.
fn begins_fill(symbols: &[u16], from: usize, flips: u32) -> bool
    requires { from + 3 ≤ length symbols.now }
    ensures sound { result ≡ true → AreFill symbols.now from (from + 3) flips }
    ensures kept { AreFill symbols.now from (from + 3) flips → result ≡ true }
{
    let first = symbols[from];
    let second = symbols[from + 1];
    let third = symbols[from + 2];
    if flips / 2048 % 4 == 2 {
        if first == 0x0B9 {
            if second == 0x0AE {
                return third == 0x0B6;
            }
        }
        return false;
    }
    if first == 0x346 {
        if second == 0x351 {
            return third == 0x349;
        }
    }
    false
}

// Whether all symbols from one place to another are fill words: the first three, and each later one equal to the one three before it.
pub(crate) fn are_fill(symbols: &[u16], from: usize, to: usize, flips: u32) -> bool
    requires from_bound { from + 3 ≤ to }
    requires to_in_bounds { to ≤ length symbols.now }
    requires from_value { (to - from) % 3 ≡ 0 }
    ensures sound { result ≡ true → AreFill symbols.now from to flips }
    ensures kept { AreFill symbols.now from to flips → result ≡ true }
{
    if begins_fill(symbols, from, flips) {
        return repeats(symbols, from, to);
    }
    false
}
