// Samples and the words that carry them (004, 6.1).
ghost use Rattle.std.specs.Prelude.{◌≡◌};
ghost use Rattle.packing.specs.Sample.{allowed_word};

// Whether a received word may be the word of a sample at a depth.
pub fn allowed_word(depth: u8, w: u16) -> bool
    ensures { result ≡ allowed_word depth w }
{
    if ground::range::within(16, 4079, w) {
        if depth == 10 {
            return w % 4 == 0;
        }
        return true;
    }
    false
}
