// The timing reference code (004, 6.2).
ghost use Rattle.std.specs.Prelude.{◌≡◌};
ghost use Rattle.word.specs.Timing.{timing};

// XYZ, the fourth word of a timing code, for V and H.
pub fn timing_word(v: bool, h: bool) -> u16
    ensures { result ≡ timing v h }
{
    if v {
        if h {
            return 0xB60;
        }
        return 0xAB0;
    }
    if h {
        return 0x9D0;
    }
    0x800
}
