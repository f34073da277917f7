ghost use Rattle.std.specs.Prelude.{◌≡◌};
ghost use Rattle.ground.specs.Range.{within as in_range};

// Whether n is in the range from low to high, both included.
pub fn within(low: u16, high: u16, n: u16) -> bool
    ensures { result ≡ in_range low high n }
{
    if n < low {
        return false;
    }
    n <= high
}
