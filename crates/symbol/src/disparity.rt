ghost use Rattle.std.specs.Prelude.{◌≡◌};
ghost use Rattle.symbol.specs.Disparity.{fresh};
ghost use Rattle.symbol.specs.Inside.Disparity.{flipped_if};

// The running disparity has two values, and no call can be given a third.
#[derive(Clone, Copy, Debug, PartialEq, Eq)]
pub enum Disparity {
    Negative,
    Positive,
}

// The disparity before a fresh signal.
pub fn before_fresh_signal() -> Disparity
    ensures { result ≡ fresh }
{
    Disparity::Negative
}

// The opposite of d if it flips, else d.
pub fn flipped_if(flips: bool, d: Disparity) -> Disparity
    ensures { result ≡ flipped_if flips d }
{
    if flips {
        return match d {
            Disparity::Negative => Disparity::Positive,
            Disparity::Positive => Disparity::Negative,
        };
    }
    d
}
