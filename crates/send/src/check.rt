// The check of samples, before anything is sent.
ghost use Rattle.std.specs.Prelude.{◌≡◌, ◌≤◌, ◌<◌, ◌==◌, length, MatchOption};
ghost use Rattle.ground.specs.Range.{within};
ghost use Rattle.request.specs.Inside.Check.{all_within, first_outside};

use ground::range::within;

// 0 if a sample is within the bounds, else how far above them it is. One below the bounds counts as far above, since the difference wraps.
// So the loop is one wrapping and one saturating difference, of eight samples at a time.
fn outside(low: u16, high: u16, x: u16) -> u16
    requires { low ≤ high }
    ensures { (result == 0) ≡ within low high x }
{
    x.wrapping_sub(low).saturating_sub(high - low)
}

// Whether none is outside. No early exit, so that the loop takes many at a time.
fn none_outside(low: u16, high: u16, samples: &[u16]) -> bool
    requires { low ≤ high }
    ensures { result ≡ all_within low high samples.now }
{
    let mut found = 0;
    for x in samples {
        found |= outside(low, high, *x);
    }
    found == 0
}

// The lowest index of a sample outside the bounds, if there is one.
pub(crate) fn first_outside(low: u16, high: u16, samples: &[u16]) -> Option<usize>
    requires { low ≤ high }
    ensures { MatchOption result (length samples.now ≡ first_outside low high samples.now) (λ i. (i < length samples.now) × (i ≡ first_outside low high samples.now)) }
{
    if none_outside(low, high, samples) {
        return None;
    }
    samples.iter().position(|x| !within(low, high, *x))
}
