// The samples that a line may carry, for loops that check and send them.
ghost use Rattle.std.specs.Prelude.{◌≡◌};
ghost use Rattle.span.specs.Inside.Sample.{bounds_of};

use crate::format::Format;
use line::stream::StreamLine;

// The lowest and the highest sample allowed, and the factor that turns a sample into the word sent.
#[derive(Drop)]
pub struct Bounds {
    pub low: u16,
    pub high: u16,
    pub factor: u16,
}

fn between(low: u16, high: u16, factor: u16) -> Bounds
    ensures { result ≡ record { low = low; high = high; factor = factor } }
{
    Bounds { low, high, factor }
}

// The bounds of a line: by the depth on an active line; only the blanking word, unchanged, on any other.
pub fn bounds_of(f: Format, l: StreamLine) -> Bounds
    ensures { result ≡ bounds_of f l.0 }
{
    if line::stream::is_active(l) {
        if crate::format::depth_of(f) == 10 {
            return between(4, 1019, 4);
        }
        return between(16, 4079, 1);
    }
    let blank = crate::blanking::blank_word(f);
    between(blank, blank, 1)
}
