// Whether a window, and the rows for it, have a known format's lengths.
ghost use Rattle.std.specs.Prelude.{◌≡◌};
ghost use Rattle.span.specs.Inside.Fit.{ready};

use crate::format::Format;

pub fn is_ready(f: Format, symbols: usize, rows: usize) -> bool
    ensures { result ≡ ready f symbols rows }
{
    if crate::format::is_known(f) {
        let lengths = crate::length::span_lengths(f);
        if symbols == lengths.symbols {
            return rows == lengths.samples;
        }
    }
    false
}
