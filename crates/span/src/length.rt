// The lengths of a span.
ghost use Rattle.std.specs.Prelude.{◌≡◌};
ghost use Rattle.span.specs.Format.{shape_of, samples_in, symbols_in};
ghost use Rattle.span.specs.Length.{paper_lengths, lengths_of};

use crate::format::{Format, UnknownFormat};

#[derive(Clone, Copy, Debug, PartialEq, Eq)]
pub struct SpanLengths {
    pub samples: usize,
    pub symbols: usize,
}

// The lengths of a format's spans; zeros for an unknown one.
pub fn span_lengths(f: Format) -> SpanLengths
    ensures { result ≡ record { samples = samples_in (shape_of f); symbols = symbols_in (shape_of f) } }
{
    let p = crate::format::shape_of(f);
    SpanLengths {
        samples: 3840 * p.stream_pairs,
        symbols: 3 * (p.stream_pairs * (crate::layout::ANCILLARY + p.ancillary) + p.fill_pairs),
    }
}

// How many samples a span of a format takes, and how many symbols it has.
pub fn lengths_of(f: Format) -> Result<SpanLengths, UnknownFormat>
    ensures { paper_lengths result ≡ lengths_of f }
{
    if crate::format::is_known(f) {
        return Ok(span_lengths(f));
    }
    Err(UnknownFormat)
}
