// The words sent where there is no picture, and a row of them for the choice of row (document 01, "Sending").
ghost use Rattle.std.specs.Prelude.{◌≡◌};
ghost use Rattle.span.specs.Sample.{blank_word};
ghost use Rattle.span.specs.Span.{fill_word};
ghost use Rattle.span.specs.Blanking.{paper_filled, fill_of, filled_row};

use crate::format::Format;

#[derive(Clone, Copy, Debug, PartialEq, Eq)]
pub enum FillError {
    // 1
    UnknownFormat,
    // 4
    WrongOutput,
}

// The blanking word of a link's streams (004, 6.8), at both depths.
pub fn blank_word(f: Format) -> u16
    ensures { result ≡ blank_word f }
{
    if crate::format::is_difference(f) {
        return 0x800;
    }
    0x100
}

// The fill word (004, 7.1), whatever the link carries.
pub fn fill_word() -> u16
    ensures { result ≡ fill_word }
{
    0x100
}

// The blanking samples of all streams of a format, stream by stream.
pub fn fill_blanking(f: Format, row: &mut [u16]) -> Result<(), FillError>
    ensures answer { paper_filled result ≡ fill_of f row.old }
    ensures row { row.new ≡ filled_row f row.old }
{
    if crate::format::is_known(f) {
        let lengths = crate::length::span_lengths(f);
        if row.len() != lengths.samples {
            return Err(FillError::WrongOutput);
        }
        row.fill(blank_word(f));
        return Ok(());
    }
    Err(FillError::UnknownFormat)
}
