// What is asked of the test generator: a format byte, a depth byte, then the first line and the number of spans, two bytes each, low byte
// first.
ghost use Rattle.std.specs.Prelude.{◌≡◌, true};
ghost use Rattle.line.specs.Stream.{is_line};
ghost use Rattle.span.specs.Format.{is_known};
ghost use Rattle.generate.specs.Parameters.{wanted_format, first_line_in, wanted_of};
ghost use Rattle.generate.specs.Inside.Parameters.{paper_wanted};

use line::stream::StreamLine;
use span::format::Format;

#[derive(Drop)]
pub(crate) struct Parameters {
    pub(crate) format: Format,
    pub(crate) first: StreamLine,
    pub(crate) count: usize,
}

// Why a recording is refused.
#[derive(Clone, Copy, Debug, PartialEq, Eq)]
pub(crate) enum WantError {
    // 1
    UnknownFormat,
    // 2
    NoLine,
    // 3
    WrongInput,
}

// Format and line are valid: the number of spans is still to be checked.
fn counted(format: Format, first: StreamLine, input: &[u8]) -> Result<Parameters, WantError>
    requires format_value { format ≡ wanted_format input.now }
    requires first_value { first.0 ≡ first_line_in input.now }
    requires input_value { is_known (wanted_format input.now) ≡ true }
    requires input_value_2 { is_line (first_line_in input.now) ≡ true }
    ensures { paper_wanted result ≡ wanted_of input.now }
{
    if input.len() < 6 {
        return Err(WantError::WrongInput);
    }
    let count = text::words::word_of(input[4], input[5]) as usize;
    let symbols = span::length::span_lengths(format).symbols;
    if recording::limit::limit() < count * symbols {
        return Err(WantError::WrongInput);
    }
    Ok(Parameters {
        format,
        first,
        count,
    })
}

// A missing byte is not a format or a depth, and a line with a byte missing is not a line.
pub(crate) fn wanted_in(input: &[u8]) -> Result<Parameters, WantError>
    ensures { paper_wanted result ≡ wanted_of input.now }
{
    if input.len() < 2 {
        return Err(WantError::UnknownFormat);
    }
    let format = span::format::plain_format(input[0], input[1]);
    if !span::format::is_known(format) {
        return Err(WantError::UnknownFormat);
    }
    if input.len() < 4 {
        return Err(WantError::NoLine);
    }
    let first = line::stream::stream_line(text::words::word_of(input[2], input[3]));
    if !line::stream::is_line(first) {
        return Err(WantError::NoLine);
    }
    counted(format, first, input)
}
