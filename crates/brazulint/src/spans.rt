// One span: its lengths, sending, blanking, reading and judging.
ghost use Rattle.std.specs.Prelude.{◌≡◌};
ghost use Rattle.face.specs.Calls.{fill_blanking·answer, fill_blanking·row, judge·answer, lengths·answer, read·answer, read·rows, send·answer, send·symbols};

use boundary::numbers::{FormatNumbers, SendRequest, format_from};
use span_answers::spans::{LengthsAnswer, ReadAnswer, SendAnswer};

// The lengths of a format: 1.
#[unsafe(no_mangle)]
pub extern "C" fn brazulint4_lengths(format: FormatNumbers) -> LengthsAnswer
    ensures { result ≡ lengths·answer format }
{
    span_answers::spans::lengths_answer(span::length::lengths_of(format_from(format)))
}

// A span, from what is asked for and the samples: 1, 2, 3, 4, 6.
#[unsafe(no_mangle)]
pub extern "C" fn brazulint4_send(
    format: FormatNumbers,
    asked: SendRequest,
    samples: &[u16],
    symbols: &mut [u16],
) -> SendAnswer
    ensures answer { result ≡ send·answer format asked samples.now symbols.old }
    ensures symbols { symbols.new ≡ send·symbols format asked samples.now symbols.old }
{
    let line = asked.line;
    let bytes = asked.content;
    let f = format_from(format);
    let l = boundary::numbers::stream_line_from(line);
    let d = boundary::numbers::disparity_from(asked.positive);
    let content = boundary::numbers::content_from(asked.named, bytes);
    span_answers::spans::send_answer(send::send::send(f, l, d, content, samples, symbols))
}

// A blanking row of all streams: 1, 4.
#[unsafe(no_mangle)]
pub extern "C" fn brazulint4_fill_blanking(format: FormatNumbers, row: &mut [u16]) -> u32
    ensures answer { result ≡ fill_blanking·answer format row.old }
    ensures row { row.new ≡ fill_blanking·row format row.old }
{
    picture_answers::pictures::filled_number(span::blanking::fill_blanking(
        format_from(format),
        row,
    ))
}

// A span into rows: 1, 3, 4, 20 to 26.
#[unsafe(no_mangle)]
pub extern "C" fn brazulint4_read(
    format: FormatNumbers,
    symbols: &[u16],
    rows: &mut [u16],
) -> ReadAnswer
    ensures answer { result ≡ read·answer format symbols.now rows.old }
    ensures rows { rows.new ≡ read·rows format symbols.now rows.old }
{
    span_answers::spans::read_answer(read::read::read(format_from(format), symbols, rows))
}

// A span without rows: 1, 3, 20 to 26.
#[unsafe(no_mangle)]
pub extern "C" fn brazulint4_judge(format: FormatNumbers, symbols: &[u16]) -> ReadAnswer
    ensures { result ≡ judge·answer format symbols.now }
{
    span_answers::spans::read_answer(read::read::judge(format_from(format), symbols))
}
