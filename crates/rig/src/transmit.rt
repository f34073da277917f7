// Sending the test picture, stream line after stream line.
ghost use Rattle.std.specs.Prelude.{◌≡◌, ◌≤◌, length};
ghost use Rattle.span.specs.Span.{span_symbols, span_after};
ghost use Rattle.reception.specs.Link.{link};
ghost use Rattle.rig.specs.Sending.{request_on, after_from};
ghost use Rattle.rig.specs.Inside.Sending.{sent_from};

use line::stream::StreamLine;
use symbol::disparity::Disparity;

// The span of a line. Its samples go into words lent for them.
fn send_line(l: StreamLine, d: Disparity, words: &mut [u16], symbols: &mut [u16]) -> Disparity
    requires le_l { 1 ≤ l.0 }
    requires l_bound { l.0 ≤ 1125 }
    requires words_len { length words.old ≡ 7680 }
    requires symbols_len { length symbols.old ≡ 19008 }
    ensures after { result ≡ span_after d link (request_on l.0) }
    ensures symbols { symbols.new ≡ span_symbols d link (request_on l.0) }
{
    let f = reception::link::link();
    // Neither call refuses a line of the frame.
    let _ = test_picture::samples::put_samples(f, l, words);
    send::send::send(f, l, d, None, words, symbols).unwrap_or(d)
}

// The spans of five lines, the first of which is given.
pub(crate) fn send_piece(
    first: StreamLine,
    before: Disparity,
    words: &mut [u16],
    symbols: &mut [u16],
) -> Disparity
    requires le_first { 1 ≤ first.0 }
    requires first_bound { first.0 ≤ 1121 }
    requires words_len { length words.old ≡ 7680 }
    requires symbols_len { length symbols.old ≡ 95040 }
    ensures after { result ≡ after_from before first.0 5 }
    ensures symbols { symbols.new ≡ sent_from before first.0 5 }
{
    let mut l = first;
    let mut d = before;
    for k in 0..5 {
        let at = 19008 * k;
        let end = at + 19008;
        d = send_line(l, d, words, &mut symbols[at..end]);
        l = line::stream::line_after(l);
    }
    d
}
