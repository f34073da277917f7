// What is left of a recording, and the next span of it.
ghost use Rattle.std.specs.Prelude.{◌≡◌, ◌*◌, ◌<◌, length};
ghost use Rattle.span.specs.Format.{shape_of, samples_in, symbols_in};
ghost use Rattle.generate.specs.Pieces.{Ready};
ghost use Rattle.generate.specs.Inside.Pieces.{span_bytes, next_left};

use line::stream::StreamLine;
use span::format::Format;
use symbol::disparity::Disparity;

// A number of spans, the first on this line and from this disparity.
#[derive(Drop)]
pub(crate) struct Left {
    pub(crate) format: Format,
    pub(crate) line: StreamLine,
    pub(crate) disparity: Disparity,
    pub(crate) count: usize,
}

// The next span: its bytes fill the lent buffer, and what is left after it is returned. The buffers of samples and symbols are scratch.
pub(crate) fn put_next(s: Left, samples: &mut [u16], symbols: &mut [u16], out: &mut [u8]) -> Left
    requires ready { Ready s }
    requires count_nonzero { 0 < s.count }
    requires samples_len { length samples.old ≡ samples_in (shape_of s.format) }
    requires symbols_len { length symbols.old ≡ symbols_in (shape_of s.format) }
    requires out_len { length out.old ≡ 2 * symbols_in (shape_of s.format) }
    ensures next { result ≡ next_left s }
    ensures bytes { out.new ≡ span_bytes s }
{
    let format = s.format;
    let line = s.line;
    let d = s.disparity;
    // A span that is left may be sent: neither call refuses it.
    let _ = test_picture::samples::put_samples(format, line, samples);
    let disparity = send::send::send(format, line, d, None, samples, symbols).unwrap_or(d);
    crate::bytes::put_bytes(symbols, out);
    let after = line::stream::line_after(line);
    Left {
        format,
        line: after,
        disparity,
        count: s.count - 1,
    }
}
