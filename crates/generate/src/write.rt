// The spans that are left, written one after another. No contract can say what is written: that of `put_next` says what each piece is, and
// the answer tells by the disparity that the last of them was reached.
ghost use Rattle.std.specs.Prelude.{◌≡◌, ◌*◌, length};
ghost use Rattle.span.specs.Format.{shape_of, samples_in, symbols_in};
ghost use Rattle.generate.specs.Pieces.{Ready, WrittenTold};

use crate::left::Left;
use std::io;
use symbol::disparity::Disparity;

// A piece for each span; it stops when a write fails. Answers the disparity after the last.
fn write_pieces(
    to: &impl Print,
    left: Left,
    samples: &mut [u16],
    symbols: &mut [u16],
    out: &mut [u8],
) -> io::Result<Disparity>
    requires ready { Ready left }
    requires samples_len { length samples.old ≡ samples_in (shape_of left.format) }
    requires symbols_len { length symbols.old ≡ symbols_in (shape_of left.format) }
    requires out_len { length out.old ≡ 2 * symbols_in (shape_of left.format) }
    ensures { WrittenTold left result }
{
    let mut s = left;
    // No `for`: the count is part of what is left, and `put_next` lessens it, where its law stands.
    while 0 < s.count {
        s = crate::left::put_next(s, samples, symbols, out);
        to.write_all(out)?;
    }
    Ok(s.disparity)
}

pub(crate) fn write_left(to: &impl Print, left: Left) -> io::Result<Disparity>
    requires { Ready left }
    ensures { WrittenTold left result }
{
    let lengths = span::length::span_lengths(left.format);
    let m = lengths.samples;
    let n = lengths.symbols;
    let k = 2 * n;
    let mut samples = [0u16; 7680];
    let mut symbols = [0u16; 19008];
    let mut out = [0u8; 38016];
    write_pieces(
        to,
        left,
        &mut samples[..m],
        &mut symbols[..n],
        &mut out[..k],
    )
}
