// Generates a recording of the test picture. From standard input: a format byte, a depth byte, then the first stream line and the number of
// spans, two bytes each, low byte first. To standard output: the format and depth bytes and then symbols, low byte first, as `list_spans`
// reads them. To standard error: a refusal, or why a write failed.
#![tactic(auto)]

mod bytes;
mod left;
mod parameters;
mod start;
mod write;

use std::io;

fn write_refusal(to: &impl Print, input: &[u8]) -> io::Result<()> {
    let mut out = [0u8; 10];
    let end = start::put_refusal(input, &mut out);
    to.write_all(&out[..end])
}

// The start, and then span after span.
fn write_recording(rt: &(impl Print + Eprint), input: &[u8]) -> io::Result<()> {
    let mut out = [0u8; 2];
    let start = start::put_start(input, &mut out);
    let end = start.end;
    let left = start.left;
    if let Err(e) = rt.write_all(&out[..end]) {
        return eprintln!(rt; "the recording: {e}");
    }
    match write::write_left(rt, left) {
        Ok(_) => Ok(()),
        Err(e) => eprintln!(rt; "the recording: {e}"),
    }
}

fn main(rt: HostRuntime) -> io::Result<()> {
    let mut input = [0u8; 6];
    let n = intake::reading::read_full(&mut rt.reader(), &mut input)?;
    write_refusal(&rt.stderr(), &input[..n])?;
    write_recording(&rt, &input[..n])
}
