// Lists the spans of a recording: a format byte, a depth byte and symbols from standard input, low byte first, at most 32,767 of them; a
// line of text for each span delivered, to standard output. Why the write failed, if it did, to standard error.
#![tactic(auto)]

mod list;

use std::io;

fn main(rt: HostRuntime) -> io::Result<()> {
    let mut input = [0u8; 65536];
    let mut out = [0u8; 65536];
    let mut symbols = [0u16; 32767];
    let mut rows = [0u16; 7680];
    let n = intake::reading::read_full(&mut rt.reader(), &mut input)?;
    let end = list::put_listing(&input[..n], &mut symbols, &mut rows, &mut out);
    if let Err(e) = rt.write_all(&out[..end]) {
        eprintln!(rt; "the listing: {e}")?;
    }
    Ok(())
}
