// Lists the repair of timing words: words from standard input, low byte first, up to 64 KiB; a line of text for each, to standard
// output. Why the write failed, if it did, to standard error.
#![tactic(auto)]

mod listing;

use std::io;

fn main(rt: HostRuntime) -> io::Result<()> {
    let mut input = [0u8; 65536];
    let mut out = listing::room();
    let n = intake::reading::read_full(&mut rt.reader(), &mut input)?;
    let end = listing::put_listing(&input[..n], &mut out);
    if let Err(e) = rt.write_all(&out[..end]) {
        eprintln!(rt; "the listing: {e}")?;
    }
    Ok(())
}
