// The text printed at the end, from flags that say which stream lines were heard.
ghost use Rattle.std.specs.Prelude.{◌≡◌, ◌+◌, ◌≤◌, length};
ghost use Rattle.std.proofs.lemmas.List.Edits.{sets};
ghost use Rattle.io.specs.Counts.{IsPrefixLen};
ghost use Rattle.reception.specs.Summary.{delivered, first_lost, last_lost, item, blanking_text, lines_text, carried_text, lost_item, which, summary, paper_summarised, summarised_of, summary_put, CountsIn};

use line::picture::PictureLine;
use line::stream::StreamLine;

// Why there is no summary.
#[derive(Clone, Copy, Debug, PartialEq, Eq)]
pub enum SummaryError {
    // 3: these are not the flags of a frame's 1,125 lines.
    WrongInput,
    // 4: there is no room for 256 bytes.
    WrongOutput,
}

// The lines of a frame.
const LINES: usize = 1125;

// How many lines were delivered.
fn count(heard: &[u16]) -> usize
    ensures value { result ≡ delivered heard.now }
    ensures upper_bound { result ≤ length heard.now }
{
    heard.iter().filter(|flag| **flag != 0).count()
}

// The first lost line; 1 if none is lost.
fn first_lost(heard: &[u16]) -> usize
    requires { length heard.now ≡ 1125 }
    ensures value { result ≡ first_lost heard.now }
    ensures upper_bound { result ≤ 1125 }
{
    heard.iter().position(|flag| *flag == 0).unwrap_or(0) + 1
}

// The last lost line; 1 if none is lost. It differs from the first in the search, and not in a value.
fn last_lost(heard: &[u16]) -> usize
    requires { length heard.now ≡ 1125 }
    ensures value { result ≡ last_lost heard.now }
    ensures upper_bound { result ≤ 1125 }
{
    heard.iter().rposition(|flag| *flag == 0).unwrap_or(0) + 1
}

// A count, on a line of the text.
fn put_item(label: &[u8], n: usize, out: &mut [u8], at: usize) -> usize
    requires label_len_bound { length label.now ≤ 23 }
    requires n_bound { n ≤ 1125 }
    requires at_in_bounds { at + 29 ≤ length out.old }
    ensures end { result ≡ at + length (item label.now n) }
    ensures most { result ≤ at + 29 }
    ensures written { out.new ≡ sets out.old at (item label.now n) }
{
    let a = text::put::put_text(label, out, at);
    let b = text::number::put_decimal(n as u64, out, a);
    text::put::put_text(b"\n", out, b)
}

// Two picture lines, at the end of a line of the text.
fn put_lines(odd: PictureLine, even: PictureLine, out: &mut [u8], at: usize) -> usize
    requires { at + 33 ≤ length out.old }
    ensures end { result ≡ at + length (lines_text odd.0 even.0) }
    ensures most { result ≤ at + 33 }
    ensures written { out.new ≡ sets out.old at (lines_text odd.0 even.0) }
{
    let a = text::put::put_text(b" (picture lines ", out, at);
    let b = text::number::put_decimal(line::picture::number_of(odd) as u64, out, a);
    let c = text::put::put_text(b" and ", out, b);
    let d = text::number::put_decimal(line::picture::number_of(even) as u64, out, c);
    text::put::put_text(b")\n", out, d)
}

// No picture line, at the end of a line of the text.
fn put_blanking(out: &mut [u8], at: usize) -> usize
    requires { at + 33 ≤ length out.old }
    ensures end { result ≡ at + length blanking_text }
    ensures written { out.new ≡ sets out.old at blanking_text }
{
    text::put::put_text(b" (frame blanking)\n", out, at)
}

// The picture lines that a stream line carries, for images 1 and 2 and for images 3 and 4, or that it carries none.
fn put_carried(l: StreamLine, out: &mut [u8], at: usize) -> usize
    requires { at + 33 ≤ length out.old }
    ensures end { result ≡ at + length (carried_text l.0) }
    ensures most { result ≤ at + 33 }
    ensures written { out.new ≡ sets out.old at (carried_text l.0) }
{
    let Some(odd) = picture::place::picture_line_on(l, 1) else {
        return put_blanking(out, at);
    };
    let Some(even) = picture::place::picture_line_on(l, 3) else {
        return put_blanking(out, at);
    };
    put_lines(odd, even, out, at)
}

// A stream line that was lost, on a line of the text.
fn put_lost(label: &[u8], n: usize, out: &mut [u8], at: usize) -> usize
    requires label_len_bound { length label.now ≤ 23 }
    requires n_bound { n ≤ 1125 }
    requires at_in_bounds { at + 61 ≤ length out.old }
    ensures end { result ≡ at + length (lost_item label.now n) }
    ensures most { result ≤ at + 61 }
    ensures written { out.new ≡ sets out.old at (lost_item label.now n) }
{
    let a = text::put::put_text(label, out, at);
    let b = text::number::put_decimal(n as u64, out, a);
    put_carried(line::stream::stream_line(n as u16), out, b)
}

// The lines of text that say which were lost.
fn put_which(heard: &[u16], out: &mut [u8], at: usize) -> usize
    requires heard_len { length heard.now ≡ 1125 }
    requires at_in_bounds { at + 122 ≤ length out.old }
    ensures end { result ≡ at + length (which heard.now) }
    ensures most { result ≤ at + 122 }
    ensures written { out.new ≡ sets out.old at (which heard.now) }
{
    let a = put_lost(b"first stream line lost ", first_lost(heard), out, at);
    put_lost(b"last stream line lost ", last_lost(heard), out, a)
}

// All of it.
fn put_all(heard: &[u16], out: &mut [u8]) -> usize
    requires heard_len { length heard.now ≡ 1125 }
    requires in_bounds { 256 ≤ length out.old }
    ensures counts { IsPrefixLen result out.new }
    ensures end { result ≡ length (summary heard.now) }
    ensures written { out.new ≡ sets out.old 0 (summary heard.now) }
{
    let n = count(heard);
    let lost = heard.len() - n;
    let a = put_item(b"stream lines sent ", heard.len(), out, 0);
    let b = put_item(b"stream lines delivered ", n, out, a);
    let c = put_item(b"stream lines lost ", lost, out, b);
    if lost == 0 {
        return c;
    }
    put_which(heard, out, c)
}

// The summary of a frame's flags, from the start of a lent buffer on; answers how many bytes were put. A refusal leaves the buffer.
pub fn put_summary(heard: &[u16], out: &mut [u8]) -> Result<usize, SummaryError>
    ensures counts { CountsIn result out.new }
    ensures answer { paper_summarised result ≡ summarised_of heard.now (length out.old) }
    ensures written { out.new ≡ summary_put heard.now out.old }
{
    if heard.len() != LINES {
        return Err(SummaryError::WrongInput);
    }
    if out.len() < 256 {
        return Err(SummaryError::WrongOutput);
    }
    Ok(put_all(heard, out))
}
