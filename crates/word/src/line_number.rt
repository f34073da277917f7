// The two words of a line number (004, 6.3).
ghost use Rattle.std.specs.Prelude.{◌≡◌};
ghost use Rattle.line.specs.Stream.{line_after};
ghost use Rattle.word.specs.LineNumber.{line_words, paper_numbered, numbered_of, are_words_of, paper_named, named_of};

use line::stream::StreamLine;

#[derive(Clone, Copy)]
pub struct LineWords {
    pub ln0: u16,
    pub ln1: u16,
}

// 2: not 1 to 1125.
#[derive(Clone, Copy, Debug, PartialEq, Eq)]
pub struct NoLine;

#[derive(Clone, Copy, Debug, PartialEq, Eq)]
pub enum NameError {
    // 7: no word has more than twelve bits.
    Above4095,
    // 22: the words are not those of any line.
    Nameless,
}

// The two words of a number; eleven of its bits count. Only of a line does the crate hand them out.
fn words_of(l: StreamLine) -> LineWords
    ensures { result ≡ line_words l.0 }
{
    let n = line::stream::number_of(l);
    LineWords {
        ln0: crate::guard::guarded(n % 128 * 16),
        ln1: crate::guard::guarded(n / 128 % 16 * 16),
    }
}

// The words of the line after: a line whatever number is given.
pub fn words_after(l: StreamLine) -> LineWords
    ensures { result ≡ line_words (line_after l.0) }
{
    words_of(line::stream::line_after(l))
}

// The words sent for a stream line.
pub fn line_words(l: StreamLine) -> Result<LineWords, NoLine>
    ensures { paper_numbered result ≡ numbered_of l.0 }
{
    if line::stream::is_line(l) {
        return Ok(words_of(l));
    }
    Err(NoLine)
}

// Whether a stream has the line, and both words are what is sent for it.
fn are_words_of(given: StreamLine, ln0: u16, ln1: u16) -> bool
    ensures { result ≡ are_words_of ln0 ln1 given.0 }
{
    if line::stream::is_line(given) {
        let sent = words_of(given);
        if sent.ln0 == ln0 {
            return sent.ln1 == ln1;
        }
    }
    false
}

// The line that two words name: the only one for which exactly these words are sent. This rules out the reading by which a recital was
// lost, which joins the number's bits without checking the rest: from LN0 of line 128 (800) and LN1 of line 127 (800) it makes line 0.
// Here 800 800 names no line, and neither do words with a wrong guard bit, with a reserved bit set, or with a number above 1125. Both
// words are from one stream; that all streams agree is for the span reader to check.
pub fn read_line_words(ln0: u16, ln1: u16) -> Result<StreamLine, NameError>
    ensures { paper_named result ≡ named_of ln0 ln1 }
{
    if 4095 < ln0 {
        return Err(NameError::Above4095);
    }
    if 4095 < ln1 {
        return Err(NameError::Above4095);
    }
    let l = line::stream::stream_line(ln0 / 16 % 128 + ln1 / 16 % 16 * 128);
    if are_words_of(l, ln0, ln1) {
        return Ok(l);
    }
    Err(NameError::Nameless)
}
