// The words of a stream.
ghost use Rattle.std.specs.Prelude.{◌≡◌};
ghost use Rattle.face.specs.Calls.{crcc·answer, line_words·answer, read_line_words·answer, repair·answer};

use boundary::numbers::StreamLineNumber;
use word_answers::words::{CrccAnswer, LineWordsAnswer, ReadLineWordsAnswer, RepairAnswer};

// The words of a stream line: 2.
#[unsafe(no_mangle)]
pub extern "C" fn brazulint4_line_words(line: StreamLineNumber) -> LineWordsAnswer
    ensures { result ≡ line_words·answer line }
{
    let l = boundary::numbers::stream_line_from(line);
    word_answers::words::line_words_answer(word::line_number::line_words(l))
}

// The line that two words name: 7, 22.
#[unsafe(no_mangle)]
pub extern "C" fn brazulint4_read_line_words(ln0: u32, ln1: u32) -> ReadLineWordsAnswer
    ensures { result ≡ read_line_words·answer ln0 ln1 }
{
    let a = boundary::numbers::at_most_65535(ln0);
    let b = boundary::numbers::at_most_65535(ln1);
    word_answers::words::read_line_words_answer(word::line_number::read_line_words(a, b))
}

// The repair of a timing word: 7, 8.
#[unsafe(no_mangle)]
pub extern "C" fn brazulint4_repair(word: u32) -> RepairAnswer
    ensures { result ≡ repair·answer word }
{
    let w = boundary::numbers::at_most_65535(word);
    word_answers::words::repair_answer(word::repair::repair_timing_word(w))
}

// The CRCC of a run of words: 7.
#[unsafe(no_mangle)]
pub extern "C" fn brazulint4_crcc(words: &[u16]) -> CrccAnswer
    ensures { result ≡ crcc·answer words.now }
{
    word_answers::words::crcc_answer(crcc::crcc::crcc_of(words))
}
