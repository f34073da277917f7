// What the calls on single words and on a run of words answer. Structs of numbers, since C has no Option and no Result.
ghost use Rattle.std.specs.Prelude.{◌≡◌};
ghost use Rattle.ground.specs.Answer.{refused};
ghost use Rattle.word.specs.LineNumber.{paper_numbered, paper_named};
ghost use Rattle.word.specs.Repair.{paper_repair};
ghost use Rattle.crcc.specs.Crcc.{paper_crcc};
ghost use Rattle.word_answers.specs.Words.{line_words_answer_of, read_line_words_answer_of, bit_number, repair_answer_of, crcc_answer_of};

use boundary::numbers::StreamLineNumber;
use crcc::crcc::Above4095;
use line::stream::StreamLine;
use word::line_number::{LineWords, NameError, NoLine};
use word::repair::{RepairError, Repaired};

#[repr(C)]
#[derive(Drop)]
pub struct LineWordsAnswer {
    pub number: u32,
    pub ln0: u32,
    pub ln1: u32,
}

#[repr(C)]
#[derive(Drop)]
pub struct ReadLineWordsAnswer {
    pub number: u32,
    pub line: StreamLineNumber,
}

#[repr(C)]
#[derive(Drop)]
pub struct RepairAnswer {
    pub number: u32,
    pub word: u32,
    pub distance: u32,
    pub bit: u32,
}

#[repr(C)]
#[derive(Drop)]
pub struct CrccAnswer {
    pub number: u32,
    pub crc: u32,
    pub crcc0: u32,
    pub crcc1: u32,
}

fn nameless(number: u32) -> ReadLineWordsAnswer
    ensures { result ≡ read_line_words_answer_of (refused number 0) }
{
    ReadLineWordsAnswer {
        number,
        line: StreamLineNumber { number: 0 },
    }
}

// 12 where nothing was wrong: 0 is a bit, the lowest.
fn bit_number(b: Option<u8>) -> u32
    ensures { result ≡ bit_number b }
{
    match b {
        None => 12,
        Some(k) => k as u32,
    }
}

fn repaired(number: u32, word: u16, distance: u8, bit: Option<u8>) -> RepairAnswer
    ensures { result ≡ record { number = number; word = word; distance = distance; bit = bit_number bit } }
{
    RepairAnswer {
        number,
        word: word as u32,
        distance: distance as u32,
        bit: bit_number(bit),
    }
}

pub fn line_words_answer(r: Result<LineWords, NoLine>) -> LineWordsAnswer
    ensures { result ≡ line_words_answer_of (paper_numbered r) }
{
    match r {
        Ok(w) => LineWordsAnswer {
            number: 0,
            ln0: w.ln0 as u32,
            ln1: w.ln1 as u32,
        },
        Err(NoLine) => LineWordsAnswer {
            number: 2,
            ln0: 0,
            ln1: 0,
        },
    }
}

pub fn read_line_words_answer(r: Result<StreamLine, NameError>) -> ReadLineWordsAnswer
    ensures { result ≡ read_line_words_answer_of (paper_named r) }
{
    match r {
        Ok(l) => ReadLineWordsAnswer {
            number: 0,
            line: boundary::numbers::stream_line_number(l),
        },
        Err(NameError::Above4095) => nameless(7),
        Err(NameError::Nameless) => nameless(22),
    }
}

pub fn repair_answer(r: Result<Repaired, RepairError>) -> RepairAnswer
    ensures { result ≡ repair_answer_of (paper_repair r) }
{
    match r {
        Ok(w) => repaired(0, w.word, w.distance, w.bit),
        Err(RepairError::Above4095) => repaired(7, 0, 0, None),
        Err(RepairError::BeyondRepair) => repaired(8, 0, 0, None),
    }
}

// The register and the words that carry it.
pub fn crcc_answer(r: Result<u32, Above4095>) -> CrccAnswer
    ensures { result ≡ crcc_answer_of (paper_crcc r) }
{
    match r {
        Ok(c) => {
            let words = crcc::crcc::crcc_words(c);
            CrccAnswer {
                number: 0,
                crc: c,
                crcc0: words.crcc0 as u32,
                crcc1: words.crcc1 as u32,
            }
        },
        Err(Above4095) => CrccAnswer {
            number: 7,
            crc: 0,
            crcc0: 0,
            crcc1: 0,
        },
    }
}
