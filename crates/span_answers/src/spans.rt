// What the calls on one span answer. Structs of numbers, since C has no Option and no Result.
ghost use Rattle.std.specs.Prelude.{◌≡◌};
ghost use Rattle.ground.specs.Answer.{refused};
ghost use Rattle.span.specs.Length.{paper_lengths};
ghost use Rattle.request.specs.Send.{paper_sent};
ghost use Rattle.read_test21_26.specs.Tests.{number_of};
ghost use Rattle.read.specs.Call.{paper_read};
ghost use Rattle.span_answers.specs.Spans.{bit_counts_of, values_of, no_values as nothing, lengths_answer_of, send_answer_of, read_answer_of};

use boundary::numbers::StreamLineNumber;
use read::answer::ReadError;
use read_test21_26::service::Test;
use request::sent::SendError;
use span::content::ContentBytes;
use span::format::UnknownFormat;
use span::length::SpanLengths;
use symbol::disparity::Disparity;
use window::delivery::Delivery;

#[repr(C)]
#[derive(Drop)]
pub struct LengthsAnswer {
    pub number: u32,
    pub samples: usize,
    pub symbols: usize,
}

#[repr(C)]
#[derive(Drop)]
pub struct SendAnswer {
    pub number: u32,
    pub positive_after: bool,
    pub place: u64,
}

// What a span says about itself.
#[repr(C)]
#[derive(Drop)]
pub struct Values {
    pub line: StreamLineNumber,
    pub content: ContentBytes,
    pub positive_before: bool,
    pub positive_after: bool,
    pub repairs: u32,
    // How often each bit of a timing word was repaired, b0, the lowest, first.
    pub repairs_of_bit: [u32; 12],
}

#[repr(C)]
#[derive(Drop)]
pub struct ReadAnswer {
    pub number: u32,
    pub place: u64,
    pub delivery: Values,
}

fn bit_counts(c: [u8; 12]) -> [u32; 12]
    ensures { result ≡ bit_counts_of c }
{
    c.map(u32::from)
}

pub fn values_of(d: Delivery) -> Values
    ensures { result ≡ values_of d }
{
    Values {
        line: boundary::numbers::stream_line_number(d.line),
        content: d.content,
        positive_before: boundary::numbers::is_positive(d.before),
        positive_after: boundary::numbers::is_positive(d.after),
        repairs: d.repairs.count as u32,
        repairs_of_bit: bit_counts(d.repairs.of_bit),
    }
}

// If there is no span.
pub fn no_values() -> Values
    ensures { result ≡ nothing }
{
    let content = ContentBytes {
        sav1: 0,
        sav2: 0,
        eav1: 0,
        eav2: 0,
    };
    Values {
        line: StreamLineNumber { number: 0 },
        content,
        positive_before: false,
        positive_after: false,
        repairs: 0,
        repairs_of_bit: [0; 12],
    }
}

pub fn lengths_answer(r: Result<SpanLengths, UnknownFormat>) -> LengthsAnswer
    ensures { result ≡ lengths_answer_of (paper_lengths r) }
{
    match r {
        Ok(l) => LengthsAnswer {
            number: 0,
            samples: l.samples,
            symbols: l.symbols,
        },
        Err(UnknownFormat) => LengthsAnswer {
            number: 1,
            samples: 0,
            symbols: 0,
        },
    }
}

fn sent(number: u32, positive: bool, place: usize) -> SendAnswer
    ensures { result ≡ record { number = number; positive_after = positive; place = place } }
{
    SendAnswer {
        number,
        positive_after: positive,
        place: place as u64,
    }
}

pub fn send_answer(r: Result<Disparity, SendError>) -> SendAnswer
    ensures { result ≡ send_answer_of (paper_sent r) }
{
    match r {
        Ok(d) => sent(0, boundary::numbers::is_positive(d), 0),
        Err(SendError::UnknownFormat) => sent(1, false, 0),
        Err(SendError::NoLine) => sent(2, false, 0),
        Err(SendError::WrongInput) => sent(3, false, 0),
        Err(SendError::WrongOutput) => sent(4, false, 0),
        Err(SendError::NotAllowed(place)) => sent(6, false, place),
    }
}

fn delivered(d: Delivery) -> ReadAnswer
    ensures { result ≡ record { number = 0; place = 0; delivery = values_of d } }
{
    ReadAnswer {
        number: 0,
        place: 0,
        delivery: values_of(d),
    }
}

fn read_refused(number: u32, place: usize) -> ReadAnswer
    ensures { result ≡ read_answer_of (refused number place) }
{
    ReadAnswer {
        number,
        place: place as u64,
        delivery: no_values(),
    }
}

// The number of a test of a span's words, 21 to 26.
fn test_number(test: Test) -> u32
    ensures { result ≡ number_of test }
{
    match test {
        Test::Timing => 21,
        Test::Line => 22,
        Test::V => 23,
        Test::Crcc => 24,
        Test::Sample => 25,
        Test::Fill => 26,
    }
}

pub fn read_answer(r: Result<Delivery, ReadError>) -> ReadAnswer
    ensures { result ≡ read_answer_of (paper_read r) }
{
    match r {
        Ok(d) => delivered(d),
        Err(ReadError::UnknownFormat) => read_refused(1, 0),
        Err(ReadError::WrongInput) => read_refused(3, 0),
        Err(ReadError::WrongOutput) => read_refused(4, 0),
        Err(ReadError::WrongSymbol(place)) => read_refused(20, place),
        Err(ReadError::Fails(x)) => read_refused(test_number(x.test), x.place),
    }
}
