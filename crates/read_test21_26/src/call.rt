// What other crates ask about a window. Of anything that is not a window of a known format the answer says so.
ghost use Rattle.std.specs.Prelude.{◌≡◌, true, length};
ghost use Rattle.ground.specs.Search.{is_some};
ghost use Rattle.span.specs.Format.{streams, pairs_in};
ghost use Rattle.window.specs.Tests.{named};
ghost use Rattle.window.specs.Words.{word_at};
ghost use Rattle.read_test21_26.specs.declared.call.JudgeError.TheVariants.{Fails};
ghost use Rattle.read_test21_26.specs.Inside.Call.{is_window, service_of, judged_of, service_if, lowest_if};

use crate::given::{Tested, Window};
use crate::holds::first_wrong;
use crate::service::{Fault, Test};
use crcc::sums::Sums;
use line::stream::StreamLine;
use span::content::ContentBytes;
use span::format::Format;
use window::delivery::Repairs;

// Whether this many symbols make a window of a known format.
fn is_window(f: Format, symbols: usize) -> bool
    ensures { result ≡ is_window f symbols }
{
    if span::format::is_known(f) {
        let lengths = span::length::span_lengths(f);
        return symbols == lengths.symbols;
    }
    false
}

// What the words outside the picture say where tests 21 to 24 hold: the line whose SAV begins the window, which is the one before the line
// that stream 1 names; the content bytes; and the wrong bits of all timing words.
#[derive(Drop)]
pub struct Service {
    pub line: StreamLine,
    pub content: ContentBytes,
    pub repairs: Repairs,
}

#[derive(Clone, Copy, Debug, PartialEq, Eq)]
pub enum JudgeError {
    // The first of tests 21 to 24 that does not hold.
    Fails(Fault),
    // Not a window of a known format.
    NoWindow,
}

impl From<Fault> for JudgeError {
    ghost from_gives = { λ x e. e ≡ Fails x };

    fn from(x: Fault) -> JudgeError {
        JudgeError::Fails(x)
    }
}

// A window for which tests 21 to 24 hold: by test 22, a line is named.
fn served(x: Tested) -> Service
    requires { is_some (named (streams x.window.shape) (word_at x.window.shape x.window.symbols.now)) ≡ true }
    ensures { result ≡ service_of x.entry.window.shape x.entry.window.symbols.now }
{
    let after = x.next.unwrap();
    Service {
        line: line::stream::line_before(after),
        content: crate::words::content_in(x.window),
        repairs: crate::repairs::repairs_in(x.window),
    }
}

// A window.
fn judge_window(format: Format, window: Window, sums: Sums) -> Result<Service, JudgeError>
    ensures { result ≡ judged_of window.entry.shape window.entry.symbols.now sums }
{
    let next = crate::holds::next_line(window);
    let x = Tested {
        format,
        window,
        next,
        sums,
    };
    crate::service::judge_words(x)?;
    Ok(served(x))
}

// Tests 21 to 24, given the sums that the picture words of the streams leave. The table is copied once, here.
pub fn service_of(f: Format, symbols: &[u16], c: Sums) -> Result<Service, JudgeError>
    ensures { result ≡ service_if f symbols.now c }
{
    if is_window(f, symbols.len()) {
        let t = decoder::table::decoding_table();
        let window = Window {
            table: &t,
            shape: span::format::shape_of(f),
            symbols,
        };
        return judge_window(f, window, c);
    }
    Err(JudgeError::NoWindow)
}

// Not a window of a known format.
#[derive(Clone, Copy, Debug, PartialEq, Eq)]
pub struct NoWindow;

// The lowest place of a word that may not be a sample's, or, where another test than that is asked for, of a fill word that is not 100. The
// sums count for neither.
pub fn lowest_place(test: Test, f: Format, symbols: &[u16]) -> Result<Option<usize>, NoWindow>
    ensures { result ≡ lowest_if test f symbols.now }
{
    if !is_window(f, symbols.len()) {
        return Err(NoWindow);
    }
    let t = decoder::table::decoding_table();
    let p = span::format::shape_of(f);
    let s = 2 * p.stream_pairs;
    let window = Window {
        table: &t,
        shape: p,
        symbols,
    };
    let x = Tested {
        format: f,
        window,
        next: crate::holds::next_line(window),
        sums: Sums {
            first: 0,
            second: 0,
            third: 0,
            fourth: 0,
        },
    };
    match test {
        Test::Sample => {
            let end = span::layout::EAV * s;
            Ok(first_wrong(Test::Sample, x, span::layout::PICTURE * s, end))
        }
        _ => {
            let from = s * (span::layout::ANCILLARY + p.ancillary);
            Ok(first_wrong(Test::Fill, x, from, from + 2 * p.fill_pairs))
        }
    }
}
