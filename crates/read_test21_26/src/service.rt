// Tests 21 to 24 in their order, each over the whole span.
ghost use Rattle.std.specs.Prelude.{◌≡◌, ◌*◌, ◌≤◌, Ok};
ghost use Rattle.span.specs.Format.{streams};
ghost use Rattle.span.specs.Layout.{ancillary_start};
ghost use Rattle.read_test21_26.specs.Inside.Holds.{holds_at, wrong_in};
ghost use Rattle.read_test21_26.specs.Inside.Verdict.{verdict_of, first_row, service_tests};

use crate::given::Tested;

// What each test of a window's words is about, in the order of their numbers, 21 to 26 (document 01).
#[derive(Clone, Copy, Debug, PartialEq, Eq)]
pub enum Test {
    Timing,
    Line,
    V,
    Crcc,
    Sample,
    Fill,
}

// A test that does not hold, and its lowest place.
#[derive(Clone, Copy, Debug, PartialEq, Eq)]
pub struct Fault {
    pub test: Test,
    pub place: usize,
}

// One test, over a range of words of all streams.
fn judge_one(test: Test, x: Tested, from: usize, to: usize) -> Result<(), Fault>
    requires from_le_to { from ≤ to }
    requires to_le_ancillary_start { to ≤ ancillary_start }
    ensures { result ≡ verdict_of test (wrong_in (holds_at test x.entry.format x.entry.window.shape x.entry.window.symbols.now x.entry.sums) (streams x.entry.window.shape * from) (streams x.entry.window.shape * to)) (Ok tt) }
{
    let s = 2 * x.window.shape.stream_pairs;
    match crate::holds::first_wrong(test, x, s * from, s * to) {
        Some(place) => Err(Fault { test, place }),
        None => Ok(()),
    }
}

// Tests 21 to 24.
pub(crate) fn judge_words(x: Tested) -> Result<(), Fault>
    ensures { result ≡ first_row (service_tests x.entry.window.shape x.entry.window.symbols.now x.entry.sums) }
{
    use span::layout::{ANCILLARY, CRCC, EAV, EAV_XYZ, LINE_NUMBER, PICTURE, SAV_XYZ};

    judge_one(Test::Timing, x, 0, PICTURE)?;
    judge_one(Test::Timing, x, EAV, LINE_NUMBER)?;
    judge_one(Test::Line, x, LINE_NUMBER, CRCC)?;
    judge_one(Test::V, x, SAV_XYZ, PICTURE)?;
    judge_one(Test::V, x, EAV_XYZ, LINE_NUMBER)?;
    judge_one(Test::Crcc, x, CRCC, ANCILLARY)
}
