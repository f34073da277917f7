// What the next span answers, and why a call on a recording is refused (document 01, "Receiving and finding" and its table of refusals).
use window::delivery::Delivery;

// Why no span is searched for.
#[derive(Clone, Copy, Debug, PartialEq, Eq)]
pub enum FindError {
    // 1
    UnknownFormat,
    // 3
    WrongInput,
    // 5
    WrongStart,
}

// A span in a recording: its place, and what reading it answers.
#[derive(Drop)]
pub struct Spanned {
    pub place: usize,
    pub delivery: Delivery,
}

// Why the next span is not read.
#[derive(Clone, Copy, Debug, PartialEq, Eq)]
pub enum NextError {
    // 1
    UnknownFormat,
    // 3
    WrongInput,
    // 4
    WrongOutput,
    // 5
    WrongStart,
}

// The next span, if there is one, and the place after it: the end of the span that is delivered, else the start.
#[derive(Drop)]
pub struct Next {
    pub answer: Result<Option<Spanned>, NextError>,
    pub after: usize,
}
