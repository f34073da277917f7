// Why a span is not sent (document 01, "Sending" and its table of refusals).
#[derive(Clone, Copy, Debug, PartialEq, Eq)]
pub enum SendError {
    // 1
    UnknownFormat,
    // 2
    NoLine,
    // 3
    WrongInput,
    // 4
    WrongOutput,
    // 6, with the lowest index in the samples as given.
    NotAllowed(usize),
}
