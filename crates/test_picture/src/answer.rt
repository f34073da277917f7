// Why a call that puts the test picture is refused.
#[derive(Clone, Copy, Debug, PartialEq, Eq)]
pub enum PutError {
    // 1
    UnknownFormat,
    // 2
    NoLine,
    // 4
    WrongOutput,
}
