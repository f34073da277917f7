// Why a row is not divided, or rows not joined.
#[derive(Clone, Copy, Debug, PartialEq, Eq)]
pub enum CopyError {
    // 3: an input of the wrong length.
    WrongInput,
    // 4: an output of the wrong length.
    WrongOutput,
}
