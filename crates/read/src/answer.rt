// Why a span is not read.
ghost use Rattle.std.specs.Prelude.{◌≡◌};
ghost use Rattle.read.specs.declared.answer.ReadError.TheVariants.{Fails};
ghost use Rattle.read.specs.Inside.Answer.{read_taken, read_judged};

use read_test20::whole::TakeError;
use read_test21_26::call::JudgeError;
use read_test21_26::service::Fault;

#[derive(Clone, Copy, Debug, PartialEq, Eq)]
pub enum ReadError {
    // 1
    UnknownFormat,
    // 3
    WrongInput,
    // 4: only for a call with rows.
    WrongOutput,
    // 20, with its symbol.
    WrongSymbol(usize),
    // 21 to 26, with its interleaved word.
    Fails(Fault),
}

impl From<TakeError> for ReadError {
    ghost from_gives = { λ x e. e ≡ read_taken x };

    fn from(x: TakeError) -> ReadError {
        match x {
            TakeError::Invalid(place) => ReadError::WrongSymbol(place),
            // Not met: the lengths were judged before.
            TakeError::NotExamined => ReadError::WrongInput,
        }
    }
}

impl From<JudgeError> for ReadError {
    ghost from_gives = { λ x e. e ≡ read_judged x };

    fn from(x: JudgeError) -> ReadError {
        match x {
            JudgeError::Fails(fault) => ReadError::Fails(fault),
            // Not met: the lengths were judged before.
            JudgeError::NoWindow => ReadError::WrongInput,
        }
    }
}

impl From<Fault> for ReadError {
    ghost from_gives = { λ x e. e ≡ Fails x };

    fn from(x: Fault) -> ReadError {
        ReadError::Fails(x)
    }
}
