// Why a request has no answer.
use cli::failure::Failure;
use sources::fault::Refusal;
use std::alloc::{AllocError, AllocFailed};

#[derive(Drop)]
pub enum Trouble<'a> {
    Refused(Refusal),
    Failed(Failure<'a>),
}

impl From<Refusal> for Trouble<'_> {
    fn from(refusal: Refusal) -> Self {
        Trouble::Refused(refusal)
    }
}

impl From<AllocError> for Trouble<'_> {
    fn from(error: AllocError) -> Self {
        Trouble::Failed(Failure::from(error))
    }
}

impl<T: Drop> From<AllocFailed<T>> for Trouble<'_> {
    fn from(error: AllocFailed<T>) -> Self {
        Trouble::from(AllocError::from(error))
    }
}
