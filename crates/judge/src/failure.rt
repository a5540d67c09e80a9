//! Why there is no verdict.
use refusal::Refusal;
use std::alloc::AllocError;
use std::io;

#[derive(Drop)]
pub(crate) enum Failure {
    WrongArguments,
    /// The lattice of this sign was refused.
    Refused(char, Refusal),
    Io(io::Error),
}

impl From<io::Error> for Failure {
    fn from(error: io::Error) -> Failure {
        Failure::Io(error)
    }
}

impl From<AllocError> for Failure {
    fn from(error: AllocError) -> Failure {
        Failure::Io(io::Error::from(error))
    }
}
