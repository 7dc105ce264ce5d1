// Why the program gives up.
use std::io;
use thiserror::Error;

#[derive(Debug, Drop, Error)]
pub enum Failure {
    #[error("expected at most one argument, the file with the script")]
    Usage,
    #[error(transparent)]
    Io(#[from] io::Error),
}
