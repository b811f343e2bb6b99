//! Why a call on a database of offsets failed.

use sqlite::{Error as SqliteError, ErrorCode};
use thiserror::Error;

/// What is wrong with a database, in the words of the log.
#[derive(Clone, Copy, Debug, PartialEq, Eq, Error)]
pub enum Failure {
    #[error("{0}")]
    Sqlite(SqliteError),
    #[error("its name isn't UTF-8")]
    Name,
    #[error("the path of a followed file isn't UTF-8")]
    Path,
    #[error("an offset is greater than 9223372036854775807")]
    Offset,
    #[error("the system has no clock")]
    Clock,
    /// It has failed a short while ago, and isn't opened again yet.
    #[error("it isn't opened again yet")]
    Waiting,
}

/// Why a call on a database failed.
#[derive(Clone, Copy, Debug, PartialEq, Eq, Error)]
pub enum DatabaseErr {
    #[error("{0}")]
    Failed(Failure),
    #[error("out of memory")]
    Memory,
}

impl From<SqliteError> for DatabaseErr {
    ghost use Rattle.std.specs.Prelude.{◌≡◌};
    ghost use Rattle.fwd_positions.specs.Failures.{error_of};

    ghost from_gives = { λ error e. e ≡ error_of error };

    fn from(error: SqliteError) -> Self {
        match error {
            SqliteError::SqliteFailure(ErrorCode::OutOfMemory) => DatabaseErr::Memory,
            error => DatabaseErr::Failed(Failure::Sqlite(error)),
        }
    }
}

impl From<Failure> for DatabaseErr {
    ghost use Rattle.std.specs.Prelude.{◌≡◌};
    ghost use Rattle.fwd_positions.specs.declared.errors.DatabaseErr.TheVariants as database_err;

    ghost from_gives = { λ failure e. e ≡ database_err.Failed failure };

    fn from(failure: Failure) -> Self {
        DatabaseErr::Failed(failure)
    }
}
