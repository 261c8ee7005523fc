//! What an INSERT tells.

ghost use Rattle.registry_rows.specs.Steps.{IsInserted};

use registry_schema::TableFault;
use sqlite::{Error, ErrorCode};

/// Returns whether an INSERT inserted its row: it did not if there is a row with its key. A caller
/// that expects none asks for it by this, since `INSERT OR REPLACE` looks for one each time.
pub(crate) fn inserted(ran: Result<usize, Error>) -> Result<bool, TableFault>
    ensures { IsInserted ran result }
{
    match ran {
        Ok(_) => Ok(true),
        Err(Error::SqliteFailure(ErrorCode::ConstraintViolation(_))) => Ok(false),
        Err(error) => Err(TableFault::from(error)),
    }
}
