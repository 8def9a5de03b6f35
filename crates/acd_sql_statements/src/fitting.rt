//! Which numbers an INTEGER column can hold.

ghost use Rattle.std.specs.Prelude.{◌≡◌, ◌↔◌, IsTrue, IfSome};
ghost use Rattle.acd_sql_columns.specs.Transactions.{Fits};
ghost use Rattle.acd_sql_columns.specs.Values.{whole_at};

use sqlite::types::ValueRef;
use sqlite::{Error, ErrorCode, Row};

/// Whether an INTEGER column can hold the number.
pub fn fits(number: u64) -> bool
    ensures { IsTrue result ↔ Fits number }
{
    number <= i64::MAX as u64
}

/// A number is too large for its column.
pub fn too_large() -> Error
    ensures { result ≡ Error.SqliteFailure ErrorCode.TooBig }
{
    Error::SqliteFailure(ErrorCode::TooBig)
}

/// The number that a row begins with, which its column holds.
pub fn number_of(row: &Row) -> Option<u64>
    ensures value { result ≡ whole_at row.now 0 }
    ensures fits { IfSome result Fits }
{
    match row.get_ref(0) {
        Ok(ValueRef::Int(number)) => u64::try_from(number).ok(),
        _ => None,
    }
}
