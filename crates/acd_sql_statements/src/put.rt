//! The statements that put a record and remove it. Each works inside a transaction: its writes are there, and no stop
//! is added.

ghost use Rattle.std.specs.Prelude.{◌≡◌, IsSome};
ghost use Rattle.acd_sql_columns.specs.Descriptions.{the_text};
ghost use Rattle.acd_sql_columns.specs.Transactions.{Fits};
ghost use Rattle.acd_sql_statements.specs.InTransaction.{WritesRow};
ghost use Rattle.acd_sql_statements.specs.Statements.{inserting, putting, removing};

use crate::stored::Stored;
use crate::write::write;
use acd_sql_columns::bind;
use sqlite::{Alter, Error, Transaction};

/// Puts a record that has no row. One that has a row is the store's to refuse.
pub fn insert<R: Stored, S: Alter>(tx: &mut Transaction<'_, S>, item: &R) -> Result<(), Error>
    requires { R.descr.Fits item.now }
    ensures { WritesRow S.Store tx.old.conn tx.new.conn result (inserting R.descr item.now) }
{
    item.run(tx, R::texts().insert)?;
    Ok(())
}

fn update_text<R: Stored>() -> &'static str
    requires { IsSome R.descr.update }
    ensures { result.now ≡ the_text R.descr.update }
{
    R::texts().update.unwrap()
}

fn delete_text<R: Stored>() -> &'static str
    requires { IsSome R.descr.delete }
    ensures { result.now ≡ the_text R.descr.delete }
{
    R::texts().delete.unwrap()
}

/// Changes the row of the record, and inserts one where there is none.
pub fn put<R: Stored, S: Alter>(tx: &mut Transaction<'_, S>, item: &R) -> Result<(), Error>
    requires fits { R.descr.Fits item.now }
    requires changes { IsSome R.descr.update }
    ensures { WritesRow S.Store tx.old.conn tx.new.conn result (putting R.descr item.now) }
{
    let changed = item.run(tx, update_text::<R>())?;
    if changed > 0 {
        return Ok(());
    }
    item.run(tx, R::texts().insert)?;
    Ok(())
}

/// Takes out the record that has a key, if any.
pub fn remove<R: Stored, S: Alter>(tx: &mut Transaction<'_, S>, key: u64) -> Result<(), Error>
    requires key { Fits key }
    requires removes { IsSome R.descr.delete }
    ensures { WritesRow S.Store tx.old.conn tx.new.conn result (removing R.descr key) }
{
    write(tx, delete_text::<R>(), &[bind::integer(key)])
}
