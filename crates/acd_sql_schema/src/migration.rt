//! Makes version 2 of a book of version 1.

ghost use Rattle.std.specs.Prelude.{◌≡◌, ◌≤◌, false};
ghost use Rattle.sqlite.specs.State.{HasCleanDisk};
ghost use Rattle.sqlite.specs.Held.{state};
ghost use Rattle.acd_sql_columns.specs.Transactions.{Works};
ghost use Rattle.acd_sql_schema.specs.Migration.{IfFailsRestored, IfFirst, IfFirstInside, IsAltered, IsMade, MayAlter, FailsToMigrate};
ghost use Rattle.acd_sql_schema.specs.Creation.{IfFails, IfSucceeds, WasOpen};

use crate::create::make_two;
use acd_sql_statements::write::set_second_version;
use sqlite::{Alter, Connection, Error, Transaction};

// The new tables, and then the version.
fn alter<S: Alter>(tx: &mut Transaction<'_, S>) -> Result<(), Error>
    ensures same { tx.new.conn.ghost_name ≡ tx.old.conn.ghost_name }
    ensures works { Works (state S.Store tx.old.conn.now) (state S.Store tx.new.conn.now) }
    ensures altered { IfFirstInside S.Store tx (IfSucceeds result IsAltered) }
    ensures failed { IfFirstInside S.Store tx (IfFails result FailsToMigrate) }
{
    make_two(tx)?;
    set_second_version(tx)
}

/// Makes version 2 of the tables of version 1, in one transaction: two tables more, which are empty, and the version.
///
/// The nine tables keep their rows. After an error they are as they were.
pub fn migrate<S: Alter>(conn: &mut Connection<S>) -> Result<(), Error>
    requires idle { conn.old.in_transaction ≡ false }
    ensures idle { conn.new.in_transaction ≡ false }
    ensures clean { HasCleanDisk (state S.Store conn.new) → HasCleanDisk (state S.Store conn.old) }
    ensures was { WasOpen S.Store conn.old conn.new }
    ensures made { IfFirst S.Store conn (IfSucceeds result IsMade) }
    ensures undone { IfFirst S.Store conn (IfFailsRestored result) }
    ensures stops { IfFirst S.Store conn MayAlter }
    ensures counts { (state S.Store conn.old).faults ≤ (state S.Store conn.new).faults }
    ensures limit { (state S.Store conn.new).step_limit ≡ (state S.Store conn.old).step_limit }
    ensures failed { IfFirst S.Store conn (IfFails result FailsToMigrate) }
{
    let mut tx = conn.transaction();
    alter(&mut tx)?;
    tx.commit()
}
