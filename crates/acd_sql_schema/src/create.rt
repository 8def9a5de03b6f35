//! Makes the tables of a book.

ghost use Rattle.std.specs.Prelude.{◌≡◌, ◌↔◌, [], false, IsTrue};
ghost use Rattle.sqlite.specs.State.{HasCleanDisk};
ghost use Rattle.sqlite.specs.Held.{state};
ghost use Rattle.acd_sql_columns.specs.Schema.{no_schema};
ghost use Rattle.acd_sql_columns.specs.Transactions.{LimitsFit};
ghost use Rattle.acd_sql_schema.specs.Creation.{MakesTables, MakesTwo, none_made, plan_made, state_made, made_of, HasNewBook, HasTablesOf, IfClean, IfSucceeds, MayMake, FailsBy, FailsToMake, FailsToSetUp};
ghost use Rattle.acd_sql_statements.specs.ReadsBetween.{IsUp};
ghost use Rattle.acd_sql_statements.specs.InTransaction.{RunsText};

use acd_sql_columns::good::meta_is_good;
use acd_sql_columns::texts::{
    CREATE_AGENT_GROUPS, CREATE_AGENTS, CREATE_CALLS, CREATE_CONNECTIONS, CREATE_EVENTS,
    CREATE_GROUP_PRIORITY, CREATE_GROUPS, CREATE_KEPT, CREATE_META, CREATE_MONITORS,
    CREATE_STATIONS,
};
use acd_sql_columns::{Meta, Version};
use acd_sql_statements::write::{insert_meta, write};
use acd_terms::Limits;
use sqlite::{Alter, Connection, Error, Transaction};
use sqlite_schema::schema::Schema;

/// Whether a database has no table, no index and no view.
pub fn has_no_tables(schema: &Schema) -> bool
    ensures { IsTrue result ↔ (schema.now ≡ no_schema) }
{
    schema.tables.is_empty() && schema.indexes.is_empty() && schema.views.is_empty()
}

// Makes one table.
fn make<S: Alter>(tx: &mut Transaction<'_, S>, sql: &str) -> Result<(), Error>
    ensures { RunsText S.Store tx.old.conn tx.new.conn result (sql.now, []) }
{
    write(tx, sql, &[])
}

// The limits and the plan.
fn make_plan<S: Alter>(tx: &mut Transaction<'_, S>) -> Result<(), Error>
    ensures { MakesTables S.Store tx.old.conn tx.new.conn result (none_made, plan_made) }
{
    make(tx, CREATE_META)?;
    make(tx, CREATE_GROUPS)?;
    make(tx, CREATE_STATIONS)?;
    make(tx, CREATE_AGENTS)
}

// The part that changes from call to call.
fn make_state<S: Alter>(tx: &mut Transaction<'_, S>) -> Result<(), Error>
    ensures { MakesTables S.Store tx.old.conn tx.new.conn result (plan_made, state_made) }
{
    make(tx, CREATE_CALLS)?;
    make(tx, CREATE_CONNECTIONS)?;
    make(tx, CREATE_MONITORS)
}

// The events and the kept replies.
fn make_log<S: Alter>(tx: &mut Transaction<'_, S>) -> Result<(), Error>
    ensures { MakesTables S.Store tx.old.conn tx.new.conn result
        (state_made, made_of Version.First) }
{
    make(tx, CREATE_EVENTS)?;
    make(tx, CREATE_KEPT)
}

// Makes the nine tables of version 1.
fn make_nine<S: Alter>(tx: &mut Transaction<'_, S>) -> Result<(), Error>
    ensures { MakesTables S.Store tx.old.conn tx.new.conn result
        (none_made, made_of Version.First) }
{
    make_plan(tx)?;
    make_state(tx)?;
    make_log(tx)
}

/// Makes the two tables of version 2 after the nine, whatever rows these have.
pub(crate) fn make_two<S: Alter>(tx: &mut Transaction<'_, S>) -> Result<(), Error>
    ensures { MakesTwo S.Store tx.old.conn tx.new.conn result }
{
    make(tx, CREATE_AGENT_GROUPS)?;
    make(tx, CREATE_GROUP_PRIORITY)
}

// Makes the eleven tables.
fn make_tables<S: Alter>(tx: &mut Transaction<'_, S>) -> Result<(), Error>
    ensures { MakesTables S.Store tx.old.conn tx.new.conn result
        (none_made, made_of Version.Second) }
{
    make_nine(tx)?;
    make_two(tx)
}

// Makes the tables of the version.
fn make_version<S: Alter>(tx: &mut Transaction<'_, S>, version: Version) -> Result<(), Error>
    ensures { MakesTables S.Store tx.old.conn tx.new.conn result (none_made, made_of version) }
{
    match version {
        Version::First => make_nine(tx),
        Version::Second => make_tables(tx),
    }
}

/// Makes the tables of the version in one transaction, with no row.
pub(crate) fn set_up_empty<S: Alter>(
    conn: &mut Connection<S>,
    version: Version,
) -> Result<(), Error>
    requires idle { conn.old.in_transaction ≡ false }
    requires empty { (state S.Store conn.old).now.schema ≡ no_schema }
    ensures idle { conn.new.in_transaction ≡ false }
    ensures made { IfClean S.Store conn.old conn.new (IfSucceeds result (HasTablesOf version)) }
    ensures failed { FailsBy S.Store conn.old conn.new result FailsToMake }
{
    let mut tx = conn.transaction();
    make_version(&mut tx, version)?;
    tx.commit()
}

/// Makes the tables of a new book in one transaction, and the row of the limits.
pub fn set_up<S: Alter>(conn: &mut Connection<S>, limits: Limits) -> Result<(), Error>
    requires idle { conn.old.in_transaction ≡ false }
    requires empty { (state S.Store conn.old).now.schema ≡ no_schema }
    requires fit { LimitsFit limits }
    ensures idle { conn.new.in_transaction ≡ false }
    ensures clean { HasCleanDisk (state S.Store conn.new) → HasCleanDisk (state S.Store conn.old) }
    ensures made { IfClean S.Store conn.old conn.new (IfSucceeds result (HasNewBook limits)) }
    ensures up { IsUp (state S.Store conn.new) result }
    ensures stops { IfClean S.Store conn.old conn.new (λ old new. MayMake old new limits) }
    ensures limit { (state S.Store conn.new).step_limit ≡ (state S.Store conn.old).step_limit }
    ensures failed { FailsBy S.Store conn.old conn.new result
        (λ old new. FailsToSetUp old new limits) }
{
    let meta = Meta {
        limits,
        last_stamp: 0,
        last_moment: 0,
        last_call: 0,
        last_monitor: 0,
        last_event: 0,
    };
    meta_is_good(&meta);
    let mut tx = conn.transaction();
    make_tables(&mut tx)?;
    insert_meta(&mut tx, &meta)?;
    tx.commit()
}
