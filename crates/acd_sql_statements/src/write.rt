//! The statements of the limits and the counters, of kept records and of connections, one a function. Each works inside
//! a transaction: its writes are there, and no stop is added. Those of events are in `several`, those of every other
//! table in `put`.

ghost use Rattle.std.specs.Prelude.{◌≡◌, IfSome};
ghost use Rattle.sqlite.specs.Held.{state};
ghost use Rattle.sqlite.specs.Values.{bound};
ghost use Rattle.acd_codec.specs.RequestTexts.{request_text};
ghost use Rattle.acd_sql_columns.specs.Transactions.{Works, Fits, MetaFits};
ghost use Rattle.acd_sql_statements.specs.StoreFailures.{FailsToSetVersion, FailsToStart};
ghost use Rattle.acd_sql_statements.specs.InTransaction.{CountsRows, FailsInside, NamesSecondVersion, OnOkInside, RunsText, StartsBook, WritesRow};
ghost use Rattle.acd_sql_statements.specs.Statements.{dropping_connection, inserting_connection, inserting_kept, putting_connection, setting_meta};

use acd_book::Kept;
use acd_codec::reads_back;
use acd_sql_columns::texts::{
    DELETE_CONNECTION, INSERT_CONNECTION, INSERT_KEPT, INSERT_META, UPDATE_CONNECTION, UPDATE_META,
    UPDATE_VERSION,
};
use acd_sql_columns::{Meta, bind, encode};
use acd_terms::{ConnectionRecord, DeviceId};
use sqlite::types::ValueRef;
use sqlite::{Alter, Error, Transaction};

/// Runs a statement.
pub fn write<S: Alter>(
    tx: &mut Transaction<'_, S>,
    sql: &str,
    params: &[ValueRef<'_>],
) -> Result<(), Error>
    ensures { RunsText S.Store tx.old.conn tx.new.conn result (sql.now, bound params.now) }
{
    tx.execute(sql, params)?;
    Ok(())
}

/// As `write`, and says how many rows it changed.
pub fn changed_rows<S: Alter>(
    tx: &mut Transaction<'_, S>,
    sql: &str,
    params: &[ValueRef<'_>],
) -> Result<usize, Error>
    ensures { CountsRows S.Store tx.old.conn tx.new.conn result (sql.now, bound params.now) }
{
    tx.execute(sql, params)
}

/// Puts a kept record, with the text of its request, that has no row. One whose stamp or whose requester and invoke number have a row is the store's to refuse.
pub fn insert_kept<S: Alter>(
    tx: &mut Transaction<'_, S>,
    kept: &Kept,
    request: &str,
) -> Result<(), Error>
    requires stamp { Fits kept.now.stamp }
    requires request { request.now ≡ request_text kept.now.request }
    ensures { WritesRow S.Store tx.old.conn tx.new.conn result (inserting_kept kept.now) }
{
    reads_back(&kept.request);
    write(
        tx,
        INSERT_KEPT,
        &[
            bind::integer(kept.stamp),
            bind::text(kept.request.requester.as_bytes()),
            bind::small(kept.request.invoke.number()),
            bind::small(kept.moment),
            bind::text(request.as_bytes()),
            bind::small(u32::from(kept.status)),
            bind::text(kept.body.as_str().as_bytes()),
        ],
    )
}

/// Puts the limits and the counters of a new book, whose tables have no row.
pub fn insert_meta<S: Alter>(tx: &mut Transaction<'_, S>, meta: &Meta) -> Result<(), Error>
    requires { MetaFits meta.now }
    ensures same { tx.new.conn.ghost_name ≡ tx.old.conn.ghost_name }
    ensures works { Works (state S.Store tx.old.conn.now) (state S.Store tx.new.conn.now) }
    ensures start { OnOkInside S.Store tx.old.conn tx.new.conn result (StartsBook meta.now) }
    ensures failed { FailsInside S.Store tx.old.conn tx.new.conn result (FailsToStart meta.now) }
{
    write(tx, INSERT_META, &encode::meta_values(meta))
}

/// Writes the limits and the counters over those that are there.
pub fn set_meta<S: Alter>(tx: &mut Transaction<'_, S>, meta: &Meta) -> Result<(), Error>
    requires { MetaFits meta.now }
    ensures { WritesRow S.Store tx.old.conn tx.new.conn result (setting_meta meta.now) }
{
    write(tx, UPDATE_META, &encode::counters_values(meta))
}

/// Writes version 2 into tables of version 1, which the new ones follow.
pub fn set_second_version<S: Alter>(tx: &mut Transaction<'_, S>) -> Result<(), Error>
    ensures same { tx.new.conn.ghost_name ≡ tx.old.conn.ghost_name }
    ensures works { Works (state S.Store tx.old.conn.now) (state S.Store tx.new.conn.now) }
    ensures version { OnOkInside S.Store tx.old.conn tx.new.conn result NamesSecondVersion }
    ensures failed { FailsInside S.Store tx.old.conn tx.new.conn result FailsToSetVersion }
{
    write(tx, UPDATE_VERSION, &[])
}

/// Changes the row of the connection, and inserts one where there is none.
pub fn put_connection<S: Alter>(
    tx: &mut Transaction<'_, S>,
    connection: &ConnectionRecord,
) -> Result<(), Error>
    requires call { Fits connection.now.call }
    requires place { IfSome connection.now.place Fits }
    ensures { WritesRow S.Store tx.old.conn tx.new.conn result (putting_connection connection.now) }
{
    let changed = changed_rows(
        tx,
        UPDATE_CONNECTION,
        &encode::connection_values(connection),
    )?;
    if changed > 0 {
        return Ok(());
    }
    insert_connection(tx, connection)
}

/// Puts a connection that has no row. One that has a row is the store's to refuse.
pub fn insert_connection<S: Alter>(
    tx: &mut Transaction<'_, S>,
    connection: &ConnectionRecord,
) -> Result<(), Error>
    requires call { Fits connection.now.call }
    requires place { IfSome connection.now.place Fits }
    ensures { WritesRow S.Store tx.old.conn tx.new.conn result
        (inserting_connection connection.now) }
{
    write(
        tx,
        INSERT_CONNECTION,
        &encode::connection_values(connection),
    )
}

pub fn drop_connection<S: Alter>(
    tx: &mut Transaction<'_, S>,
    call: u64,
    device: DeviceId,
) -> Result<(), Error>
    requires { Fits call }
    ensures { WritesRow S.Store tx.old.conn tx.new.conn result (dropping_connection call device) }
{
    write(
        tx,
        DELETE_CONNECTION,
        &[bind::integer(call), bind::device(device)],
    )
}
