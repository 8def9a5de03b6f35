//! The oldest records taken out of a book, in one transaction.

ghost use Rattle.std.specs.Prelude.{◌≡◌, ◌↔◌, false, None, IsTrue};
ghost use Rattle.sqlite.specs.Held.{state};
ghost use Rattle.acd_book.specs.PrunedContent.{pruned, prune_by};
ghost use Rattle.acd_sqlbook.specs.Calls.{AddsOneStop, CommitsContent, KeepsContent, StaysOpen, WasClean};
ghost use Rattle.acd_sqlbook.specs.Commit.{CommitLeaves};
ghost use Rattle.acd_sqlbook.specs.OverReady.{ReadyCommits, ReadyStops};
ghost use Rattle.acd_sqlbook.specs.Pruning.{RefusesPrune, StopsPrune};
ghost use Rattle.acd_sqlbook.specs.CommitStops.{FailsAt, IsUndoneAt};
ghost use Rattle.acd_sql_columns.specs.Transactions.{Fits, Works};
ghost use Rattle.acd_sql_schema.specs.Creation.{WasOpen};

use crate::ready::Ready;
use acd_sql_columns::Log;
use acd_sql_statements::fitting::{fits, too_large};
use acd_sql_statements::tables::remove_up_to;
use sqlite::{Alter, Connection, Error, Transaction};

fn both_fit(stamp: u64, number: u64) -> bool
    ensures { IsTrue result ↔ (Fits stamp × Fits number) }
{
    fits(stamp) && fits(number)
}

// Takes out the kept records up to the stamp and the events up to the number.
fn remove_old<S: Alter>(tx: &mut Transaction<'_, S>, stamp: u64, number: u64) -> Result<(), Error>
    requires stamp { Fits stamp }
    requires number { Fits number }
    requires free { (state S.Store tx.old.conn.now).step_limit ≡ None }
    ensures same { tx.new.conn.ghost_name ≡ tx.old.conn.ghost_name }
    ensures works { Works (state S.Store tx.old.conn.now) (state S.Store tx.new.conn.now) }
    ensures put { CommitLeaves S.Store tx result (pruned stamp number) }
    ensures failed { FailsAt S.Store tx result (RefusesPrune stamp number) }
{
    remove_up_to(tx, Log::Kept, stamp)?;
    remove_up_to(tx, Log::Events, number)
}

// Takes both out in one transaction, whose end alone adds to the stops.
fn prune_all<S: Alter>(conn: &mut Connection<S>, stamp: u64, number: u64) -> Result<(), Error>
    requires stamp { Fits stamp }
    requires number { Fits number }
    requires idle { conn.old.in_transaction ≡ false }
    requires unlimited { conn.old.step_limit ≡ None }
    ensures idle { conn.new.in_transaction ≡ false }
    ensures done { CommitsContent S.Store conn result (pruned stamp number) }
    ensures clean { WasClean S.Store conn.old conn.new }
    ensures up { StaysOpen S.Store conn result }
    ensures was { WasOpen S.Store conn.old conn.new }
    ensures undone { KeepsContent S.Store conn result }
    ensures stops { AddsOneStop S.Store conn (pruned stamp number) }
    ensures limit { (state S.Store conn.new).step_limit ≡ (state S.Store conn.old).step_limit }
    ensures failed { IsUndoneAt S.Store conn result (RefusesPrune stamp number) }
{
    let mut tx = conn.transaction();
    remove_old(&mut tx, stamp, number)?;
    tx.commit()
}

/// Takes out the kept records up to the stamp and the events up to the number, all or none. A stamp or a number that no
/// column can hold is too large.
pub(crate) fn prune_ready<S: Alter>(
    ready: &mut Ready<S>,
    stamp: u64,
    number: u64,
) -> Result<(), Error>
    ensures commits { ReadyCommits ready result (prune_by stamp number) }
    ensures cause { ReadyStops ready result (StopsPrune stamp number) }
{
    if !both_fit(stamp, number) {
        return Err(too_large());
    }
    ready.refresh()?;
    ready.known_open = false;
    prune_all(&mut ready.conn, stamp, number)
}
