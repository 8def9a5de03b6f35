//! The operations needed of a record that a table holds. `acd_sql_columns` describes the table, with the evidence that
//! its texts do what they say.

ghost use Rattle.std.specs.Prelude.{◌≡◌};
ghost use Rattle.acd_sql_columns.specs.Descriptions.{Description, AreTexts};
ghost use Rattle.acd_sql_statements.specs.InTransaction.{CountsRows};

use acd_sql_columns::texts::Texts;
use sqlite::{Alter, Error, Row, Transaction};

/// A record with a separate table, whose key is the number of its row.
pub trait Stored: Drop {
    ghost descr: { Description Self };

    /// The texts of the table.
    fn texts() -> Texts
        ensures { AreTexts descr result };

    /// Runs a statement whose parameters are the values of the record, and says how many rows it changed.
    fn run<S: Alter>(&self, tx: &mut Transaction<'_, S>, sql: &str) -> Result<usize, Error>
        requires { descr.Fits self.now }
        ensures { CountsRows S.Store tx.old.conn tx.new.conn result
            (sql.now, descr.values self.now) };

    /// The record of a row whose values are all in their ranges.
    fn decode(row: &Row) -> Option<Self>
        ensures { result ≡ descr.in_row row.now };

    ghost use Rattle.acd_sql_columns.proofs.FileTables.DescribedTable.{Described};

    ghost described: { Described descr };

    ghost reads: { (r : Self) → descr.IsRead r };
}
