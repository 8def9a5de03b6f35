//! Takes a connection over a book where each value is in its range, and makes version 2 of one of version 1.

ghost use Rattle.std.specs.Prelude.{◌≡◌, false, IfOk, IfErr};
ghost use Rattle.acd_sql_columns.specs.Schema.{old_schema, book_schema};
ghost use Rattle.acd_sql_schema.specs.Migration.{IsMade};
ghost use Rattle.acd_sqlbook.specs.Adoption.{IsUntouched, MayMigrate};
ghost use Rattle.acd_sqlbook.specs.Calls.{IsUnlimited, WasClean};
ghost use Rattle.acd_sqlbook.specs.Caches.{IsBlank};
ghost use Rattle.acd_sqlbook.specs.Opening.{HasAdoptCause, IfHandedBack, IfOpened, IfSchema, IsAdoptedOver, IsHandedBackOver, IsLeftAlone, WasCanonical};

use crate::book::SqlBook;
use crate::cache::Cache;
use crate::ready::Ready;
use acd_sql_columns::Version;
use acd_sql_schema::{AdoptFault, Found, fault_of, look_over, migrate};
use sqlite::{Alter, Connection};
use std::alloc::Global;

impl<S: Alter> SqlBook<S> {
    /// Takes a connection over a book, whose values it looks at, all of them before anything is written.
    ///
    /// Tables of version 1 become those of version 2, in one transaction; of those of version 2 nothing is changed.
    /// With a fault the connection is handed back without a limit of steps: one that was set is removed first, and a
    /// connection doesn't say which it was. What it is over is as it was after [`AdoptFault::WrongVersion`] and
    /// [`AdoptFault::BadRow`].
    pub fn adopt(
        alloc: Global,
        mut conn: Connection<S>,
    ) -> Result<SqlBook<S>, (AdoptFault, Connection<S>)>
        requires { conn.in_transaction ≡ false }
        ensures adopted { IfOk result (IsAdoptedOver S.Store conn) }
        ensures untouched { IfOpened S.Store conn result (IfSchema book_schema IsUntouched) }
        ensures migrated { IfOpened S.Store conn result (IfSchema old_schema IsMade) }
        ensures leaves { IfOpened S.Store conn result MayMigrate }
        ensures canonical { IfOk result (WasCanonical S.Store conn) }
        ensures counted { IfOk result (λ b. b.failures ≡ 0) }
        ensures blank { IfOk result (λ b. IsBlank b.cache) }
        ensures unlimited { IfOk result (λ b. IsUnlimited b.conn) }
        ensures clean { IfOk result (λ b. WasClean S.Store conn b.conn) }
        ensures idle { IfErr result (λ e. e.1.in_transaction ≡ false) }
        ensures limit { IfErr result (λ e. IsUnlimited e.1) }
        ensures doubted { IfErr result (λ e. WasClean S.Store conn e.1) }
        ensures handed_back { IfErr result (IsHandedBackOver S.Store conn) }
        ensures left_alone { IfHandedBack S.Store conn result IsLeftAlone }
        ensures leaves_refused { IfHandedBack S.Store conn result (λ fault. MayMigrate) }
        ensures caused { IfHandedBack S.Store conn result HasAdoptCause }
    {
        conn.set_step_limit(None);
        match look_over(alloc, &mut conn) {
            Ok(Found::Book(Version::Second)) => Ok(SqlBook {
                alloc,
                ready: Ready {
                    conn,
                    known_open: true,
                },
                failures: 0,
                cache: Cache::blank(alloc),
            }),
            Ok(Found::Book(Version::First)) => match migrate(&mut conn) {
                Ok(()) => Ok(SqlBook {
                    alloc,
                    ready: Ready {
                        conn,
                        known_open: true,
                    },
                    failures: 0,
                    cache: Cache::blank(alloc),
                }),
                Err(error) => Err((fault_of(error), conn)),
            },
            Ok(Found::Fault(fault)) => Err((fault, conn)),
            Err(error) => Err((fault_of(error), conn)),
        }
    }
}
