//! A whole session over a book: it is opened, run and closed.

ghost use Rattle.std.specs.Prelude.{◌≡◌, IfOk, IfErr};
ghost use Rattle.acd_desk.specs.Desks.Session.{RanOver, RefusedOver, LeavesContent};

use crate::desk::Desk;
use crate::open_fault::OpenFault;
use crate::taken::Taken;
use acd_book::Book;
use acd_terms::Arrival;
use std::alloc::Global;
use thiserror::Error;

/// Why a session executed nothing.
#[derive(Clone, Copy, Debug, PartialEq, Eq, Error)]
pub enum SessionFault {
    /// The book makes no desk.
    #[error("{0}")]
    Open(OpenFault),
    /// There is no room for the answers.
    #[error("out of memory")]
    NoRoom,
}

impl<B: Book> Desk<B> {
    /// Opens a desk over the book, takes each arrival in turn, and gives the book back. Beside a fault
    /// nothing was executed, and the book comes back too.
    pub fn session(
        alloc: Global,
        book: B,
        arrivals: &[Arrival],
    ) -> Result<(Vec<Taken>, B), (SessionFault, B)>
        ensures ran { IfOk result (RanOver B.state book arrivals.now) }
        ensures refused { IfErr result (RefusedOver B.state book) }
        ensures unmoved { IfErr result (λ fault. LeavesContent (B.state book) (B.state fault.1)) }
    {
        let mut desk = match Desk::open(alloc, book) {
            Ok(desk) => desk,
            Err((fault, book)) => return Err((SessionFault::Open(fault), book)),
        };
        match desk.run(arrivals) {
            Ok(answers) => Ok((answers, desk.close())),
            Err(_) => Err((SessionFault::NoRoom, desk.close())),
        }
    }
}
