//! A desk over a book.

ghost use Rattle.std.specs.Prelude.{◌≡◌, [], ◌∷◌, OnOk, OnErr, IfOk};
ghost use Rattle.acd_desk.specs.Contents.Arrivals.{arrival_at};
ghost use Rattle.acd_desk.specs.Desks.DeskState.{state_of, book_of, with_switch};
ghost use Rattle.acd_terms.specs.Lists.{Every};
ghost use Rattle.acd_desk.specs.Desks.DeskCalls.{TookNew, DeskTook, DeskRan, HasFailed, EndsIn, IsStoreFault};
ghost use Rattle.acd_desk.specs.Reads.DeskReads.{TakesSwitch};
ghost use Rattle.acd_desk.specs.Desks.Faults.{answer_to, fault_of, left_by};
ghost use Rattle.acd_desk.specs.Desks.Opening.{Opens};
ghost use Rattle.acd_desk.specs.Contents.Replies.{answer_of};

use crate::executing::{executed, loaded};
use crate::fault::DeskFault;
use crate::open_fault::OpenFault;
use crate::requests::is_same;
use crate::taken::Taken;
use crate::working::{LoadedSwitch, Working};
use acd_book::{Book, BookFault, Kept};
use acd_terms::{Arrival, Request};
use std::alloc::{AllocError, Global};
use std::mem;

/// A desk: the book that keeps all, and what is in memory of it.
#[derive(Drop)]
pub struct Desk<B: Book> {
    pub(crate) alloc: Global,
    pub(crate) book: B,
    pub(crate) working: Working,
}

impl<B: Book> Desk<B> {
    // A fault of the book as one of the desk: where the store has failed, the desk has.
    pub(crate) fn failed(&mut self, fault: BookFault) -> DeskFault
        ensures fault { result ≡ fault_of fault }
        ensures left { self.new ≡ record self.old { working = left_by fault self.old.working } }
    {
        match fault {
            BookFault::NoMemory => DeskFault::NoMemory,
            BookFault::Store => {
                self.working = Working::Failed;
                DeskFault::StoreFault
            }
        }
    }

    // The answer to a fault of the book.
    fn fault(&mut self, fault: BookFault) -> Taken
        ensures answer { result ≡ answer_to fault }
        ensures left { self.new ≡ record self.old { working = left_by fault self.old.working } }
    {
        Taken::from(self.failed(fault))
    }

    // Loads the switch by the rows of the book.
    fn load(&mut self) -> Result<LoadedSwitch, DeskFault>
        requires { self.old.working ≡ Working.Unloaded }
        ensures out { OnOk result (self.new.working ≡ Working.Unloaded) }
        ensures loaded { TakesSwitch B.Book self.old result self.new }
    {
        let rows = match self.book.rows() {
            Ok(rows) => rows,
            Err(fault) => return Err(self.failed(fault)),
        };
        match loaded(self.alloc, &rows) {
            Ok(loaded) => Ok(loaded),
            Err(fault) => Err(self.failed(fault)),
        }
    }

    // Moves the switch out of memory, or loads it. Where it isn't put back, the desk is unloaded.
    pub(crate) fn switch_out(&mut self) -> Result<LoadedSwitch, DeskFault>
        ensures out { OnOk result (self.new.working ≡ Working.Unloaded) }
        ensures loaded { TakesSwitch B.Book self.old result self.new }
    {
        match mem::replace(&mut self.working, Working::Unloaded) {
            Working::Loaded(loaded) => Ok(loaded),
            Working::Unloaded => self.load(),
            Working::Failed => Err(self.failed(BookFault::Store)),
        }
    }

    // The key isn't kept, and the switch is out of the desk.
    fn execute_on(&mut self, loaded: LoadedSwitch, moment: u32, request: &Request) -> Taken
        requires { self.old.working ≡ Working.Unloaded }
        ensures { TookNew B.Book (with_switch self.old loaded) (arrival_at moment request.now)
            result self.new }
    {
        let LoadedSwitch { mut switch } = loaded;
        if switch.is_full() {
            self.working = Working::Loaded(LoadedSwitch { switch });
            return Taken::DeskFull;
        }
        let Ok((done, kept)) = executed(self.alloc, &mut *switch, moment, request) else {
            return Taken::NoMemory;
        };
        match self.book.commit_changes(&done.changes, &done.events, &kept) {
            Ok(()) => {
                self.working = Working::Loaded(LoadedSwitch { switch });
                reply(kept)
            }
            Err(fault) => self.fault(fault),
        }
    }

    // The key isn't kept.
    fn execute(&mut self, moment: u32, request: &Request) -> Taken
        ensures { TookNew B.Book self.old (arrival_at moment request.now) result self.new }
    {
        match self.switch_out() {
            Ok(loaded) => self.execute_on(loaded, moment, request),
            Err(fault) => Taken::from(fault),
        }
    }

    // The answer to one arrival.
    fn answer(&mut self, moment: u32, request: &Request) -> Taken
        ensures took { DeskTook B.Book self.old (arrival_at moment request.now) result self.new }
        ensures shut { HasFailed B.Book self.old → result ≡ Taken.StoreFault }
    {
        if let Working::Failed = self.working {
            return Taken::StoreFault;
        }
        match self.book.kept(&request.requester, request.invoke) {
            Ok(Some(kept)) => answer_again(kept, request),
            Ok(None) => self.execute(moment, request),
            Err(fault) => self.fault(fault),
        }
    }

    /// Takes one arrival: a repeat gets its kept reply, and a request with a new key is executed, at this
    /// moment (in seconds) or at the last one, if that is later.
    ///
    /// Tested in this order: the store failed before, the key is kept, the desk is full.
    pub fn take(&mut self, moment: u32, request: &Request) -> Taken
        ensures took { DeskTook B.Book self.old (arrival_at moment request.now) result self.new }
        ensures ran { DeskRan B.Book self.old (arrival_at moment request.now ∷ []) (result ∷ [])
            self.new }
        ensures shut { HasFailed B.Book self.old → result ≡ Taken.StoreFault }
    {
        self.answer(moment, request)
    }

    /// Executes the arrivals in turn. Where there is no room for the answers, nothing was executed. After a storeFault
    /// nothing else is answered.
    pub fn run(&mut self, arrivals: &[Arrival]) -> Result<Vec<Taken>, AllocError>
        ensures ran { IfOk result
            (λ taken. DeskRan B.Book self.old arrivals.now taken.items self.new) }
        ensures later { IfOk result (λ answers. EndsIn IsStoreFault answers.items) }
        ensures shut { IfOk result (λ answers.
            HasFailed B.Book self.old → Every IsStoreFault answers.items) }
        ensures none { OnErr result (self.new ≡ self.old) }
    {
        let mut answers = Vec::with_capacity(self.alloc, arrivals.len())?;
        for (i, arrival) in arrivals.iter().enumerate() {
            let answer = self.take(arrival.moment, &arrival.request);
            answers.push(answer)?;
        }
        Ok(answers)
    }

    /// A desk over a book whose rows break no rule. It changes nothing.
    pub fn open(alloc: Global, mut book: B) -> Result<Desk<B>, (OpenFault, B)>
        ensures { Opens B.Book book result }
    {
        let rows = match book.rows() {
            Ok(rows) => rows,
            Err(fault) => return Err((OpenFault::from(fault), book)),
        };
        match LoadedSwitch::from_rows(alloc, &rows) {
            Ok(loaded) => Ok(Desk {
                alloc,
                book,
                working: Working::Loaded(loaded),
            }),
            Err(fault) => Err((OpenFault::from(fault), book)),
        }
    }

    /// Whether the desk has failed: it then answers storeFault, and nothing else. It takes no memory.
    pub fn has_failed(&self) -> bool
        ensures { result ≡ (state_of B.Book self.now).failed }
    {
        matches!(self.working, Working::Failed)
    }

    /// The desk's book. It takes no memory.
    pub fn close(self) -> B
        ensures { result ≡ book_of self }
    {
        let Desk {
            alloc: _,
            book,
            working: _,
        } = self;
        book
    }
}

// The reply that is kept.
fn reply(kept: Kept) -> Taken
    ensures { result ≡ Taken.Reply kept.status kept.body }
{
    let Kept { status, body, .. } = kept;
    Taken::Reply { status, body }
}

// The answer to a request whose key is kept.
fn answer_again(kept: Kept, request: &Request) -> Taken
    ensures { result ≡ answer_of (Some kept) request.now }
{
    if is_same(&kept.request, request) {
        reply(kept)
    } else {
        Taken::InvokeReused
    }
}
