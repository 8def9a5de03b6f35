//! The desk's own clock: its tick, and when that is handed in.

ghost use Rattle.std.specs.Prelude.{◌≡◌, ◌++◌, codes, decimal};
ghost use Rattle.acd_desk.specs.Desks.DeskState.{state_of};
ghost use Rattle.acd_desk.specs.Desks.Clock.{clock_requester, clock_tick, may_be_due, DeskLooked};
ghost use Rattle.acd_desk.specs.Desks.LoadedDesk.{DeskBrings};

use crate::desk::Desk;
use crate::fault::DeskFault;
use crate::taken::Taken;
use crate::working::Working;
use acd_book::Book;
use acd_terms::{Command, Invoke, Request, Requester};
use itoa::Buffer;

// The requester of the clock at the moment.
fn clock_requester(moment: u32) -> Requester
    ensures { result ≡ clock_requester moment }
{
    let mut digits = Buffer::new();
    let digits = digits.format(moment).as_bytes();
    let mut text = [0; 32];
    let end = 6 + digits.len();
    text[..6].copy_from_slice(b"clock-");
    text[6..end].copy_from_slice(digits);
    Requester::read(&text[..end]).unwrap()
}

/// The request of the clock: a tick whose key is the requester `clock-` and the moment in decimal, and the invoke
/// number 1. Who reads the clock at the same second again sends the same request. It takes no memory.
pub fn clock_tick(moment: u32) -> Request
    ensures { result ≡ clock_tick moment }
{
    Request {
        requester: clock_requester(moment),
        invoke: Invoke::new(1).unwrap(),
        command: Command::Tick,
    }
}

impl<B: Book> Desk<B> {
    /// Whether some offer or after-call work has lasted its group's time at the moment, or at the last executed one, if
    /// that is later. Where the switch isn't in memory, it is true. It takes no memory.
    pub fn is_due(&self, moment: u32) -> bool
        ensures { result ≡ may_be_due (state_of B.Book self.now).switch moment }
    {
        match &self.working {
            Working::Loaded(loaded) => loaded.switch.is_due(moment),
            Working::Unloaded | Working::Failed => true,
        }
    }

    // Loads the switch, where it isn't in memory.
    fn bring_switch(&mut self) -> Result<(), DeskFault>
        ensures { DeskBrings B.Book self.old result self.new }
    {
        if let Working::Loaded(_) = self.working {
            return Ok(());
        }
        let loaded = self.switch_out()?;
        self.working = Working::Loaded(loaded);
        Ok(())
    }

    /// Takes the clock's tick ([`clock_tick`]) where something is due ([`Desk::is_due`]), and answers what was taken. None
    /// where nothing is due. A switch that isn't in memory is loaded first; where it can't be, the fault is the answer.
    pub fn tick_if_due(&mut self, moment: u32) -> Option<Taken>
        ensures { DeskLooked B.Book moment self.old result self.new }
    {
        if let Err(fault) = self.bring_switch() {
            return Some(Taken::from(fault));
        }
        if self.is_due(moment) {
            Some(self.take(moment, &clock_tick(moment)))
        } else {
            None
        }
    }
}
