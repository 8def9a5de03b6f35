//! When the desk is looked at, and what is told of it.

ghost use Rattle.std.specs.Prelude.{◌≡◌, false, [], cond, is_some, Ok};
ghost use Rattle.std.specs.Option.{is_none};
ghost use Rattle.acd_lines.specs.Lines.{written};
ghost use Rattle.acd_http.specs.ConnectionsInTurn.{PrintsText};
ghost use Rattle.acd_http.specs.Turns.{LookedOnce, LooksAtClock, tick_line};

use crate::moment::moment_now;
use crate::serving::Span;
use acd_book::Book;
use acd_desk::{Desk, Taken};
use acd_io::{Stopped, most_calls, send};
use std::io::Write;
use std::time::{Clock, Duration, Instant};

/// How many seconds a fault isn't told again.
const QUIET_SECONDS: u64 = 3600;

// When each fault of a tick was told last.
#[derive(Drop)]
struct Told {
    no_memory: Option<Instant>,
    store_fault: Option<Instant>,
    desk_full: Option<Instant>,
}

/// What a service knows of its looks at the desk, and of the lines that it has written.
#[derive(Drop)]
pub(crate) struct Watch {
    last: Option<Instant>,
    told: Told,
    pub(crate) printed: Result<(), Stopped>,
}

// Whether it is told now: it wasn't in the last hour.
fn is_told(last: &mut Option<Instant>, now: Instant) -> bool {
    if let Some(then) = *last
        && now.duration_since(then).as_secs() < QUIET_SECONDS
    {
        return false;
    }
    *last = Some(now);
    true
}

impl Told {
    // Whether the answer to a tick is told now.
    fn tells(&mut self, now: Instant, taken: &Option<Taken>) -> bool {
        match taken {
            Some(Taken::NoMemory) => is_told(&mut self.no_memory, now),
            Some(Taken::StoreFault) => is_told(&mut self.store_fault, now),
            Some(Taken::DeskFull) => is_told(&mut self.desk_full, now),
            Some(Taken::Reply { .. }) | Some(Taken::InvokeReused) | None => false,
        }
    }
}

#[tactic(auto, unfolding(crate::specs::Turns::tick_line))]
fn tick_line(taken: &Option<Taken>) -> &'static [u8]
    ensures { result.now ≡ tick_line taken.now }
{
    match taken {
        Some(Taken::NoMemory) => b"acd: tick: no memory\n",
        Some(Taken::StoreFault) => b"acd: tick: store fault\n",
        Some(Taken::DeskFull) => b"acd: tick: desk full\n",
        Some(Taken::Reply { .. }) | Some(Taken::InvokeReused) | None => b"",
    }
}

// The line of a look, where it is told.
fn told_line(taken: &Option<Taken>, told: bool) -> &'static [u8]
    ensures { result.now ≡ cond told (tick_line taken.now) [] }
{
    if told { tick_line(taken) } else { b"" }
}

// Writes a line, unless a line before it could not be written.
fn print_line<E: Write>(
    printed: Result<(), Stopped>,
    errors: &mut E,
    line: &[u8],
) -> Result<(), Stopped>
    ensures { PrintsText line.now printed (written E.Write errors) result }
{
    printed?;
    let mut calls = most_calls();
    send(errors, &mut calls, line)
}

impl Watch {
    pub(crate) fn new() -> Watch
        ensures { result.printed ≡ Ok tt }
    {
        Watch {
            last: None,
            told: Told {
                no_memory: None,
                store_fault: None,
                desk_full: None,
            },
            printed: Ok(()),
        }
    }

    // What is left until the next look.
    fn left(&self, clock: &impl Clock, step: Duration) -> Duration {
        let Some(last) = self.last else {
            return Duration::ZERO;
        };
        match last.elapsed(clock) {
            Ok(spent) => step.saturating_sub(spent),
            Err(_) => Duration::ZERO,
        }
    }

    /// How long a connection is waited for before the next look, where there is one.
    pub(crate) fn time_left(&self, clock: &impl Clock, step: Option<Duration>) -> Option<Duration> {
        let step = step?;
        let left = self.left(clock, step);
        Some(if left.is_zero() { step } else { left })
    }

    // Whether the answer to a tick is told now: each fault is once an hour, at most.
    fn tells(&mut self, clock: &impl Clock, taken: &Option<Taken>) -> bool
        ensures { self.new.printed ≡ self.old.printed }
    {
        match Instant::now(clock) {
            Ok(now) => self.told.tells(now, taken),
            Err(_) => false,
        }
    }

    // Looks at the desk, by the clock's moment, and has it tick where something is overdue.
    fn look<B: Book, C: Clock, E: Write>(&mut self, clock: &C, desk: &mut Desk<B>, errors: &mut E)
        ensures { LookedOnce B.Book desk self (written E.Write errors) }
    {
        self.last = Instant::now(clock).ok();
        let taken = desk.tick_if_due(moment_now(clock));
        let told = self.tells(clock, &taken);
        self.printed = print_line(self.printed, errors, told_line(&taken, told));
    }

    /// Looks at the desk where it is time, and the desk hasn't failed.
    pub(crate) fn look_in_time<B: Book, C: Clock, E: Write>(
        &mut self,
        clock: &C,
        span: Span,
        desk: &mut Desk<B>,
        errors: &mut E,
    )
        ensures { LooksAtClock B.Book span desk self (written E.Write errors) }
    {
        let Some(step) = span.step else {
            return;
        };
        if desk.has_failed() || !self.left(clock, step).is_zero() {
            return;
        }
        self.look(clock, desk, errors);
    }
}
