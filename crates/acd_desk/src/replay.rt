//! The kept requests of a book run again, and compared with what it holds.

ghost use Rattle.std.specs.Prelude.{◌≡◌, cond, true, [], Some, option_map, IfOk, OnOk};
ghost use Rattle.std.specs.Bool.{Decides};
ghost use Rattle.acd_book.specs.Content.{Content, events_after};
ghost use Rattle.acd_book.specs.Memory.{stamp_of};
ghost use Rattle.acd_book.specs.State.{BookReads};
ghost use Rattle.acd_terms.specs.Limits.{limits_fit};
ghost use Rattle.acd_terms.specs.Rows.{empty_rows};
ghost use Rattle.acd_model.specs.Rules.First.{BreaksNoRule};
ghost use Rattle.acd_desk.specs.Contents.AbstractDesk.{stepped};
ghost use Rattle.acd_desk.specs.Audits.Audit.{IsAudit};
ghost use Rattle.acd_desk.specs.Reads.Pages.{IsPageOf};
ghost use Rattle.acd_book.specs.BookReads.{MayRead, BookDecides, IfOrdered};
ghost use Rattle.acd_desk.specs.Audits.Replay.{HasRoom, again, IsFirstOfKey, IsFirstWith, DecidesFirst, DecidesNext, DecidesKnown, Matches, IsEnd, BeginsReplay, BeginsEmpty, Plays, StepsOn, IsStep, CountsOne, IsAll};

use crate::audit::Audit;
use crate::executing::executed;
use crate::page::Page;
use crate::placed::Placed;
use crate::progress::Progress;
use crate::same::{are_same_events, are_same_rows};
use crate::seen_keys::SeenKeys;
use crate::working::LoadedSwitch;
use acd_book::{Book, BookFault, Kept};
use acd_switch::Switch;
use acd_terms::{Event, Limits};
use std::alloc::{AllocError, Global};

/// A replay of kept requests: the switch after the records that it has come past, the keys of these, and events that
/// were read ahead.
#[derive(Drop)]
pub(crate) struct Replay {
    pub(crate) loaded: LoadedSwitch,
    pub(crate) keys: SeenKeys,
    pub(crate) page: Page<Event>,
}

// The result of a step of a replay.
#[derive(Drop)]
enum Step {
    // The next record and its events are what its request gives.
    Replayed(Replay),
    // They aren't; or no record is left, but some event is, or the tables differ.
    Differs,
    // No record and no event is left, and the tables are the same.
    Ended,
}

// Whether there is such a record, with this stamp.
fn has_stamp(found: Option<Kept>, stamp: u64) -> bool
    ensures { Decides result (option_map stamp_of found ≡ Some stamp) }
{
    match found {
        Some(kept) => kept.stamp == stamp,
        None => false,
    }
}

// Whether no earlier record has its key.
fn is_first_of_key<B: Book>(book: &mut B, kept: &Kept) -> Result<bool, BookFault>
    ensures { BookDecides B.state book.old book.new result (λ c. IsFirstOfKey c kept.now) }
{
    let first = book.kept(&kept.request.requester, kept.request.invoke)?;
    Ok(has_stamp(first, kept.stamp))
}

// The same. The book is asked where the key may have been seen.
fn is_new_key<B: Book>(book: &mut B, keys: &SeenKeys, kept: &Kept) -> Result<bool, BookFault>
    ensures { MayRead B.state book.old book.new result (DecidesFirst keys.now kept.now) }
{
    if !keys.has(&kept.request) {
        return Ok(true);
    }
    is_first_of_key(book, kept)
}

// Whether these events come first above a number.
fn has_events<B: Book>(
    alloc: Global,
    book: &mut B,
    page: &mut Page<Event>,
    last: u64,
    events: &[Event],
) -> Result<bool, BookFault>
    ensures { MayRead B.state book.old book.new result
        (DecidesNext page.old page.new last events.now) }
{
    let found = page.events_after(alloc, book, last, events.len())?;
    Ok(are_same_events(&found, events))
}

// Whether no earlier record has the key of a record, and these events come first above a number.
fn is_first_with<B: Book>(
    alloc: Global,
    book: &mut B,
    keys: &SeenKeys,
    page: &mut Page<Event>,
    kept: &Kept,
    last: u64,
    events: &[Event],
) -> Result<bool, BookFault>
    ensures { MayRead B.state book.old book.new result
        (DecidesKnown keys.now (page.old, page.new) kept.now
        (IsFirstWith kept.now last events.now)) }
{
    let is_new = is_new_key(book, keys, kept)?;
    if !is_new {
        return Ok(false);
    }
    has_events(alloc, book, page, last, events)
}

// Executes a kept request again, and answers whether its record and events are what it gives.
fn replays_as_kept<B: Book>(
    alloc: Global,
    book: &mut B,
    switch: &mut Switch,
    keys: &SeenKeys,
    page: &mut Page<Event>,
    kept: &Kept,
) -> Result<bool, BookFault>
    requires rules { BreaksNoRule switch.old }
    requires room { HasRoom switch.old }
    ensures read { MayRead B.state book.old book.new result
        (DecidesKnown keys.now (page.old, page.new) kept.now
        (λ c. Matches c switch.old kept.now)) }
    ensures stepped { OnOk result (switch.new ≡ (stepped switch.old (again kept.now)).rows) }
    ensures rules { OnOk result (BreaksNoRule switch.new) }
{
    let last = switch.tables().last_event();
    let prepared = executed(alloc, switch, kept.moment, &kept.request)?;
    let (done, expected) = prepared;
    if !kept.is_same(&expected) {
        return Ok(false);
    }
    is_first_with(alloc, book, keys, page, kept, last, &done.events)
}

// Whether no event is left after a number.
fn has_ended<B: Book>(book: &mut B, last: u64) -> Result<bool, BookFault>
    ensures { BookDecides B.state book.old book.new result
        (λ c. events_after c.events last 1 ≡ []) }
{
    let surplus = book.events_after(last, 1)?;
    Ok(surplus.is_empty())
}

// Whether the tables are those of the replay.
fn has_tables<B: Book>(book: &mut B, switch: &Switch) -> Result<bool, BookFault>
    ensures { BookDecides B.state book.old book.new result (λ c. c.rows ≡ switch.now) }
{
    let rows = book.rows()?;
    let replayed = switch.rows()?;
    Ok(are_same_rows(&rows, &replayed))
}

/// Whether no event is left after a replay, and the tables are those of the replay.
pub(crate) fn is_whole<B: Book>(book: &mut B, switch: &Switch) -> Result<bool, BookFault>
    ensures { BookDecides B.state book.old book.new result (λ c. IsEnd c switch.now) }
{
    if has_ended(book, switch.tables().last_event())? {
        has_tables(book, switch)
    } else {
        Ok(false)
    }
}

// The step at which no record is left.
fn last_step(is_whole: bool) -> Step
    ensures { result ≡ cond is_whole Step.Ended Step.Differs }
{
    if is_whole { Step::Ended } else { Step::Differs }
}

/// Whether a replay has come past all that is kept.
pub(crate) fn is_all<B: Book>(book: &mut B, switch: &Switch) -> Result<bool, BookFault>
    ensures { BookReads B.state book.old book.new result (λ c found. IsAll c switch.now found) }
{
    let Some(_) = book.kept_after(switch.last_stamp())? else {
        return is_whole(book, switch);
    };
    Ok(false)
}

// A switch of empty tables.
fn empty_switch(alloc: Global, limits: Limits) -> Result<LoadedSwitch, AllocError>
    requires { limits_fit limits ≡ true }
    ensures { IfOk result (λ loaded. loaded.switch.value ≡ empty_rows limits) }
{
    let switch = Box::new(alloc, Switch::new(alloc, limits))?;
    Ok(LoadedSwitch { switch })
}

impl Replay {
    /// A replay from this switch on.
    pub(crate) fn from(alloc: Global, loaded: LoadedSwitch) -> Result<Replay, AllocError>
        ensures rows { IfOk result (λ replay. replay.loaded.switch.value ≡ loaded.switch.value) }
        ensures page { IfOk result (λ replay. (c : Content) → IsPageOf c replay.page) }
    {
        let keys = SeenKeys::none(alloc)?;
        let page = Page::empty(alloc);
        Ok(Replay { loaded, keys, page })
    }

    // A replay from an empty switch on.
    fn new(alloc: Global, limits: Limits) -> Result<Replay, AllocError>
        requires { limits_fit limits ≡ true }
        ensures rows { IfOk result (λ replay. replay.loaded.switch.value ≡ empty_rows limits) }
        ensures page { IfOk result (λ replay. (c : Content) → IsPageOf c replay.page) }
    {
        let loaded = empty_switch(alloc, limits)?;
        Replay::from(alloc, loaded)
    }

    // The same under the limits of the book, where they fit.
    fn start<B: Book>(alloc: Global, book: &mut B) -> Result<Option<Replay>, BookFault>
        ensures read { BookReads B.state book.old book.new result BeginsReplay }
        ensures empty { IfOk result BeginsEmpty }
    {
        let limits = book.limits()?;
        if limits.fits() {
            Ok(Some(Replay::new(alloc, limits)?))
        } else {
            Ok(None)
        }
    }

    /// Replays a record, and goes on where the record and its events are what its request gives.
    pub(crate) fn replayed<B: Book>(
        self,
        alloc: Global,
        book: &mut B,
        kept: &Kept,
    ) -> Result<Option<Replay>, BookFault>
        requires { HasRoom self.loaded.switch.value }
        ensures read { MayRead B.state book.old book.new result (Plays self kept.now) }
        ensures stepped { IfOk result (StepsOn self.loaded.switch.value kept.now) }
    {
        let Replay {
            loaded,
            mut keys,
            mut page,
        } = self;
        let LoadedSwitch { mut switch } = loaded;
        let matches = replays_as_kept(alloc, book, &mut *switch, &keys, &mut page, kept)?;
        if !matches {
            return Ok(None);
        }
        keys.insert(&kept.request);
        let loaded = LoadedSwitch { switch };
        Ok(Some(Replay { loaded, keys, page }))
    }

    // Replays the next record, where one is left.
    fn next<B: Book, P: Progress>(
        self,
        alloc: Global,
        book: &mut B,
        progress: &mut P,
    ) -> Result<Step, BookFault>
        requires { HasRoom self.loaded.switch.value }
        ensures read { BookReads B.state book.old book.new result (λ c found. IsStep c self found) }
        ensures counts { IfOk result (CountsOne self.loaded.switch.value) }
    {
        let Some(kept) = book.kept_after(self.loaded.switch.last_stamp())? else {
            return Ok(last_step(is_whole(book, &self.loaded.switch)?));
        };
        progress.reached(kept.stamp);
        match self.replayed(alloc, book, &kept)? {
            Some(next) => Ok(Step::Replayed(next)),
            None => Ok(Step::Differs),
        }
    }
}

/// Replays the kept requests from an empty switch, record by record, and compares what they give with what is kept.
/// Beside the tables it has one record and a page of events in memory at a time, and a record of the keys seen that has
/// the same size however many there are.
pub(crate) fn audited<B: Book, P: Progress>(
    alloc: Global,
    book: &mut B,
    progress: &mut P,
) -> Result<Audit, BookFault>
    ensures { BookReads B.state book.old book.new result (IfOrdered IsAudit) }
{
    let Some(first) = Replay::start(alloc, book)? else {
        return Ok(Audit::Differs(1));
    };
    let most = first.loaded.switch.tables().limits().requests;
    let mut replay = first;
    for count in 0..most {
        match replay.next(alloc, book, progress)? {
            Step::Replayed(next) => replay = next,
            Step::Differs => return Ok(Audit::Differs(count + 1)),
            Step::Ended => return Ok(Audit::Sound),
        }
    }
    let all = is_all(book, &replay.loaded.switch)?;
    if all {
        Ok(Audit::Sound)
    } else {
        Ok(Audit::Differs(most + 1))
    }
}
