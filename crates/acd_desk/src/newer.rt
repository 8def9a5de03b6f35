//! The requests of a book that are newer than its archive run again, from the archive's state on.

ghost use Rattle.std.specs.Prelude.{◌≡◌, ◌+◌, IfOk};
ghost use Rattle.acd_book.specs.State.{BookFinds};
ghost use Rattle.acd_book.specs.BookReads.{MayRead};
ghost use Rattle.acd_desk.specs.Audits.Pairs.{BorrowsSame, BothRead, by_opening};
ghost use Rattle.acd_desk.specs.Audits.Replay.{HasRoom};
ghost use Rattle.acd_desk.specs.Audits.ReplayWith.{is_kept, IsSwitchOf, Notes, first_of_both, with_first, PlaysWith, StepsOnWith, answer_at_end, IsStepWith, CountsOneWith, AuditsFrom, AuditsInOrder};

use crate::audit::ArchiveAudit;
use crate::open_fault::OpenFault;
use crate::overlap::Cut;
use crate::pair::{Pair, PairFault, of_archive, of_current, of_opening};
use crate::progress::Progress;
use crate::replay::{Replay, is_all, is_whole};
use crate::working::LoadedSwitch;
use acd_book::{Book, BookFault, Kept};
use acd_terms::Request;
use std::alloc::Global;

/// How far a replay from an archive on has come, and the stamp of the first request that was sent again: of the first
/// record whose key was left in the archive.
#[derive(Drop)]
pub(crate) struct NewerReplay {
    pub(crate) replay: Replay,
    pub(crate) sent_again: Option<u64>,
}

/// The result of a step of such a replay.
#[derive(Drop)]
pub(crate) enum NewerStep {
    /// The next record and its events are what its request gives.
    Replayed(NewerReplay),
    /// They aren't, or no record is left: the answer of the audit.
    Ended(ArchiveAudit),
}

// Whether the archive has a record of this key.
fn is_known<A: Book>(archive: &mut A, kept: &Kept) -> Result<bool, BookFault>
    ensures { BookFinds A.state archive.old archive.new result (is_kept kept.now.request) }
{
    let found = archive.kept(&kept.request.requester, kept.request.invoke)?;
    Ok(found.is_some())
}

// The same replay, to which a key that the archive has counts as seen: whether it is new to the book is asked there.
fn noted(replay: Replay, known: bool, request: &Request) -> Replay
    ensures { Notes replay known request.now result }
{
    let mut replay = replay;
    if known {
        replay.keys.insert(request);
    }
    replay
}

// The stamp of the first request that was sent again: the one before, or this one where the archive has its key.
fn first_of_both(first: Option<u64>, known: bool, stamp: u64) -> Option<u64>
    ensures { result ≡ first_of_both first known stamp }
{
    match first {
        Some(first) => Some(first),
        None if known => Some(stamp),
        None => None,
    }
}

// A replay that went on, with the stamp of the first request that was sent again.
fn with_first(played: Option<Replay>, sent_again: Option<u64>) -> Option<NewerReplay>
    ensures { result ≡ with_first sent_again played }
{
    match played {
        Some(replay) => Some(NewerReplay { replay, sent_again }),
        None => None,
    }
}

// The stamp after the last one. The limit of requests is far below the end of its type.
fn next_stamp(loaded: &LoadedSwitch) -> u64
    ensures { result ≡ loaded.now.switch.value.last_stamp + 1 }
{
    loaded.switch.last_stamp() + 1
}

// The answer where no record is left: whether all else is as it has to be is known.
fn answer_at_end(newer: &NewerReplay, whole: bool) -> ArchiveAudit
    ensures { result ≡ answer_at_end newer.now whole }
{
    if !whole {
        return ArchiveAudit::Differs(next_stamp(&newer.replay.loaded));
    }
    match newer.sent_again {
        Some(first) => ArchiveAudit::SentAgain(first),
        None => ArchiveAudit::Sound,
    }
}

// A switch of the archive's rows, which break no rule.
fn archive_switch<A: Book>(alloc: Global, archive: &mut A) -> Result<LoadedSwitch, OpenFault>
    ensures { MayRead A.state archive.old archive.new (by_opening result) IsSwitchOf }
{
    let rows = match archive.rows() {
        Ok(rows) => rows,
        Err(fault) => return Err(OpenFault::from(fault)),
    };
    match LoadedSwitch::from_rows(alloc, &rows) {
        Ok(loaded) => Ok(loaded),
        Err(fault) => Err(OpenFault::from(fault)),
    }
}

// The counters of a switch.
fn last_of(loaded: &LoadedSwitch) -> Cut
    ensures stamp { result.stamp ≡ loaded.now.switch.value.last_stamp }
    ensures number { result.number ≡ loaded.now.switch.value.last_event }
{
    Cut {
        stamp: loaded.switch.last_stamp(),
        number: loaded.switch.tables().last_event(),
    }
}

impl<A: Book, B: Book> Pair<'_, A, B> {
    // Replays a record, and looks whether its key was left in the archive.
    fn replayed(
        &mut self,
        alloc: Global,
        newer: NewerReplay,
        kept: &Kept,
    ) -> Result<Option<NewerReplay>, PairFault>
        requires { HasRoom newer.replay.loaded.switch.value }
        ensures same { BorrowsSame self.old self.new }
        ensures read { BothRead A.state B.state (self.old, self.new) result
            (PlaysWith newer kept.now) }
        ensures stepped { IfOk result (StepsOnWith newer.replay.loaded.switch.value kept.now) }
    {
        let known = of_archive(is_known(&mut *self.archive, kept))?;
        let NewerReplay { replay, sent_again } = newer;
        let replay = noted(replay, known, &kept.request);
        let played = of_current(replay.replayed(alloc, &mut *self.book, kept))?;
        Ok(with_first(played, first_of_both(sent_again, known, kept.stamp)))
    }

    // Replays the next record, where one is left.
    fn next_newer<P: Progress>(
        &mut self,
        alloc: Global,
        newer: NewerReplay,
        progress: &mut P,
    ) -> Result<NewerStep, PairFault>
        requires { HasRoom newer.replay.loaded.switch.value }
        ensures same { BorrowsSame self.old self.new }
        ensures read { BothRead A.state B.state (self.old, self.new) result
            (IsStepWith newer) }
        ensures counts { IfOk result (CountsOneWith newer.replay.loaded.switch.value) }
    {
        let next = next_stamp(&newer.replay.loaded);
        let last = newer.replay.loaded.switch.last_stamp();
        let Some(kept) = of_current(self.book.kept_after(last))? else {
            let whole = of_current(is_whole(&mut *self.book, &newer.replay.loaded.switch))?;
            return Ok(NewerStep::Ended(answer_at_end(&newer, whole)));
        };
        progress.reached(kept.stamp);
        match self.replayed(alloc, newer, &kept)? {
            Some(newer) => Ok(NewerStep::Replayed(newer)),
            None => Ok(NewerStep::Ended(ArchiveAudit::Differs(next))),
        }
    }

    // Replays all that is newer than the archive, from its state on.
    fn audited_newer<P: Progress>(
        &mut self,
        alloc: Global,
        first: Replay,
        progress: &mut P,
    ) -> Result<ArchiveAudit, PairFault>
        ensures same { BorrowsSame self.old self.new }
        ensures read { BothRead A.state B.state (self.old, self.new) result (AuditsFrom first) }
    {
        let start = first.loaded.switch.last_stamp();
        let most = first.loaded.switch.tables().limits().requests;
        let mut newer = NewerReplay {
            replay: first,
            sent_again: None,
        };
        for _ in start..most {
            match self.next_newer(alloc, newer, progress)? {
                NewerStep::Replayed(next) => newer = next,
                NewerStep::Ended(found) => return Ok(found),
            }
        }
        let all = of_current(is_all(&mut *self.book, &newer.replay.loaded.switch))?;
        Ok(answer_at_end(&newer, all))
    }

    /// Compares the records of the book up to its archive's last stamp with those of the archive, and replays the newer
    /// ones from the archive's state on.
    pub(crate) fn audited<P: Progress>(
        &mut self,
        alloc: Global,
        progress: &mut P,
    ) -> Result<ArchiveAudit, PairFault>
        ensures same { BorrowsSame self.old self.new }
        ensures read { BothRead A.state B.state (self.old, self.new) result AuditsInOrder }
    {
        let loaded = of_opening(archive_switch(alloc, &mut *self.archive))?;
        let other = self.other_place(alloc, last_of(&loaded), progress)?;
        if let Some(place) = other {
            return Ok(ArchiveAudit::Differs(place));
        }
        let first = Replay::from(alloc, loaded)?;
        self.audited_newer(alloc, first, progress)
    }
}
