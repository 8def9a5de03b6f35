//! Laws of the desk, whichever book keeps it: of runs and replies, audits, archives, pages, snapshots and names.
//!
//! Each law is the contract of a function with an empty body, stated in `specs/`. Nothing depends on this crate.
#![tactic(auto)]

ghost use Rattle.acd_desk_laws.specs.DeskLaws.{OneMoreArrival, AnswersByPlace, SoundKeepsLaws, EmptyIsSound, StaysSound, KeepsFirsts, EventsInOrder};
ghost use Rattle.acd_desk_laws.specs.Feeding.{AgainAddsNothing, FedHoldsTheLog, DesksAgree};
ghost use Rattle.acd_desk_laws.specs.AuditLaws.{HasOneAudit, SoundIsOrdered, SoundAgrees};
ghost use Rattle.acd_desk_laws.specs.OldSound.{OldSoundIsSound};
ghost use Rattle.acd_desk_laws.specs.Following.{SnapshotLeadsOn};
ghost use Rattle.acd_desk_laws.specs.Rebuilding.{PagesRebuild};
ghost use Rattle.acd_desk_laws.specs.PageSizes.{PagesAreShort, SoundIsReplied};
ghost use Rattle.acd_desk_laws.specs.NameLaws.{ContentIgnoresNames, AnswersIgnoreNames};
ghost use Rattle.acd_desk_laws.specs.CarriedLaws.{CarriedGoesOn, CarriedIsRunOfAll, CarriedAgain, CarriedOpens, CarriedRuns};
ghost use Rattle.acd_desk_laws.specs.ArchiveLaws.{SoundIsLed, LedIsSound, AuditsWithArchive, AuditsLinkByLink, SoundStandsInTime};
ghost use Rattle.acd_desk_laws.specs.PruneLaws.{LedHoldsArchive, PruneLosesNothing, PruneStaysSound, PruneStaysLed, PruneStaysSentAgain, PruneCarriesFurther};

use acd_book::Book;

/// One more arrival leads from the run of a list to the run of the longer list.
pub fn one_more_arrival()
    ensures { OneMoreArrival }
{}

/// An answer, which is looked up by its key, is that of the first arrival of its key.
pub fn answers_by_place()
    ensures { AnswersByPlace }
{}

/// A sound content keeps the laws of runs, and breaks no rule of rows.
pub fn sound_keeps_laws()
    ensures { SoundKeepsLaws }
{}

/// A new book is sound, where its limits fit.
pub fn new_book_is_sound()
    ensures { EmptyIsSound }
{}

/// One more arrival leaves a sound content sound.
pub fn stays_sound()
    ensures { StaysSound }
{}

/// A run keeps the first arrivals of the list, each at its executed moment.
pub fn keeps_firsts()
    ensures { KeepsFirsts }
{}

/// The events of a sound content are in ascending number, each above 0.
pub fn events_in_order()
    ensures { EventsInOrder }
{}

/// A content has one audit, and a sound one is in order, so that its audit is Sound.
pub fn one_audit()
    ensures one { HasOneAudit }
    ensures ordered { SoundIsOrdered }
    ensures agrees { SoundAgrees }
{}

/// A log may be fed in parts, some of them again: that adds nothing, and all desks that were fed it hold the same
/// and answer the same.
pub fn one_log_many_desks()
    ensures again { AgainAddsNothing }
    ensures holds { FedHoldsTheLog }
    ensures agree { DesksAgree }
{}

/// A content that was sound while an agent was in one group and groups had no priority is sound.
pub fn old_sound_is_sound()
    ensures { OldSoundIsSound }
{}

/// The events above a content's last number change what it shows of connections, agents and figures to what each later
/// one shows: a client that gets a snapshot and then follows the events misses none, and gets none twice.
pub fn snapshot_leads_on()
    ensures { SnapshotLeadsOn }
{}

/// Reads of a sound content page by page, each from the stamp of the last request of the one before, make a beginning
/// of the run: the same requests at the same moments, with the same replies. Where a page is empty, or the last stamp
/// that was read is the last one, they make the whole content.
pub fn pages_rebuild()
    ensures { PagesRebuild }
{}

/// A page of executed requests has at most 600,000 bytes, where what is kept are replies of the desk. So they are in a sound content.
pub fn pages_are_short()
    ensures short { PagesAreShort }
    ensures sound { SoundIsReplied }
{}

/// Lists of arrivals that differ in names alone leave the same events and replies, and rows that differ in names alone;
/// and where in neither list two arrivals have one key and ask something else, each is answered as its fellow.
pub fn names_are_inert()
    ensures content { ContentIgnoresNames }
    ensures answers { AnswersIgnoreNames }
{}

/// Over a content whose older records are in an archive, no request that these have being sent again, answers, rows,
/// events and kept replies are those over both together; where both together are sound, they are the run of all that
/// was ever kept, and the rest is sound with the archive. It may be carried over again, and a desk opens over it.
pub fn carried_goes_on()
    ensures on { CarriedGoesOn }
    ensures all { CarriedIsRunOfAll }
    ensures again { CarriedAgain }
    ensures opens { CarriedOpens }
{}

/// Whatever leads a book from such a content by a run keeps the headline, of archive and book together.
pub fn carried_runs<B: Book>()
    ensures { CarriedRuns B.Book }
{}

/// A content that continues a sound archive, with the archive's last records and what its newer requests make of the
/// archive's state, is sound with it; of a chain of archives each continues the one before.
pub fn audits_with_archive()
    ensures one { AuditsWithArchive }
    ensures links { AuditsLinkByLink }
    ensures in_time { SoundStandsInTime }
{}

/// A content that is sound with its archive is what its newer requests make of the part that was carried over.
pub fn sound_is_led()
    ensures { SoundIsLed }
{}

/// A content that is what its newer requests make of the part that was carried over is sound with its archive, where
/// none of these requests has a key that was left there.
pub fn led_is_sound()
    ensures { LedIsSound }
{}

/// A content that continues an archive, and from which records are taken that the archive has, up to a place where the
/// moment changes: an audit with the archive says afterwards what it said before, sound or sent again.
pub fn audits_alike_when_pruned()
    ensures sound { PruneStaysSound }
    ensures led { PruneStaysLed }
    ensures again { PruneStaysSentAgain }
{}

/// Where an audit with the archive found it sound or sent again, it begins with the archive's last records; then nothing
/// is gone from it that the archive hasn't, in one piece; and with that piece among the older records it is what it was,
/// and as sound.
pub fn pruned_is_carried()
    ensures holds { LedHoldsArchive }
    ensures gone { PruneLosesNothing }
    ensures further { PruneCarriesFurther }
{}
