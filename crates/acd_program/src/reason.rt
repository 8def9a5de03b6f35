//! The reasons for which a command could not do what it was asked.

use thiserror::Error;

/// What is found at a path whose file isn't opened, or isn't taken for a desk's.
#[derive(Clone, Copy, Debug, Error)]
pub(crate) enum Reason {
    #[error("it isn't there")]
    Absent,
    #[error("it isn't there, and its log holds what was answered: put the file back")]
    AbsentBesideLog,
    #[error("its path goes through what is no folder")]
    BelowNoFolder,
    #[error("it is a folder")]
    Folder,
    #[error("it is no file")]
    NoFile,
    #[error("this user has no permission for it")]
    NoPermission,
    #[error("its disk is read-only")]
    ReadOnlyDisk,
    #[error("it has no bytes")]
    NoBytes,
    #[error("it has no bytes, and its log holds what was answered: put the file back")]
    NoBytesBesideLog,
    #[error("it has a second name (a hard link)")]
    SecondName,
    #[error("it is no database")]
    NoDatabase,
    #[error("it is another program's database")]
    AnotherProgram,
    #[error("it has no desk in it: its first start was stopped")]
    NoDesk,
    #[error("it has a desk's tables, but no version: put the last copy back")]
    NoVersion,
    #[error("its log is no file")]
    LogIsNoFile,
    #[error("this user has no permission for its log")]
    NoPermissionForLog,
    #[error("its log holds requests: acd report lays them in")]
    LogHoldsRequests,
    #[error("a plan has 1,048,576 bytes at most")]
    PlanTooLong,
}
