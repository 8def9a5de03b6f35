//! How far an audit has come, for those who wait for its answer.

/// Is told how far an audit has come. `()` shows nothing.
pub trait Progress {
    /// All records before this stamp were replayed, or are those of the archive.
    fn reached(&mut self, stamp: u64);
}

impl Progress for () {
    fn reached(&mut self, _stamp: u64) {}
}
