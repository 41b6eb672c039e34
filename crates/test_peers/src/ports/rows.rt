//! A script of peers, with what is to come of it.

/// A script, and what comes of it.
pub(super) struct Row {
    /// The name in a failure.
    pub(super) name: &'static str,
    /// After how many waits of 100 ms a connection is silent.
    pub(super) silence: u16,
    /// When the clock stops, in milliseconds.
    pub(super) until: u64,
    /// What peers do.
    pub(super) script: &'static str,
    /// The notes; after `..` only the last ones.
    pub(super) notes: &'static str,
    /// The number of octets that the link got.
    pub(super) got: usize,
    /// The number of reads that the port asked of the system, if that matters.
    pub(super) reads: Option<usize>,
}
