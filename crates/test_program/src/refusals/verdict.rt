//! Verdicts on calls.

use dmr_pdu::OutOfMemory;

/// The verdict on a call.
#[derive(Clone, Copy, Debug, PartialEq, Eq)]
pub enum Verdict {
    /// The call did its work.
    Done,
    /// Memory was refused; the call returned its error for that and kept its promise.
    Refused,
    /// There was no memory to make the value that it is called on.
    NotTried,
    /// Anything else.
    Wrong,
}

impl Verdict {
    /// Returns the words for the verdict.
    pub fn words(self) -> &'static str {
        match self {
            Verdict::Done => "done",
            Verdict::Refused => "refused",
            Verdict::NotTried => "not tried",
            Verdict::Wrong => "wrong",
        }
    }
}

/// Returns this verdict if everything is right, otherwise `Wrong`.
pub fn verdict_if(right: bool, verdict: Verdict) -> Verdict {
    if right { verdict } else { Verdict::Wrong }
}

/// Returns whether something was made, and drops it.
pub fn is_made<T: Drop>(made: Result<T, OutOfMemory>) -> bool {
    made.is_ok()
}

/// Returns the verdict on a copy. The copy has to equal `alike`, which was made in the same way; if the copy was
/// refused, the original still has to equal it.
pub fn verdict_of_copy<T: PartialEq + Drop>(
    copy: Result<T, OutOfMemory>,
    copied: T,
    alike: T,
) -> Verdict {
    match copy {
        Ok(copy) => verdict_if(copy == alike, Verdict::Done),
        Err(_) => verdict_if(copied == alike, Verdict::Refused),
    }
}
