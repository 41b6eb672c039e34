//! The number of notes in a minute, so that peers cannot fill the operator's log.

ghost use Rattle.std.specs.Prelude.{◌≡◌};
ghost use Rattle.dmr_port.specs.NoteLimit.{fresh_limit, limit_after, verdict_on_note};

/// The milliseconds of a minute.
const MINUTE_MS: u64 = 60_000;

/// The most notes of a kind in a minute (this project's profile).
const NOTES_A_MINUTE: u32 = 20;

/// What is done with a note.
#[derive(Clone, Copy, Debug, PartialEq, Eq)]
pub enum NoteVerdict {
    /// It is written.
    Write,
    /// It is written, after a note of this number of notes that were not.
    WriteAfter(u32),
    /// It is not written.
    Drop,
}

/// The notes of one kind: when the present minute began, and how many were written and not written since then.
#[derive(Clone, Copy, Debug, PartialEq, Eq)]
pub struct NoteLimit {
    minute_began: u64,
    written: u32,
    dropped: u32,
}

impl NoteLimit {
    /// Makes the limit of a kind of which there was no note.
    pub fn new() -> NoteLimit
        ensures { result ≡ fresh_limit }
    {
        NoteLimit {
            minute_began: 0,
            written: 0,
            dropped: 0,
        }
    }

    /// Returns what is done with a note at this time, and counts it.
    pub fn count(&mut self, now: u64) -> NoteVerdict
        ensures verdict { result ≡ verdict_on_note now self.old }
        ensures counted { self.new ≡ limit_after now self.old }
    {
        if now.saturating_sub(self.minute_began) >= MINUTE_MS {
            let dropped = self.dropped;
            *self = NoteLimit {
                minute_began: now,
                written: 1,
                dropped: 0,
            };
            return if dropped == 0 {
                NoteVerdict::Write
            } else {
                NoteVerdict::WriteAfter(dropped)
            };
        }
        if self.written < NOTES_A_MINUTE {
            self.written += 1;
            return NoteVerdict::Write;
        }
        self.dropped = self.dropped.saturating_add(1);
        NoteVerdict::Drop
    }
}
