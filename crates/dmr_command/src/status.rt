//! The exit statuses that a replay does not have, and the texts that go with statuses to standard error. An error of
//! standard error is ignored.

ghost use Rattle.std.specs.Prelude.{◌≡◌};

use dmr_replay::MEMORY;
use std::io::Write;

/// The words are refused.
pub const WORDS: u8 = 2;

/// A term failed, though memory and threads were there: its audit found a fault, a worker ended early, or it could not
/// begin.
pub const AUDIT: u8 = 3;

/// Writes that memory ran out, and returns the status.
pub fn report_out_of_memory<E: Write>(err: &mut E) -> u8
    ensures { result ≡ MEMORY }
{
    let _ = writeln!(err, "dmr_trunk: out of memory");
    MEMORY
}

/// Writes why the words are refused, and returns the status.
pub fn report_refused_words<E: Write>(err: &mut E, text: &str) -> u8
    ensures { result ≡ WORDS }
{
    let _ = writeln!(err, "{text}");
    WORDS
}
