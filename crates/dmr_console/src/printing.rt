//! Writes a reply as lines.

ghost use Rattle.std.specs.Prelude.{◌≡◌, ◌+◌, ◌≤◌, ◌++◌, codes};
ghost use Rattle.arrayvec.specs.ArrayString.{array_string_len};
ghost use Rattle.dmr_console.specs.Texts.{fill_text, text_of_reply};

use crate::number_text::push_count;
use crate::rows::{push_calls, push_lines, push_radios, push_slots};
use arrayvec::ArrayString;
use dmr_core::Reply;
use dmr_pdu::Lpcn;

/// The most octets of a reply's text (this project's profile). The texts for bad lines are shorter.
pub const LONGEST_TEXT: usize = 1024;

/// The text for a line that is not a command (this project's profile).
pub fn unknown_command() -> &'static str
    ensures { result.now ≡ codes "error unknown command\n" }
{
    "error unknown command\n"
}

/// The text for a line of more than 80 octets (this project's profile).
pub fn line_too_long() -> &'static str
    ensures { result.now ≡ codes "error line too long\n" }
{
    "error line too long\n"
}

/// The text of a reply: one or more lines, each with its LF (this project's profile). The line `end` follows rows.
/// Every text fits, with all its rows.
pub fn print(reply: &Reply) -> ArrayString<LONGEST_TEXT>
    ensures { result.bytes ≡ text_of_reply reply.now }
{
    let mut text = ArrayString::new();
    match reply {
        Reply::Status {
            carriers,
            radios,
            asks,
            lines,
            calls,
            moving,
        } => {
            text.push_str("status carriers ");
            push_count(&mut text, *carriers);
            text.push_str(" radios ");
            push_count(&mut text, *radios);
            text.push_str(" asks ");
            push_count(&mut text, *asks);
            text.push_str(" lines ");
            push_count(&mut text, *lines);
            text.push_str(" calls ");
            push_count(&mut text, *calls);
            text.push_str(" fill ");
            push_fill(&mut text, *moving);
            text.push_str("\n");
        }
        Reply::Radios(radios) => {
            push_radios(&mut text, radios.as_slice());
            text.push_str("end\n");
        }
        Reply::Calls(calls) => {
            push_calls(&mut text, calls.as_slice());
            text.push_str("end\n");
        }
        Reply::Lines { from, rows } => {
            push_lines(&mut text, *from, rows.as_slice());
            text.push_str("end\n");
        }
        Reply::Slots(slots) => {
            push_slots(&mut text, slots.as_slice());
            text.push_str("end\n");
        }
        Reply::Done => text.push_str("ok\n"),
        Reply::NotRegistered => text.push_str("error not registered\n"),
        Reply::Busy => text.push_str("error busy\n"),
        Reply::NoCall => text.push_str("error no call\n"),
        Reply::NoCarrier => text.push_str("error no carrier\n"),
    }
    text
}

/// Appends the kind of Fill that the control slot has.
fn push_fill(text: &mut ArrayString<LONGEST_TEXT>, moving: Option<Lpcn>)
    requires { array_string_len text.old + 25 ≤ LONGEST_TEXT }
    ensures bytes { text.new.bytes ≡ text.old.bytes ++ fill_text moving }
    ensures len { array_string_len text.new ≤ array_string_len text.old + 25 }
{
    match moving {
        Some(channel) => {
            text.push_str("move ");
            push_count(text, channel.get() as usize);
        }
        None => text.push_str("aloha"),
    }
}
