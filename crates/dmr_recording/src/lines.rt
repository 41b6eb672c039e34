//! Writes lines of a script.

ghost use Rattle.std.specs.Prelude.{string_bytes};
ghost use Rattle.std.specs.Prelude.{◌≡◌, ◌++◌, ◌∷◌, [], decimal, IfErr, OnOk};
ghost use Rattle.dmr_core.specs.CommandWords.{command_text};
ghost use Rattle.dmr_link.specs.Input.{At, Opening, Octets, Cutting, Saying, Ticking};
ghost use Rattle.dmr_recording.specs.Lines.{line_by};

use crate::fault::RecordingFault;
use dmr_core::Command;
use dmr_pdu::CarrierNo;
use itoa::Buffer;
use std::alloc::Global;

/// Appends octets. The error is `OutOfMemory`; the text is unchanged then, which no clause here says. A function below
/// that appends several pieces may leave a part of its line.
fn push(text: &mut String, more: &str) -> Result<(), RecordingFault>
    ensures ok { OnOk result (string_bytes text.new ≡ string_bytes text.old ++ more.now) }
    ensures err { IfErr result (λ fault. fault ≡ RecordingFault.OutOfMemory) }
{
    match text.push_str(more) {
        Ok(()) => Ok(()),
        Err(_) => Err(RecordingFault::OutOfMemory),
    }
}

/// Appends a number in decimal digits.
fn push_number(text: &mut String, number: u32) -> Result<(), RecordingFault>
    ensures ok { OnOk result (string_bytes text.new ≡ string_bytes text.old ++ decimal number) }
    ensures err { IfErr result (λ fault. fault ≡ RecordingFault.OutOfMemory) }
{
    push(text, Buffer::new().format(number))
}

/// Appends `NAME C`, the beginning of a line.
fn push_head(text: &mut String, name: &str, carrier: CarrierNo) -> Result<(), RecordingFault>
    ensures ok { OnOk result
        (string_bytes text.new ≡ string_bytes text.old ++ name.now ++ decimal carrier) }
    ensures err { IfErr result (λ fault. fault ≡ RecordingFault.OutOfMemory) }
{
    push(text, name)?;
    push_number(text, carrier.get())
}

/// Appends `open C`: the connection of a carrier begins.
pub fn write_open(text: &mut String, carrier: CarrierNo) -> Result<(), RecordingFault>
    ensures ok { OnOk result
        (string_bytes text.new ≡ string_bytes text.old ++ line_by (At carrier Opening) 1) }
    ensures err { IfErr result (λ fault. fault ≡ RecordingFault.OutOfMemory) }
{
    push_head(text, "open ", carrier)?;
    push(text, "\n")
}

/// Appends `cut C`: the connection of a carrier is cut.
pub fn write_cut(text: &mut String, carrier: CarrierNo) -> Result<(), RecordingFault>
    ensures ok { OnOk result
        (string_bytes text.new ≡ string_bytes text.old ++ line_by (At carrier Cutting) 1) }
    ensures err { IfErr result (λ fault. fault ≡ RecordingFault.OutOfMemory) }
{
    push_head(text, "cut ", carrier)?;
    push(text, "\n")
}

/// Appends `bytes C HEX`: these octets arrive from a carrier.
pub fn write_bytes(
    alloc: Global,
    text: &mut String,
    carrier: CarrierNo,
    octets: &[u8],
) -> Result<(), RecordingFault>
    ensures ok { OnOk result (string_bytes text.new
        ≡ string_bytes text.old ++ line_by (At carrier (Octets octets.now)) 1) }
    ensures err { IfErr result (λ fault. fault ≡ RecordingFault.OutOfMemory) }
{
    match hex::encode_upper(alloc, octets) {
        Ok(digits) => {
            push_head(text, "bytes ", carrier)?;
            push(text, " ")?;
            push(text, digits.as_str())?;
            push(text, "\n")
        }
        Err(_) => Err(RecordingFault::OutOfMemory),
    }
}

/// Appends `tick N`: this number of ticks.
pub fn write_ticks(text: &mut String, count: u32) -> Result<(), RecordingFault>
    ensures ok { OnOk result
        (string_bytes text.new ≡ string_bytes text.old ++ line_by Ticking count) }
    ensures err { IfErr result (λ fault. fault ≡ RecordingFault.OutOfMemory) }
{
    push(text, "tick ")?;
    push_number(text, count)?;
    push(text, "\n")
}

/// Appends `say TEXT`: an operator sends the words of a command and an LF.
pub fn write_say(text: &mut String, command: &Command) -> Result<(), RecordingFault>
    ensures ok { OnOk result (string_bytes text.new ≡ string_bytes text.old
        ++ line_by (Saying (command_text command.now ++ 10 ∷ [])) 1) }
    ensures err { IfErr result (λ fault. fault ≡ RecordingFault.OutOfMemory) }
{
    push(text, "say ")?;
    push_command(text, command)?;
    push(text, "\n")
}

/// Appends the words of a command, without the LF after them.
fn push_command(text: &mut String, command: &Command) -> Result<(), RecordingFault>
    ensures ok { OnOk result
        (string_bytes text.new ≡ string_bytes text.old ++ command_text command.now) }
    ensures err { IfErr result (λ fault. fault ≡ RecordingFault.OutOfMemory) }
{
    match write!(text, "{command}") {
        Ok(()) => Ok(()),
        Err(_) => Err(RecordingFault::OutOfMemory),
    }
}
