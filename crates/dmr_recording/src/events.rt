//! Writes the lines of one event.

ghost use Rattle.std.specs.Prelude.{string_bytes, ◌⊎◌, ◌↔◌};
ghost use Rattle.std.specs.Prelude.{◌≡◌, ◌≢◌, ◌++◌, ◌∷◌, [], Some, IfErr, IfOk, OnOk, IsTrue};
ghost use Rattle.dmr_burst.specs.Functions.{meaning_of, burst_of};
ghost use Rattle.dmr_core.specs.CommandWords.{command_text, IsSaid};
ghost use Rattle.dmr_frames.specs.declared.frame.FrameIn.TheVariants as frame;
ghost use Rattle.dmr_frames.specs.Frames.{spelling};
ghost use Rattle.dmr_link.specs.Input.{At, Opening, Octets, Saying};
ghost use Rattle.dmr_recording.specs.Events.{inputs_of_event, lpcn_of};
ghost use Rattle.dmr_recording.specs.Lines.{line_by, text_of};
ghost use Rattle.dmr_recording.specs.Recordable.{IsCarrier, IsCarrierFault, IsFault, IsRecordable};

use crate::carriers::Carriers;
use crate::fault::RecordingFault;
use crate::lines::{write_bytes, write_cut, write_open, write_say};
use crate::octets::{active_octets, hello_octets, noise_word, poll_octets, rx_octets};
use dmr_bits::Word196;
use dmr_core::{Command, Event};
use dmr_pdu::{CarrierNo, Lpcn, Pdu};
use dmr_plan::Plan;
use std::alloc::Global;

/// Returns the channel of a carrier, which has to be up or not to be up. `NotOfPlan` if the plan does not have the
/// carrier, and else `AlreadyUp` or `NotUp`.
fn channel_of(
    plan: &Plan,
    up: &Carriers,
    place: usize,
    carrier: CarrierNo,
    wanted: bool,
) -> Result<Lpcn, RecordingFault>
    ensures lpcn { IfOk result (λ lpcn. lpcn ≡ lpcn_of plan.now carrier) }
    ensures carrier { OnOk result (IsCarrier plan.now up.now wanted carrier) }
    ensures fault { IfErr result (IsCarrierFault plan.now up.now place carrier wanted) }
{
    let _number = carrier.get();
    match plan.carrier_with(carrier) {
        None => Err(RecordingFault::NotOfPlan(place)),
        Some(row) => {
            let _channel = row.lpcn.get();
            if up.is_up(carrier) == wanted {
                Ok(row.lpcn)
            } else if wanted {
                Err(RecordingFault::NotUp(place))
            } else {
                Err(RecordingFault::AlreadyUp(place))
            }
        }
    }
}

/// Returns the burst of a PDU. `NotHeard` if the burst does not mean the PDU.
fn burst_of_pdu(place: usize, pdu: &Pdu) -> Result<Word196, RecordingFault>
    ensures burst { IfOk result (λ word. (word ≡ burst_of pdu.now)
        × (meaning_of (burst_of pdu.now) ≡ Some pdu.now)) }
    ensures fault { IfErr result (λ fault. (fault ≡ RecordingFault.NotHeard place)
        × (meaning_of (burst_of pdu.now) ≢ Some pdu.now)) }
{
    let word = dmr_burst::write(pdu);
    match dmr_burst::read(&word) {
        Some(heard) if heard.equals(pdu) => Ok(word),
        _ => Err(RecordingFault::NotHeard(place)),
    }
}

/// Appends the two lines of an Up: the connection of a carrier begins, and its HELLO arrives.
fn write_up(
    alloc: Global,
    text: &mut String,
    carrier: CarrierNo,
    lpcn: Lpcn,
) -> Result<(), RecordingFault>
    ensures ok { OnOk result (string_bytes text.new ≡ string_bytes text.old
        ++ (line_by (At carrier Opening) 1
        ++ line_by (At carrier (Octets (spelling (frame.Hello 1 carrier lpcn)))) 1)) }
    ensures err { IfErr result (λ fault. fault ≡ RecordingFault.OutOfMemory) }
{
    write_open(text, carrier)?;
    write_bytes(alloc, text, carrier, &hello_octets(carrier, lpcn))
}

/// Returns whether a command is `drop 0`, which no line means.
fn is_unsaid(command: &Command) -> bool
    ensures { IsTrue result ↔ (command.now ≡ Command.Drop 0) }
{
    match command {
        Command::Drop(radio) => radio.get() == 0,
        _ => false,
    }
}

/// Appends the line of a command. `NotSaid` if no line means the command.
fn write_command(place: usize, command: &Command, text: &mut String) -> Result<(), RecordingFault>
    ensures line { OnOk result (string_bytes text.new ≡ string_bytes text.old
        ++ line_by (Saying (command_text command.now ++ 10 ∷ [])) 1) }
    ensures said { OnOk result (IsSaid command.now) }
    ensures fault { IfErr result (λ fault. (fault ≡ RecordingFault.OutOfMemory)
        ⊎ ((fault ≡ RecordingFault.NotSaid place) × (command.now ≡ Command.Drop 0))) }
{
    // The ranges of the numbers are known once they are read.
    let _parts = command.parts();
    if is_unsaid(command) {
        Err(RecordingFault::NotSaid(place))
    } else {
        write_say(text, command)
    }
}

/// Appends the lines of an event. The error is the event's fault, or `OutOfMemory`; then the text may have a part of
/// them.
pub fn write_event(
    alloc: Global,
    plan: &Plan,
    up: &Carriers,
    place: usize,
    event: &Event,
    text: &mut String,
) -> Result<(), RecordingFault>
    ensures lines { OnOk result (string_bytes text.new
        ≡ string_bytes text.old ++ text_of (inputs_of_event plan.now event.now)) }
    ensures recordable { OnOk result (IsRecordable plan.now up.now event.now) }
    ensures fault { IfErr result (λ fault. (fault ≡ RecordingFault.OutOfMemory)
        ⊎ IsFault plan.now up.now place event.now fault) }
{
    match event {
        Event::Up(carrier) => {
            let lpcn = channel_of(plan, up, place, *carrier, false)?;
            write_up(alloc, text, *carrier, lpcn)
        }
        Event::Lost(carrier) => {
            channel_of(plan, up, place, *carrier, true)?;
            write_cut(text, *carrier)
        }
        Event::Heard(slot, pdu) => {
            channel_of(plan, up, place, slot.carrier, true)?;
            let word = burst_of_pdu(place, pdu)?;
            let octets = rx_octets(slot.slot, &word);
            write_bytes(alloc, text, slot.carrier, octets.as_slice())
        }
        Event::Noise(slot) => {
            channel_of(plan, up, place, slot.carrier, true)?;
            let octets = rx_octets(slot.slot, &noise_word());
            write_bytes(alloc, text, slot.carrier, octets.as_slice())
        }
        Event::Active(slot) => {
            channel_of(plan, up, place, slot.carrier, true)?;
            write_bytes(alloc, text, slot.carrier, &active_octets(slot.slot))
        }
        Event::Poll(carrier) => {
            channel_of(plan, up, place, *carrier, true)?;
            write_bytes(alloc, text, *carrier, &poll_octets())
        }
        Event::Tick => crate::lines::write_ticks(text, 1),
        Event::Say(command) => write_command(place, command, text),
    }
}
