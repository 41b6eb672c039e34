//! The events of a site, and what it does for them: in words for people, and as fields for programs.

use dmr_calls::{Call, Line};
use dmr_core::{Act, Command, Event};
use dmr_pdu::{Address, CarrierNo, Pdu, Slot};
use std::io;
use std::io::Write;

/// The readers of a text.
#[derive(Clone, Copy)]
pub enum Form {
    /// People, who read words.
    Words,
    /// Programs, which read a kind and then `key=value` for each field.
    Fields,
}

/// An event or an act, as it is printed. In its texts a number replaces each `#`.
#[derive(Clone, Copy)]
pub struct Row<'a> {
    /// The kind, which is the first word for programs.
    pub kind: &'static str,
    /// The text for people.
    words: &'static str,
    /// The fields for programs.
    fields: &'static str,
    /// The numbers of both texts, in their order. The fields may have more of them than the words.
    numbers: [u32; 5],
    /// What is at the end of both.
    end: End<'a>,
}

/// The end of the text of an event or an act.
#[derive(Clone, Copy)]
enum End<'a> {
    /// Nothing.
    Nothing,
    /// A PDU.
    Pdu(&'a Pdu),
    /// An operator's command.
    Command(&'a Command),
}

/// Returns the row of an event.
pub fn row_of_event(event: &Event) -> Row<'_> {
    match event {
        Event::Up(carrier) => carrier_row("up", "carrier # is up", *carrier),
        Event::Lost(carrier) => carrier_row("lost", "carrier # is lost", *carrier),
        Event::Heard(slot, pdu) => pdu_row("heard", "heard on carrier # slot #: ", slot, pdu),
        Event::Noise(slot) => slot_row("noise", "noise on carrier # slot #", slot),
        Event::Active(slot) => slot_row("active", "activity on carrier # slot #", slot),
        Event::Poll(carrier) => carrier_row("poll", "carrier # polls", *carrier),
        Event::Tick => plain_row("tick", "a tick", "", [0; 5]),
        Event::Say(command) => Row {
            end: End::Command(command),
            ..plain_row("say", "say ", " text=", [0; 5])
        },
    }
}

/// Returns the row of an act.
fn row_of_act(act: &Act) -> Row<'_> {
    match act {
        Act::Queue(slot, pdu) => pdu_row("queue", "queue for carrier # slot #: ", slot, pdu),
        Act::Send(slot, pdu) => pdu_row("send", "send on carrier # slot #: ", slot, pdu),
        Act::Fill(slot, pdu) => pdu_row("fill", "fill carrier # slot #: ", slot, pdu),
        Act::Joined(radio) => radio_row("joined", "radio # is registered", *radio),
        Act::Left(radio) => radio_row("left", "radio # is no longer registered", *radio),
        Act::Asked(ask) => plain_row(
            "asked",
            "radio # is asked for #, attempt #",
            " target=# source=# attempt=#",
            [
                ask.target.get(),
                ask.source.get(),
                u32::from(ask.attempt),
                0,
                0,
            ],
        ),
        Act::AskOver(source) => source_row(
            "unasked",
            "the called radio of # is no longer asked",
            *source,
        ),
        Act::Lined(line) => line_row(line),
        Act::Unlined(source) => source_row("unlined", "the request of # no longer waits", *source),
        Act::Began(call) => call_row(call),
        Act::Ended(slot) => slot_row("ended", "the call on carrier # slot # ends", slot),
    }
}

/// Returns a row with nothing at the end.
fn plain_row(
    kind: &'static str,
    words: &'static str,
    fields: &'static str,
    numbers: [u32; 5],
) -> Row<'static> {
    Row {
        kind,
        words,
        fields,
        numbers,
        end: End::Nothing,
    }
}

/// Returns the row of something with a carrier.
fn carrier_row(kind: &'static str, words: &'static str, carrier: CarrierNo) -> Row<'static> {
    plain_row(kind, words, " carrier=#", [carrier.get(), 0, 0, 0, 0])
}

/// Returns the row of something with a radio.
fn radio_row(kind: &'static str, words: &'static str, radio: Address) -> Row<'static> {
    plain_row(kind, words, " radio=#", [radio.get(), 0, 0, 0, 0])
}

/// Returns the row of something with the radio that calls.
fn source_row(kind: &'static str, words: &'static str, source: Address) -> Row<'static> {
    plain_row(kind, words, " source=#", [source.get(), 0, 0, 0, 0])
}

/// Returns the row of something with a slot.
fn slot_row(kind: &'static str, words: &'static str, slot: &Slot) -> Row<'static> {
    let Slot { carrier, slot } = *slot;
    plain_row(
        kind,
        words,
        " carrier=# slot=#",
        [carrier.get(), slot.get(), 0, 0, 0],
    )
}

/// Returns the row of something with a slot and a PDU.
fn pdu_row<'a>(kind: &'static str, words: &'static str, slot: &Slot, pdu: &'a Pdu) -> Row<'a> {
    let Slot { carrier, slot } = *slot;
    Row {
        kind,
        words,
        fields: " carrier=# slot=# text=",
        numbers: [carrier.get(), slot.get(), 0, 0, 0],
        end: End::Pdu(pdu),
    }
}

/// Returns the row of a request that begins to wait.
fn line_row(line: &Line) -> Row<'static> {
    let words = if line.group {
        "the request of # to talkgroup # waits for a slot"
    } else {
        "the request of # to radio # waits for a slot"
    };
    let numbers = [line.source.get(), line.target.get(), flag(line.group), 0, 0];
    plain_row("lined", words, " source=# target=# group=#", numbers)
}

/// Returns the row of a call that begins.
fn call_row(call: &Call) -> Row<'static> {
    let Slot { carrier, slot } = call.slot;
    let words = if call.group {
        "a call of # to talkgroup # begins on carrier # slot #"
    } else {
        "a call of # to radio # begins on carrier # slot #"
    };
    let numbers = [
        call.source.get(),
        call.target.get(),
        carrier.get(),
        slot.get(),
        flag(call.group),
    ];
    plain_row(
        "began",
        words,
        " source=# target=# carrier=# slot=# group=#",
        numbers,
    )
}

/// Returns the number of a flag.
fn flag(is_set: bool) -> u32 {
    if is_set { 1 } else { 0 }
}

/// Prints the text of a row, and ends the line.
pub fn show_row<W: Write>(row: &Row<'_>, form: Form, out: &mut W) -> io::Result<()> {
    let text = match form {
        Form::Words => row.words,
        Form::Fields => row.fields,
    };
    show_text(text, &row.numbers, out)?;
    match row.end {
        End::Nothing => writeln!(out),
        End::Pdu(pdu) => writeln!(out, "{pdu}"),
        End::Command(command) => writeln!(out, "{command}"),
    }
}

/// Prints a text with the next number in place of each `#`.
fn show_text<W: Write>(text: &str, numbers: &[u32], out: &mut W) -> io::Result<()> {
    for (place, part) in text.split('#').enumerate() {
        if place > 0 {
            if let Some(number) = numbers.get(place - 1) {
                write!(out, "{number}")?;
            }
        }
        write!(out, "{part}")?;
    }
    Ok(())
}

/// Prints the acts of an answer, a line for each.
pub fn show_acts<W: Write>(acts: &[Act], form: Form, out: &mut W) -> io::Result<()> {
    for act in acts {
        let row = row_of_act(act);
        let begin = match form {
            Form::Words => "      act: ",
            Form::Fields => row.kind,
        };
        write!(out, "{begin}")?;
        show_row(&row, form, out)?;
    }
    Ok(())
}

/// Prints the text of a reply, line by line.
pub fn show_reply<W: Write>(text: &str, form: Form, out: &mut W) -> io::Result<()> {
    let begin = match form {
        Form::Words => "      reply: ",
        Form::Fields => "reply text=",
    };
    for line in text.lines() {
        writeln!(out, "{begin}{line}")?;
    }
    Ok(())
}
