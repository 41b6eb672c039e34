//! Worked frames of the link: octet by octet, whole, and written.

use crate::lines::expect_same;
use dmr_bits::Word196;
use dmr_frames::{
    Cause, Cutter, Field, FrameIn, FrameKind, FrameOut, Refusal, Step, Version, whole_frame,
    write_frame,
};
use dmr_pdu::{OutOfMemory, SlotNo};
use std::fmt::Display;
use std::process::Abort;
use std::test::Fail;

/// The registration burst of the format's test vectors.
const BURST: [u8; 25] = [
    0x0E, 0xB4, 0x9C, 0xDF, 0x34, 0xF2, 0x74, 0x9C, 0xEC, 0xBA, 0x5C, 0xB3, 0xB7, 0xC4, 0x0E, 0x88,
    0x13, 0x8C, 0x9A, 0x38, 0xF9, 0x62, 0x48, 0xE1, 0x80,
];

/// RX of that burst on slot 0, by the table of frames of version 1.
const RECEIVED: [u8; 28] = [
    0x02, 0x1A, 0x00, 0x0E, 0xB4, 0x9C, 0xDF, 0x34, 0xF2, 0x74, 0x9C, 0xEC, 0xBA, 0x5C, 0xB3, 0xB7,
    0xC4, 0x0E, 0x88, 0x13, 0x8C, 0x9A, 0x38, 0xF9, 0x62, 0x48, 0xE1, 0x80,
];

/// RX of that burst with number 5 on slot 0, by the table of frames of version 2.
const RECEIVED_NUMBERED: [u8; 29] = [
    0x02, 0x1B, 0x05, 0x00, 0x0E, 0xB4, 0x9C, 0xDF, 0x34, 0xF2, 0x74, 0x9C, 0xEC, 0xBA, 0x5C, 0xB3,
    0xB7, 0xC4, 0x0E, 0x88, 0x13, 0x8C, 0x9A, 0x38, 0xF9, 0x62, 0x48, 0xE1, 0x80,
];

/// Feeds octets. Checks that all but the last need more octets, and that the last yields `last`.
fn expect_last(rt: &impl Abort, cutter: &mut Cutter, octets: &[u8], last: Step) {
    for (i, octet) in octets.iter().enumerate() {
        let want = if i + 1 == octets.len() {
            last
        } else {
            Step::Need
        };
        expect_same(rt, i, cutter.feed_byte(*octet), want);
    }
}

#[test]
fn a_stream(rt: HostRuntime) {
    let mut cutter = Cutter::new(Version::V1);
    let octets = [0x01, 0x04, 0x01, 0x01, 0x00, 0x01];
    expect_last(&rt, &mut cutter, &octets, Step::Frame(hello(1)));
    let frame = Step::Frame(received(&rt, None));
    expect_last(&rt, &mut cutter, &RECEIVED, frame);
    expect_short_frames(&rt, &mut cutter);
}

/// Returns the word of that burst.
fn word_of_burst(rt: &impl Abort) -> Word196 {
    Word196::from_octets(&BURST).expect(rt, "a word")
}

/// Returns the RX with that burst, with its number in version 2 of the link.
fn received(rt: &impl Abort, number: Option<u8>) -> FrameIn {
    FrameIn::Rx {
        number,
        slot: SlotNo::new(0),
        word: word_of_burst(rt),
    }
}

/// Returns a HELLO of this version for carrier 1 with channel 1.
fn hello(version: u8) -> FrameIn {
    FrameIn::Hello {
        version,
        carrier: 1,
        lpcn: 1,
    }
}

/// Octets, and the frame that the last of them yields.
type FrameOctets<'a> = (&'a [u8], FrameIn);

/// Feeds a POLL, an ACTIVE of slot 1 and a BYE.
fn expect_short_frames(rt: &impl Abort, cutter: &mut Cutter) {
    let slot = SlotNo::new(1);
    let frames: [FrameOctets<'_>; 3] = [
        (&[0x03, 0x00], FrameIn::Poll),
        (&[0x04, 0x01, 0x01], FrameIn::Active { slot }),
        (&[0x05, 0x00], FrameIn::Bye),
    ];
    for (octets, frame) in &frames {
        expect_last(rt, cutter, *octets, Step::Frame(*frame));
    }
}

/// TX on slot 0 with the acknowledgement of a registration, from the format's test vectors.
const SENT: [u8; 28] = [
    0x82, 0x1A, 0x00, 0x41, 0xC3, 0x02, 0x8A, 0x48, 0xFC, 0x8F, 0x40, 0x3D, 0xC0, 0x6F, 0x00, 0xED,
    0xA0, 0xF7, 0x83, 0xE4, 0x97, 0x54, 0x2E, 0x40, 0x5C, 0xB8, 0x3C, 0xB0,
];

/// TX of that burst with number 0 on slot 0, by the table of frames of version 2.
const SENT_NUMBERED: [u8; 29] = [
    0x82, 0x1B, 0x00, 0x00, 0x41, 0xC3, 0x02, 0x8A, 0x48, 0xFC, 0x8F, 0x40, 0x3D, 0xC0, 0x6F, 0x00,
    0xED, 0xA0, 0xF7, 0x83, 0xE4, 0x97, 0x54, 0x2E, 0x40, 0x5C, 0xB8, 0x3C, 0xB0,
];

/// Frames, and their octets.
const WRITTEN: [(FrameOut, &[u8]); 5] = [
    (FrameOut::Welcome { version: 1 }, &[0x81, 0x01, 0x01]),
    (FrameOut::Welcome { version: 2 }, &[0x81, 0x01, 0x02]),
    (FrameOut::Done, &[0x83, 0x00]),
    (FrameOut::Refused(Refusal::BadVersion), &[0x84, 0x01, 0x01]),
    (
        FrameOut::Refused(Refusal::WrongCarrier),
        &[0x84, 0x01, 0x02],
    ),
];

/// Checks the octets of a frame.
fn expect_octets(rt: &impl Abort, frame: FrameOut, want: &[u8]) {
    let written = write_frame(&frame);
    expect_same(rt, want.len(), written.as_slice(), want);
}

#[test]
fn frames_written(rt: HostRuntime) {
    for (frame, octets) in WRITTEN {
        expect_octets(&rt, frame, octets);
    }
    let mut burst = [0; 25];
    burst.copy_from_slice(&SENT[3..]);
    let word = Word196::from_octets(&burst).expect(&rt, "a word");
    let slot = SlotNo::new(0);
    for (number, octets) in [(None, SENT.as_slice()), (Some(0), SENT_NUMBERED.as_slice())] {
        expect_octets(&rt, FrameOut::Tx { number, slot, word }, octets);
    }
}

/// Checks which frame octets are in a version.
fn expect_whole(rt: &impl Abort, version: Version, octets: &[u8], want: Option<FrameIn>) {
    expect_same(rt, octets.len(), whole_frame(version, octets), want);
}

#[test]
fn one_frame(rt: HostRuntime) {
    let hello = FrameIn::Hello {
        version: 1,
        carrier: 0,
        lpcn: 4094,
    };
    let slot = SlotNo::new(1);
    let frames: [FrameOctets<'_>; 5] = [
        (&[0x01, 0x04, 0x01, 0x00, 0x0F, 0xFE], hello),
        (&RECEIVED, received(&rt, None)),
        (&[0x03, 0x00], FrameIn::Poll),
        (&[0x04, 0x01, 0x01], FrameIn::Active { slot }),
        (&[0x05, 0x00], FrameIn::Bye),
    ];
    for (octets, frame) in frames {
        expect_whole(&rt, Version::V1, octets, Some(frame));
    }
    let numbered = received(&rt, Some(5));
    expect_whole(&rt, Version::V2, &RECEIVED_NUMBERED, Some(numbered));
}

/// Octets that do not make one frame of version 1: two frames, and a frame with an octet after it or before it; a frame
/// to a carrier, and faults.
const NO_FRAMES: [&[u8]; 6] = [
    &[0x03, 0x00, 0x05, 0x00],
    &[0x03, 0x00, 0x03],
    &[0x03, 0x03, 0x00],
    &[0x83, 0x00],
    &[0x03, 0x01],
    &[0x04, 0x01, 0x02],
];

#[test]
fn no_frame(rt: HostRuntime) {
    // Parts of a frame, also the empty one.
    for end in 0..RECEIVED.len() {
        expect_whole(&rt, Version::V1, &RECEIVED[..end], None);
    }
    for end in 0..RECEIVED_NUMBERED.len() {
        expect_whole(&rt, Version::V2, &RECEIVED_NUMBERED[..end], None);
    }
    // The RX of the other version.
    expect_whole(&rt, Version::V1, &RECEIVED_NUMBERED, None);
    expect_whole(&rt, Version::V2, &RECEIVED, None);
    for octets in NO_FRAMES {
        expect_whole(&rt, Version::V1, octets, None);
    }
}

/// Checks the text of a frame.
fn expect_text<F: Display>(
    rt: &(impl Abort + AllocGlobal),
    frame: &F,
    want: &str,
) -> Result<(), OutOfMemory> {
    let text = format!(in rt.alloc(); "{frame}")?;
    expect_same(rt, "text", text.as_str(), want);
    Ok(())
}

#[test]
fn bursts_printed(rt: HostRuntime) -> Result<(), Fail> {
    let slot = SlotNo::new(0);
    let word = word_of_burst(&rt);
    for (number, want) in [(None, "RX slot=0"), (Some(5), "RX number=5 slot=0")] {
        expect_text(&rt, &FrameIn::Rx { number, slot, word }, want)?;
    }
    for (number, want) in [(None, "TX slot=0"), (Some(255), "TX number=255 slot=0")] {
        expect_text(&rt, &FrameOut::Tx { number, slot, word }, want)?;
    }
    Ok(())
}

/// A frame of the table: its type octet, its name, and the lengths of its body in versions 1 and 2.
type Listed = (FrameKind, u8, &'static str, u8, u8);

const FROM_CARRIERS: [Listed; 5] = [
    (FrameKind::Hello, 0x01, "HELLO", 4, 4),
    (FrameKind::Rx, 0x02, "RX", 26, 27),
    (FrameKind::Poll, 0x03, "POLL", 0, 0),
    (FrameKind::Active, 0x04, "ACTIVE", 1, 1),
    (FrameKind::Bye, 0x05, "BYE", 0, 0),
];

const TO_CARRIERS: [Listed; 4] = [
    (FrameKind::Welcome, 0x81, "WELCOME", 1, 1),
    (FrameKind::Tx, 0x82, "TX", 26, 27),
    (FrameKind::Done, 0x83, "DONE", 0, 0),
    (FrameKind::Refused, 0x84, "REFUSED", 1, 1),
];

/// Checks the row of a frame in the table.
fn expect_row(rt: &impl Abort, listed: Listed) {
    let (kind, octet, name, first, second) = listed;
    let row = kind.row();
    expect_same(rt, name, row.octet, octet);
    expect_same(rt, name, kind.name(), name);
    expect_same(rt, name, row.since, Version::V1);
    expect_same(rt, name, kind.body_length(Version::V1), first);
    expect_same(rt, name, kind.body_length(Version::V2), second);
}

/// Checks of which frames an octet is the type in a version.
fn expect_kinds(
    rt: &impl Abort,
    version: Version,
    octet: u8,
    from_carrier: Option<FrameKind>,
    to_carrier: Option<FrameKind>,
) {
    expect_same(
        rt,
        octet,
        FrameKind::from_carrier(version, octet),
        from_carrier,
    );
    expect_same(rt, octet, FrameKind::to_carrier(version, octet), to_carrier);
}

#[test]
fn the_table_of_frames(rt: HostRuntime) {
    for listed in FROM_CARRIERS {
        expect_row(&rt, listed);
        for version in Version::ALL {
            expect_kinds(&rt, version, listed.1, Some(listed.0), None);
        }
    }
    for listed in TO_CARRIERS {
        expect_row(&rt, listed);
        for version in Version::ALL {
            expect_kinds(&rt, version, listed.1, None, Some(listed.0));
        }
    }
    for octet in [0x00, 0x06, 0x80, 0x85, 0xFF] {
        expect_kinds(&rt, Version::NEWEST, octet, None, None);
    }
}

/// The fault of an octet of RX's body: the version, the place, the octet and the fault. In version 2 the slot follows
/// the number. The last octet of the word is the last octet of the body.
const FAULTS_OF_RX: [(Version, usize, u8, Option<Cause>); 7] = [
    (Version::V1, 0, 2, Some(Cause::BadSlot)),
    (Version::V2, 0, 2, None),
    (Version::V2, 1, 2, Some(Cause::BadSlot)),
    (Version::V1, 25, 0x01, Some(Cause::BadPad)),
    (Version::V2, 25, 0x01, None),
    (Version::V2, 26, 0x01, Some(Cause::BadPad)),
    (Version::V2, 26, 0x10, None),
];

#[test]
fn faults_of_fields(rt: HostRuntime) {
    for (version, place, octet, fault) in FAULTS_OF_RX {
        let found = FrameKind::Rx.fault_at(version, place, octet);
        expect_same(&rt, place, found, fault);
    }
    for (field, version, length) in [
        (Field::Number, Version::V1, 0),
        (Field::Number, Version::V2, 1),
        (Field::Word, Version::V1, 25),
    ] {
        expect_same(&rt, length, field.length(version), length);
    }
    for (octet, fault) in [(1, None), (2, Some(Cause::BadSlot))] {
        expect_same(&rt, octet, Field::Slot.fault_at(0, octet), fault);
    }
}

#[test]
fn versions(rt: HostRuntime) {
    let (first, second) = (Version::V1, Version::V2);
    expect_same(&rt, "numbers of version 1", first.has_numbers(), false);
    expect_same(&rt, "numbers of version 2", second.has_numbers(), true);
    expect_same(&rt, "version 2 since 1", second.is_since(first), true);
    expect_same(&rt, "version 1 since 2", first.is_since(second), false);
    expect_same(&rt, "no number", Version::by_number(None), first);
    expect_same(&rt, "a number", Version::by_number(Some(7)), second);
    for (octet, want) in [
        (0, Version::V1),
        (1, Version::V1),
        (2, Version::V2),
        (3, Version::V1),
    ] {
        expect_same(&rt, octet, Version::version_or_first(octet), want);
    }
    expect_same(&rt, "bad version", Refusal::BadVersion.octet(), 1);
    expect_same(&rt, "wrong carrier", Refusal::WrongCarrier.octet(), 2);
}

#[test]
fn frames_of_the_table(rt: HostRuntime) {
    let slot = SlotNo::new(1);
    let active = FrameIn::Active { slot }.kind();
    expect_same(&rt, "active", active, FrameKind::Active);
    let refused = FrameOut::Refused(Refusal::BadVersion).kind();
    expect_same(&rt, "refused", refused, FrameKind::Refused);
}
