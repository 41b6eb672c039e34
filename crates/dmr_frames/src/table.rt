//! The table of frames: of each frame its type octet, its name, the version that introduced it, and the fields of its
//! body. All code here that cuts, writes or names frames reads it. A frame is its type octet, the number of octets in
//! its body, and the body (this project's profile). The values that a field may have are here too; the meaning of a
//! frame is not.

ghost use Rattle.std.specs.Prelude.{◌≡◌, ◌<◌, slice_index};
ghost use Rattle.dmr_frames.specs.Frames.{spelling, spelling_out};
ghost use Rattle.dmr_frames.specs.declared.version.Version.{Version};
ghost use Rattle.dmr_frames.specs.Versions.{has_numbers};
ghost use Rattle.dmr_frames.specs.Table.{body_fault, body_length, carrier_kind, field_fault};
ghost use Rattle.dmr_frames.specs.Table.{field_length, fields_fault, fields_length, frame_row};
ghost use Rattle.dmr_frames.specs.Table.{kind_among, site_kind};

use crate::frame::{Cause, FrameIn, FrameOut};
use crate::version::Version;

/// A frame of the link format, without its values.
#[derive(Clone, Copy, Debug, PartialEq, Eq)]
pub enum FrameKind {
    /// A carrier's first frame.
    Hello,
    /// A burst was received.
    Rx,
    /// A carrier asks what to send.
    Poll,
    /// There is traffic on a slot.
    Active,
    /// A carrier ends the connection.
    Bye,
    /// A carrier is accepted.
    Welcome,
    /// A burst is to be sent.
    Tx,
    /// The answer to a POLL is complete.
    Done,
    /// A carrier is refused.
    Refused,
}

/// A field of a frame's body.
#[derive(Clone, Copy, Debug, PartialEq, Eq)]
pub enum Field {
    /// The octet of a version of the link format.
    Version,
    /// The number of a carrier within the site.
    Carrier,
    /// A logical physical channel number: two octets, the high one first.
    Lpcn,
    /// The number of a burst: one octet in versions that number bursts, none in the others.
    Number,
    /// A slot: 00 or 01.
    Slot,
    /// The 196 bits of a word, and four bits that are 0: 25 octets.
    Word,
    /// The octet of a refusal.
    Reason,
}

/// A row of the table of frames.
#[derive(Clone, Copy)]
pub struct FrameRow {
    /// The type octet, which differs for each frame.
    pub octet: u8,
    /// The name of the frame.
    pub name: &'static str,
    /// The version of the link format that introduced the frame.
    pub since: Version,
    /// The fields of its body, in their order.
    pub body: &'static [Field],
}

/// The frames that come from a carrier.
const CARRIER_KINDS: [FrameKind; 5] = [
    FrameKind::Hello,
    FrameKind::Rx,
    FrameKind::Poll,
    FrameKind::Active,
    FrameKind::Bye,
];

/// The frames that go to a carrier.
const SITE_KINDS: [FrameKind; 4] = [
    FrameKind::Welcome,
    FrameKind::Tx,
    FrameKind::Done,
    FrameKind::Refused,
];

/// Returns the row of a frame that version 1 introduced.
fn row_of(octet: u8, name: &'static str, body: &'static [Field]) -> FrameRow
    ensures octet { result.octet ≡ octet }
    ensures name { result.name.now ≡ name.now }
    ensures since { result.since ≡ Version.V1 }
    ensures body { result.body.now ≡ body.now }
{
    FrameRow {
        octet,
        name,
        since: Version::V1,
        body,
    }
}

impl FrameKind {
    /// Returns the frame's row of the table.
    pub fn row(self) -> FrameRow
        ensures octet { result.octet ≡ (frame_row self).octet }
        ensures name { result.name.now ≡ (frame_row self).name }
        ensures since { result.since ≡ (frame_row self).since }
        ensures body { result.body.now ≡ (frame_row self).body }
    {
        match self {
            FrameKind::Hello => row_of(
                0x01,
                "HELLO",
                &[Field::Version, Field::Carrier, Field::Lpcn],
            ),
            FrameKind::Rx => row_of(0x02, "RX", &[Field::Number, Field::Slot, Field::Word]),
            FrameKind::Poll => row_of(0x03, "POLL", &[]),
            FrameKind::Active => row_of(0x04, "ACTIVE", &[Field::Slot]),
            FrameKind::Bye => row_of(0x05, "BYE", &[]),
            FrameKind::Welcome => row_of(0x81, "WELCOME", &[Field::Version]),
            FrameKind::Tx => row_of(0x82, "TX", &[Field::Number, Field::Slot, Field::Word]),
            FrameKind::Done => row_of(0x83, "DONE", &[]),
            FrameKind::Refused => row_of(0x84, "REFUSED", &[Field::Reason]),
        }
    }

    /// Returns the frame's name.
    pub fn name(self) -> &'static str
        ensures { result.now ≡ (frame_row self).name }
    {
        self.row().name
    }

    /// Returns the frame from a carrier that has this type octet in a version, or `None` if there is none.
    pub fn from_carrier(version: Version, octet: u8) -> Option<FrameKind>
        ensures { result ≡ carrier_kind version octet }
    {
        find_kind(version, &CARRIER_KINDS, octet)
    }

    /// Returns the frame to a carrier that has this type octet in a version, or `None` if there is none.
    pub fn to_carrier(version: Version, octet: u8) -> Option<FrameKind>
        ensures { result ≡ site_kind version octet }
    {
        find_kind(version, &SITE_KINDS, octet)
    }

    /// Returns the number of octets in the frame's body in a version, which is the frame's length octet.
    pub fn body_length(self, version: Version) -> u8
        ensures length { result ≡ body_length (has_numbers version) self }
        ensures longest { result < 28 }
    {
        add_lengths(version, self.row().body)
    }

    /// Returns the fault of this octet at a place of the frame's body, counted from 0, if it is one.
    pub fn fault_at(self, version: Version, place: usize, octet: u8) -> Option<Cause>
        ensures { result ≡ body_fault (has_numbers version) self place octet }
    {
        find_fault(version, self.row().body, place, octet)
    }
}

impl FrameIn {
    /// Returns the frame's kind: the one with the type octet that the frame's spelling begins with.
    pub fn kind(&self) -> FrameKind
        ensures { (frame_row result).octet ≡ slice_index (spelling self.now) 0 }
    {
        match self {
            FrameIn::Hello { .. } => FrameKind::Hello,
            FrameIn::Rx { .. } => FrameKind::Rx,
            FrameIn::Poll => FrameKind::Poll,
            FrameIn::Active { .. } => FrameKind::Active,
            FrameIn::Bye => FrameKind::Bye,
        }
    }
}

impl FrameOut {
    /// Returns the frame's kind: the one with the type octet that the frame's spelling begins with.
    pub fn kind(&self) -> FrameKind
        ensures { (frame_row result).octet ≡ slice_index (spelling_out self.now) 0 }
    {
        match self {
            FrameOut::Welcome { .. } => FrameKind::Welcome,
            FrameOut::Tx { .. } => FrameKind::Tx,
            FrameOut::Done => FrameKind::Done,
            FrameOut::Refused(_) => FrameKind::Refused,
        }
    }
}

impl Field {
    /// Returns the number of octets of the field in a version.
    pub fn length(self, version: Version) -> u8
        ensures { result ≡ field_length (has_numbers version) self }
    {
        match self {
            Field::Lpcn => 2,
            Field::Number => u8::from(version.has_numbers()),
            Field::Word => 25,
            _ => 1,
        }
    }

    /// Returns the fault of this octet at a place of the field, counted from 0, if it is one.
    pub fn fault_at(self, place: usize, octet: u8) -> Option<Cause>
        ensures { result ≡ field_fault self place octet }
    {
        match self {
            Field::Slot if octet >= 2 => Some(Cause::BadSlot),
            Field::Word if place == 24 && octet % 16 != 0 => Some(Cause::BadPad),
            _ => None,
        }
    }
}

/// Returns the frame, of these, that has this type octet in a version.
fn find_kind(version: Version, kinds: &[FrameKind], octet: u8) -> Option<FrameKind>
    ensures { result ≡ kind_among version kinds.now octet }
{
    match kinds {
        [] => None,
        [kind, others @ ..] => {
            let row = kind.row();
            if octet != row.octet {
                return find_kind(version, others, octet);
            }
            if version.is_since(row.since) {
                Some(*kind)
            } else {
                None
            }
        }
    }
}

/// Returns the number of octets of these fields together in a version.
fn add_lengths(version: Version, fields: &[Field]) -> u8
    requires { fields_length (has_numbers version) fields.now < 256 }
    ensures { result ≡ fields_length (has_numbers version) fields.now }
{
    match fields {
        [] => 0,
        [field, others @ ..] => field.length(version) + add_lengths(version, others),
    }
}

/// Returns the fault of this octet at a place of a body that has these fields, if it is one.
fn find_fault(version: Version, fields: &[Field], place: usize, octet: u8) -> Option<Cause>
    ensures { result ≡ fields_fault (has_numbers version) fields.now place octet }
{
    match fields {
        [] => None,
        [field, others @ ..] => {
            let length = usize::from(field.length(version));
            if place < length {
                field.fault_at(place, octet)
            } else {
                find_fault(version, others, place - length, octet)
            }
        }
    }
}
