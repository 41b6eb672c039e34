//! The frames of the link (versions 1 and 2 of this project's profile).

ghost use Rattle.std.specs.Prelude.{◌≡◌};
ghost use Rattle.dmr_frames.specs.Frames.{refusal_octet};

use dmr_bits::Word196;
use dmr_pdu::SlotNo;
use std::fmt;

/// The octets of the longest frames, RX and TX of version 2: type, length, number, slot, and the 25 of a word. In
/// version 1 they have no number and are one octet shorter.
pub const LONGEST_FRAME: usize = 29;

/// A frame that comes from a carrier.
#[derive(Clone, Copy, Debug, PartialEq, Eq)]
pub enum FrameIn {
    /// HELLO, the first frame of a connection: the version of the link format that the carrier speaks, the carrier's
    /// number within the site, and its logical physical channel number. All three are as they were sent; their ranges
    /// were not checked.
    Hello {
        /// The version.
        version: u8,
        /// The carrier's number.
        carrier: u8,
        /// The logical physical channel number.
        lpcn: u16,
    },
    /// RX: a burst was received on a slot. The carrier counts its bursts by the number, one octet, in version 2 of the
    /// link format. In version 1 there is none.
    Rx {
        /// The number, in version 2.
        number: Option<u8>,
        /// The slot.
        slot: SlotNo,
        /// The coded bits of the burst.
        word: Word196,
    },
    /// POLL: the carrier asks for the bursts that it is to send.
    Poll,
    /// ACTIVE: there is traffic on a slot.
    Active {
        /// The slot.
        slot: SlotNo,
    },
    /// BYE: the carrier ends the connection.
    Bye,
}

/// The frame's name and its fields, except the word of an RX.
impl fmt::Display for FrameIn {
    fn fmt<W: fmt::Write>(&self, f: &mut fmt::Formatter<W>) -> fmt::Result {
        f.write_str(self.kind().name())?;
        match self {
            FrameIn::Hello {
                version,
                carrier,
                lpcn,
            } => write!(f, " version={version} carrier={carrier} lpcn={lpcn}"),
            FrameIn::Rx {
                number: Some(number),
                slot,
                word: _,
            } => write!(f, " number={number} slot={slot}"),
            FrameIn::Rx {
                number: None,
                slot,
                word: _,
            } => write!(f, " slot={slot}"),
            FrameIn::Active { slot } => write!(f, " slot={slot}"),
            FrameIn::Poll | FrameIn::Bye => Ok(()),
        }
    }
}

/// Why a carrier is refused.
#[derive(Clone, Copy, Debug, PartialEq, Eq)]
pub enum Refusal {
    /// The carrier speaks a version of the link format that is not served.
    BadVersion,
    /// The carrier's number or its channel does not belong to the port.
    WrongCarrier,
}

impl Refusal {
    /// Returns the octet of this refusal in REFUSED: 1 or 2.
    pub fn octet(self) -> u8
        ensures { result ≡ refusal_octet self }
    {
        match self {
            Refusal::BadVersion => 0x01,
            Refusal::WrongCarrier => 0x02,
        }
    }
}

/// Why a carrier is refused.
impl fmt::Display for Refusal {
    fn fmt<W: fmt::Write>(&self, f: &mut fmt::Formatter<W>) -> fmt::Result {
        match self {
            Refusal::BadVersion => write!(f, "BadVersion"),
            Refusal::WrongCarrier => write!(f, "WrongCarrier"),
        }
    }
}

/// A frame that goes to a carrier.
#[derive(Clone, Copy, Debug, PartialEq, Eq)]
pub enum FrameOut {
    /// WELCOME: the answer to a HELLO that is accepted. It names the version of the link format for all frames after
    /// it.
    Welcome {
        /// The version.
        version: u8,
    },
    /// TX: a burst to be sent on a slot. It has a number octet in version 2 of the link format, and none in version 1.
    Tx {
        /// The number, in version 2.
        number: Option<u8>,
        /// The slot.
        slot: SlotNo,
        /// The coded bits of the burst.
        word: Word196,
    },
    /// DONE: the answer to a POLL is complete.
    Done,
    /// REFUSED: the answer to a HELLO that is not accepted.
    Refused(Refusal),
}

/// The frame's name and its fields, except the word of a TX.
impl fmt::Display for FrameOut {
    fn fmt<W: fmt::Write>(&self, f: &mut fmt::Formatter<W>) -> fmt::Result {
        f.write_str(self.kind().name())?;
        match self {
            FrameOut::Welcome { version } => write!(f, " version={version}"),
            FrameOut::Tx {
                number: Some(number),
                slot,
                word: _,
            } => write!(f, " number={number} slot={slot}"),
            FrameOut::Tx {
                number: None,
                slot,
                word: _,
            } => write!(f, " slot={slot}"),
            FrameOut::Done => Ok(()),
            FrameOut::Refused(refusal) => write!(f, " reason={refusal}"),
        }
    }
}

/// A fault of a connection. The cutter finds the first four at one octet; the session finds the last four at a whole
/// frame.
#[derive(Clone, Copy, Debug, PartialEq, Eq)]
pub enum Cause {
    /// A type octet that is not one of a carrier's frames, 01 to 05.
    UnknownType,
    /// A length octet that does not belong to the type octet before it, in the version of the link format by which the
    /// octets are cut.
    BadLength,
    /// A slot octet, in RX or ACTIVE, that is not 00 or 01.
    BadSlot,
    /// The last octet of an RX: one of its last four bits, which follow the word, is 1.
    BadPad,
    /// The first frame of the connection is not a HELLO.
    NoHello,
    /// A HELLO that is not the first frame of the connection.
    SecondHello,
    /// A HELLO whose version is not served. It is checked before `WrongCarrier`.
    BadVersion,
    /// A HELLO of a version that is served, whose carrier number or channel does not belong to the port.
    WrongCarrier,
}

/// The fault's name, and what is wrong.
impl fmt::Display for Cause {
    fn fmt<W: fmt::Write>(&self, f: &mut fmt::Formatter<W>) -> fmt::Result {
        let text = match self {
            Cause::UnknownType => "UnknownType, no frame of a carrier begins with this octet",
            Cause::BadLength => "BadLength, not the length of a frame of this type",
            Cause::BadSlot => "BadSlot, a slot is 00 or 01",
            Cause::BadPad => "BadPad, the last four bits of an RX are 0",
            Cause::NoHello => "NoHello, the first frame is no HELLO",
            Cause::SecondHello => "SecondHello, a HELLO that is not the first frame",
            Cause::BadVersion => "BadVersion, a version of the link that is not served",
            Cause::WrongCarrier => "WrongCarrier, another carrier or channel than the port's",
        };
        write!(f, "{text}")
    }
}
