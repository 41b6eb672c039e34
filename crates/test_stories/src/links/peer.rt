//! Links of each kind, with the input and the whole answer that the stories use.

use super::gate::CountingGate;
use dmr_frames::Version;
use dmr_link::{ConsoleLink, Desk, Ended, Link, OpenGate, TermOver};
use dmr_pdu::{CarrierNo, Lpcn};
use dmr_wire::MemoryPort;

/// The kinds of links.
#[derive(Clone, Copy, PartialEq)]
pub enum LinkKind {
    /// The link of carrier 0, which serves version 1.
    Carrier,
    /// The link of carrier 0, which serves version 2 too.
    Numbered,
    /// The operators' link.
    Operator,
}

/// HELLO, the registration of radio 1001 on slot 0, and POLL.
const TOLD: &[u8] = &[
    0x01, 0x04, 0x01, 0x00, 0x00, 0x01, 0x02, 0x1A, 0x00, 0x0E, 0xB4, 0x9C, 0xDF, 0x34, 0xF2, 0x74,
    0x9C, 0xEC, 0xBA, 0x5C, 0xB3, 0xB7, 0xC4, 0x0E, 0x88, 0x13, 0x8C, 0x9A, 0x38, 0xF9, 0x62, 0x48,
    0xE1, 0x80, 0x03, 0x00,
];

/// WELCOME, the acknowledgement of the registration on slot 0, and DONE.
const ANSWERED: &[u8] = &[
    0x81, 0x01, 0x01, 0x82, 0x1A, 0x00, 0x41, 0xC3, 0x02, 0x8A, 0x48, 0xFC, 0x8F, 0x40, 0x3D, 0xC0,
    0x6F, 0x00, 0xED, 0xA0, 0xF7, 0x83, 0xE4, 0x97, 0x54, 0x2E, 0x40, 0x5C, 0xB8, 0x3C, 0xB0, 0x83,
    0x00,
];

/// HELLO of version 2, the registration with number 5 twice, and POLL twice.
const TOLD_NUMBERED: &[u8] = &[
    0x01, 0x04, 0x02, 0x00, 0x00, 0x01, 0x02, 0x1B, 0x05, 0x00, 0x0E, 0xB4, 0x9C, 0xDF, 0x34, 0xF2,
    0x74, 0x9C, 0xEC, 0xBA, 0x5C, 0xB3, 0xB7, 0xC4, 0x0E, 0x88, 0x13, 0x8C, 0x9A, 0x38, 0xF9, 0x62,
    0x48, 0xE1, 0x80, 0x02, 0x1B, 0x05, 0x00, 0x0E, 0xB4, 0x9C, 0xDF, 0x34, 0xF2, 0x74, 0x9C, 0xEC,
    0xBA, 0x5C, 0xB3, 0xB7, 0xC4, 0x0E, 0x88, 0x13, 0x8C, 0x9A, 0x38, 0xF9, 0x62, 0x48, 0xE1, 0x80,
    0x03, 0x00, 0x03, 0x00,
];

/// WELCOME of version 2, the acknowledgement with number 0, DONE, the Fill of a quiet control slot with number 1, and
/// DONE.
const ANSWERED_NUMBERED: &[u8] = &[
    0x81, 0x01, 0x02, 0x82, 0x1B, 0x00, 0x00, 0x41, 0xC3, 0x02, 0x8A, 0x48, 0xFC, 0x8F, 0x40, 0x3D,
    0xC0, 0x6F, 0x00, 0xED, 0xA0, 0xF7, 0x83, 0xE4, 0x97, 0x54, 0x2E, 0x40, 0x5C, 0xB8, 0x3C, 0xB0,
    0x83, 0x00, 0x82, 0x1B, 0x01, 0x00, 0x00, 0x3C, 0x16, 0x27, 0x11, 0x60, 0x0B, 0x78, 0x15, 0x58,
    0x08, 0x90, 0x05, 0x03, 0x05, 0x86, 0x22, 0x80, 0x42, 0x10, 0x79, 0x00, 0x5A, 0x23, 0x10, 0x83,
    0x00,
];

/// The replies to `status` on a site with no carrier up, no radio, ask, line or call, and to a command that is done.
const REPLIES: &[u8] = b"status carriers 0 radios 0 asks 0 lines 0 calls 0 fill aloha\nok\n";

impl LinkKind {
    /// Returns the input of the stories: HELLO, the registration of radio 1001 and POLL (in version 2 the registration
    /// twice and POLL twice), or two lines.
    pub fn input(self) -> &'static [u8] {
        match self {
            LinkKind::Carrier => TOLD,
            LinkKind::Numbered => TOLD_NUMBERED,
            LinkKind::Operator => b"status\nstay\n",
        }
    }

    /// Returns the whole answer to that input.
    pub fn answer(self) -> &'static [u8] {
        match self {
            LinkKind::Carrier => ANSWERED,
            LinkKind::Numbered => ANSWERED_NUMBERED,
            LinkKind::Operator => REPLIES,
        }
    }
}

/// A link of each sort, of which the one of this kind is tested.
#[derive(Drop)]
pub struct TestedLink {
    /// The kind.
    pub kind: LinkKind,
    link: Link,
    console: ConsoleLink,
}

impl TestedLink {
    /// Returns a link of this kind without a connection. A carrier's is that of carrier 0, whose channel is 1.
    pub fn new(kind: LinkKind) -> TestedLink {
        let greatest = if kind == LinkKind::Numbered {
            Version::V2
        } else {
            Version::V1
        };
        TestedLink {
            kind,
            link: Link::new(CarrierNo::new(0), Lpcn::new(1), greatest),
            console: ConsoleLink::new(),
        }
    }

    /// Returns whether the link is of operators.
    fn is_of_operators(&self) -> bool {
        self.kind == LinkKind::Operator
    }

    /// Returns whether the link is live.
    pub fn live(&self) -> bool {
        if self.is_of_operators() {
            self.console.live()
        } else {
            self.link.live()
        }
    }

    /// Opens the link.
    pub fn open(&mut self) -> bool {
        if self.is_of_operators() {
            self.console.open()
        } else {
            self.link.open()
        }
    }

    /// Serves the link, with a gate if one is given.
    pub fn serve<D: Desk>(
        &mut self,
        port: &mut MemoryPort,
        desk: &mut D,
        gate: Option<&mut CountingGate>,
    ) -> Ended {
        if self.is_of_operators() {
            return self.console.serve(port, desk);
        }
        match gate {
            Some(gate) => self.link.serve(port, desk, gate),
            None => self.link.serve(port, desk, &mut OpenGate),
        }
    }

    /// Cuts the link.
    pub fn cut<D: Desk>(&mut self, desk: &mut D) -> Result<(), TermOver> {
        if self.is_of_operators() {
            self.console.cut(desk)
        } else {
            self.link.cut(desk)
        }
    }
}
