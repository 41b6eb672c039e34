//! The peers of a site, their input, and the site's answers to it.

use crate::steps::number;
use dmr_frames::Version;
use std::alloc::{AllocError, Global};

/// A peer of the site.
#[derive(Clone, Copy)]
pub enum SitePeer {
    /// Carrier 0. It speaks this version of the link, which is also the greatest that the site serves to it.
    Carrier(Version),
    /// An operator.
    Operator,
}

/// HELLO, the registration of radio 1001 on slot 0, and POLL.
const TOLD: &[u8] = &[
    0x01, 0x04, 0x01, 0x00, 0x00, 0x01, 0x02, 0x1A, 0x00, 0x0E, 0xB4, 0x9C, 0xDF, 0x34, 0xF2, 0x74,
    0x9C, 0xEC, 0xBA, 0x5C, 0xB3, 0xB7, 0xC4, 0x0E, 0x88, 0x13, 0x8C, 0x9A, 0x38, 0xF9, 0x62, 0x48,
    0xE1, 0x80, 0x03, 0x00,
];

/// The same in version 2 of the link. The registration has number 5.
const TOLD_NUMBERED: &[u8] = &[
    0x01, 0x04, 0x02, 0x00, 0x00, 0x01, 0x02, 0x1B, 0x05, 0x00, 0x0E, 0xB4, 0x9C, 0xDF, 0x34, 0xF2,
    0x74, 0x9C, 0xEC, 0xBA, 0x5C, 0xB3, 0xB7, 0xC4, 0x0E, 0x88, 0x13, 0x8C, 0x9A, 0x38, 0xF9, 0x62,
    0x48, 0xE1, 0x80, 0x03, 0x00,
];

/// WELCOME, the acknowledgement of the registration on slot 0, and DONE.
const ANSWERED: &[u8] = &[
    0x81, 0x01, 0x01, 0x82, 0x1A, 0x00, 0x41, 0xC3, 0x02, 0x8A, 0x48, 0xFC, 0x8F, 0x40, 0x3D, 0xC0,
    0x6F, 0x00, 0xED, 0xA0, 0xF7, 0x83, 0xE4, 0x97, 0x54, 0x2E, 0x40, 0x5C, 0xB8, 0x3C, 0xB0, 0x83,
    0x00,
];

/// The same in version 2 of the link. The acknowledgement has number 0.
const ANSWERED_NUMBERED: &[u8] = &[
    0x81, 0x01, 0x02, 0x82, 0x1B, 0x00, 0x00, 0x41, 0xC3, 0x02, 0x8A, 0x48, 0xFC, 0x8F, 0x40, 0x3D,
    0xC0, 0x6F, 0x00, 0xED, 0xA0, 0xF7, 0x83, 0xE4, 0x97, 0x54, 0x2E, 0x40, 0x5C, 0xB8, 0x3C, 0xB0,
    0x83, 0x00,
];

/// Two lines.
const SAID: &[u8] = b"status\nstay\n";

/// The replies to them on a site with no carrier up, no radio, ask, line or call.
const REPLIES: &[u8] = b"status carriers 0 radios 0 asks 0 lines 0 calls 0 fill aloha\nok\n";

impl SitePeer {
    /// Returns the peer with this name.
    pub fn of_name(name: &str) -> Option<SitePeer> {
        match name {
            "carrier in version 1" => Some(SitePeer::Carrier(Version::V1)),
            "carrier in version 2" => Some(SitePeer::Carrier(Version::V2)),
            "operator" => Some(SitePeer::Operator),
            _ => None,
        }
    }

    /// Returns the peer's input: 36 octets, 37 in version 2 of the link, or 12 of an operator.
    pub fn input(self) -> &'static [u8] {
        match self {
            SitePeer::Carrier(Version::V1) => TOLD,
            SitePeer::Carrier(Version::V2) => TOLD_NUMBERED,
            SitePeer::Operator => SAID,
        }
    }

    /// Returns the whole answer to that input: 33 octets, 34 in version 2 of the link, or 64 for an operator.
    pub fn answer(self) -> &'static [u8] {
        match self {
            SitePeer::Carrier(Version::V1) => ANSWERED,
            SitePeer::Carrier(Version::V2) => ANSWERED_NUMBERED,
            SitePeer::Operator => REPLIES,
        }
    }

    /// Returns, for each count in `counts`, this number of first octets of the answer, joined. Returns `None` if a word
    /// is not a count.
    pub fn answered(
        self,
        alloc: Global,
        counts: &str,
        round: usize,
    ) -> Result<Option<Vec<u8>>, AllocError> {
        let mut octets = Vec::new(alloc);
        for word in counts.split(' ') {
            let Some(count) = number(word, round) else {
                return Ok(None);
            };
            match self.answer().get(..count) {
                Some(first) => octets.extend_from_slice(first)?,
                None => return Ok(None),
            }
        }
        Ok(Some(octets))
    }
}
