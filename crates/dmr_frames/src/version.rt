//! The versions of the link format (this project's profile).

ghost use Rattle.std.specs.Prelude.{◌≡◌};
ghost use Rattle.dmr_frames.specs.declared.version.Version.{Version};
ghost use Rattle.dmr_frames.specs.Versions.{chosen_by, has_numbers, is_since, named_or_first};
ghost use Rattle.dmr_frames.specs.Versions.{version_by, version_named, version_octet, version_of};
ghost use Rattle.dmr_frames.specs.Versions.{table_after};

use crate::frame::FrameIn;

/// A version of the link format. Versions differ in RX and TX alone: in whether bursts have numbers.
#[derive(Clone, Copy, Debug, PartialEq, Eq)]
pub enum Version {
    /// Version 1: bursts have no number.
    V1,
    /// Version 2: each burst has a number octet before its slot, so that a carrier can retransmit an RX.
    V2,
}

impl Version {
    /// Every version, oldest first.
    pub const ALL: [Version; 2] = [Version::V1, Version::V2];

    /// The newest version.
    pub const NEWEST: Version = Version::V2;

    /// Returns whether bursts have numbers in this version: a number octet before the slot of each RX and TX.
    pub fn has_numbers(self) -> bool
        ensures { result ≡ has_numbers self }
    {
        match self {
            Version::V1 => false,
            Version::V2 => true,
        }
    }

    /// Returns whether this version has the things that version `since` introduced.
    pub fn is_since(self, since: Version) -> bool
        ensures { result ≡ is_since since self }
    {
        self.octet() >= since.octet()
    }

    /// Returns the first version that has bursts with a number, or without one if `number` is `None`.
    pub fn by_number(number: Option<u8>) -> Version
        ensures { result ≡ version_by number }
    {
        match number {
            None => Version::V1,
            Some(_) => Version::V2,
        }
    }

    /// The octet of the version in HELLO and WELCOME: 1 or 2.
    pub fn octet(self) -> u8
        ensures { result ≡ version_octet self }
    {
        match self {
            Version::V1 => 0x01,
            Version::V2 => 0x02,
        }
    }

    /// The version of an octet, if it is at most this one, the greatest that is served. `None` if the octet names no
    /// such version.
    pub fn served_version(self, octet: u8) -> Option<Version>
        ensures { result ≡ version_named self octet }
    {
        let version = match octet {
            0x01 => Version::V1,
            0x02 => Version::V2,
            _ => return None,
        };
        if self.is_since(version) {
            Some(version)
        } else {
            None
        }
    }

    /// Returns the version of an octet, or version 1 if the octet names none.
    pub fn version_or_first(octet: u8) -> Version
        ensures { result ≡ named_or_first octet }
    {
        match Version::NEWEST.served_version(octet) {
            Some(version) => version,
            None => Version::V1,
        }
    }

    /// The version that a connection's first frame chooses for those after it, if versions up to this one are served. A
    /// HELLO chooses the version of its octet, if that is served. Any other frame chooses version 1.
    pub fn chosen_by(self, frame: &FrameIn) -> Version
        ensures { result ≡ chosen_by self frame.now }
    {
        let FrameIn::Hello { version, .. } = frame else {
            return Version::V1;
        };
        match self.served_version(*version) {
            Some(version) => version,
            None => Version::V1,
        }
    }
}

/// The table of spellings by which the octets of a connection are cut.
#[derive(Clone, Copy, Debug, PartialEq, Eq)]
pub enum FrameTable {
    /// No frame has come yet: the first has the spelling of version 1. Versions up to this one are served.
    First(Version),
    /// The first frame has come, and those after it are of this version.
    Later(Version),
}

impl FrameTable {
    /// The version of the next frame's spelling.
    pub fn version(self) -> Version
        ensures { result ≡ version_of self }
    {
        match self {
            FrameTable::First(_) => Version::V1,
            FrameTable::Later(version) => version,
        }
    }

    /// The table after a frame. A first frame that is a HELLO of a served version chooses that version; any other first
    /// frame chooses version 1.
    pub fn next_table(self, frame: &FrameIn) -> FrameTable
        ensures { result ≡ table_after self frame.now }
    {
        match self {
            FrameTable::First(greatest) => FrameTable::Later(greatest.chosen_by(frame)),
            FrameTable::Later(version) => FrameTable::Later(version),
        }
    }
}
