//! PDUs, their octets, and the reading of octets.

ghost use Rattle.std.specs.Prelude.{◌≡◌, ◌↔◌, ℕ, List, IsTrue};
ghost use Rattle.dmr_bits.specs.Bits.{IsOctets};
ghost use Rattle.dmr_pdu.specs.declared.pdu.Pdu.{Pdu as APdu};
ghost use Rattle.dmr_pdu.specs.Layout.{SpellsPdu, Agrees};
ghost use Rattle.dmr_pdu.specs.Functions.{octets_of, pdu_of};

use crate::layouts::{read_pdu, write_pdu};
use crate::numbers::{Address, Kind, Number, Options, Reason, SystemCode};
use crate::slots::{Lpcn, SlotNo};
use dmr_bits::Octets10;

/// A PDU of the control slot (TS 102 361-4, clause 7.1.1): one of the nine that the site sends or reads, or ten other
/// octets.
#[derive(Clone, Copy, Debug, PartialEq, Eq)]
pub enum Pdu {
    /// C_ALOHA: the site invites radios to random access. The layout is this project's profile.
    Aloha {
        /// Whether the site is synchronised with others.
        sync: bool,
        /// The version of the standard.
        version: Number<3>,
        /// Whether the slots of the two directions are offset against each other.
        offset: bool,
        /// Whether the site is connected to its network.
        active: bool,
        /// How many bits of `address` a radio compares with its own address; 0 if all radios are invited.
        mask: Number<5>,
        /// The service function that is invited; 0 if all are.
        function: Number<2>,
        /// How long a radio waits for an answer before it tries again.
        nrand_wait: Number<4>,
        /// Whether radios must register.
        register: bool,
        /// The number of slots over which radios spread their tries.
        backoff: Number<4>,
        /// The system identity code.
        system: SystemCode,
        /// The address that `mask` applies to.
        address: Address,
    },
    /// C_AHOY: the site checks whether a radio is available (TS 102 361-4, clause 7.1.1).
    Ahoy {
        /// The service options of the request.
        options: Options,
        /// Whether the call is to a talkgroup.
        group: bool,
        /// The service that is requested.
        kind: Kind,
        /// The radio that has to answer.
        called: Address,
        /// The address that calls.
        calling: Address,
    },
    /// C_RAND: a radio's request by random access (TS 102 361-4, clause 7.1.1).
    Random {
        /// The service options.
        options: Options,
        /// The bits between the options and the service kind.
        flags: Number<5>,
        /// The service that is asked for.
        kind: Kind,
        /// The radio, talkgroup or service that is called.
        target: Address,
        /// The radio that sends the request.
        source: Address,
    },
    /// C_ACKD: the site acknowledges (TS 102 361-4, clause 7.1.1).
    Ackd {
        /// The response information.
        info: Number<7>,
        /// The reason code.
        reason: Reason,
        /// A reserved bit.
        spare: bool,
        /// The radio that is answered.
        target: Address,
        /// The address that the answer is from, or about.
        additional: Address,
    },
    /// C_ACKU: a radio acknowledges (TS 102 361-4, clause 7.1.1).
    Acku {
        /// The response information.
        info: Number<7>,
        /// The answer.
        reason: Reason,
        /// A reserved bit.
        spare: bool,
        /// Whom the answer is for.
        target: Address,
        /// The radio that answers.
        additional: Address,
    },
    /// P_CLEAR: the call on a slot has ended, and its radios go to a channel. The layout is this project's profile.
    Clear {
        /// The channel that the radios go to.
        lpcn: Lpcn,
        /// Whether the call is one to a talkgroup.
        group: bool,
        /// The radio or talkgroup that was called.
        target: Address,
        /// Who sends the PDU.
        source: Address,
    },
    /// PV_GRANT: grants a slot to a voice call to one radio (TS 102 361-4, clause 7.1.1).
    PvGrant {
        /// The channel of the slot's carrier.
        lpcn: Lpcn,
        /// The slot of that carrier.
        slot: SlotNo,
        /// The radio that is called.
        target: Address,
        /// The radio that calls.
        source: Address,
    },
    /// TV_GRANT: grants a slot to a voice call to a talkgroup (TS 102 361-4, clause 7.1.1).
    TvGrant {
        /// The channel of the slot's carrier.
        lpcn: Lpcn,
        /// Which of its slots.
        slot: SlotNo,
        /// Whether the grant announces an active call to radios other than its caller (late entry).
        late: bool,
        /// The talkgroup that is called.
        target: Address,
        /// The radio that calls.
        source: Address,
    },
    /// C_MOVE: sends radios to another control channel. The layout is this project's profile.
    Move {
        /// Whether radios must register there.
        register: bool,
        /// Over how many slots radios spread their tries.
        backoff: Number<4>,
        /// The channel to use.
        lpcn: Lpcn,
    },
    /// Ten octets. `from_octets` makes it only of octets that no layout fits: another first octet or feature set, a
    /// fixed bit other than listed, or a channel number of 0 or 4095. With other octets it is not read back as `Other`.
    Other(Octets10),
}

impl Pdu {
    /// Returns the octets of the PDU: those of its layout, or those that `Other` carries.
    pub fn to_octets(&self) -> Octets10
        ensures octets { IsOctets 10 result }
        ensures is { SpellsPdu self.now result }
        // There are no others.
        ensures alone { (octets : List ℕ) → IsOctets 10 octets → SpellsPdu self.now octets
            → octets ≡ result }
        ensures written { result ≡ octets_of self.now }
    {
        write_pdu(self)
    }

    /// Returns the one PDU that agrees with ten octets: the PDU that is laid out in them, or else `Other`.
    pub fn from_octets(octets: &Octets10) -> Self
        ensures agrees { Agrees result octets.now }
        // There is no other.
        ensures only { (pdu : APdu) → Agrees pdu octets.now → pdu ≡ result }
        ensures pdu { result ≡ pdu_of octets.now }
    {
        match read_pdu(octets) {
            Some(pdu) => pdu,
            None => Pdu::Other(*octets),
        }
    }

    /// Returns whether two PDUs are equal, as `==` does, but with a contract.
    pub fn equals(&self, other: &Pdu) -> bool
        ensures { IsTrue result ↔ (self.now ≡ other.now) }
    {
        self == other
    }
}
