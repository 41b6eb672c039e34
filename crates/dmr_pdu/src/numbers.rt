//! The numbers in PDUs, each with its range, and the names of kinds and reasons. Contracts see each of them as a natural
//! number.

ghost use Rattle.std.specs.Prelude.{◌≡◌, ◌<◌, ◌≤◌, ◌^◌, ℕ};
ghost use Rattle.std.specs.Option.{SomeIff};
ghost use Rattle.dmr_pdu.specs.Reasons.{refuses};

use crate::bounded_list::Blank;
use std::fmt;
use std::marker::Model;

/// A number of `WIDTH` bits, at most 8.
#[derive(Clone, Copy, Debug, PartialEq, Eq)]
pub struct Number<const WIDTH: u32> {
    value: u8,
}

impl<const WIDTH: u32> Model for Number<WIDTH> {
    ghost use Rattle.std.specs.Prelude.{ℕ, ◌<◌, ◌^◌};

    ghost Value = { ℕ };

    ghost view = { λ n. n.value };

    ghost invariant = { λ n. n.value < 2 ^ WIDTH };

    ghost inverse = { λ n. record { value = n } };
}

impl<const WIDTH: u32> Number<WIDTH> {
    /// Returns this number, which must be below 2 to the power of `WIDTH`.
    pub fn new(number: u32) -> Self
        requires fits { number < 2 ^ WIDTH }
        requires narrow { WIDTH ≤ 8 }
        ensures { result ≡ number }
    {
        Number {
            value: number as u8,
        }
    }

    /// Returns the number as an integer.
    pub fn get(&self) -> u32
        ensures value { result ≡ self.now }
        ensures range { result < 2 ^ WIDTH }
    {
        u32::from(self.value)
    }
}

/// Writes the decimal number.
impl<const WIDTH: u32> fmt::Display for Number<WIDTH> {
    fn fmt<W: fmt::Write>(&self, f: &mut fmt::Formatter<W>) -> fmt::Result {
        let number = self.get();
        write!(f, "{number}")
    }
}

/// The service options of a request: 7 bits (TS 102 361-4, clause 7.2).
pub type Options = Number<7>;

/// The system identity code of a site: 16 bits (TS 102 361-4, clause 7.2). The site does not look into it.
#[derive(Clone, Copy, Debug, PartialEq, Eq)]
pub struct SystemCode {
    code: u16,
}

impl Model for SystemCode {
    ghost use Rattle.std.specs.Prelude.{ℕ, ◌<◌, ◌^◌};

    ghost Value = { ℕ };

    ghost view = { λ n. n.code };

    ghost invariant = { λ n. n.code < 2 ^ 16 };

    ghost inverse = { λ n. record { code = n } };
}

impl SystemCode {
    /// Returns the code with this number, which must be below 2 to the power of 16.
    pub fn new(number: u32) -> Self
        requires { number < 2 ^ 16 }
        ensures { result ≡ number }
    {
        SystemCode {
            code: number as u16,
        }
    }

    /// Returns the code as an integer.
    pub fn get(&self) -> u32
        ensures value { result ≡ self.now }
        ensures range { result < 2 ^ 16 }
    {
        u32::from(self.code)
    }
}

/// An address of 24 bits: a radio, a talkgroup or a service of the site (TS 102 361-4, clause 7.2).
#[derive(Clone, Copy, Debug, PartialEq, Eq, PartialOrd, Ord, Hash)]
pub struct Address {
    number: u32,
}

impl Model for Address {
    ghost use Rattle.std.specs.Prelude.{ℕ, ◌<◌, ◌^◌};

    ghost Value = { ℕ };

    ghost view = { λ n. n.number };

    ghost invariant = { λ n. n.number < 2 ^ 24 };

    ghost inverse = { λ n. record { number = n } };
}

impl Address {
    /// Returns the address with this number, which must be below 2 to the power of 24.
    pub fn new(number: u32) -> Self
        requires { number < 2 ^ 24 }
        ensures { result ≡ number }
    {
        Address { number }
    }

    /// Returns the address with this number, or `None` if the number has more than 24 bits.
    pub fn try_new(number: u32) -> Option<Self>
        ensures { SomeIff result (number < 2 ^ 24) number }
    {
        if number < 1 << 24 {
            Some(Address::new(number))
        } else {
            None
        }
    }

    /// Returns the address as an integer.
    pub fn get(&self) -> u32
        ensures value { result ≡ self.now }
        ensures range { result < 2 ^ 24 }
    {
        self.number
    }
}

/// Writes the decimal number.
impl fmt::Display for Address {
    ghost use Rattle.std.specs.Prelude.{Some, decimal};

    ghost output = { λ n. Some (decimal n) };

    fn fmt<W: fmt::Write>(&self, f: &mut fmt::Formatter<W>) -> fmt::Result {
        let address = self.get();
        write!(f, "{address}")
    }
}

impl Blank for Address {
    ghost blank = { 0 };

    fn blank() -> Self {
        Address { number: 0 }
    }
}

/// The address 0.
impl Default for Address {
    ghost use Rattle.std.specs.Prelude.{◌≡◌};

    ghost is_default = { λ address. address ≡ 0 };

    fn default() -> Self {
        Address::blank()
    }
}

/// The service kind of a request: 4 bits (TS 102 361-4, clause 7.2).
#[derive(Clone, Copy, Debug, PartialEq, Eq)]
pub struct Kind {
    code: u8,
}

impl Model for Kind {
    ghost use Rattle.std.specs.Prelude.{ℕ, ◌<◌, ◌^◌};

    ghost Value = { ℕ };

    ghost view = { λ n. n.code };

    ghost invariant = { λ n. n.code < 2 ^ 4 };

    ghost inverse = { λ n. record { code = n } };
}

impl Kind {
    /// A voice call to one radio (0).
    pub const INDIVIDUAL_VOICE: Kind = Kind { code: 0 };

    /// A voice call to a talkgroup (1).
    pub const TALKGROUP_VOICE: Kind = Kind { code: 1 };

    /// A radio registers, or leaves (14).
    pub const REGISTRATION: Kind = Kind { code: 14 };

    /// A radio cancels its call request (15).
    pub const CANCEL: Kind = Kind { code: 15 };

    /// The kinds that the site knows, and their names.
    pub const NAMES: [(Kind, &'static str); 4] = [
        (Kind::INDIVIDUAL_VOICE, "individual_voice"),
        (Kind::TALKGROUP_VOICE, "talkgroup_voice"),
        (Kind::REGISTRATION, "registration"),
        (Kind::CANCEL, "cancel"),
    ];

    /// Returns the kind with this number, which must be below 16.
    pub fn new(number: u32) -> Self
        requires { number < 2 ^ 4 }
        ensures { result ≡ number }
    {
        Kind { code: number as u8 }
    }

    /// Returns the kind as an integer.
    pub fn get(&self) -> u32
        ensures value { result ≡ self.now }
        ensures range { result < 2 ^ 4 }
    {
        u32::from(self.code)
    }

    /// Returns the name of a kind that the site knows, or `None` for another.
    pub fn name(&self) -> Option<&'static str> {
        Kind::NAMES
            .iter()
            .find(|row| row.0 == *self)
            .map(|row| row.1)
    }
}

/// Writes the name of a kind that the site knows, or else the decimal number.
impl fmt::Display for Kind {
    fn fmt<W: fmt::Write>(&self, f: &mut fmt::Formatter<W>) -> fmt::Result {
        let number = self.get();
        match self.name() {
            Some(name) => write!(f, "{name}"),
            None => write!(f, "{number}"),
        }
    }
}

/// The reason code of an acknowledgement: 8 bits (TS 102 361-4, clause 7.2). The octets of the named reasons are this
/// project's profile.
#[derive(Clone, Copy, Debug, PartialEq, Eq)]
pub struct Reason {
    octet: u8,
}

impl Model for Reason {
    ghost use Rattle.std.specs.Prelude.{ℕ, ◌<◌, ◌^◌};

    ghost Value = { ℕ };

    ghost view = { λ n. n.octet };

    ghost invariant = { λ n. n.octet < 2 ^ 8 };

    ghost inverse = { λ n. record { octet = n } };
}

impl Reason {
    /// Not_Supported (0x20): the site does not have the service.
    pub const NOT_SUPPORTED: Reason = Reason { octet: 0x20 };

    /// Perm_User_Refused (0x21): the service is refused for good.
    pub const PERM_USER_REFUSED: Reason = Reason { octet: 0x21 };

    /// Transient_Sys_Refused (0x23): the site refuses for now.
    pub const TRANSIENT_SYS_REFUSED: Reason = Reason { octet: 0x23 };

    /// NoReg_MS_Away (0x24): the called radio is not registered here, did not answer, or has left.
    pub const NOREG_MS_AWAY: Reason = Reason { octet: 0x24 };

    /// SysBusy_Refused (0x27): the site is busy.
    pub const SYSBUSY_REFUSED: Reason = Reason { octet: 0x27 };

    /// Call_Cancel_Refused (0x29): there is not a call request to cancel.
    pub const CALL_CANCEL_REFUSED: Reason = Reason { octet: 0x29 };

    /// Reg_Refused (0x2A): the registration is refused.
    pub const REG_REFUSED: Reason = Reason { octet: 0x2A };

    /// Reg_Denied (0x2B): the registration is denied for good.
    pub const REG_DENIED: Reason = Reason { octet: 0x2B };

    /// MS_Not_Registered (0x2D): the requesting radio is not registered.
    pub const MS_NOT_REGISTERED: Reason = Reason { octet: 0x2D };

    /// Called_Party_Busy (0x2E): the called radio is engaged, or did not accept.
    pub const CALLED_PARTY_BUSY: Reason = Reason { octet: 0x2E };

    /// Group_Not_Allowed (0x2F): the site does not serve the talkgroup.
    pub const GROUP_NOT_ALLOWED: Reason = Reason { octet: 0x2F };

    /// MS_Accepted (0x44): a radio accepts.
    pub const MS_ACCEPTED: Reason = Reason { octet: 0x44 };

    /// Message_Accepted (0x60): the request is done.
    pub const MESSAGE_ACCEPTED: Reason = Reason { octet: 0x60 };

    /// Reg_Accepted (0x62): the radio is registered.
    pub const REG_ACCEPTED: Reason = Reason { octet: 0x62 };

    /// Queued_For_Resource (0xA0): the call request waits for a slot.
    pub const QUEUED_FOR_RESOURCE: Reason = Reason { octet: 0xA0 };

    /// Wait (0xE0): more signalling follows.
    pub const WAIT: Reason = Reason { octet: 0xE0 };

    /// The reasons that have a name, and their names.
    pub const NAMES: [(Reason, &'static str); 16] = [
        (Reason::NOT_SUPPORTED, "Not_Supported"),
        (Reason::PERM_USER_REFUSED, "Perm_User_Refused"),
        (Reason::TRANSIENT_SYS_REFUSED, "Transient_Sys_Refused"),
        (Reason::NOREG_MS_AWAY, "NoReg_MS_Away"),
        (Reason::SYSBUSY_REFUSED, "SysBusy_Refused"),
        (Reason::CALL_CANCEL_REFUSED, "Call_Cancel_Refused"),
        (Reason::REG_REFUSED, "Reg_Refused"),
        (Reason::REG_DENIED, "Reg_Denied"),
        (Reason::MS_NOT_REGISTERED, "MS_Not_Registered"),
        (Reason::CALLED_PARTY_BUSY, "Called_Party_Busy"),
        (Reason::GROUP_NOT_ALLOWED, "Group_Not_Allowed"),
        (Reason::MS_ACCEPTED, "MS_Accepted"),
        (Reason::MESSAGE_ACCEPTED, "Message_Accepted"),
        (Reason::REG_ACCEPTED, "Reg_Accepted"),
        (Reason::QUEUED_FOR_RESOURCE, "Queued_For_Resource"),
        (Reason::WAIT, "Wait"),
    ];

    /// Returns the reason with this octet, which must be below 256.
    pub fn new(number: u32) -> Self
        requires { number < 2 ^ 8 }
        ensures { result ≡ number }
    {
        Reason {
            octet: number as u8,
        }
    }

    /// Returns the reason's octet.
    pub fn get(&self) -> u32
        ensures value { result ≡ self.now }
        ensures range { result < 2 ^ 8 }
    {
        u32::from(self.octet)
    }

    /// Reports whether an acknowledgement with this reason refuses a request: octets 0x20 to 0x2F.
    pub fn is_refusal(&self) -> bool
        ensures { result ≡ refuses self.now }
    {
        self.octet / 16 == 2
    }

    /// Returns the name of a reason that has one, or `None` for another.
    pub fn name(&self) -> Option<&'static str> {
        Reason::NAMES
            .iter()
            .find(|row| row.0 == *self)
            .map(|row| row.1)
    }
}

/// Writes the name of a reason that has one, or else the decimal number.
impl fmt::Display for Reason {
    fn fmt<W: fmt::Write>(&self, f: &mut fmt::Formatter<W>) -> fmt::Result {
        let number = self.get();
        match self.name() {
            Some(name) => write!(f, "{name}"),
            None => write!(f, "{number}"),
        }
    }
}
