//! The keys of a site file, and the key table: what the file may say at each key. The keys and their ranges are this
//! project's profile. The fields that they fill are those of TS 102 361-4.

ghost use Rattle.std.specs.Prelude.{◌≡◌};
ghost use Rattle.dmr_plan.specs.Keys.{name_of, limits_of, number_limits, array_limits};
ghost use Rattle.dmr_plan.specs.Keys.{FallbackIsWithin};

use std::fmt;

/// A key of the site file or of one of its carriers. Keys are checked in this order, but those of the carriers, table
/// by table, before `Control`. The ranges are this project's profile.
#[derive(Clone, Copy, PartialEq, Eq, Debug)]
pub enum Key {
    /// The system identity code that C_ALOHA announces: 0 to 65535. Required.
    System,
    /// The address of the registration service: 16776416 to 16777215, above those of radios and talkgroups. Required.
    Regi,
    /// The address of the site itself, the source of a P_CLEAR: 16776416 to 16777215, and not that of `regi`. Required.
    Tsi,
    /// The option bit of a registration request, counted from the last, that is 0 if the radio leaves: 0 to 6. If the
    /// key is missing, every registration request registers.
    LeaveBit,
    /// The field sync of C_ALOHA: 0 to 1; 0 if missing.
    AlohaSync,
    /// The field version of C_ALOHA: 0 to 7; 0 if missing.
    AlohaVersion,
    /// The field offset of C_ALOHA: 0 to 1; 0 if missing.
    AlohaOffset,
    /// The field active of C_ALOHA: 0 to 1; 0 if missing.
    AlohaActive,
    /// The field nrand_wait of C_ALOHA: 0 to 15; 0 if missing.
    NrandWait,
    /// After how many ticks without activity a call is over: 1 to 65535. A tick ends one such call. Required.
    Hang,
    /// After how many ticks from its beginning a call is over: 1 to 65535. A tick ends one such call. Required.
    Maximum,
    /// How many ticks pass at least between two C_AHOY of one ask: 1 to 65535. Required.
    AhoyWait,
    /// How many C_AHOY a radio is sent before it counts as away: 1 to 8. Required.
    AhoyTries,
    /// How many copies of a channel grant are queued: 1 to 4. Required.
    GrantCopies,
    /// How many copies of P_CLEAR are queued when a call ends: 1 to 4. Required.
    ClearCopies,
    /// The backoff of a quiet control slot: 1 to 15. Required.
    BackoffLow,
    /// The greatest backoff, which noise on the control slot leads to: `backoff_low` to 15. Required.
    BackoffHigh,
    /// How many milliseconds a tick lasts: 10 to 1000. Required.
    TickMs,
    /// After how many waits of 100 ms in a row without an octet a connection is cut: 1 to 65535. Required.
    Silence,
    /// How many entries the journal of a term takes: 1 to 100000; 10000 if missing.
    TermEntries,
    /// The greatest version of the link format that carriers are served: 1 to 2; 1 if missing.
    LinkVersion,
    /// The IPv4 address to listen at: an array of four numbers 0 to 255; [127, 0, 0, 1] if missing.
    Address,
    /// The TCP port of the console: 1 to 65535. Required.
    ConsolePort,
    /// The ranges of the radios that may register: an array of 1 to 16 arrays [first, last] of addresses 1 to 16776415,
    /// first at most last. Ranges may overlap. Required.
    Radios,
    /// The talkgroups: an array of 0 to 64 addresses 1 to 16776415, none twice. Required.
    Groups,
    /// The carriers: an array of 1 to 16 tables, each with `number`, `lpcn` and `port`. Required.
    Carrier,
    /// The number of the control carrier: 0 to 15, and one of the carriers has it. Required.
    Control,
    /// Within a carrier: its number, 0 to 15, not that of an earlier carrier. Required.
    Number,
    /// Within a carrier: its logical physical channel number, 1 to 4094, not that of an earlier carrier. Required.
    Lpcn,
    /// Within a carrier: the TCP port of its connection, 1 to 65535, neither that of an earlier carrier nor the
    /// console's. Required.
    Port,
}

/// The most ranges of radios that a site file lists (this project's profile).
pub const MOST_RANGES: usize = 16;

/// The most talkgroups of a site (this project's profile).
pub const MOST_GROUPS: usize = 64;

/// The most carriers of a site (this project's profile).
pub const MOST_CARRIERS: usize = 16;

/// The type of the value at a key.
#[derive(Clone, Copy)]
pub enum Content {
    /// One whole number, which counts as one item.
    OneNumber,
    /// An array of whole numbers.
    Numbers,
    /// An array of arrays of two whole numbers each.
    Pairs,
    /// An array of tables.
    Tables,
}

/// The value that a missing key has.
#[derive(Clone, Copy)]
pub enum Fallback {
    /// None: the key is required, and it is a fault if it is missing.
    Fault,
    /// Nothing: the site does not do what the key is for.
    Nothing,
    /// This number.
    Value(u32),
    /// The loopback address, 127.0.0.1.
    Loopback,
}

/// The least and the greatest number.
#[derive(Clone, Copy)]
pub struct Bounds {
    /// The least number.
    pub least: u32,
    /// The greatest number.
    pub most: u32,
}

/// The fewest and the most items.
#[derive(Clone, Copy)]
pub struct Count {
    /// The fewest items.
    pub fewest: usize,
    /// The most items.
    pub most: usize,
}

/// What the file may say at a key.
#[derive(Clone, Copy)]
pub struct Limits {
    /// The type of the value.
    pub content: Content,
    /// How many items there may be.
    pub count: Count,
    /// The least and the greatest number, alone or in the array.
    pub range: Bounds,
    /// The value if the key is missing.
    pub fallback: Fallback,
}

/// A row of the key table.
#[derive(Clone, Copy)]
pub struct KeyRow {
    /// How the site file spells the key.
    pub name: &'static str,
    /// What the site file may say at the key.
    pub limits: Limits,
}

/// Returns the row of a key with one number.
fn number(name: &'static str, least: u32, most: u32, fallback: Fallback) -> KeyRow
    ensures name { result.name.now ≡ name.now }
    ensures limits { result.limits ≡ number_limits least most fallback }
{
    let limits = Limits {
        content: Content::OneNumber,
        count: Count { fewest: 1, most: 1 },
        range: Bounds { least, most },
        fallback,
    };
    KeyRow { name, limits }
}

/// Returns the row of a key with an array.
fn array(
    name: &'static str,
    content: Content,
    count: Count,
    range: Bounds,
    fallback: Fallback,
) -> KeyRow
    ensures name { result.name.now ≡ name.now }
    ensures limits { result.limits ≡ array_limits content count range fallback }
{
    let limits = Limits {
        content,
        count,
        range,
        fallback,
    };
    KeyRow { name, limits }
}

impl Key {
    /// Returns the key's row of the key table.
    fn row(self) -> KeyRow
        ensures name { result.name.now ≡ name_of self }
        ensures limits { result.limits ≡ limits_of self }
        ensures fits { FallbackIsWithin (limits_of self).range (limits_of self).fallback }
    {
        match self {
            Key::System => number("system", 0, 65535, Fallback::Fault),
            Key::Regi => number("regi", 16_776_416, 16_777_215, Fallback::Fault),
            Key::Tsi => number("tsi", 16_776_416, 16_777_215, Fallback::Fault),
            Key::LeaveBit => number("leave_bit", 0, 6, Fallback::Nothing),
            Key::AlohaSync => number("aloha_sync", 0, 1, Fallback::Value(0)),
            Key::AlohaVersion => number("aloha_version", 0, 7, Fallback::Value(0)),
            Key::AlohaOffset => number("aloha_offset", 0, 1, Fallback::Value(0)),
            Key::AlohaActive => number("aloha_active", 0, 1, Fallback::Value(0)),
            Key::NrandWait => number("nrand_wait", 0, 15, Fallback::Value(0)),
            Key::Hang => number("hang", 1, 65535, Fallback::Fault),
            Key::Maximum => number("maximum", 1, 65535, Fallback::Fault),
            Key::AhoyWait => number("ahoy_wait", 1, 65535, Fallback::Fault),
            Key::AhoyTries => number("ahoy_tries", 1, 8, Fallback::Fault),
            Key::GrantCopies => number("grant_copies", 1, 4, Fallback::Fault),
            Key::ClearCopies => number("clear_copies", 1, 4, Fallback::Fault),
            Key::BackoffLow => number("backoff_low", 1, 15, Fallback::Fault),
            Key::BackoffHigh => number("backoff_high", 1, 15, Fallback::Fault),
            Key::TickMs => number("tick_ms", 10, 1000, Fallback::Fault),
            Key::Silence => number("silence", 1, 65535, Fallback::Fault),
            Key::TermEntries => number("term_entries", 1, 100_000, Fallback::Value(10000)),
            Key::LinkVersion => number("link_version", 1, 2, Fallback::Value(1)),
            Key::Address => array(
                "address",
                Content::Numbers,
                Count { fewest: 4, most: 4 },
                Bounds {
                    least: 0,
                    most: 255,
                },
                Fallback::Loopback,
            ),
            Key::ConsolePort => number("console_port", 1, 65535, Fallback::Fault),
            Key::Radios => array(
                "radios",
                Content::Pairs,
                Count {
                    fewest: 1,
                    most: MOST_RANGES,
                },
                Bounds {
                    least: 1,
                    most: 16_776_415,
                },
                Fallback::Fault,
            ),
            Key::Groups => array(
                "groups",
                Content::Numbers,
                Count {
                    fewest: 0,
                    most: MOST_GROUPS,
                },
                Bounds {
                    least: 1,
                    most: 16_776_415,
                },
                Fallback::Fault,
            ),
            Key::Carrier => array(
                "carrier",
                Content::Tables,
                Count {
                    fewest: 1,
                    most: MOST_CARRIERS,
                },
                Bounds { least: 0, most: 0 },
                Fallback::Fault,
            ),
            Key::Control => number("control", 0, 15, Fallback::Fault),
            Key::Number => number("number", 0, 15, Fallback::Fault),
            Key::Lpcn => number("lpcn", 1, 4094, Fallback::Fault),
            Key::Port => number("port", 1, 65535, Fallback::Fault),
        }
    }

    /// The key's name in the site file.
    pub(crate) fn name(self) -> &'static str
        ensures { result.now ≡ name_of self }
    {
        self.row().name
    }

    /// What the site file may say at the key.
    pub(crate) fn limits(self) -> Limits
        ensures gives { result ≡ limits_of self }
        ensures fits { FallbackIsWithin (limits_of self).range (limits_of self).fallback }
    {
        self.row().limits
    }
}

/// Writes the key's name in the site file.
impl fmt::Display for Key {
    ghost use Rattle.std.specs.Prelude.{Some};
    ghost use Rattle.dmr_plan.specs.Keys.{name_of};

    ghost output = { λ key. Some (name_of key) };

    fn fmt<W: fmt::Write>(&self, f: &mut fmt::Formatter<W>) -> fmt::Result {
        f.write_str(self.name())
    }
}
