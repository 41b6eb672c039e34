//! The sections of a site file: groups of keys, in the order of the keys. Each is read up to its first fault. A plan is
//! made of all of them. A section has its fields, how it is read, and the getters of a plan for its keys.

ghost use Rattle.std.specs.Prelude.{◌≡◌, IfOk, IfErr, IfSome, is_some, length};
ghost use Rattle.std.specs.List.{Contains};
ghost use Rattle.toml.specs.View.{table_view};
ghost use Rattle.dmr_plan.specs.Keys.{IsNumberOf};
ghost use Rattle.dmr_plan.specs.Steps.{IsOfKey};
ghost use Rattle.dmr_plan.specs.Numbers.{optional_in};
ghost use Rattle.dmr_plan.specs.Carriers.{row_with, has_number_in};
ghost use Rattle.dmr_plan.specs.Sections.{system_of, aloha_of, calls_of, serving_of, lists_of};
ghost use Rattle.dmr_plan.specs.Sections.{IsSystemSection, IsAlohaSection, IsCallSection};
ghost use Rattle.dmr_plan.specs.Sections.{IsServingSection, IsListSection};

use crate::carriers::{CarrierRow, carriers_in, has_number, row_numbered};
use crate::fault::PlanFault;
use crate::key::{Key, MOST_CARRIERS, MOST_GROUPS, MOST_RANGES};
use crate::lists::{RadioRange, address_in, groups_in, radios_in};
use crate::numbers::{
    address, address_unlike, bit, field, number, number_from, optional_number, system_code,
};
use crate::plan::Plan;
use dmr_pdu::{Address, BoundedList, CarrierNo, Number, SystemCode};
use toml::Table;

/// The system, its services, and how a radio leaves.
#[derive(Clone, Copy, Debug, PartialEq, Eq)]
pub struct SystemSection {
    /// The system identity code.
    pub system: SystemCode,
    /// The address of the registration service.
    pub regi: Address,
    /// The address of the site itself.
    pub tsi: Address,
    /// The option bit of a registration request that is 0 if the radio leaves, if there is one.
    pub leave_bit: Option<u8>,
}

/// Reads the option bit that is 0 in a registration request that leaves, if the table has the key.
fn leave_bit_in(table: &Table) -> Result<Option<u8>, PlanFault>
    ensures gives { result ≡ optional_in (table_view table.now) Key.LeaveBit }
    ensures within { IfOk result (λ bit. IfSome bit (IsNumberOf Key.LeaveBit)) }
    ensures of_key { IfErr result IsOfKey }
{
    match optional_number(table, Key::LeaveBit)? {
        Some(bit) => Ok(Some(bit as u8)),
        None => Ok(None),
    }
}

/// Reads the keys of the system, or their first fault.
#[tactic(auto, unfolding(crate::specs::Sections::system_of))]
pub(crate) fn system_in(table: &Table) -> Result<SystemSection, PlanFault>
    ensures gives { result ≡ system_of (table_view table.now) }
    ensures limits { IfOk result IsSystemSection }
    ensures of_key { IfErr result IsOfKey }
{
    Ok(SystemSection {
        system: system_code(table, Key::System)?,
        regi: address(table, Key::Regi)?,
        tsi: address_unlike(table, Key::Tsi, Key::Regi)?,
        leave_bit: leave_bit_in(table)?,
    })
}

impl Plan {
    /// The system identity code that C_ALOHA announces: 0 to 65535.
    pub fn system(&self) -> SystemCode
        ensures { result ≡ self.now.system.system }
    {
        self.settings.system.system
    }

    /// The address of the registration service: 16776416 to 16777215 (TS 102 361-4, annex A).
    pub fn regi(&self) -> Address
        ensures { result ≡ self.now.system.regi }
    {
        self.settings.system.regi
    }

    /// The address of the site itself, the source of a P_CLEAR: 16776416 to 16777215, and not that of
    /// [`regi`](Plan::regi) (TS 102 361-4, annex A).
    pub fn tsi(&self) -> Address
        ensures { result ≡ self.now.system.tsi }
    {
        self.settings.system.tsi
    }

    /// The option bit of a registration request, counted from the last, that is 0 if the radio leaves: 0 to 6. `None`
    /// if every registration request registers.
    pub fn leave_bit(&self) -> Option<u8>
        ensures { result ≡ self.now.system.leave_bit }
    {
        self.settings.system.leave_bit
    }
}

/// The fields of C_ALOHA that the plan fixes.
#[derive(Clone, Copy, Debug, PartialEq, Eq)]
pub struct AlohaSection {
    /// The field sync.
    pub sync: bool,
    /// The field version.
    pub version: Number<3>,
    /// The field offset.
    pub offset: bool,
    /// The field active.
    pub active: bool,
    /// The field nrand_wait.
    pub nrand_wait: Number<4>,
}

/// Reads the keys of C_ALOHA, or their first fault.
#[tactic(auto, unfolding(crate::specs::Sections::aloha_of))]
pub(crate) fn aloha_in(table: &Table) -> Result<AlohaSection, PlanFault>
    ensures gives { result ≡ aloha_of (table_view table.now) }
    ensures limits { IfOk result IsAlohaSection }
    ensures of_key { IfErr result IsOfKey }
{
    Ok(AlohaSection {
        sync: bit(table, Key::AlohaSync)?,
        version: field(table, Key::AlohaVersion)?,
        offset: bit(table, Key::AlohaOffset)?,
        active: bit(table, Key::AlohaActive)?,
        nrand_wait: field(table, Key::NrandWait)?,
    })
}

impl Plan {
    /// The field sync of C_ALOHA: 0 to 1; 0 if the key is missing.
    pub fn aloha_sync(&self) -> bool
        ensures { result ≡ self.now.aloha.sync }
    {
        self.settings.aloha.sync
    }

    /// The field version of C_ALOHA: 0 to 7; 0 if the key is missing.
    pub fn aloha_version(&self) -> Number<3>
        ensures { result ≡ self.now.aloha.version }
    {
        self.settings.aloha.version
    }

    /// The field offset of C_ALOHA: 0 to 1; 0 if the key is missing.
    pub fn aloha_offset(&self) -> bool
        ensures { result ≡ self.now.aloha.offset }
    {
        self.settings.aloha.offset
    }

    /// The field active of C_ALOHA: 0 to 1; 0 if the key is missing.
    pub fn aloha_active(&self) -> bool
        ensures { result ≡ self.now.aloha.active }
    {
        self.settings.aloha.active
    }

    /// The field nrand_wait of C_ALOHA: 0 to 15; 0 if the key is missing. It sets how long radios wait for an answer to
    /// their random access.
    pub fn nrand_wait(&self) -> Number<4>
        ensures { result ≡ self.now.aloha.nrand_wait }
    {
        self.settings.aloha.nrand_wait
    }
}

/// The times and counts of calls and of random access.
#[derive(Clone, Copy, Debug, PartialEq, Eq)]
pub struct CallSection {
    /// The ticks without activity after which a call is over.
    pub hang: u16,
    /// The ticks from its beginning after which a call is over.
    pub maximum: u16,
    /// The least ticks between two C_AHOY of one ask.
    pub ahoy_wait: u16,
    /// How many C_AHOY a radio is sent.
    pub ahoy_tries: u8,
    /// How many copies of a channel grant are queued.
    pub grant_copies: u8,
    /// How many copies of P_CLEAR are queued.
    pub clear_copies: u8,
    /// The backoff of a quiet control slot.
    pub backoff_low: u8,
    /// The greatest backoff, which noise leads to.
    pub backoff_high: u8,
}

/// Reads the keys of calls and of random access, or their first fault.
#[tactic(auto, unfolding(crate::specs::Sections::calls_of))]
pub(crate) fn calls_in(table: &Table) -> Result<CallSection, PlanFault>
    ensures gives { result ≡ calls_of (table_view table.now) }
    ensures limits { IfOk result IsCallSection }
    ensures of_key { IfErr result IsOfKey }
{
    Ok(CallSection {
        hang: number(table, Key::Hang)? as u16,
        maximum: number(table, Key::Maximum)? as u16,
        ahoy_wait: number(table, Key::AhoyWait)? as u16,
        ahoy_tries: number(table, Key::AhoyTries)? as u8,
        grant_copies: number(table, Key::GrantCopies)? as u8,
        clear_copies: number(table, Key::ClearCopies)? as u8,
        backoff_low: number(table, Key::BackoffLow)? as u8,
        backoff_high: number_from(table, Key::BackoffHigh, Key::BackoffLow)? as u8,
    })
}

impl Plan {
    /// After how many ticks without activity a call is over: 1 to 65535. A tick ends one such call.
    pub fn hang(&self) -> u16
        ensures { result ≡ self.now.calls.hang }
    {
        self.settings.calls.hang
    }

    /// After how many ticks from its beginning a call is over, however active it is: 1 to 65535. A tick ends one such
    /// call.
    pub fn maximum(&self) -> u16
        ensures { result ≡ self.now.calls.maximum }
    {
        self.settings.calls.maximum
    }

    /// How many ticks pass at least between two C_AHOY of one ask: 1 to 65535.
    pub fn ahoy_wait(&self) -> u16
        ensures { result ≡ self.now.calls.ahoy_wait }
    {
        self.settings.calls.ahoy_wait
    }

    /// How many C_AHOY a radio is sent before it counts as away: 1 to 8.
    pub fn ahoy_tries(&self) -> u8
        ensures { result ≡ self.now.calls.ahoy_tries }
    {
        self.settings.calls.ahoy_tries
    }

    /// How many copies of a channel grant are queued: 1 to 4.
    pub fn grant_copies(&self) -> u8
        ensures { result ≡ self.now.calls.grant_copies }
    {
        self.settings.calls.grant_copies
    }

    /// How many copies of P_CLEAR are queued when a call ends: 1 to 4.
    pub fn clear_copies(&self) -> u8
        ensures { result ≡ self.now.calls.clear_copies }
    {
        self.settings.calls.clear_copies
    }

    /// The backoff of a quiet control slot: 1 to 15.
    pub fn backoff_low(&self) -> u8
        ensures { result ≡ self.now.calls.backoff_low }
    {
        self.settings.calls.backoff_low
    }

    /// The greatest backoff, which noise on the control slot leads to: [`backoff_low`](Plan::backoff_low) to 15.
    pub fn backoff_high(&self) -> u8
        ensures { result ≡ self.now.calls.backoff_high }
    {
        self.settings.calls.backoff_high
    }
}

/// How the site is served.
#[derive(Clone, Copy, Debug, PartialEq, Eq)]
pub struct ServingSection {
    /// The milliseconds of a tick.
    pub tick_ms: u16,
    /// After how many waits of 100 ms without an octet a connection is cut.
    pub silence: u16,
    /// How many entries the journal of a term takes.
    pub term_entries: u32,
    /// The greatest version of the link format that carriers are served.
    pub link_version: u8,
    /// The IPv4 address to listen at.
    pub address: [u8; 4],
}

/// Reads the keys of serving, or their first fault.
#[tactic(auto, unfolding(crate::specs::Sections::serving_of))]
pub(crate) fn serving_in(table: &Table) -> Result<ServingSection, PlanFault>
    ensures gives { result ≡ serving_of (table_view table.now) }
    ensures limits { IfOk result IsServingSection }
    ensures of_key { IfErr result IsOfKey }
{
    Ok(ServingSection {
        tick_ms: number(table, Key::TickMs)? as u16,
        silence: number(table, Key::Silence)? as u16,
        term_entries: number(table, Key::TermEntries)?,
        link_version: number(table, Key::LinkVersion)? as u8,
        address: address_in(table)?,
    })
}

impl Plan {
    /// How many milliseconds a tick lasts: 10 to 1000.
    pub fn tick_ms(&self) -> u16
        ensures { result ≡ self.now.serving.tick_ms }
    {
        self.settings.serving.tick_ms
    }

    /// After how many waits of 100 ms in a row without an octet a connection is cut: 1 to 65535.
    pub fn silence(&self) -> u16
        ensures { result ≡ self.now.serving.silence }
    {
        self.settings.serving.silence
    }

    /// How many entries the journal of a term takes: 1 to 100000; 10000 if the key is missing.
    pub fn term_entries(&self) -> u32
        ensures { result ≡ self.now.serving.term_entries }
    {
        self.settings.serving.term_entries
    }

    /// The greatest version of the link format that carriers are served: 1 to 2; 1 if the key is missing (this
    /// project's profile).
    pub fn link_version(&self) -> u8
        ensures { result ≡ self.now.serving.link_version }
    {
        self.settings.serving.link_version
    }

    /// The IPv4 address to listen at: four octets, as a dotted address has them. 127.0.0.1 if the key is missing.
    pub fn address(&self) -> &[u8]
        ensures value { result.now ≡ self.now.serving.address }
        ensures four { length result.now ≡ 4 }
    {
        self.settings.serving.address.as_slice()
    }
}

/// The console's port, and the lists of radios, talkgroups and carriers.
#[derive(Clone, Copy, Debug, PartialEq, Eq)]
pub struct ListSection {
    /// The TCP port of the console.
    pub console_port: u16,
    /// The ranges of the radios that may register.
    pub radios: BoundedList<RadioRange, MOST_RANGES>,
    /// The talkgroups.
    pub groups: BoundedList<Address, MOST_GROUPS>,
    /// The carriers.
    pub carriers: BoundedList<CarrierRow, MOST_CARRIERS>,
    /// The number of the control carrier.
    pub control: CarrierNo,
}

/// Reads the console's port and the lists, or their first fault. The control carrier must be one of the carriers.
#[tactic(auto, unfolding(crate::specs::Sections::lists_of))]
pub(crate) fn lists_in(table: &Table) -> Result<ListSection, PlanFault>
    ensures gives { result ≡ lists_of (table_view table.now) }
    ensures limits { IfOk result IsListSection }
    ensures of_key { IfErr result IsOfKey }
{
    let lists = ListSection {
        console_port: number(table, Key::ConsolePort)? as u16,
        radios: radios_in(table)?,
        groups: groups_in(table)?,
        carriers: carriers_in(table)?,
        control: CarrierNo::new(number(table, Key::Control)?),
    };
    if !has_number(lists.carriers.as_slice(), lists.control) {
        return Err(PlanFault::OutOfRange(Key::Control));
    }
    Ok(lists)
}

impl Plan {
    /// The TCP port of the console: 1 to 65535.
    pub fn console_port(&self) -> u16
        ensures { result ≡ self.now.lists.console_port }
    {
        self.settings.lists.console_port
    }

    /// The ranges of the radios that may register, in the file's order: 1 to 16 ranges of addresses 1 to 16776415,
    /// first at most last. They may overlap.
    pub fn radios(&self) -> &[RadioRange]
        ensures { result.now ≡ self.now.lists.radios }
    {
        self.settings.lists.radios.as_slice()
    }

    /// The talkgroups in the file's order: 0 to 64 addresses from 1 to 16776415, none twice.
    pub fn groups(&self) -> &[Address]
        ensures { result.now ≡ self.now.lists.groups }
    {
        self.settings.lists.groups.as_slice()
    }

    /// The carriers in the file's order, which may differ from that of their numbers: 1 to 16. No two have the same
    /// number, channel or port.
    pub fn carrier(&self) -> &[CarrierRow]
        ensures { result.now ≡ self.now.lists.carriers }
    {
        self.settings.lists.carriers.as_slice()
    }

    /// The number of the control carrier, which is one of the carriers. Its slot 0 is the control slot. Its slot 1 and
    /// the slots of the other carriers carry calls.
    pub fn control(&self) -> CarrierNo
        ensures { result ≡ self.now.lists.control }
    {
        self.settings.lists.control
    }
}

impl ListSection {
    /// Returns the carrier with this number, or `None` if no carrier has it.
    pub fn carrier_with(&self, number: CarrierNo) -> Option<CarrierRow>
        ensures gives { result ≡ row_with self.now.carriers number }
        ensures row { IfSome result (λ row. (row.number ≡ number)
            × Contains self.now.carriers row) }
        ensures found { is_some result ≡ has_number_in self.now.carriers number }
    {
        row_numbered(self.carriers.as_slice(), number)
    }
}
