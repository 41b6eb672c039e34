//! The commands of an operator, and the words of a line that means one.

ghost use Rattle.std.specs.Prelude.{◌≡◌, ◌≢◌, ◌≤◌, ◌++◌, ◌∷◌, [], codes, length};
ghost use Rattle.std.specs.Fmt.{DisplaysOnOk};
ghost use Rattle.std.specs.List.{flat_map};
ghost use Rattle.std.specs.Str.{bytes_eq};
ghost use Rattle.dmr_calls.specs.declared.calls.TheConstants.{MOST_LINES};
ghost use Rattle.dmr_core.specs.CommandWords.{AreNumbersOf, IsSaid, command_from, command_row};
ghost use Rattle.dmr_core.specs.CommandWords.{kind_named, kind_of, number_text, numbers_of};
ghost use Rattle.dmr_core.specs.CommandWords.{range_of, row_of};

use arrayvec::ArrayVec;
use dmr_calls::MOST_LINES;
use dmr_pdu::{Address, CarrierNo, Lpcn, SlotNo};
use std::fmt;
use std::marker::Model;

/// The greatest address.
const LAST_RADIO: u32 = 16_777_215;

/// The place of a line, counted from 1 in the order in which the site serves lines: 1 to 32.
#[derive(Clone, Copy, Debug, PartialEq, Eq, PartialOrd, Ord, Hash)]
pub struct LineNo {
    number: u8,
}

impl Model for LineNo {
    ghost use Rattle.std.specs.Prelude.{ℕ, ◌≤◌};
    ghost use Rattle.dmr_calls.specs.Limits.{most_lines};

    ghost Value = { ℕ };

    ghost view = { λ n. n.number };

    ghost invariant = { λ n. (1 ≤ n.number) × (n.number ≤ most_lines) };

    ghost inverse = { λ n. record { number = n } };
}

impl LineNo {
    /// Makes a place of a number from 1 to 32.
    pub fn new(number: u8) -> Self
        requires least { 1 ≤ number }
        requires most { number ≤ MOST_LINES }
        ensures { result ≡ number }
    {
        LineNo { number }
    }

    /// The place as an integer.
    pub fn get(&self) -> u8
        ensures value { result ≡ self.now }
        ensures least { 1 ≤ result }
        ensures most { result ≤ MOST_LINES }
    {
        self.number
    }
}

/// A command that an operator sends to the site.
#[derive(Clone, Copy, Debug, PartialEq, Eq)]
pub enum Command {
    /// Asks for the numbers of carriers up, registered radios, asks, lines and calls, and for the move of the control
    /// channel.
    Status,
    /// Asks for the registered radios from this number on.
    Radios(Address),
    /// Asks for the calls on a carrier.
    Calls(CarrierNo),
    /// Asks for the lines, the requests that wait for a slot, from this place on.
    Lines(LineNo),
    /// Asks for the state of each slot.
    Slots,
    /// Ends the registration of a radio, and the call, ask or line that engages it. If the reply is not Done, nothing
    /// changes.
    Drop(Address),
    /// Ends the call on this slot of this carrier. If the reply is not Done, nothing changes.
    End(CarrierNo, SlotNo),
    /// Moves the control channel to this channel: from now on the control slot sends C_MOVE when no PDU waits.
    Move(Lpcn),
    /// Ends the move: when no PDU waits, the control slot sends C_ALOHA and late entries again.
    Stay,
}

/// A command without its numbers. A line means a command by a first word, its name, and a number for each argument.
#[derive(Clone, Copy, Debug, PartialEq, Eq)]
pub enum CommandKind {
    /// `status`
    Status,
    /// `radios N`
    Radios,
    /// `calls C`
    Calls,
    /// `lines N`
    Lines,
    /// `slots`
    Slots,
    /// `drop R`
    Drop,
    /// `end C S`
    End,
    /// `move L`
    Move,
    /// `stay`
    Stay,
}

/// What a number of a command is. It decides the range of the number (this project's profile).
#[derive(Clone, Copy, Debug, PartialEq, Eq)]
pub enum Argument {
    /// The number from which radios are listed.
    FromRadio,
    /// A radio.
    Radio,
    /// A carrier.
    Carrier,
    /// A slot of a carrier.
    Slot,
    /// The place of a line.
    Line,
    /// A channel.
    Channel,
}

/// A row of the table of commands.
#[derive(Clone, Copy)]
pub struct CommandRow {
    /// The first word of the command.
    pub name: &'static str,
    /// The kind of the event that the records have of the command, if it changes the site.
    pub event: &'static str,
    /// The numbers that follow the first word: at most two.
    pub arguments: &'static [Argument],
    /// Whether the command changes the site. Other commands ask for something.
    pub changes_site: bool,
}

/// The most numbers of a command.
const MOST_NUMBERS: usize = 2;

/// The kinds of commands.
const KINDS: [CommandKind; 9] = [
    CommandKind::Status,
    CommandKind::Radios,
    CommandKind::Calls,
    CommandKind::Lines,
    CommandKind::Slots,
    CommandKind::Drop,
    CommandKind::End,
    CommandKind::Move,
    CommandKind::Stay,
];

/// A row of the table: the name of the command, its arguments, and whether it changes the site.
macro_rules! row {
    ($name:literal, [$($argument:ident)*], $changes_site:expr) => {
        CommandRow {
            name: $name,
            event: concat!($name, "_command"),
            arguments: &[$(Argument::$argument),*],
            changes_site: $changes_site,
        }
    };
}

impl CommandKind {
    /// Returns the row of the command in the table of commands.
    pub fn row(self) -> CommandRow
        ensures name { result.name.now ≡ (command_row self).name }
        ensures event { result.event.now ≡ (command_row self).name ++ codes "_command" }
        ensures arguments { result.arguments.now ≡ (command_row self).arguments }
        ensures few { length (command_row self).arguments ≤ 2 }
        ensures changes_site { result.changes_site ≡ (command_row self).changes_site }
    {
        match self {
            CommandKind::Status => row!("status", [], false),
            CommandKind::Radios => row!("radios", [FromRadio], false),
            CommandKind::Calls => row!("calls", [Carrier], false),
            CommandKind::Lines => row!("lines", [Line], false),
            CommandKind::Slots => row!("slots", [], false),
            CommandKind::Drop => row!("drop", [Radio], true),
            CommandKind::End => row!("end", [Carrier Slot], true),
            CommandKind::Move => row!("move", [Channel], true),
            CommandKind::Stay => row!("stay", [], true),
        }
    }

    /// Returns the kind of the command with this first word, or `None` if there is none. Case counts.
    pub fn named(name: &[u8]) -> Option<CommandKind>
        ensures { result ≡ kind_named name.now }
    {
        KINDS.iter().copied().find(|kind| has_name(kind, name))
    }
}

/// Returns whether this is the name of a kind.
fn has_name(kind: &CommandKind, name: &[u8]) -> bool
    ensures { result ≡ bytes_eq name.now (command_row kind.now).name }
{
    name == kind.row().name.as_bytes()
}

impl Argument {
    /// Returns the least and the greatest number of the argument.
    pub fn range(self) -> (u32, u32)
        ensures least { result.0 ≡ (range_of self).0 }
        ensures most { result.1 ≡ (range_of self).1 }
    {
        match self {
            Argument::FromRadio => (0, LAST_RADIO),
            Argument::Radio => (1, LAST_RADIO),
            Argument::Carrier => (0, 15),
            Argument::Slot => (0, 1),
            Argument::Line => (1, MOST_LINES as u32),
            Argument::Channel => (1, 4094),
        }
    }
}

impl Command {
    /// Returns the kind of the command, and its numbers in the order of its words. A line can mean every command but
    /// `drop 0`.
    pub fn parts(&self) -> (CommandKind, ArrayVec<u32, MOST_NUMBERS>)
        ensures kind { result.0 ≡ kind_of self.now }
        ensures numbers { result.1.items ≡ numbers_of self.now }
        ensures said { self.now ≢ Command.Drop 0 → IsSaid self.now }
    {
        match self {
            Command::Status => (CommandKind::Status, list_of(&[])),
            Command::Radios(radio) => (CommandKind::Radios, list_of(&[radio.get()])),
            Command::Calls(carrier) => (CommandKind::Calls, list_of(&[carrier.get()])),
            Command::Lines(place) => (CommandKind::Lines, list_of(&[u32::from(place.get())])),
            Command::Slots => (CommandKind::Slots, list_of(&[])),
            Command::Drop(radio) => (CommandKind::Drop, list_of(&[radio.get()])),
            Command::End(carrier, slot) => {
                (CommandKind::End, list_of(&[carrier.get(), slot.get()]))
            }
            Command::Move(channel) => (CommandKind::Move, list_of(&[channel.get()])),
            Command::Stay => (CommandKind::Stay, list_of(&[])),
        }
    }

    /// Returns whether the command changes the site. Other commands ask for something.
    pub fn changes_site(&self) -> bool
        ensures { result ≡ (row_of self.now).changes_site }
    {
        self.parts().0.row().changes_site
    }

    /// Returns the command of this kind. Its numbers, `first` and `second` in the order of its words, must be in the
    /// ranges of its arguments; a number without an argument is not read.
    pub fn from_numbers(kind: CommandKind, first: u32, second: u32) -> Command
        requires { AreNumbersOf (command_row kind).arguments (first ∷ second ∷ []) }
        ensures { result ≡ command_from kind first second }
    {
        match kind {
            CommandKind::Status => Command::Status,
            CommandKind::Radios => Command::Radios(Address::new(first)),
            CommandKind::Calls => Command::Calls(CarrierNo::new(first)),
            CommandKind::Lines => Command::Lines(LineNo::new(first as u8)),
            CommandKind::Slots => Command::Slots,
            CommandKind::Drop => Command::Drop(Address::new(first)),
            CommandKind::End => Command::End(CarrierNo::new(first), SlotNo::new(second)),
            CommandKind::Move => Command::Move(Lpcn::new(first)),
            CommandKind::Stay => Command::Stay,
        }
    }
}

/// The list of these numbers.
fn list_of(numbers: &[u32]) -> ArrayVec<u32, MOST_NUMBERS>
    requires { length numbers.now ≤ MOST_NUMBERS }
    ensures { result.items ≡ numbers.now }
{
    let mut list = ArrayVec::new();
    let _ = list.try_extend_from_slice(numbers);
    list
}

/// Writes the words of the command: its name and its numbers, with a space between. A line of these words means it.
impl fmt::Display for Command {
    ghost use Rattle.std.specs.Prelude.{Some};
    ghost use Rattle.dmr_core.specs.CommandWords.{command_text};

    ghost output = { λ command. Some (command_text command) };

    fn fmt<W: fmt::Write>(&self, f: &mut fmt::Formatter<W>) -> fmt::Result {
        let (kind, numbers) = self.parts();
        f.write_str(kind.row().name)?;
        write_numbers(numbers.as_slice(), f)
    }
}

/// Writes each number after a space.
fn write_numbers<W: fmt::Write>(numbers: &[u32], f: &mut fmt::Formatter<W>) -> fmt::Result
    ensures { DisplaysOnOk W.write_str_gives f.old result
        (Some (flat_map number_text numbers.now)) f.new }
{
    match numbers {
        [] => Ok(()),
        [number, others @ ..] => {
            write!(f, " {number}")?;
            write_numbers(others, f)
        }
    }
}
