//! Reads a line as a command, by the table of commands.

ghost use Rattle.std.specs.Prelude.{◌≡◌, ◌≤◌, IfSome};
ghost use Rattle.dmr_core.specs.CommandWords.{range_of};
ghost use Rattle.dmr_console.specs.Words.{words_of_line};
ghost use Rattle.dmr_console.specs.Commands.{command_by, command_of, command_of_kind, number_as};

use crate::words::{first_word, number_in};
use dmr_core::{Argument, Command, CommandKind};

/// Reads the command of a line (this project's profile), from the line's octets without its end. `None` if the line is
/// not a command: another first word, too few or too many words, a word that is not a number in its range, or no word.
/// One or more spaces separate words, and spaces at the ends are ignored; case counts. A number has 1 to 8 decimal
/// digits.
pub fn parse(line: &[u8]) -> Option<Command>
    ensures { result ≡ command_of line.now }
{
    let (name, arguments) = first_word(line)?;
    command_by(name, arguments)
}

/// The command of a first word, and of the octets after it.
fn command_by(name: &[u8], arguments: &[u8]) -> Option<Command>
    ensures { result ≡ command_by name.now (words_of_line arguments.now) }
{
    let kind = CommandKind::named(name)?;
    command_of_kind(kind, arguments)
}

/// The command of a kind, and of the octets after its name.
fn command_of_kind(kind: CommandKind, line: &[u8]) -> Option<Command>
    ensures { result ≡ command_of_kind (words_of_line line.now) kind }
{
    match kind.row().arguments {
        [] => {
            if first_word(line).is_some() {
                return None;
            }
            Some(Command::from_numbers(kind, 0, 0))
        }
        [argument] => {
            let (word, rest) = first_word(line)?;
            let number = number_as(argument, word)?;
            if first_word(rest).is_some() {
                return None;
            }
            Some(Command::from_numbers(kind, number, 0))
        }
        [first, second] => {
            let (word, rest) = first_word(line)?;
            let number = number_as(first, word)?;
            let (word, rest) = first_word(rest)?;
            let other = number_as(second, word)?;
            if first_word(rest).is_some() {
                return None;
            }
            Some(Command::from_numbers(kind, number, other))
        }
        _ => None,
    }
}

/// The number of a word, if it is in the range of an argument.
fn number_as(argument: &Argument, word: &[u8]) -> Option<u32>
    ensures value { result ≡ number_as argument.now word.now }
    ensures least { IfSome result (λ number. (range_of argument.now).0 ≤ number) }
    ensures most { IfSome result (λ number. number ≤ (range_of argument.now).1) }
{
    let (least, most) = argument.range();
    number_in(least, most, word)
}
