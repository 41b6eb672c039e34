//! Scripts: the inputs of a site, line by line.
//!
//! A script is octets. Its lines are separated by LFs, and the last line may end with an LF. Empty lines and lines that
//! begin with `#` are skipped. The words of a line are separated by one space. In a line that begins with `say `,
//! everything after that space is the text.

ghost use Rattle.std.specs.Prelude.{◌≡◌, ◌≤◌, ◌++◌, ◌∷◌, [], ℕ, Ok, Err, IfOk, IfSome, map};
ghost use Rattle.std.specs.Prelude.{List, OnOk, option_map};
ghost use Rattle.dmr_link.specs.Input.{Input as AnInput, input_of};
ghost use Rattle.dmr_link.specs.Inputs.{Writes};
ghost use Rattle.dmr_link.specs.State.{State};
ghost use Rattle.dmr_replay.specs.Script.{input_of_bytes, carrier_of_word, input_of_cut};
ghost use Rattle.dmr_replay.specs.Script.{repeated_input, input_of_words, input_of_line};
ghost use Rattle.dmr_replay.specs.Script.{is_skipped, number_of_word, octets_of_word};
ghost use Rattle.dmr_replay.specs.Script.{input_of_open, script_of, input_of_text, input_of_tick};
ghost use Rattle.dmr_replay.specs.Script.{count_of_ticks as times_of_word, words_of_script_line};

use dmr_console::number_in;
use dmr_link::laws::steps_make_runs;
use dmr_link::{Engine, Input, Outputs};
use dmr_pdu::{CarrierNo, OutOfMemory};
use std::alloc::Global;

/// The most ticks of one line.
const MOST_TICKS: u32 = 100_000;

/// The input of a script's line.
#[derive(Drop)]
pub enum ScriptInput {
    /// `open C`: the connection of carrier C begins.
    Open(CarrierNo),
    /// `bytes C HEX`: octets, at least one, from carrier C.
    Bytes(CarrierNo, Vec<u8>),
    /// `cut C`: the connection of carrier C is cut.
    Cut(CarrierNo),
    /// `tick` and `tick N`: this number of ticks of the site's clock, 1 to 100,000.
    Tick(u32),
    /// `say TEXT` and `text HEX`: octets from an operator; those of TEXT end with an LF.
    Text(Vec<u8>),
}

/// Why a script could not be read.
#[derive(Clone, Copy, Debug, PartialEq, Eq)]
pub enum ScriptFault {
    /// The line with this number, counted from 1 over all lines, is not a line of a script.
    Line(usize),
    /// Memory ran out.
    OutOfMemory,
}

impl ScriptInput {
    /// Returns the engine's input for the line.
    pub fn as_input(&self) -> Input<'_>
        ensures { input_of result ≡ (repeated_input self.entry.now).input }
    {
        match self {
            ScriptInput::Open(carrier) => Input::Open(*carrier),
            ScriptInput::Bytes(carrier, octets) => Input::Bytes(*carrier, octets.as_slice()),
            ScriptInput::Cut(carrier) => Input::Cut(*carrier),
            ScriptInput::Tick(_) => Input::Tick,
            ScriptInput::Text(octets) => Input::Text(octets.as_slice()),
        }
    }

    /// Processes the input once, and appends the octets that answer it to `outputs`. `Err`: out of memory; by
    /// `Engine::step` nothing has changed then, which no clause here says.
    pub fn apply(&self, engine: &mut Engine, outputs: &mut Outputs) -> Result<(), OutOfMemory>
        // If some inputs led to the engine and its texts, these and the line's input lead to the new ones.
        ensures { OnOk result ((s : State) (before : List AnInput)
            → Writes s engine.old outputs.old before
            → Writes s engine.new outputs.new (before ++ (repeated_input self.now).input ∷ [])) }
    {
        steps_make_runs();
        match self {
            ScriptInput::Open(carrier) => {
                let opened = engine.step(Input::Open(*carrier), outputs);
                opened
            }
            ScriptInput::Bytes(carrier, octets) => {
                let octets = octets.as_slice();
                let received = engine.step(Input::Bytes(*carrier, octets), outputs);
                received
            }
            ScriptInput::Cut(carrier) => {
                let cut = engine.step(Input::Cut(*carrier), outputs);
                cut
            }
            ScriptInput::Tick(_) => {
                let ticked = engine.step(Input::Tick, outputs);
                ticked
            }
            ScriptInput::Text(octets) => {
                let text = octets.as_slice();
                let said = engine.step(Input::Text(text), outputs);
                said
            }
        }
    }

    /// Returns how often the input is repeated: the number of ticks, or 1.
    pub fn times(&self) -> u32
        ensures { result ≡ (repeated_input self.now).times }
    {
        match self {
            ScriptInput::Tick(times) => *times,
            _ => 1,
        }
    }
}

/// Reads the lines of a script, in their order. The error is the number of the first line at fault, or `OutOfMemory`.
pub fn read_script(alloc: Global, script: &[u8]) -> Result<Vec<ScriptInput>, ScriptFault>
    // The result is the inputs of all lines, and no line is at fault.
    ensures lines { IfOk result
        (λ given. script_of script.now ≡ Ok (map repeated_input given.items)) }
    // If a line number is returned, it is that of the first line at fault.
    ensures fault { (number : ℕ) → result ≡ Err (ScriptFault.Line number)
        → script_of script.now ≡ Err number }
{
    let mut given = Vec::new(alloc);
    for (index, line) in script.split(|octet| *octet == b'\n').enumerate() {
        if !is_skipped(line) {
            match parse_line(alloc, line) {
                Ok(Some(input)) => {
                    if given.push(input).is_err() {
                        return Err(ScriptFault::OutOfMemory);
                    }
                }
                Ok(None) => return Err(ScriptFault::Line(index + 1)),
                Err(OutOfMemory) => return Err(ScriptFault::OutOfMemory),
            }
        }
    }
    Ok(given)
}

/// Returns whether a line is skipped: an empty line or a comment.
pub fn is_skipped(line: &[u8]) -> bool
    ensures { result ≡ is_skipped line.now }
{
    match line {
        [] => true,
        [octet, ..] => *octet == b'#',
    }
}

/// Reads a line that is not skipped. `None` if it is not a line of a script. `Err`: out of memory.
pub fn parse_line(alloc: Global, line: &[u8]) -> Result<Option<ScriptInput>, OutOfMemory>
    ensures { IfOk result (λ input. option_map repeated_input input ≡ input_of_line line.now) }
{
    match line.strip_prefix(b"say ") {
        Some(text) => Ok(Some(ScriptInput::Text(with_line_feed(alloc, text)?))),
        None => {
            let words = words_of(alloc, line)?;
            parse_words(alloc, words.as_slice())
        }
    }
}

/// Returns a text and an LF.
fn with_line_feed(alloc: Global, text: &[u8]) -> Result<Vec<u8>, OutOfMemory>
    ensures { IfOk result (λ line. line.items ≡ text.now ++ 10 ∷ []) }
{
    let mut line = Vec::new(alloc);
    line.extend_from_slice(text)?;
    line.push(b'\n')?;
    Ok(line)
}

/// Returns the words of a line.
fn words_of(alloc: Global, line: &[u8]) -> Result<Vec<&[u8]>, OutOfMemory>
    ensures { IfOk result
        (λ words. map (λ word. word.now) words.items ≡ words_of_script_line line.now) }
{
    line.split(|octet| *octet == b' ').collect(alloc)
}

/// Reads the words of a line. `None` if they are not those of a line of a script.
fn parse_words(alloc: Global, words: &[&[u8]]) -> Result<Option<ScriptInput>, OutOfMemory>
    ensures { IfOk result (λ input. option_map repeated_input input
        ≡ input_of_words (map (λ word. word.now) words.now)) }
{
    let [name, arguments @ ..] = words else {
        return Ok(None);
    };
    if *name == b"open".as_slice() {
        Ok(parse_open(arguments))
    } else if *name == b"bytes".as_slice() {
        parse_bytes(alloc, arguments)
    } else if *name == b"cut".as_slice() {
        Ok(parse_cut(arguments))
    } else if *name == b"tick".as_slice() {
        Ok(parse_tick(arguments))
    } else if *name == b"text".as_slice() {
        parse_text(alloc, arguments)
    } else {
        Ok(None)
    }
}

/// Reads the words after `open`: one word, C.
fn parse_open(words: &[&[u8]]) -> Option<ScriptInput>
    ensures { option_map repeated_input result ≡ input_of_open (map (λ word. word.now) words.now) }
{
    match words {
        [carrier] => carrier_of(carrier).map(|carrier| ScriptInput::Open(carrier)),
        _ => None,
    }
}

/// Reads the words after `cut`: one word, C.
fn parse_cut(words: &[&[u8]]) -> Option<ScriptInput>
    ensures { option_map repeated_input result ≡ input_of_cut (map (λ word. word.now) words.now) }
{
    match words {
        [carrier] => carrier_of(carrier).map(|carrier| ScriptInput::Cut(carrier)),
        _ => None,
    }
}

/// Reads the words after `tick`: none, or one, N.
fn parse_tick(words: &[&[u8]]) -> Option<ScriptInput>
    ensures { option_map repeated_input result ≡ input_of_tick (map (λ word. word.now) words.now) }
{
    match words {
        [] => Some(ScriptInput::Tick(1)),
        [times] => times_of(times).map(|times| ScriptInput::Tick(times)),
        _ => None,
    }
}

/// Reads the words after `bytes`: two words, C and HEX.
fn parse_bytes(alloc: Global, words: &[&[u8]]) -> Result<Option<ScriptInput>, OutOfMemory>
    ensures { IfOk result (λ input. option_map repeated_input input
        ≡ input_of_bytes (map (λ word. word.now) words.now)) }
{
    let [carrier, digits] = words else {
        return Ok(None);
    };
    let Some(carrier) = carrier_of(carrier) else {
        return Ok(None);
    };
    let octets = octets_of(alloc, digits)?;
    Ok(octets.map(|octets| ScriptInput::Bytes(carrier, octets)))
}

/// Reads the words after `text`: one word, HEX.
fn parse_text(alloc: Global, words: &[&[u8]]) -> Result<Option<ScriptInput>, OutOfMemory>
    ensures { IfOk result (λ input. option_map repeated_input input
        ≡ input_of_text (map (λ word. word.now) words.now)) }
{
    let [digits] = words else {
        return Ok(None);
    };
    let octets = octets_of(alloc, digits)?;
    Ok(octets.map(|octets| ScriptInput::Text(octets)))
}

/// Reads a number from `least` to `most` in decimal digits, without a leading zero.
fn number_of(least: u32, most: u32, word: &[u8]) -> Option<u32>
    ensures value { result ≡ number_of_word least most word.now }
    ensures most { IfSome result (λ number. number ≤ most) }
{
    match word {
        [b'0', _, ..] => None,
        _ => number_in(least, most, word),
    }
}

/// Reads a carrier's number: 0 to 15.
fn carrier_of(word: &[u8]) -> Option<CarrierNo>
    ensures { result ≡ carrier_of_word word.now }
{
    let number = number_of(0, 15, word)?;
    Some(CarrierNo::new(number))
}

/// Reads a number of ticks: 1 to 100,000.
fn times_of(word: &[u8]) -> Option<u32>
    ensures { result ≡ times_of_word word.now }
{
    number_of(1, MOST_TICKS, word)
}

/// Reads octets in hexadecimal digits of either case, at least one octet.
fn octets_of(alloc: Global, word: &[u8]) -> Result<Option<Vec<u8>>, OutOfMemory>
    ensures { IfOk result (λ octets. option_map (λ o. o.items) octets ≡ octets_of_word word.now) }
{
    match hex::decode(alloc, word) {
        Ok(octets) if !octets.is_empty() => Ok(Some(octets)),
        Err(hex::FromHexError::OutOfMemory) => Err(OutOfMemory),
        _ => Ok(None),
    }
}
