//! Tests of a port in memory: its answers, call by call, and its record.

use crate::lines::{Listener, check_lines, cut};
use dmr_pdu::OutOfMemory;
use dmr_wire::{Connect, Got, MemoryPort, Port, Put, Step, Waited, Wire};
use std::alloc::Global;
use std::fmt::Debug;
use std::test::Fail;

/// A port in memory, and its answers.
struct PortStory {
    /// The name in a failure.
    name: &'static str,
    /// The room of its record, in answers and in octets.
    room: usize,
    /// Its steps, with `, ` between them.
    steps: &'static str,
    /// The calls and questions, each with its answer, as the code names them. The four octets of a read follow its
    /// answer; all of them are `.` before the read. `echo` serves one connection.
    input: &'static str,
}

static STORIES: [PortStory; 9] = [
    PortStory {
        name: "feeds go to reads one by one",
        room: 16,
        steps: "feed abcdefghij, feed, read 3, feed klmn, feed o",
        input: "\
read => Octets(4) abcd
read => Octets(4) efgh
read => Octets(2) ij..
read => Octets(4) klmn
read => Octets(1) o...
read => End ....
read => End ....
",
    },
    PortStory {
        name: "each kind of call has its own steps",
        room: 16,
        steps: "wait again, write interrupted, read interrupted, connect not yet, read block, feed x, \
write block, read fault, connect ready, write fault, read end, feed yz",
        input: "\
read => Interrupted ....
read => Block ....
read => Octets(1) x...
read => Fault ....
read => End ....
read => Octets(2) yz..
connect => NotYet
connect => Ready
connect => Finished
write a => Interrupted
write a => Block
write a => Fault
write a => Octets(1)
wait => Again
wait => Silent
taken => a
",
    },
    PortStory {
        name: "writes take as much as they are told",
        room: 16,
        steps: "write 2, write 0, write 9, write fault, write 1",
        input: "\
write abc => Octets(2)
write cde => Octets(0)
write cde => Octets(3)
write fgh => Fault
write fgh => Octets(1)
write gh => Octets(2)
taken => abcdefgh
",
    },
    PortStory {
        name: "every answer is kept in order",
        room: 16,
        steps: "connect ready, feed abcde, wait again",
        input: "\
echo => true
echo => false
read => Octets(1) e...
entries => Some([Connect(Ready), Read(Octets(4)), Write(Octets(4)), Wait(Again), Connect(Finished), Read(Octets(1))])
taken => abcd
",
    },
    PortStory {
        name: "nothing is told without room for answers",
        room: 0,
        steps: "",
        input: "\
entries => Some([])
connect => Finished
entries => None
",
    },
    PortStory {
        name: "nothing is told beyond the room for one answer",
        room: 1,
        steps: "",
        input: "\
entries => Some([])
wait => Silent
entries => Some([Wait(Silent)])
connect => Finished
entries => None
",
    },
    PortStory {
        name: "nothing is told beyond the room for two answers",
        room: 2,
        steps: "",
        input: "\
entries => Some([])
wait => Silent
entries => Some([Wait(Silent)])
wait => Silent
entries => Some([Wait(Silent), Wait(Silent)])
connect => Finished
entries => None
",
    },
    PortStory {
        name: "nothing is told beyond the room for four answers",
        room: 4,
        steps: "",
        input: "\
entries => Some([])
wait => Silent
entries => Some([Wait(Silent)])
wait => Silent
entries => Some([Wait(Silent), Wait(Silent)])
wait => Silent
entries => Some([Wait(Silent), Wait(Silent), Wait(Silent)])
wait => Silent
entries => Some([Wait(Silent), Wait(Silent), Wait(Silent), Wait(Silent)])
connect => Finished
entries => None
",
    },
    // At the second write the record has room for another answer, but not for its octet. It records no later answer
    // either, even one without octets.
    PortStory {
        name: "nothing is told beyond the room for octets",
        room: 5,
        steps: "feed abc",
        input: "\
read => Octets(3) abc.
write de => Octets(2)
entries => Some([Read(Octets(3)), Write(Octets(2))])
write f => Octets(1)
entries => None
read => End ....
entries => None
taken => de
",
    },
];

/// Returns the steps that these words mean.
fn steps_of(alloc: Global, words: &str) -> Result<Vec<Step>, Fail> {
    let mut steps = Vec::new(alloc);
    if !words.is_empty() {
        for words in words.split(", ") {
            steps.push(step_of(alloc, words)?)?;
        }
    }
    Ok(steps)
}

/// Returns the step that these words mean.
fn step_of(alloc: Global, words: &str) -> Result<Step, Fail> {
    let (word, text) = cut(words);
    if word == "feed" {
        return Ok(Step::Feed(text.as_bytes().to_vec(alloc)?));
    }
    match answer_of(words) {
        Some(step) => Ok(step),
        None => Err("a step".into()),
    }
}

/// Returns the step without octets that these words mean.
fn answer_of(words: &str) -> Option<Step> {
    match words {
        "connect ready" => Some(Step::Connect(Connect::Ready)),
        "connect not yet" => Some(Step::Connect(Connect::NotYet)),
        "wait again" => Some(Step::Wait(Waited::Again)),
        "read end" => Some(Step::Read(Got::End)),
        "read interrupted" => Some(Step::Read(Got::Interrupted)),
        "read block" => Some(Step::Read(Got::Block)),
        "read fault" => Some(Step::Read(Got::Fault)),
        "write interrupted" => Some(Step::Write(Put::Interrupted)),
        "write block" => Some(Step::Write(Put::Block)),
        "write fault" => Some(Step::Write(Put::Fault)),
        _ => numbered_of(words),
    }
}

/// Returns the step of a read or a write with this number of octets.
fn numbered_of(words: &str) -> Option<Step> {
    let (word, digits) = cut(words);
    let count = digits.parse::<usize>().ok()?;
    match word {
        "read" => Some(Step::Read(Got::Octets(count))),
        "write" => Some(Step::Write(Put::Octets(count))),
        _ => None,
    }
}

/// Returns a port of the steps that these words mean, with room for `room` answers and `room` octets in its record.
fn port_of(alloc: Global, words: &str, room: usize) -> Result<MemoryPort, Fail> {
    match MemoryPort::new(alloc, steps_of(alloc, words)?, room) {
        Ok(port) => Ok(port),
        Err((refused, _)) => Err(refused.into()),
    }
}

/// A port as a listener of lines: calls of it, and questions to it.
impl Listener for MemoryPort {
    fn answer_input(&mut self, input: &str, said: &mut String) -> Result<(), OutOfMemory> {
        let (word, text) = cut(input);
        match word {
            "connect" => write_debug(said, &self.connect()),
            "wait" => write_debug(said, &self.wait()),
            "read" => read(said, self),
            "write" => write(said, self, text.as_bytes()),
            "echo" => write_debug(said, &echoes_once(self)),
            "entries" => write_debug(said, &self.entries()),
            "taken" => write_octets(said, self.taken()),
            _ => said.push_str("?"),
        }
    }
}

/// Writes a value as the code names it.
fn write_debug<D: Debug>(said: &mut String, value: &D) -> Result<(), OutOfMemory> {
    write!(said, "{value:?}")
}

/// Writes octets as characters.
fn write_octets(said: &mut String, octets: &[u8]) -> Result<(), OutOfMemory> {
    for octet in octets {
        said.push(char::from(*octet))?;
    }
    Ok(())
}

/// Reads into four octets, all `.` before, and writes the result.
fn read(said: &mut String, port: &mut MemoryPort) -> Result<(), OutOfMemory> {
    let mut octets = [b'.'; 4];
    let got = port.read(&mut octets);
    write_debug(said, &got)?;
    said.push_str(" ")?;
    write_octets(said, &octets)
}

/// Writes octets, at least one, to a port, and then writes the result.
fn write(said: &mut String, port: &mut MemoryPort, octets: &[u8]) -> Result<(), OutOfMemory> {
    if octets.is_empty() {
        return said.push_str("?");
    }
    write_debug(said, &port.write(octets))
}

/// Serves one connection: writes the octets of one read back once, and waits for the port once. It uses only the
/// promises of every port.
fn echoes_once<P: Port>(port: &mut P) -> bool {
    let mut octets = [0; 4];
    if port.connect() != Connect::Ready {
        return false;
    }
    let Got::Octets(count) = port.read(&mut octets) else {
        return false;
    };
    let put = port.write(&octets[..count]);
    port.wait() == Waited::Again && put == Put::Octets(count)
}

#[test]
fn ports(rt: HostRuntime) -> Result<(), Fail> {
    for story in &STORIES {
        let port = port_of(rt.alloc(), story.steps, story.room)?;
        check_lines(&rt, port, story.name, story.input)?;
    }
    Ok(())
}

#[test]
fn out_of_memory_returns_the_steps(rt: HostRuntime) -> Result<(), Fail> {
    let alloc = rt.alloc();
    let steps = steps_of(alloc, "wait again, feed ab")?;
    let want = steps_of(alloc, "wait again, feed ab")?;
    match MemoryPort::new(alloc, steps, usize::MAX) {
        Ok(_) => Err("there is no such room".into()),
        Err((_, steps)) => {
            assert_eq!(rt; steps, want);
            Ok(())
        }
    }
}
