//! Tests of a serving port over sockets in memory: peers that hold, flood, stop, leave and wait, by scripts.

mod answers;
mod carriers;
mod operators;
mod rows;
mod script;
mod sockets;

use self::answers::{Answers, Kept};
use self::carriers::CARRIERS_PORT;
use self::operators::OPERATORS_PORT;
use self::rows::Row;
use self::script::events_of;
use self::sockets::MemorySockets;
use dmr_frames::Version;
use dmr_pdu::{CarrierNo, Lpcn, OutOfMemory};
use dmr_port::{Note, PortNotes, PortSettings, ServingPort, Whose, empty_records_agree};
use dmr_wire::{Closing, Connect, Got, Port, Put, RecordEntry, Waited, Wire};
use std::fmt::Debug;
use std::process::Abort;

/// The number of peers of a script, at most.
const PEERS: usize = 5000;

/// The steps of a link in a script: enough for its last event.
const STEPS: usize = 20_000;

/// Keeps the texts of notes, a line for each. If an allocation is refused, it forgets the note.
#[derive(Drop)]
struct Pad {
    text: String,
}

impl PortNotes for Pad {
    fn write(&mut self, note: &Note<'_>) {
        let _ = writeln!(self.text, "{note}");
    }
}

/// A link that writes what it reads.
#[derive(Drop)]
struct Echo {
    is_live: bool,
    got: usize,
}

impl Echo {
    /// Closes the connection and reports how.
    fn close<P: Port>(&mut self, port: &mut P, closing: Closing) {
        port.closed(closing);
        self.is_live = false;
    }

    /// Writes octets, at most 16 times. Closes the connection if the port takes none.
    fn write<P: Port>(&mut self, port: &mut P, octets: &[u8]) {
        let mut rest = octets;
        for _ in 0..16 {
            if rest.is_empty() {
                return;
            }
            match port.write(rest) {
                Put::Octets(count) => rest = &rest[count..],
                Put::Interrupted => {}
                Put::Block | Put::Fault => {
                    self.close(port, Closing::WriteFailed);
                    return;
                }
            }
        }
    }

    /// Reads once, and writes what came; waits if the read would block.
    fn serve<P: Port>(&mut self, port: &mut P) {
        let mut octets = [0; 64];
        match port.read(&mut octets) {
            Got::Octets(count) => {
                self.got = self.got.saturating_add(count);
                self.write(port, &octets[..count]);
            }
            Got::End => self.close(port, Closing::Over),
            Got::Fault => self.close(port, Closing::ReadFailed),
            Got::Interrupted => {}
            Got::Block => {
                if port.wait() == Waited::Silent {
                    self.close(port, Closing::Over);
                }
            }
        }
    }

    /// Serves the connection, or asks for one.
    fn step<P: Port>(&mut self, port: &mut P) {
        if self.is_live {
            self.serve(port);
        } else {
            self.is_live = port.connect() == Connect::Ready;
        }
    }
}

/// What answers add up to.
#[derive(Clone, Copy)]
struct Sums {
    /// The connections.
    opened: usize,
    /// The octets that came.
    came: usize,
    /// The octets that were taken.
    taken: usize,
}

/// Adds up what was answered.
fn sums_of(answers: &[Kept]) -> Sums {
    let mut sums = Sums {
        opened: 0,
        came: 0,
        taken: 0,
    };
    for answer in answers {
        match answer.entry {
            RecordEntry::Connect(Connect::Ready) => sums.opened = sums.opened.saturating_add(1),
            RecordEntry::Read(Got::Octets(count)) => sums.came = sums.came.saturating_add(count),
            RecordEntry::Write(Put::Octets(count)) => sums.taken = sums.taken.saturating_add(count),
            _ => {}
        }
    }
    sums
}

/// The port of carrier 0 with LPCN 1.
fn carrier() -> Whose {
    Whose::Carrier {
        number: CarrierNo::new(0),
        lpcn: Lpcn::new(1),
    }
}

/// Drops what is handed back with a refused allocation.
fn without_rest<T, A: Drop, B: Drop, C: Drop>(
    made: Result<T, (OutOfMemory, A, B, C)>,
) -> Result<T, OutOfMemory> {
    match made {
        Ok(made) => Ok(made),
        Err((refused, first, second, third)) => {
            drop(first);
            drop(second);
            drop(third);
            Err(refused)
        }
    }
}

/// Plays a script over a port.
fn play(rt: &(impl Abort + AllocGlobal), whose: Whose, row: &Row) -> Result<(), OutOfMemory> {
    let alloc = rt.alloc();
    let sockets = MemorySockets::new(alloc, events_of(alloc, row.script)?, PEERS, row.until)?;
    let pad = Pad {
        text: String::new(alloc),
    };
    let settings = PortSettings {
        whose,
        greatest: Version::V2,
        silence: row.silence,
    };
    empty_records_agree();
    let answers = Answers::new(alloc);
    let made = ServingPort::with_witness(alloc, sockets, pad, settings, answers);
    let mut port = without_rest(made)?;
    let mut echo = Echo {
        is_live: false,
        got: 0,
    };
    for _ in 0..STEPS {
        echo.step(&mut port);
    }
    let reported = sums_of(port.witness().kept().unwrap_or(&[]));
    let (sockets, pad) = port.into_parts();
    check(rt, row, &sockets, pad.text.as_str(), reported);
    expect_same(rt, row.name, echo.got, row.got);
    drop(sockets);
    drop(pad);
    Ok(())
}

/// Checks what a port has noted and reported, and what its sockets were asked.
fn check(rt: &impl Abort, row: &Row, sockets: &MemorySockets, notes: &str, reported: Sums) {
    let logged = sums_of(sockets.log().kept().unwrap_or(&[]));
    match row.notes.strip_prefix("..") {
        Some(last) => expect_same(rt, row.name, notes.ends_with(last), true),
        None => expect_same(rt, row.name, notes, row.notes),
    }
    expect_same(rt, row.name, reported.opened, logged.opened);
    expect_same(rt, row.name, reported.came, row.got);
    expect_same(rt, row.name, reported.came <= logged.came, true);
    expect_same(rt, row.name, logged.taken <= reported.taken, true);
    if let Some(reads) = row.reads {
        expect_same(rt, row.name, sockets.asked.0, reads);
    }
}

/// Checks that a value is the expected one.
fn expect_same<V: Copy + PartialEq + Debug>(rt: &impl Abort, name: &str, value: V, wanted: V) {
    assert_eq!(rt; value, wanted, "{name}");
}

#[test]
fn carriers_port(rt: HostRuntime) -> Result<(), OutOfMemory> {
    for row in &CARRIERS_PORT {
        play(&rt, carrier(), row)?;
    }
    Ok(())
}

#[test]
fn operators_port(rt: HostRuntime) -> Result<(), OutOfMemory> {
    for row in &OPERATORS_PORT {
        play(&rt, Whose::Console, row)?;
    }
    Ok(())
}
