//! Loads of a whole site, in one thread: the frames of its carriers, and counts of what the engine does with them.

ghost use Rattle.std.specs.Prelude.{◌<◌};

use dmr_bits::Octets10;
use dmr_burst::write;
use dmr_link::{Engine, Input, Outputs};
use dmr_pdu::{CarrierNo, OutOfMemory, Pdu};
use dmr_plan::Plan;
use std::alloc::Global;

/// The address at which radios register.
const REGI: u32 = 0xFF_FEC6;

/// The service options and kind of a registration request: of a radio that joins, and of one that leaves.
const JOINING: u16 = 0x020E;

const LEAVING: u16 = 0x000E;

/// The step from one radio to the next. It is a prime, so that a load reaches each radio.
const STRIDE: u32 = 7_919;

/// The number of talkgroups.
const GROUPS: u32 = 16;

/// A POLL.
const POLL: &[u8] = &[0x03, 0x00];

/// ACTIVE of slot 0 and of slot 1: the voice channel is in use.
const ACTIVE: [&[u8]; 2] = [&[0x04, 0x01, 0x00], &[0x04, 0x01, 0x01]];

/// The number of frames whose bursts are made in advance. After them, the bursts begin again.
pub const BURSTS: u32 = 4_096;

/// The number of frames after which the outputs are emptied.
const KEPT: u32 = 256;

/// The common part of all site files. Carrier 0 is the control carrier. Calls end after 100 ticks of 60 ms at the
/// latest, so slots become free all the time.
const SITE: &str = "\
system = 0x0A51
regi = 0xFFFEC6
tsi = 0xFFFECA
leave_bit = 0
hang = 50
maximum = 100
ahoy_wait = 8
ahoy_tries = 4
grant_copies = 2
clear_copies = 2
backoff_low = 2
backoff_high = 12
tick_ms = 60
silence = 50
console_port = 7100
radios = [[1, 5000]]
groups = [1, 2, 3, 4, 5, 6, 7, 8, 9, 10, 11, 12, 13, 14, 15, 16]
control = 0
";

/// The loads, in the order in which they are printed.
pub const LOADS: [Load; 5] = [
    Load::Polls,
    Load::Registrations,
    Load::Joins,
    Load::Calls,
    Load::BusyHour,
];

/// A load: the input of a site.
#[derive(Clone, Copy)]
pub enum Load {
    /// Each carrier polls in each frame, and nothing else happens.
    Polls,
    /// In each frame, a registered radio registers again and the control carrier polls.
    Registrations,
    /// In each frame, a registered radio leaves or the radio that left registers again, in turn, and the control
    /// carrier polls.
    Joins,
    /// In each frame, the control slot receives a burst and the control carrier polls twice. The bursts are, in turn: a
    /// talkgroup request, the same again, the radio's leaving, which ends its call, and its registration.
    Calls,
    /// In each frame, there is a tick, and each carrier receives a burst on each of its slots and polls. There is voice
    /// on all slots but the control slot. The control slot receives, in turn, a registration, a talkgroup request, an
    /// individual request, and the called radio's answer.
    BusyHour,
}

impl Load {
    /// Returns the name of the load, on the command line and in tables.
    pub fn name(self) -> &'static str {
        match self {
            Load::Polls => "polls",
            Load::Registrations => "registrations",
            Load::Joins => "joins",
            Load::Calls => "calls",
            Load::BusyHour => "busy",
        }
    }

    /// Returns the load with this name.
    pub fn named(name: &str) -> Option<Load> {
        LOADS.into_iter().find(|load| load.name() == name)
    }
}

/// RX of a burst on slot 0.
pub type Heard = [u8; 28];

/// Returns the octets of a PDU: its first octet, feature set 0, 16 bits, and two numbers of 24 bits.
fn octets_of(first: u8, half: u16, upper: u32, lower: u32) -> Octets10 {
    let [high, low] = half.to_be_bytes();
    let [_, a, b, c] = upper.to_be_bytes();
    let [_, d, e, f] = lower.to_be_bytes();
    [first, 0, high, low, a, b, c, d, e, f]
}

/// Returns the RX of a PDU's burst.
fn rx_of_pdu(octets: &Octets10) -> Heard {
    let word = write(&Pdu::from_octets(octets));
    let mut frame: Heard = [0; 28];
    frame[0] = 0x02;
    frame[1] = 26;
    frame[3..].copy_from_slice(&word.to_octets());
    frame
}

/// Returns the RX of a radio's registration.
fn registration(radio: u32) -> Heard {
    rx_of_pdu(&octets_of(0x9F, JOINING, REGI, radio))
}

/// Returns the RX of a radio's request for a talkgroup call.
fn group_request(group: u32, radio: u32) -> Heard {
    rx_of_pdu(&octets_of(0x9F, 1, 1 + group % GROUPS, radio))
}

/// Returns the radio whose turn it is, 1 to `radios`.
fn radio_in_turn(turn: u32, radios: u32) -> u32 {
    1 + turn.wrapping_mul(STRIDE) % radios.max(1)
}

/// Returns the RX on the control slot in a frame, with `radios` registered radios.
fn burst_of(load: Load, frame: u32, radios: u32) -> Heard {
    let turn = frame / 4;
    let radio = radio_in_turn(turn, radios);
    let called = 1 + radio % radios.max(1);
    let leaver = radio_in_turn(frame / 2, radios);
    match (load, frame % 4) {
        (Load::BusyHour, 1) | (Load::Calls, 0 | 1) => group_request(turn, radio),
        (Load::BusyHour, 2) => rx_of_pdu(&octets_of(0x9F, 0, called, radio)),
        (Load::BusyHour, 3) => rx_of_pdu(&octets_of(0xA1, 0x88, radio, called)),
        (Load::Calls, 2) => rx_of_pdu(&octets_of(0x9F, LEAVING, REGI, radio)),
        (Load::BusyHour | Load::Calls, _) => registration(radio),
        (Load::Joins, 0 | 2) => rx_of_pdu(&octets_of(0x9F, LEAVING, REGI, leaver)),
        (Load::Joins, _) => registration(leaver),
        _ => registration(radio_in_turn(frame, radios)),
    }
}

/// Returns the RX on the control slot, frame by frame.
pub fn bursts_of(alloc: Global, load: Load, radios: u32) -> Result<Vec<Heard>, OutOfMemory> {
    let mut bursts = Vec::new(alloc);
    for frame in 0..BURSTS {
        bursts.push(burst_of(load, frame, radios))?;
    }
    Ok(bursts)
}

/// Returns the plan of a site with this number of carriers, 16 at most.
fn plan_of(alloc: Global, carriers: u32) -> Result<Option<Plan>, OutOfMemory> {
    let mut text = String::from_str(alloc, SITE)?;
    for number in 0..carriers.min(16) {
        write_row(&mut text, number, number + 1, number + 7_101)?;
    }
    Ok(Plan::read(alloc, text.as_str()).ok())
}

/// Adds a carrier to the end of a site file.
fn write_row(text: &mut String, number: u32, lpcn: u32, port: u32) -> Result<(), OutOfMemory> {
    write!(
        text,
        "[[carrier]]\nnumber = {number}\nlpcn = {lpcn}\nport = {port}\n"
    )
}

/// Returns the sum of octets.
fn sum_of(octets: &[u8]) -> u64 {
    let mut sum: u64 = 0;
    for octet in octets {
        sum = sum.wrapping_add(u64::from(*octet));
    }
    sum
}

/// A site in operation, with counts of its input and output.
#[derive(Drop)]
pub struct BenchSite {
    engine: Engine,
    outputs: Outputs,
    carriers: u32,
    /// The number of events: each poll, burst, use of a voice channel and tick is one.
    pub events: u64,
    /// The number of octets that were written for carriers.
    pub octets: u64,
    /// The sum of these octets.
    pub sum: u64,
}

impl BenchSite {
    /// Returns a site with this number of carriers, none of them up. Returns `None` if no such site is possible.
    pub fn new(alloc: Global, carriers: u32) -> Result<Option<BenchSite>, OutOfMemory> {
        let Some(plan) = plan_of(alloc, carriers)? else {
            return Ok(None);
        };
        match Engine::new(alloc, plan) {
            Ok(engine) => Ok(Some(BenchSite {
                engine,
                outputs: Outputs::new(alloc),
                carriers: carriers.min(16),
                events: 0,
                octets: 0,
                sum: 0,
            })),
            Err(refused) => Err(refused),
        }
    }

    /// Has all carriers come up and this number of radios register.
    pub fn fill(&mut self, radios: u32) -> Result<(), OutOfMemory> {
        for number in 0..self.carriers {
            self.rise(number)?;
        }
        for radio in 0..radios {
            self.take(0, &registration(radio.wrapping_add(1)))?;
            self.take(0, POLL)?;
        }
        self.count_outputs();
        Ok(())
    }

    /// Has a carrier come up.
    fn rise(&mut self, number: u32) -> Result<(), OutOfMemory> {
        let [.., carrier] = number.to_be_bytes();
        self.open(number)?;
        self.take(
            number,
            &[0x01, 0x04, 0x01, carrier, 0x00, carrier.wrapping_add(1)],
        )
    }

    /// Counts and sums the octets of the outputs, and empties them.
    fn count_outputs(&mut self) {
        for number in 0..16u32 {
            let put_out = self.outputs.carrier(CarrierNo::new(number));
            self.octets = self.octets.wrapping_add(put_out.len() as u64);
            self.sum = self.sum.wrapping_add(sum_of(put_out));
        }
        self.outputs.clear();
    }

    /// Opens a carrier's connection.
    fn open(&mut self, number: u32) -> Result<(), OutOfMemory> {
        let carrier = CarrierNo::new(number % 16);
        self.engine.step(Input::Open(carrier), &mut self.outputs)
    }

    /// Hands octets of a carrier to the engine, or a tick if there are none.
    fn take(&mut self, number: u32, octets: &[u8]) -> Result<(), OutOfMemory> {
        self.events = self.events.wrapping_add(1);
        let carrier = CarrierNo::new(number % 16);
        let input = if octets.is_empty() {
            Input::Tick
        } else {
            Input::Bytes(carrier, octets)
        };
        self.engine.step(input, &mut self.outputs)
    }

    /// Runs a frame of the busy hour for a carrier.
    fn hear_all(&mut self, number: u32, burst: &Heard) -> Result<(), OutOfMemory> {
        let [first, second] = ACTIVE;
        if number == 0 {
            self.take(number, burst)?;
        } else {
            self.take(number, first)?;
        }
        self.take(number, second)?;
        self.take(number, POLL)
    }

    /// Runs one frame of a load.
    fn frame(&mut self, load: Load, burst: &Heard) -> Result<(), OutOfMemory> {
        match load {
            Load::Polls => {
                for number in 0..self.carriers {
                    self.take(number, POLL)?;
                }
                Ok(())
            }
            Load::Registrations | Load::Joins => {
                self.take(0, burst)?;
                self.take(0, POLL)
            }
            Load::Calls => {
                self.take(0, burst)?;
                self.take(0, POLL)?;
                self.take(0, POLL)
            }
            Load::BusyHour => {
                self.take(0, &[])?;
                for number in 0..self.carriers {
                    self.hear_all(number, burst)?;
                }
                Ok(())
            }
        }
    }

    /// Runs `frames` frames of a load with these bursts.
    pub fn play(&mut self, load: Load, bursts: &[Heard], frames: u32) -> Result<(), OutOfMemory> {
        for frame in 0..frames {
            if let Some(burst) = bursts.get((frame % BURSTS) as usize) {
                self.frame(load, burst)?;
            }
            if frame % KEPT == 0 {
                self.count_outputs();
            }
        }
        self.count_outputs();
        Ok(())
    }
}
