//! Measures how long the engine takes for the loads of a site.

use crate::bench::load::{BenchSite, Heard, LOADS, Load, bursts_of};
use std::io;
use std::rt::Clock;
use std::time::Instant;

/// The numbers of carriers of the sites.
const CARRIERS: [u32; 3] = [1, 4, 16];

/// The numbers of registered radios.
const RADIOS: [u32; 3] = [1, 256, 4_096];

/// The number of runs of each load. The fastest counts, since other work on the machine can only make a run slower.
const TIMES: u32 = 3;

/// The approximate number of events of each run.
const EVENTS: u32 = 60_000;

/// The length of a frame on the air, in nanoseconds.
const AIR_FRAME: u128 = 60_000_000;

/// The size of a run.
#[derive(Clone, Copy)]
pub struct Size {
    /// The site's carriers, 1 to 16.
    pub carriers: u32,
    /// The registered radios.
    pub radios: u32,
    /// The frames.
    pub frames: u32,
}

/// The result of a run.
#[derive(Clone, Copy)]
struct Took {
    events: u128,
    octets: u64,
    sum: u64,
    nanos: u128,
}

impl Took {
    /// Returns the events a second.
    fn rate(&self) -> u128 {
        self.events.saturating_mul(1_000_000_000) / self.nanos.max(1)
    }
}

/// Runs a load once on a new site. Returns `None` if there is no site of this size.
fn play<R: AllocGlobal + Clock>(rt: &R, load: Load, size: Size) -> io::Result<Option<Took>> {
    let bursts = bursts_of(rt.alloc(), load, size.radios)?;
    let mut made = BenchSite::new(rt.alloc(), size.carriers)?;
    let took = match made.as_mut() {
        Some(scene) => play_on(rt, scene, load, size, bursts.as_slice()),
        None => Ok(None),
    };
    drop(made);
    took
}

/// Runs a load once on a new site, with these bursts.
fn play_on<R: Clock>(
    rt: &R,
    scene: &mut BenchSite,
    load: Load,
    size: Size,
    bursts: &[Heard],
) -> io::Result<Option<Took>> {
    scene.fill(size.radios)?;
    let (events, octets, sum) = (scene.events, scene.octets, scene.sum);
    let start = Instant::now(rt)?;
    scene.play(load, bursts, size.frames)?;
    let nanos = start.elapsed(rt)?.as_nanos();
    Ok(Some(Took {
        events: u128::from(scene.events.wrapping_sub(events)),
        octets: scene.octets.wrapping_sub(octets),
        sum: scene.sum.wrapping_sub(sum),
        nanos,
    }))
}

/// Returns the approximate number of events in a frame of a load.
fn events_a_frame(load: Load, carriers: u32) -> u32 {
    match load {
        Load::Polls => carriers.max(1),
        Load::Registrations | Load::Joins => 2,
        Load::Calls => 3,
        Load::BusyHour => carriers.saturating_mul(3).saturating_add(1),
    }
}

/// Prints a line with the load, the carriers, the registered radios, and the events a second. The nanoseconds an event,
/// the share of a processor at the air's rate, and the number of octets that the site wrote follow.
fn print<R: Print>(rt: &R, load: Load, size: Size, took: &Took) -> io::Result<()> {
    let (name, carriers, radios) = (load.name(), size.carriers, size.radios);
    let rate = took.rate();
    let each = took.nanos.max(1) / took.events.max(1);
    let on_air = u128::from(size.frames).saturating_mul(AIR_FRAME).max(1);
    let share = took.nanos.saturating_mul(100_000) / on_air;
    let octets = took.octets;
    println!(rt;
        "{name:<14} {carriers:>9} {radios:>7} {rate:>15} {each:>12} {:>9}.{:03} % {octets:>12}",
        share / 1000,
        share % 1000
    )
}

/// Runs a load several times, and prints the fastest run.
fn time<R: Print + AllocGlobal + Clock>(rt: &R, load: Load, size: Size) -> io::Result<()> {
    let mut best: Option<Took> = None;
    for _ in 0..TIMES {
        let took = play(rt, load, size)?;
        best = match (best, took) {
            (Some(best), Some(took)) if best.nanos <= took.nanos => Some(best),
            (_, took) => took,
        };
    }
    match best {
        Some(took) => print(rt, load, size, &took),
        None => println!(rt; "no such site: {} carriers", size.carriers),
    }
}

/// Runs a load once, and prints "rate octets sum events": events a second, the number of octets that the site wrote,
/// their sum, and the number of events.
pub fn time_load<R: Print + AllocGlobal + Clock>(rt: &R, load: Load, size: Size) -> io::Result<()> {
    match play(rt, load, size)? {
        Some(took) => {
            let rate = took.rate();
            println!(rt; "{rate} {} {} {}", took.octets, took.sum, took.events)
        }
        None => println!(rt; "no such site: {} carriers", size.carriers),
    }
}

/// Runs each load on sites of several sizes, and prints the results.
pub fn time_loads<R: Print + AllocGlobal + Clock>(rt: &R) -> io::Result<()> {
    println!(rt;
        "load            carriers  radios events a second     ns each  at air rate     put out"
    )?;
    for load in LOADS {
        for carriers in CARRIERS {
            for radios in RADIOS {
                let frames = EVENTS / events_a_frame(load, carriers).max(1);
                let size = Size {
                    carriers,
                    radios,
                    frames,
                };
                time(rt, load, size)?;
            }
        }
    }
    Ok(())
}
