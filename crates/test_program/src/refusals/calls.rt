//! Calls of the plan, of the site and its parts, and of the port in memory.

use crate::refusals::verdict::{Verdict, is_made, verdict_if, verdict_of_copy};
use dmr_access::Access;
use dmr_calls::{Calls, Line};
use dmr_core::{Event, Site};
use dmr_pdu::{Address, CarrierNo, Pdu, Slot, SlotNo};
use dmr_plan::{Plan, PlanFault};
use dmr_pool::Pool;
use dmr_registry::Registry;
use dmr_wire::{Connect, Got, MemoryPort, Step};
use std::alloc::Global;

/// A site of carriers 0 and 1, with channels 1 and 2.
const SITE: &str = "\
system = 0x1234
regi = 0xFFFEC6
tsi = 0xFFFECA
leave_bit = 0
hang = 100
maximum = 3000
ahoy_wait = 8
ahoy_tries = 3
grant_copies = 1
clear_copies = 1
backoff_low = 1
backoff_high = 8
tick_ms = 60
silence = 100
console_port = 7100
radios = [[1000, 1999]]
groups = [91, 92, 93, 94]
control = 0
[[carrier]]
number = 0
lpcn = 1
port = 7101
[[carrier]]
number = 1
lpcn = 2
port = 7102
";

/// Returns the plan of that site.
pub fn plan(alloc: Global) -> Option<Plan> {
    Plan::read(alloc, SITE).ok()
}

/// Returns the control slot.
pub fn control_slot() -> Slot {
    Slot {
        carrier: CarrierNo::new(0),
        slot: SlotNo::new(0),
    }
}

/// The registration of radio 1001, and its call to talkgroup 91.
const REQUESTS: [[u8; 10]; 2] = [
    *b"\x9F\x00\x02\x0E\xFF\xFE\xC6\x00\x03\xE9",
    *b"\x9F\x00\x00\x01\x00\x00\x5B\x00\x03\xE9",
];

/// Returns a site on which radio 1001 is registered and calls.
pub fn busy_site(alloc: Global) -> Option<Site> {
    let mut site = Site::new(alloc, plan(alloc)?).ok()?;
    site.apply(Event::Up(CarrierNo::new(0)));
    for request in &REQUESTS {
        site.apply(Event::Heard(control_slot(), Pdu::from_octets(request)));
    }
    Some(site)
}

/// Returns whether two sites are equal, answer some events in the same way, and are equal afterwards. Drops both.
pub fn go_on_alike(mut site: Site, mut other: Site) -> bool {
    let mut alike = site == other;
    let carrier = CarrierNo::new(0);
    let events = [Event::Poll(carrier), Event::Tick, Event::Poll(carrier)];
    for event in &events {
        alike = alike && site.apply(*event) == other.apply(*event);
    }
    alike = alike && site == other;
    drop(site);
    drop(other);
    alike
}

/// Reads a site file.
pub fn read_plan(alloc: Global) -> Verdict {
    match Plan::read(alloc, SITE) {
        Ok(_) => Verdict::Done,
        Err(PlanFault::OutOfMemory) => verdict_if(plan(alloc).is_some(), Verdict::Refused),
        Err(_) => Verdict::Wrong,
    }
}

/// Makes a site.
pub fn new_site(alloc: Global) -> Verdict {
    let Some(plan) = plan(alloc) else {
        return Verdict::NotTried;
    };
    if is_made(Site::new(alloc, plan)) {
        return Verdict::Done;
    }
    verdict_if(is_made(Site::new(alloc, plan)), Verdict::Refused)
}

/// Returns a registry with two radios.
fn registry(alloc: Global) -> Option<Registry> {
    let mut registry = Registry::new(alloc).ok()?;
    registry.join(Address::new(1002)).ok()?;
    registry.join(Address::new(1001)).ok()?;
    Some(registry)
}

/// Copies a registry.
pub fn clone_registry(alloc: Global) -> Verdict {
    let Some((registry, other)) = registry(alloc).zip(registry(alloc)) else {
        return Verdict::NotTried;
    };
    verdict_of_copy(registry.try_clone(alloc), registry, other)
}

/// Returns the access of a site after noise on the control slot.
fn access(alloc: Global) -> Option<Access> {
    let mut access = Access::new(alloc, &plan(alloc)?).ok()?;
    access.reset();
    access.noise();
    access.polled();
    Some(access)
}

/// Copies the access with its noise window.
pub fn clone_access(alloc: Global) -> Verdict {
    let Some((access, other)) = access(alloc).zip(access(alloc)) else {
        return Verdict::NotTried;
    };
    verdict_of_copy(access.try_clone(alloc), access, other)
}

/// Returns the slots of a site whose carrier 0 is up, with a PDU that waits.
fn pool(alloc: Global) -> Option<Pool> {
    let plan = plan(alloc)?;
    let mut pool = Pool::new(alloc, &plan).ok()?;
    let slot = control_slot();
    if plan.carrier_with(slot.carrier).is_some() {
        pool.up(slot.carrier);
    }
    if pool.is_up(slot.carrier) {
        pool.push(slot, Pdu::from_octets(&[0; 10])).ok()?;
    }
    Some(pool)
}

/// Copies slots and outboxes.
pub fn clone_pool(alloc: Global) -> Verdict {
    let Some((pool, other)) = pool(alloc).zip(pool(alloc)) else {
        return Verdict::NotTried;
    };
    verdict_of_copy(pool.try_clone(alloc), pool, other)
}

/// Returns lists with one line.
fn calls(alloc: Global) -> Option<Calls> {
    let mut calls = Calls::new(alloc).ok()?;
    let line = Line {
        source: Address::new(1001),
        target: Address::new(91),
        group: true,
    };
    calls.line(line).ok()?;
    Some(calls)
}

/// Copies asks, lines and calls.
pub fn clone_calls(alloc: Global) -> Verdict {
    let Some((calls, other)) = calls(alloc).zip(calls(alloc)) else {
        return Verdict::NotTried;
    };
    verdict_of_copy(calls.try_clone(alloc), calls, other)
}

/// Copies a site.
pub fn clone_site(alloc: Global) -> Verdict {
    let Some((site, other)) = busy_site(alloc).zip(busy_site(alloc)) else {
        return Verdict::NotTried;
    };
    match site.try_clone(alloc) {
        Ok(copy) => {
            drop(site);
            verdict_if(go_on_alike(copy, other), Verdict::Done)
        }
        Err(_) => verdict_if(go_on_alike(site, other), Verdict::Refused),
    }
}

/// Returns the steps of a port.
fn steps(alloc: Global) -> Option<Vec<Step>> {
    let octets = b"\x03\x00".to_vec(alloc).ok()?;
    let mut steps = Vec::with_capacity(alloc, 3).ok()?;
    steps.push(Step::Connect(Connect::Ready)).ok()?;
    steps.push(Step::Feed(octets)).ok()?;
    steps.push(Step::Read(Got::Fault)).ok()?;
    Some(steps)
}

/// Makes a port in memory. It returns its steps if memory is refused.
pub fn new_port(alloc: Global) -> Verdict {
    let Some((given, other)) = steps(alloc).zip(steps(alloc)) else {
        return Verdict::NotTried;
    };
    match MemoryPort::new(alloc, given, 64) {
        Ok(_) => Verdict::Done,
        Err((_, back)) => verdict_if(back == other, Verdict::Refused),
    }
}
