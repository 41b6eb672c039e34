//! The counts of a term for each carrier.

ghost use Rattle.std.specs.Prelude.{◌≡◌, ◌++◌, IfOk, OnOk};
ghost use Rattle.std.specs.List.{list_any};
ghost use Rattle.std.specs.Option.{option_to_list};
ghost use Rattle.dmr_core.specs.declared.entry.Entry.{Entry as AnEntry};
ghost use Rattle.dmr_keeper.specs.Carriers.{carrier_counts, counts_if_any, is_of_and};
ghost use Rattle.dmr_keeper.specs.Carriers.{counts_of_carrier as counts_by_carrier};
ghost use Rattle.dmr_keeper.specs.Carriers.{is_of_carrier as belongs_to};
ghost use Rattle.dmr_keeper.specs.Counts.{is_active as tells_activity, is_heard as hears};
ghost use Rattle.dmr_keeper.specs.Counts.{is_noise as tells_noise, is_poll as polls};

use crate::counts::one_if;
use dmr_core::{Entry, Event};
use dmr_pdu::{CarrierNo, OutOfMemory};
use std::alloc::Global;

/// How often things happened on a carrier in a term.
#[derive(Clone, Copy, Debug, PartialEq, Eq)]
pub struct CarrierCounts {
    /// The carrier.
    pub carrier: CarrierNo,
    /// Its polls.
    pub polls: usize,
    /// The bursts on its slots from which a PDU was read.
    pub heard: usize,
    /// The bursts on its slots from which no PDU could be read.
    pub noise: usize,
    /// The reports of activity on its slots.
    pub active: usize,
}

/// Reports whether an event is one of the carrier.
fn is_of_carrier(carrier: CarrierNo, event: &Event) -> bool
    ensures { result ≡ belongs_to carrier event.now }
{
    match event {
        Event::Up(other) | Event::Lost(other) | Event::Poll(other) => *other == carrier,
        Event::Heard(slot, _) | Event::Noise(slot) | Event::Active(slot) => slot.carrier == carrier,
        Event::Tick | Event::Say(_) => false,
    }
}

/// Reports whether an event is a poll of the carrier.
fn is_poll_of(carrier: CarrierNo, event: &Event) -> bool
    ensures { result ≡ is_of_and carrier polls event.now }
{
    match event {
        Event::Poll(other) => *other == carrier,
        _ => false,
    }
}

/// Reports whether an event is a PDU that was read on a slot of the carrier.
fn is_heard_of(carrier: CarrierNo, event: &Event) -> bool
    ensures { result ≡ is_of_and carrier hears event.now }
{
    match event {
        Event::Heard(slot, _) => slot.carrier == carrier,
        _ => false,
    }
}

/// Reports whether an event is noise on a slot of the carrier.
fn is_noise_of(carrier: CarrierNo, event: &Event) -> bool
    ensures { result ≡ is_of_and carrier tells_noise event.now }
{
    match event {
        Event::Noise(slot) => slot.carrier == carrier,
        _ => false,
    }
}

/// Reports whether an event is activity on a slot of the carrier.
fn is_active_of(carrier: CarrierNo, event: &Event) -> bool
    ensures { result ≡ is_of_and carrier tells_activity event.now }
{
    match event {
        Event::Active(slot) => slot.carrier == carrier,
        _ => false,
    }
}

/// The counts of a carrier in a journal.
fn counts_of_carrier(journal: &[Entry], carrier: CarrierNo) -> CarrierCounts
    ensures { result ≡ counts_by_carrier journal.now carrier }
{
    let mut polls = 0;
    let mut heard = 0;
    let mut noise = 0;
    let mut active = 0;
    for entry in journal {
        polls += one_if(is_poll_of(carrier, &entry.event));
        heard += one_if(is_heard_of(carrier, &entry.event));
        noise += one_if(is_noise_of(carrier, &entry.event));
        active += one_if(is_active_of(carrier, &entry.event));
    }
    CarrierCounts {
        carrier,
        polls,
        heard,
        noise,
        active,
    }
}

/// Reports whether the journal has an entry of the carrier.
fn has_entry_of(journal: &[Entry], carrier: CarrierNo) -> bool
    ensures { result
        ≡ list_any (λ (entry : AnEntry). belongs_to carrier entry.event) journal.now }
{
    journal
        .iter()
        .any(|entry| is_of_carrier(carrier, &entry.event))
}

/// Adds the counts of a carrier, if the journal has an entry of it.
fn add_counts(
    journal: &[Entry],
    carrier: CarrierNo,
    counts: &mut Vec<CarrierCounts>,
) -> Result<(), OutOfMemory>
    ensures { OnOk result (counts.new.items
        ≡ counts.old.items ++ option_to_list (counts_if_any journal.now carrier)) }
{
    if has_entry_of(journal, carrier) {
        counts.push(counts_of_carrier(journal, carrier))?;
    }
    Ok(())
}

/// The counts of each carrier of which the journal has an entry, lowest number first. On an error memory ran out.
pub fn counts_of_carriers(
    alloc: Global,
    journal: &[Entry],
) -> Result<Vec<CarrierCounts>, OutOfMemory>
    ensures { IfOk result (λ counts. counts.items ≡ carrier_counts journal.now) }
{
    let mut counts = Vec::new(alloc);
    for number in 0..16u32 {
        add_counts(journal, CarrierNo::new(number), &mut counts)?;
    }
    Ok(counts)
}
