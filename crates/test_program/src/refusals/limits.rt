//! Calls that are refused at a limit, and calls that only a limit needs.

use crate::refusals::calls::{control_slot, plan};
use crate::refusals::verdict::{Verdict, verdict_if};
use dmr_access::Access;
use dmr_calls::{Ask, Call, Calls, Due, Line};
use dmr_pdu::{Address, BoundedList, CarrierNo, Lpcn, Options, Pdu, Slot, SlotNo};
use dmr_pool::Pool;
use dmr_registry::Registry;
use std::alloc::Global;

/// Registers 4,096 radios, and another one once a radio has left.
pub fn fill_registry(alloc: Global) -> Verdict {
    let Ok(mut registry) = Registry::new(alloc) else {
        return Verdict::NotTried;
    };
    let mut right = registry.is_empty();
    for number in 1..=4096 {
        right = right && registry.join(Address::new(number)) == Ok(true);
    }
    let (last, another) = (Address::new(4096), Address::new(4097));
    right = right && registry.join(last) == Ok(false);
    right = right && registry.join(another).is_err() && registry.len() == 4096;
    right = right && registry.leave(last) && !registry.leave(last);
    right = right && registry.join(another) == Ok(true);
    drop(registry);
    verdict_if(right, Verdict::Done)
}

/// The PDU of this number: C_MOVE to a channel.
fn numbered_pdu(number: u8) -> Pdu {
    Pdu::from_octets(&[0xB9, 0, 0, 0, 0x11, 0, number, 0, 0, 0])
}

/// Queues a PDU for the control slot, whose carrier has to be up. Returns whether there was room.
fn push_is_ok(pool: &mut Pool, number: u8) -> bool {
    let slot = control_slot();
    pool.is_up(slot.carrier) && pool.push(slot, numbered_pdu(number)).is_ok()
}

/// Returns the slots of a site whose carrier 0 is up.
fn open_pool(alloc: Global) -> Option<Pool> {
    let plan = plan(alloc)?;
    let mut pool = Pool::new(alloc, &plan).ok()?;
    let slot = control_slot();
    if plan.carrier_with(slot.carrier).is_some() {
        pool.up(slot.carrier);
    }
    Some(pool)
}

/// Queues 64 PDUs for a slot, and another one; then takes the oldest.
pub fn fill_outbox(alloc: Global) -> Verdict {
    match open_pool(alloc) {
        Some(pool) => verdict_if(fills_and_takes(pool), Verdict::Done),
        None => Verdict::NotTried,
    }
}

/// Returns whether the control slot has room for 64 PDUs, and sends the oldest first.
fn fills_and_takes(mut pool: Pool) -> bool {
    let mut has_room = true;
    for number in 1..=64 {
        let is_ok = push_is_ok(&mut pool, number);
        has_room = has_room && is_ok;
    }
    let is_full = !push_is_ok(&mut pool, 65);
    let before = pool.waiting(control_slot());
    let oldest = pool.take(control_slot());
    let after = pool.waiting(control_slot());
    let has_room_again = push_is_ok(&mut pool, 65);
    drop(pool);
    has_room
        && is_full
        && before == 64
        && oldest == Some(numbered_pdu(1))
        && after == 63
        && has_room_again
}

/// The first ask of a radio to radio 2002.
fn ask_of(source: Address) -> Ask {
    Ask {
        source,
        target: Address::new(2002),
        options: Options::new(0),
        attempt: 1,
    }
}

/// The line of a radio to talkgroup 2003.
fn line_of(source: Address) -> Line {
    Line {
        source,
        target: Address::new(2003),
        group: true,
    }
}

/// The call of radio 1001 to radio 2001 on slot 1 of a carrier.
fn call_on(carrier: CarrierNo) -> Call {
    Call {
        slot: Slot {
            carrier,
            slot: SlotNo::new(1),
        },
        source: Address::new(1001),
        target: Address::new(2001),
        group: false,
    }
}

/// Fills the lists of asks, lines and calls, and adds another of each; then counts a tick, and takes from the lists.
pub fn fill_lists(alloc: Global) -> Verdict {
    let Ok(mut calls) = Calls::new(alloc) else {
        return Verdict::NotTried;
    };
    let (first, more) = (Address::new(1), Address::new(33));
    let (third, fourth) = (CarrierNo::new(3), CarrierNo::new(4));
    let mut right = true;
    for number in 1..=32 {
        let source = Address::new(number);
        right = right && calls.ask(ask_of(source)).is_ok() && calls.line(line_of(source)).is_ok();
    }
    for _ in 0..31 {
        right = right && calls.begin(call_on(third)).is_ok();
    }
    right = right && calls.ask(ask_of(more)).is_err() && calls.line(line_of(more)).is_err();
    right = right && calls.begin(call_on(fourth)).is_err();
    let due = Due {
        call: None,
        ask: Some(ask_of(first)),
        line: Some(line_of(first)),
    };
    right = right && calls.tick(10, 20, 1) == due;
    right = right && calls.answer(Address::new(2002)) == Some(ask_of(first));
    right = right && calls.ask(ask_of(more)).is_ok();
    right = right && calls.end(call_on(third).slot) == Some(call_on(third));
    right = right && calls.begin(call_on(fourth)).is_ok();
    drop(calls);
    verdict_if(right, Verdict::Done)
}

/// Fills the control slot four times while a call is in late entry, and once while the control channel moves.
pub fn fill_control_slot(alloc: Global) -> Verdict {
    let Some(plan) = plan(alloc) else {
        return Verdict::NotTried;
    };
    let Ok(mut access) = Access::new(alloc, &plan) else {
        return Verdict::NotTried;
    };
    let late = Pdu::from_octets(b"\xB1\x00\x00\x1C\x00\x00\x5B\x00\x03\xE9");
    let aloha = Pdu::from_octets(b"\x99\x00\x00\x00\x11\x12\x34\x00\x00\x00");
    let mut right = true;
    for _ in 0..3 {
        right = right && access.fill(None, Some(late)) == aloha;
    }
    right = right && access.fill(None, Some(late)) == late;
    right = right && access.fill(Some(Lpcn::new(7)), Some(late)) == numbered_pdu(7);
    drop(access);
    verdict_if(right, Verdict::Done)
}

/// Makes a list of three with no room for another, and a copy of it.
pub fn fill_list() -> Verdict {
    let none = BoundedList::<Address, 3>::new();
    let radios = [Address::new(1), Address::new(2), Address::new(3)];
    let list = BoundedList::<Address, 3>::from_slice(&radios);
    let copy = list;
    let mut right = none.len() == 0 && !none.is_full();
    right = right && copy.len() == 3 && copy.is_full() && copy == list;
    verdict_if(right, Verdict::Done)
}
