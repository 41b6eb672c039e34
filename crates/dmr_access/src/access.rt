//! The noise on the control slot, and the PDU that fills it.

ghost use Rattle.std.specs.Prelude.{◌≡◌, ◌+◌, ◌^◌, ◌<◌, ◌≤◌, ◌↔◌, ◌&&◌, [], drop, length, sum};
ghost use Rattle.std.specs.Prelude.{slice_get, nat_eq, IsTrue, IfOk};
ghost use Rattle.std.specs.Cmp.Lexicographic.{pointwise};
ghost use Rattle.circular_buffer.specs.Buffer.{buffer};
ghost use Rattle.dmr_access.specs.Noise.{AreNoiseNumbers, noise_at_up, with_noise, with_poll};
ghost use Rattle.dmr_access.specs.Noise.{backoff_of};
ghost use Rattle.dmr_access.specs.Fill.{aloha_pdu, fill_of, is_late_due, move_to, next_fill_count};
ghost use Rattle.dmr_access.specs.Fill.{window_of};
ghost use Rattle.dmr_access.specs.Same.{are_alike, are_same};

use circular_buffer::HeapCircularBuffer;
use dmr_pdu::{Address, Lpcn, Number, OutOfMemory, Pdu};
use dmr_plan::{AlohaSection, CallSection, Plan, SystemSection};
use std::alloc::Global;
use std::marker::Model;

/// The number of noise numbers. A Noise counts until as many Polls came after it.
const POLLS: usize = 32;

/// One of `TURN` Fills has a late entry, if a talkgroup call is active and the control channel is not to be moved.
const TURN: u8 = 4;

/// Radios must register, here and on the channel to which they are moved.
const MUST_REGISTER: bool = true;

/// Random access by a plan: the noise on the control slot, and the Fills.
///
/// Contracts see the sections of the plan that it reads, the noise numbers and the Fills. The first noise number counts
/// the Noises since the control carrier's last Poll, the next those between that Poll and the one before, and so on.
/// There are 32, each 0 to 15, and none while the control carrier is down. The Fills are those since the control
/// carrier last came up, modulo 4.
#[derive(Drop)]
pub struct Access {
    system: SystemSection,
    aloha: AlohaSection,
    calls: CallSection,
    noise: HeapCircularBuffer<u8>,
    // The sum of the noise numbers. Each Fill needs it, so it is kept and not added up.
    noises: u16,
    fills: u8,
}

impl Model for Access {
    ghost use Rattle.std.specs.Prelude.{◌≡◌, ◌<◌, sum};
    ghost use Rattle.dmr_plan.specs.Sections.{IsCallSection};
    ghost use Rattle.dmr_access.specs.Fill.{Window};
    ghost use Rattle.dmr_access.specs.Noise.{AreNoiseNumbers};

    ghost Value = { Window };

    ghost view = { λ access. record {
      system = access.system;
      aloha = access.aloha;
      calls = access.calls;
      noise = access.noise.items;
      fills = access.fills;
    } };

    ghost invariant = { λ access. (access.noise.capacity ≡ 32) × AreNoiseNumbers access.noise.items
        × (access.fills < 4) × (access.noises ≡ sum access.noise.items)
        × IsCallSection access.calls };
}

/// Counts a Noise in the first of the noise numbers, which stays at 15. Returns how many more Noises count after that:
/// 0 or 1.
fn count_noise(noise: &mut HeapCircularBuffer<u8>) -> u16
    requires { AreNoiseNumbers noise.old.items }
    ensures numbers { noise.new ≡ buffer (with_noise noise.old.items) noise.old.capacity }
    ensures more { sum (with_noise noise.old.items) ≡ sum noise.old.items + result }
    ensures few { result ≤ 1 }
{
    let Some(count) = noise.get_mut(0) else {
        return 0;
    };
    let before = *count;
    *count = before.saturating_add(1).min(15);
    u16::from(*count - before)
}

/// Begins a new noise number, and removes the oldest of the 32. Returns the oldest, whose Noises no longer count.
fn begin_number(noise: &mut HeapCircularBuffer<u8>) -> u16
    requires all { length noise.old.items ≡ 32 }
    requires room { noise.old.capacity ≡ 32 }
    ensures numbers { noise.new ≡ buffer (with_poll noise.old.items) noise.old.capacity }
    ensures fewer { sum (with_poll noise.old.items) + result ≡ sum noise.old.items }
{
    match noise.push_front(0) {
        Some(oldest) => u16::from(oldest),
        None => 0,
    }
}

/// Reports whether two rings have the same number at a place that both have.
fn is_same_at(one: &HeapCircularBuffer<u8>, other: &HeapCircularBuffer<u8>, index: usize) -> bool
    requires one { index < length one.now.items }
    requires other { index < length other.now.items }
    ensures { pointwise nat_eq (drop index one.now.items) (drop index other.now.items)
        ≡ (result
        && pointwise nat_eq (drop (index + 1) one.now.items) (drop (index + 1) other.now.items)) }
{
    match (one.get(index), other.get(index)) {
        (Some(number), Some(its)) => number == its,
        _ => unreachable!(),
    }
}

/// Reports whether two rings have the same numbers.
fn same_numbers(one: &HeapCircularBuffer<u8>, other: &HeapCircularBuffer<u8>) -> bool
    ensures { result ≡ pointwise nat_eq one.now.items other.now.items }
{
    let count = one.len();
    if other.len() != count {
        return false;
    }
    for index in 0..count {
        if !is_same_at(one, other, index) {
            return false;
        }
    }
    true
}

impl Access {
    /// Makes the random access of a plan, with the control carrier down. Returns `OutOfMemory` if its memory cannot be
    /// allocated.
    pub fn new(alloc: Global, plan: &Plan) -> Result<Access, OutOfMemory>
        ensures { IfOk result (λ access. access ≡ window_of plan.now [] 0) }
    {
        let settings = plan.settings();
        Ok(Access {
            system: settings.system,
            aloha: settings.aloha,
            calls: settings.calls,
            noise: HeapCircularBuffer::with_capacity(alloc, POLLS)?,
            noises: 0,
            fills: 0,
        })
    }

    /// Makes a copy with memory of its own. Returns `OutOfMemory` if the allocation fails.
    pub fn try_clone(&self, alloc: Global) -> Result<Access, OutOfMemory>
        ensures { IfOk result (λ copy. copy ≡ self.now) }
    {
        let mut noise = HeapCircularBuffer::with_capacity(alloc, POLLS)?;
        let (newer, older) = self.noise.as_slices();
        noise.extend_from_slice(newer);
        noise.extend_from_slice(older);
        Ok(Access {
            system: self.system,
            aloha: self.aloha,
            calls: self.calls,
            noise,
            noises: self.noises,
            fills: self.fills,
        })
    }

    /// The noise number at an index from 0 to 31: 0 to 15. The one at index 0 counts the Noises since the last Poll.
    /// `None` from index 32 on, and while the control carrier is down.
    pub fn number(&self, polls: usize) -> Option<u8>
        ensures value { result ≡ slice_get self.now.noise polls }
        ensures kept { AreNoiseNumbers self.now.noise }
    {
        self.noise.get(polls).copied()
    }

    /// Counts a burst on the control slot that could not be read. The first number stays at 15. While the control
    /// carrier is down, nothing changes.
    pub fn noise(&mut self)
        ensures { self.new ≡ record self.old { noise = with_noise self.old.noise } }
    {
        self.noises += count_noise(&mut self.noise);
    }

    /// Counts a Poll of the control carrier: the Noises before the 32nd last Poll no longer count. While the control
    /// carrier is down, nothing changes.
    pub fn polled(&mut self)
        ensures { self.new ≡ record self.old { noise = with_poll self.old.noise } }
    {
        if !self.noise.is_empty() {
            self.noises -= begin_number(&mut self.noise);
        }
    }

    /// Begins again when the control carrier comes up: all noise numbers are 0, and there was no Fill.
    #[tactic(auto, unfolding(crate::specs::Noise::noise_at_up))]
    pub fn reset(&mut self)
        ensures { self.new ≡ record self.old { noise = noise_at_up; fills = 0 } }
    {
        self.stop();
        self.noise.extend_from_slice(&[0; POLLS]);
    }

    /// Stops when the control carrier is down: there are no noise numbers, and there was no Fill.
    pub fn stop(&mut self)
        ensures { self.new ≡ record self.old { noise = []; fills = 0 } }
    {
        self.noise.clear();
        self.noises = 0;
        self.fills = 0;
    }

    /// The backoff to send, 1 to 15: the plan's lowest plus the number of Noises that count, but at most the plan's
    /// highest.
    pub fn backoff(&self) -> u8
        ensures value { result ≡ backoff_of self.now.calls self.now.noise }
        ensures range { (1 ≤ result) × (result ≤ 15) }
    {
        let raised = u32::from(self.calls.backoff_low) + u32::from(self.noises);
        raised.min(u32::from(self.calls.backoff_high)) as u8
    }

    /// Reports whether a late entry is due in the next Fill: in the fourth since the control carrier came up, the
    /// eighth, and so on.
    pub fn late_due(&self) -> bool
        ensures { result ≡ is_late_due self.now.fills }
    {
        self.fills == TURN - 1
    }

    /// The next Fill of the control slot, the first that applies: C_MOVE if `moving` has a channel, `late` if one is
    /// due and given, C_ALOHA.
    ///
    /// See TS 102 361-4, clause 7.1.1. The layouts of C_MOVE and C_ALOHA are this project's profile.
    pub fn next_fill(&self, moving: Option<Lpcn>, late: Option<Pdu>) -> Pdu
        ensures { result ≡ fill_of self.now moving late }
    {
        match (moving, late) {
            (Some(lpcn), _) => self.move_to(lpcn),
            (None, Some(grant)) if self.late_due() => grant,
            _ => self.aloha(),
        }
    }

    /// Counts a Fill of the control slot.
    pub fn count_fill(&mut self)
        ensures { self.new ≡ record self.old { fills = next_fill_count self.old.fills } }
    {
        self.fills = (self.fills + 1) % TURN;
    }

    /// Fills the control slot: returns the next Fill, and counts it.
    pub fn fill(&mut self, moving: Option<Lpcn>, late: Option<Pdu>) -> Pdu
        ensures pdu { result ≡ fill_of self.old moving late }
        ensures counted { self.new ≡ record self.old { fills = next_fill_count self.old.fills } }
    {
        let pdu = self.next_fill(moving, late);
        self.count_fill();
        pdu
    }

    /// C_ALOHA with the plan's fields and the backoff. It invites all radios (mask and address 0), for all services
    /// (function 0), and they must register.
    fn aloha(&self) -> Pdu
        ensures { result ≡ aloha_pdu self.now }
    {
        Pdu::Aloha {
            sync: self.aloha.sync,
            version: self.aloha.version,
            offset: self.aloha.offset,
            active: self.aloha.active,
            mask: Number::new(0),
            function: Number::new(0),
            nrand_wait: self.aloha.nrand_wait,
            register: MUST_REGISTER,
            backoff: Number::new(u32::from(self.backoff())),
            system: self.system.system,
            address: Address::new(0),
        }
    }

    /// C_MOVE to a channel, with the backoff. Radios must register there.
    fn move_to(&self, lpcn: Lpcn) -> Pdu
        ensures { result ≡ move_to self.now lpcn }
    {
        Pdu::Move {
            register: MUST_REGISTER,
            backoff: Number::new(u32::from(self.backoff())),
            lpcn,
        }
    }

    /// Reports whether two values have the same sections, noise numbers and counts of Fills.
    fn equals(&self, other: &Access) -> bool
        ensures { result ≡ are_same self.now other.now }
    {
        self.system == other.system
            && self.aloha == other.aloha
            && self.calls == other.calls
            && self.has_same_noise_and_fills(other)
    }

    /// Reports whether two values have the same noise numbers and counts of Fills. Their sections are not compared.
    pub fn has_same_noise_and_fills(&self, other: &Access) -> bool
        ensures { result ≡ are_alike self.now other.now }
    {
        same_numbers(&self.noise, &other.noise) && self.fills == other.fills
    }
}

/// Two values are equal if their sections of a plan, noise numbers and counts of Fills are the same.
impl PartialEq for Access {
    ghost use Rattle.std.specs.Cmp.{partial_equiv_from_equiv};
    ghost use Rattle.dmr_access.specs.Same.{are_same, are_same-equivalence};

    ghost eq = { are_same };

    ghost laws = { partial_equiv_from_equiv are_same-equivalence };

    fn eq(&self, other: &Self) -> bool
        ensures gives { result ≡ are_same self.now other.now }
        ensures same { IsTrue result ↔ (self.now ≡ other.now) }
    {
        self.equals(other)
    }
}

impl Eq for Access {
    ghost use Rattle.dmr_access.specs.Same.{are_same-equivalence};

    ghost laws = { are_same-equivalence };
}
