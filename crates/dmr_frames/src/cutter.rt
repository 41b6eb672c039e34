//! Cuts a carrier's octets into frames.

ghost use Rattle.std.specs.Prelude.{◌≡◌, ℕ, ◌<◌, ◌≤◌, List, [], ◌∷◌, ◌++◌, length, take, IfSome, SomeIff};
ghost use Rattle.dmr_bits.specs.Bits.{field_of};
ghost use Rattle.dmr_bits.specs.Words.{word_of};
ghost use Rattle.dmr_frames.specs.Between.{is_between};
ghost use Rattle.dmr_frames.specs.Rest.{Open};
ghost use Rattle.dmr_frames.specs.Versions.{has_numbers};
ghost use Rattle.dmr_frames.specs.Shape.{IsShape, IsBegun, IsClean, IsRxBody, IsBurst};
ghost use Rattle.dmr_frames.specs.Shape.{IsActiveBody, IsReadIf};
ghost use Rattle.dmr_frames.specs.Table.{body_length};
ghost use Rattle.dmr_frames.specs.declared.table.FrameKind.TheVariants as kind;
ghost use Rattle.dmr_frames.specs.declared.frame.FrameIn.{FrameIn};
ghost use Rattle.dmr_frames.specs.declared.version.FrameTable.{FrameTable};
ghost use Rattle.dmr_frames.specs.declared.version.Version.{Version};
ghost use Rattle.dmr_frames.specs.Stream.{Reads};
ghost use Rattle.dmr_frames.specs.Reading.{CutsPiece, frame_of, step_from, rest_after_octet};
ghost use Rattle.dmr_frames.specs.Frames.{IsFrame, spelling, whole_step, hello_step, rx_step};
ghost use Rattle.dmr_frames.specs.Frames.{burst_step, active_step};
ghost use Rattle.dmr_frames.specs.Reading.{step_at, length_step, body_step};

use crate::frame::{Cause, FrameIn, LONGEST_FRAME};
use crate::table::FrameKind;
use crate::version::{FrameTable, Version};
use dmr_bits::Word196;
use dmr_pdu::SlotNo;
use std::marker::Model;

/// The result of an octet.
#[derive(Clone, Copy, Debug, PartialEq, Eq)]
pub enum Step {
    /// No frame yet: a frame has begun, and more of its octets must come.
    Need,
    /// The octet is the last one of this frame.
    Frame(FrameIn),
    /// The octets cannot be a frame, and this octet is the first that shows it; or an earlier octet showed it.
    Fault(Cause),
}

/// Cuts the octets of one connection into frames. It keeps the octets since the last whole frame and the table by which
/// they are cut, or the fault that was found. Contracts see this `Rest`.
#[derive(Debug, Drop)]
pub struct Cutter {
    octets: [u8; LONGEST_FRAME],
    count: usize,
    table: FrameTable,
    fault: Option<Cause>,
}

impl Model for Cutter {
    ghost use Rattle.std.specs.Prelude.{◌<◌, take};
    ghost use Rattle.dmr_frames.specs.Rest.{Rest, rest_of};
    ghost use Rattle.dmr_frames.specs.declared.frame.TheConstants.{LONGEST_FRAME};
    ghost use Rattle.dmr_frames.specs.Shape.{IsShape};
    ghost use Rattle.dmr_frames.specs.Versions.{version_of};

    ghost Value = { Rest };

    ghost view = { λ c. rest_of c.fault c.table (take c.count c.octets) };

    ghost invariant = { λ c. (c.count < LONGEST_FRAME)
        × IsShape (version_of c.table) (take c.count c.octets) };
}

impl Cutter {
    /// Makes the cutter of a new connection, if versions up to `greatest` are served: no frame, no octets, no fault.
    pub fn new(greatest: Version) -> Self
        ensures { result ≡ Open (FrameTable.First greatest) [] }
    {
        Cutter::with_table(FrameTable::First(greatest))
    }

    /// Makes the cutter of a connection whose octets are now cut by this table: no octets, no fault.
    pub(crate) fn with_table(table: FrameTable) -> Self
        ensures { result ≡ Open table [] }
    {
        Cutter {
            octets: [0; LONGEST_FRAME],
            count: 0,
            table,
            fault: None,
        }
    }

    /// Copies the cutter. Octets fed to one of the two do not change the other.
    pub fn fork(&self) -> Self
        ensures { result ≡ self.now }
    {
        Cutter {
            octets: self.octets,
            count: self.count,
            table: self.table,
            fault: self.fault,
        }
    }

    /// Reports whether no frame has begun, and there was no fault.
    pub fn is_between(&self) -> bool
        ensures { result ≡ is_between self.now }
    {
        self.count == 0 && self.fault.is_none()
    }

    /// Takes the next octet, and returns its result. A frame is returned at its last octet. A fault is returned at the
    /// first octet with which the octets since the last frame can no longer begin a frame: `UnknownType`, `BadLength`,
    /// `BadSlot` or `BadPad`. From then on every octet returns that same fault.
    ///
    /// The table of version 1 cuts the first frame. The table of the version that the first frame chose cuts those
    /// after it.
    pub fn feed_byte(&mut self, octet: u8) -> Step
        // If the octets so far are the spellings of these frames and a rest, they still are with this octet. The frames
        // then include the frame of this result, if it has one.
        ensures stream { (table : FrameTable) (octets : List ℕ) (frames : List FrameIn) →
            Reads table octets frames self.old →
            Reads table (octets ++ octet ∷ []) (frames ++ frame_of result) self.new }
        ensures step { result ≡ step_from self.old octet }
        ensures rest { self.new ≡ rest_after_octet self.old octet }
    {
        self.take_octet(octet)
    }

    /// Takes octets, at least one, up to the end of the next frame, up to a fault, or all of them. Returns how many it
    /// took, and the step of the last of these. The result is that of [`Cutter::feed_byte`] for each octet, but a whole
    /// frame is taken at once.
    // Inlined with what it calls: its result would be copied field by field at each return.
    #[inline(always)]
    pub fn feed(&mut self, octets: &[u8]) -> (usize, Step)
        requires { 0 < length octets.now }
        ensures { CutsPiece self.old self.new octets.now result.0 result.1 }
    {
        if self.count == 0 && self.fault.is_none() {
            if let Some((count, frame)) = read_frame(self.table.version(), octets) {
                self.table = self.table.next_table(&frame);
                return (count, Step::Frame(frame));
            }
        }
        self.feed_one_by_one(octets)
    }

    /// Does the same as [`Cutter::feed`], one octet after another.
    fn feed_one_by_one(&mut self, octets: &[u8]) -> (usize, Step)
        requires { 0 < length octets.now }
        ensures { CutsPiece self.old self.new octets.now result.0 result.1 }
    {
        let mut count = 0;
        for octet in octets {
            count += 1;
            match self.take_octet(*octet) {
                Step::Need => {}
                step => return (count, step),
            }
        }
        (count, Step::Need)
    }

    /// Takes the next octet.
    fn take_octet(&mut self, octet: u8) -> Step
        ensures step { result ≡ step_from self.old octet }
        ensures rest { self.new ≡ rest_after_octet self.old octet }
    {
        if let Some(cause) = self.fault {
            return Step::Fault(cause);
        }
        match read_octet(self.table.version(), &self.octets[..self.count], octet) {
            Step::Need => {
                self.octets[self.count] = octet;
                self.count += 1;
                Step::Need
            }
            Step::Frame(frame) => {
                self.count = 0;
                self.table = self.table.next_table(&frame);
                Step::Frame(frame)
            }
            Step::Fault(cause) => {
                self.fault = Some(cause);
                Step::Fault(cause)
            }
        }
    }
}

/// Returns the whole frame of this version that octets begin with, and how many octets it has.
#[inline(always)]
fn read_frame(version: Version, octets: &[u8]) -> Option<(usize, FrameIn)>
    ensures { IfSome result (λ r. (r.0 ≤ length octets.now)
        × IsFrame version r.1 × (take r.0 octets.now ≡ spelling r.1)) }
{
    let [first, length, rest @ ..] = octets else {
        return None;
    };
    let kind = FrameKind::from_carrier(version, *first)?;
    let count = usize::from(kind.body_length(version));
    if usize::from(*length) != count || rest.len() < count {
        return None;
    }
    match read_whole(version, kind, &rest[..count]) {
        Step::Frame(frame) => Some((count + 2, frame)),
        _ => None,
    }
}

/// Returns the result of an octet after those of a frame that has begun.
#[tactic(auto, unfolding(crate::specs::Reading::step_at, crate::specs::Reading::kind_step))]
fn read_octet(version: Version, begun: &[u8], octet: u8) -> Step
    requires { IsShape version begun.now }
    ensures { result ≡ step_at version begun.now octet }
{
    let [first, rest @ ..] = begun else {
        return read_type(version, octet);
    };
    let Some(kind) = FrameKind::from_carrier(version, *first) else {
        return Step::Fault(Cause::UnknownType);
    };
    match rest {
        [] => read_length(version, kind, octet),
        [_, body @ ..] => read_body(version, kind, body, octet),
    }
}

/// Returns the result of a type octet. No carrier's frame consists of its type alone.
#[tactic(auto, unfolding(crate::specs::Reading::step_at))]
fn read_type(version: Version, octet: u8) -> Step
    ensures { result ≡ step_at version [] octet }
{
    match FrameKind::from_carrier(version, octet) {
        Some(_) => Step::Need,
        None => Step::Fault(Cause::UnknownType),
    }
}

/// Returns the result of a frame's length octet in this version. It ends a frame that has no body.
#[tactic(auto, unfolding(crate::specs::Reading::length_step))]
fn read_length(version: Version, kind: FrameKind, octet: u8) -> Step
    ensures { result ≡ length_step (has_numbers version) kind octet }
{
    if octet != kind.body_length(version) {
        return Step::Fault(Cause::BadLength);
    }
    if octet > 0 {
        return Step::Need;
    }
    read_whole(version, kind, &[])
}

/// Returns the result of an octet of a body, which follows these octets of the body.
#[tactic(auto, unfolding(crate::specs::Reading::body_step))]
fn read_body(version: Version, kind: FrameKind, body: &[u8], octet: u8) -> Step
    requires { IsBegun (has_numbers version) kind body.now }
    ensures { result ≡ body_step (has_numbers version) kind body.now octet }
{
    let place = body.len();
    if let Some(cause) = kind.fault_at(version, place, octet) {
        return Step::Fault(cause);
    }
    if place + 1 < usize::from(kind.body_length(version)) {
        return Step::Need;
    }
    let mut whole = [0; LONGEST_FRAME];
    whole[..place].copy_from_slice(body);
    whole[place] = octet;
    read_whole(version, kind, &whole[..place + 1])
}

/// Returns the frame of a whole body. `Need`: an octet of the body is a fault.
#[tactic(auto, unfolding(crate::specs::Frames::whole_step))]
#[inline(always)]
fn read_whole(version: Version, kind: FrameKind, body: &[u8]) -> Step
    requires { length body.now ≡ body_length (has_numbers version) kind }
    ensures { IsReadIf (IsClean (has_numbers version) kind body.now)
        (whole_step (has_numbers version) kind body.now) result }
{
    match kind {
        FrameKind::Hello => read_hello(body),
        FrameKind::Rx => read_rx(version.has_numbers(), body),
        FrameKind::Poll => Step::Frame(FrameIn::Poll),
        FrameKind::Active => read_active(body),
        FrameKind::Bye => Step::Frame(FrameIn::Bye),
        _ => Step::Need,
    }
}

/// Returns the HELLO that has this body.
#[tactic(auto, unfolding(crate::specs::Frames::hello_step))]
fn read_hello(body: &[u8]) -> Step
    ensures { result ≡ hello_step body.now }
{
    match body {
        [version, carrier, high, low] => Step::Frame(FrameIn::Hello {
            version: *version,
            carrier: *carrier,
            lpcn: 256 * u16::from(*high) + u16::from(*low),
        }),
        _ => Step::Need,
    }
}

/// Returns the RX that has this body, which begins with a number if `numbered`. `Need`: an octet is a fault.
#[tactic(auto, unfolding(crate::specs::Frames::rx_step))]
#[inline(always)]
fn read_rx(numbered: bool, body: &[u8]) -> Step
    requires { length body.now ≡ body_length numbered kind.Rx }
    ensures { IsReadIf (IsRxBody numbered body.now) (rx_step numbered body.now) result }
{
    if !numbered {
        return read_burst(None, body);
    }
    match body {
        [number, burst @ ..] => read_burst(Some(*number), burst),
        [] => Step::Need,
    }
}

/// Returns the RX of a slot and a word, after the number, if there is one. `Need`: an octet is a fault.
#[tactic(auto, unfolding(crate::specs::Frames::burst_step))]
#[inline(always)]
fn read_burst(number: Option<u8>, burst: &[u8]) -> Step
    requires { length burst.now ≡ 26 }
    ensures { IsReadIf (IsBurst burst.now) (burst_step number burst.now) result }
{
    let [slot, octets @ ..] = burst else {
        return Step::Need;
    };
    match (SlotNo::try_new(u32::from(*slot)), read_word(octets)) {
        (Some(slot), Some(word)) => Step::Frame(FrameIn::Rx { number, slot, word }),
        _ => Step::Need,
    }
}

/// Returns the word of 25 octets, or `None` if one of their last four bits is 1.
fn read_word(octets: &[u8]) -> Option<Word196>
    requires { length octets.now ≡ 25 }
    ensures { SomeIff result (field_of octets.now 196 4 ≡ 0) (word_of octets.now) }
{
    let mut whole = [0; 25];
    whole.copy_from_slice(octets);
    match Word196::from_octets(&whole) {
        Ok(word) => Some(word),
        Err(_) => None,
    }
}

/// Returns the ACTIVE that has this body. `Need`: the slot is a fault.
#[tactic(auto, unfolding(crate::specs::Frames::active_step))]
fn read_active(body: &[u8]) -> Step
    ensures { IsReadIf (IsActiveBody body.now) (active_step body.now) result }
{
    let [slot] = body else {
        return Step::Need;
    };
    match SlotNo::try_new(u32::from(*slot)) {
        Some(slot) => Step::Frame(FrameIn::Active { slot }),
        None => Step::Need,
    }
}
