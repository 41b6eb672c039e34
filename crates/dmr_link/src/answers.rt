//! Encodes the answers to a carrier's events. The engine appends them to its outputs, a link writes them. No other code
//! encodes the answer to an event of a carrier.

ghost use Rattle.std.specs.Prelude.{◌≡◌, ◌+◌, ◌*◌, ◌≤◌, ◌++◌, [], ◌∷◌, None, flat_map};
ghost use Rattle.std.specs.Prelude.{is_some};
ghost use Rattle.std.specs.Prelude.{length, MatchOption};
ghost use Rattle.arrayvec.specs.ArrayVec.{array_vec_len};
ghost use Rattle.dmr_burst.specs.Functions.{burst_of};
ghost use Rattle.dmr_link.specs.Notices.{event_of_notice, site_notice};
ghost use Rattle.dmr_link.specs.Answering.{IsFewAt};
ghost use Rattle.dmr_link.specs.Numbering.{frame_text, frames_text, next_after, next_after_frames};
ghost use Rattle.dmr_link.specs.Room.{length_of_tx, most_of, most_to_poll};
ghost use Rattle.dmr_link.specs.Session.{answer_frames, transmissions, welcome};

use crate::kept_burst::KeptBurst;
use crate::notices::SiteNotice;
use crate::numbering::Numbering;
use arrayvec::ArrayVec;
use dmr_core::{Act, Acts, Event};
use dmr_frames::{FrameOut, LONGEST_FRAME, Version};
use dmr_pdu::{Pdu, SlotNo};

/// The room for an answer: a TX for each of 16 acts, and DONE, each counted as a frame of the greatest length.
const LONGEST_ANSWER: usize = (16 + 1) * LONGEST_FRAME;

/// The octets of an answer.
pub type AnswerText = ArrayVec<u8, LONGEST_ANSWER>;

/// Room for the octets of an answer, and the burst that was encoded last. It is kept from answer to answer. So no answer
/// pays for clearing all of that room, and a PDU that is sent again is not encoded again.
#[derive(Drop)]
pub struct AnswerRoom {
    /// The octets that the carrier receives.
    pub octets: AnswerText,
    /// The burst that was encoded last.
    pub burst: KeptBurst,
}

impl AnswerRoom {
    /// Returns room without octets and without a burst.
    pub fn new() -> AnswerRoom
        ensures { result.octets.items ≡ [] }
    {
        AnswerRoom {
            octets: ArrayVec::new(),
            burst: KeptBurst::none(),
        }
    }
}

/// The answer to an event: the site's answer, and room for its octets. An engine or a link keeps one answer from event
/// to event.
#[derive(Drop)]
pub struct Answer {
    /// The acts, and the reply to an operator.
    pub acts: Acts,
    /// The octets that the carrier receives.
    pub room: AnswerRoom,
}

impl Answer {
    /// Returns an answer without acts, reply and octets.
    pub fn none() -> Answer
        ensures acts { result.acts ≡ record { list = []; said = None } }
        ensures octets { result.room.octets.items ≡ [] }
    {
        Answer {
            acts: Acts::none(),
            room: AnswerRoom::new(),
        }
    }
}

/// Returns the WELCOME to a carrier whose HELLO is accepted, with the version that the connection uses from then on.
fn welcome_to(version: Version) -> FrameOut
    ensures { welcome version ≡ result ∷ [] }
{
    FrameOut::Welcome {
        version: version.octet(),
    }
}

/// Returns the slot and the PDU of an act that sends a PDU in a slot.
fn sent_by(act: &Act) -> Option<(SlotNo, Pdu)>
    ensures { MatchOption result (transmissions act.now ≡ [])
        (λ sent. transmissions act.now ≡ FrameOut.Tx None sent.0 (burst_of sent.1) ∷ []) }
{
    match act {
        Act::Send(slot, pdu) | Act::Fill(slot, pdu) => Some((slot.slot, *pdu)),
        _ => None,
    }
}

/// Appends a frame. A TX receives its number.
fn append_frame(answer: &mut AnswerText, numbering: &mut Numbering, frame: &FrameOut)
    requires { array_vec_len answer.old + 29 ≤ 493 }
    ensures items { answer.new.items ≡ answer.old.items ++ frame_text numbering.old frame.now }
    ensures next { numbering.new ≡ next_after numbering.old frame.now }
    ensures len { array_vec_len answer.new
        ≡ array_vec_len answer.old + length (frame_text numbering.old frame.now) }
{
    numbering.append_frame(answer, frame);
}

/// Appends the TX of an act, if the act sends a PDU in a slot.
fn append_tx(answer: &mut AnswerText, numbering: &mut Numbering, burst: &mut KeptBurst, act: &Act)
    requires { array_vec_len answer.old + 29 ≤ 493 }
    ensures items { answer.new.items
        ≡ answer.old.items ++ frames_text numbering.old (transmissions act.now) }
    ensures next { numbering.new ≡ next_after_frames numbering.old (transmissions act.now) }
    ensures few { array_vec_len answer.new
        ≤ array_vec_len answer.old + length_of_tx (is_some numbering.old) }
    ensures numbered { is_some numbering.new ≡ is_some numbering.old }
{
    if let Some((slot, pdu)) = sent_by(act) {
        let tx = FrameOut::Tx {
            number: None,
            slot,
            word: burst.word_of(&pdu),
        };
        append_frame(answer, numbering, &tx);
    }
}

/// Appends the answer to a POLL: a TX for each act that sends a PDU, and DONE. At most 16 acts are allowed.
fn append_poll_answer(
    answer: &mut AnswerText,
    numbering: &mut Numbering,
    burst: &mut KeptBurst,
    acts: &[Act],
)
    requires empty { answer.old.items ≡ [] }
    requires most { length acts.now ≤ 16 }
    ensures items { answer.new.items
        ≡ frames_text numbering.old (flat_map transmissions acts.now ++ FrameOut.Done ∷ []) }
    ensures next { numbering.new
        ≡ next_after_frames numbering.old (flat_map transmissions acts.now ++ FrameOut.Done ∷ []) }
    ensures few { length acts.now ≤ 2
        → array_vec_len answer.new ≤ most_to_poll (is_some numbering.old) }
{
    for act in acts {
        append_tx(answer, numbering, burst, act);
    }
    append_frame(answer, numbering, &FrameOut::Done);
}

/// Appends the answer to a HELLO that is accepted: WELCOME.
fn append_hello_answer(answer: &mut AnswerText, numbering: &mut Numbering, version: Version)
    requires { answer.old.items ≡ [] }
    ensures items { answer.new.items ≡ frames_text numbering.old (welcome version) }
    ensures next { numbering.new ≡ next_after_frames numbering.old (welcome version) }
    ensures few { array_vec_len answer.new ≤ 3 }
{
    append_frame(answer, numbering, &welcome_to(version));
}

/// Encodes the answer to a carrier's notice. The octets in `room` become its octets, whatever they were before. `acts`
/// are the site's acts for the notice, at most 16. A HELLO is answered by WELCOME, and a POLL by a TX for each PDU that
/// is sent, and DONE. Other notices are not answered.
pub fn encode_answer(
    room: &mut AnswerRoom,
    numbering: &mut Numbering,
    notice: &SiteNotice,
    acts: &[Act],
)
    requires { length acts.now ≤ 16 }
    ensures items { room.new.octets.items
        ≡ frames_text numbering.old (answer_frames notice.now acts.now) }
    ensures next { numbering.new
        ≡ next_after_frames numbering.old (answer_frames notice.now acts.now) }
    // The answer fits into the room that is made for the notice.
    ensures few { IsFewAt (event_of_notice notice.now) acts.now
        → array_vec_len room.new.octets ≤ most_of (is_some numbering.old) (site_notice notice.now) }
{
    let octets = &mut room.octets;
    octets.clear();
    match notice {
        SiteNotice::Accepted(_, version) => append_hello_answer(octets, numbering, *version),
        SiteNotice::Happened(Event::Poll(_)) => {
            append_poll_answer(octets, numbering, &mut room.burst, acts);
        }
        SiteNotice::Happened(_) => {}
    }
}
