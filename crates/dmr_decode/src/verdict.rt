//! Verdicts: what the controller makes of a frame.

ghost use Rattle.std.specs.Prelude.{◌≡◌, ◌≢◌, [], true, IfOk};
ghost use Rattle.dmr_decode.specs.Verdicts.{acts_in, is_ignored, verdict_of_closing};

use crate::desk::SiteDesk;
use dmr_core::{Event, State};
use dmr_link::Deposit;
use dmr_pdu::{Address, CarrierNo, Kind, Number, OutOfMemory, Pdu, Slot};
use dmr_port::{CloseCause, Whose};
use dmr_wire::Closing;
use std::fmt;

/// What the controller makes of a frame of a carrier.
#[derive(Clone, Copy)]
pub enum Verdict {
    /// The HELLO is accepted: this carrier is up.
    Up(CarrierNo),
    /// The site answers with acts.
    Counted,
    /// The POLL is answered with DONE alone.
    NothingToSend,
    /// Noise on the control slot, which counts for the backoff.
    Noise,
    /// ACTIVE on a slot with a call.
    Active,
    /// The burst came on another slot than the control slot.
    NotControl,
    /// The RX has the number of the RX before it.
    Retransmission,
    /// The PDU is neither a request nor the answer of a called radio.
    NoRequest,
    /// The radio that answers was not asked.
    NotAsked,
    /// Too many PDUs wait for the control slot.
    NoRoom,
    /// ACTIVE on a slot without a call.
    NoCall,
    /// The HELLO is refused, and the connection ends.
    Refused(CloseCause),
    /// The connection ends.
    Ended(CloseCause),
}

impl Verdict {
    /// Returns the text of the verdict. A carrier or a cause comes after it.
    fn text(&self) -> &'static str {
        match self {
            Verdict::Up(_) => "counted: carrier ",
            Verdict::Counted => "counted",
            Verdict::NothingToSend => "counted: nothing is to be sent",
            Verdict::Noise => "counted as noise",
            Verdict::Active => "counted: the hang time of the call begins again",
            Verdict::NotControl => "ignored: not the control slot",
            Verdict::Retransmission => "ignored: it has the number of the RX before it",
            Verdict::NoRequest => "ignored: not a request, and not an answer",
            Verdict::NotAsked => "ignored: this radio was not asked",
            Verdict::NoRoom => "ignored: too many PDUs wait for the control slot",
            Verdict::NoCall => "ignored: no call is active on the slot",
            Verdict::Refused(_) => "refused and ended: ",
            Verdict::Ended(_) => "ended: ",
        }
    }
}

impl fmt::Display for Verdict {
    fn fmt<W: fmt::Write>(&self, f: &mut fmt::Formatter<W>) -> fmt::Result {
        let text = self.text();
        match self {
            Verdict::Up(carrier) => write!(f, "{text}{carrier} is up"),
            Verdict::Refused(cause) | Verdict::Ended(cause) => write!(f, "{text}{cause}"),
            _ => f.write_str(text),
        }
    }
}

/// Returns the verdict on a frame that closes its connection.
pub fn verdict_of_end(closing: Closing, whose: Whose) -> Verdict
    ensures { result ≡ verdict_of_closing closing whose }
{
    let cause = CloseCause::of_closing(closing, whose);
    match closing {
        Closing::Refused(_, _) => Verdict::Refused(cause),
        _ => Verdict::Ended(cause),
    }
}

/// Returns the verdict on a frame whose carrier is up after it, by the event that it produced. `None`: it produced no
/// event, which only a retransmission does. `Err`: out of memory.
pub fn verdict_of_event(
    desk: &mut SiteDesk,
    deposit: &Option<Deposit>,
) -> Result<Verdict, OutOfMemory>
    // A frame that the site answers is counted, and what is ignored is not answered.
    ensures counted { acts_in deposit.now ≢ [] → IfOk result (λ v. v ≡ Verdict.Counted) }
    ensures ignored { IfOk result (λ v. is_ignored v ≡ true → acts_in deposit.now ≡ []) }
{
    let Some(Deposit { event, acts }) = deposit else {
        return Ok(Verdict::Retransmission);
    };
    if !acts.list.is_empty() {
        return Ok(Verdict::Counted);
    }
    match event {
        Event::Up(carrier) => Ok(Verdict::Up(*carrier)),
        Event::Poll(_) => Ok(Verdict::NothingToSend),
        Event::Noise(slot) => Ok(match desk.state_of(slot) {
            Some(State::Control) => Verdict::Noise,
            _ => Verdict::NotControl,
        }),
        Event::Active(slot) => Ok(match desk.state_of(slot) {
            Some(State::Call) => Verdict::Active,
            _ => Verdict::NoCall,
        }),
        Event::Heard(slot, pdu) => match desk.state_of(slot) {
            Some(State::Control) => why_unanswered(desk, slot, pdu),
            _ => Ok(Verdict::NotControl),
        },
        Event::Lost(_) | Event::Tick | Event::Say(_) => Ok(Verdict::Counted),
    }
}

/// Returns why the site does not answer a PDU that came on the control slot. `Err`: out of memory.
fn why_unanswered(desk: &SiteDesk, control: &Slot, pdu: &Pdu) -> Result<Verdict, OutOfMemory> {
    match pdu {
        Pdu::Random { .. } => Ok(Verdict::NoRoom),
        Pdu::Acku { .. } => {
            let acts = desk.answer_to(&Event::Heard(*control, any_request()))?;
            if acts.list.is_empty() {
                Ok(Verdict::NoRoom)
            } else {
                Ok(Verdict::NotAsked)
            }
        }
        _ => Ok(Verdict::NoRequest),
    }
}

/// Returns a request. While there is room for its answer, the site answers every request.
fn any_request() -> Pdu {
    Pdu::Random {
        options: Number::new(0),
        flags: Number::new(0),
        kind: Kind::REGISTRATION,
        target: Address::new(0),
        source: Address::new(0),
    }
}
