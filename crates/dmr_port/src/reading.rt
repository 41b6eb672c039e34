//! Reading from the connection that is served.

ghost use Rattle.std.specs.Prelude.{◌≡◌, ◌≢◌, ◌≤◌, ◌<◌, ℕ, [], ◌∷◌, true, Some, length};
ghost use Rattle.dmr_wire.specs.Answers.{GotWithin, Reports, of_read};
ghost use Rattle.dmr_port.specs.PortState.{HasReadNothing, ReadsInWindow, connection_of};
ghost use Rattle.dmr_port.specs.Record.{Reads};
ghost use Rattle.dmr_port.specs.Sockets.{KeepsNewcomers};
ghost use Rattle.dmr_port.specs.Unsent.{PassesOctets, ReadsAfterSending};

use crate::budget::Budget;
use crate::cause::CloseCause;
use crate::served::Served;
use crate::sockets::Sockets;
use crate::unsent::{Sent, Unsent};
use dmr_wire::Got;

/// Sends the octets that are kept, if there are any.
#[tactic(auto, using(crate::proofs::ReadingLemmas::read_nothing, crate::proofs::ReadingLemmas::read_after_sending, crate::proofs::UnsentLemmas::passes_nothing))]
fn send_kept<S: Sockets>(sockets: &mut S, unsent: &mut Unsent, served: &mut Served) -> Sent
    requires { (S.state sockets.old).is_open ≡ true }
    ensures passes { PassesOctets (S.state sockets.old).log unsent.old
        [] (S.state sockets.new).log unsent.new }
    ensures all { result ≡ Sent.All → unsent.new ≡ [] }
    ensures part { result ≡ Sent.Part → unsent.new ≢ [] }
    ensures goes { result ≢ Sent.Fault
        → HasReadNothing (connection_of served.old) (connection_of served.new) }
    ensures fault { result ≡ Sent.Fault → served.new.ended ≡ Some CloseCause.WriteFault }
    ensures unread { result ≢ Sent.All → served.new.patience.unread ≡ served.old.patience.unread }
    ensures none_kept { unsent.old ≡ []
        → served.new.patience.unread ≡ served.old.patience.unread }
    ensures all_sent { unsent.old ≢ [] → result ≡ Sent.All → served.new.patience.unread ≡ 0 }
    ensures first { served.new.first ≡ served.old.first }
    ensures connection { (S.state sockets.new).is_open ≡ true }
    ensures newcomers { KeepsNewcomers (S.state sockets.old) (S.state sockets.new) }
{
    if unsent.is_empty() {
        return Sent::All;
    }
    match unsent.send_all(sockets) {
        Sent::All => {
            served.note_all_sent();
            Sent::All
        }
        Sent::Part => Sent::Part,
        Sent::Fault => {
            served.ended = Some(CloseCause::WriteFault);
            Sent::Fault
        }
    }
}

/// Reads octets of the connection, at most `asked`.
fn ask<S: Sockets>(sockets: &mut S, octets: &mut [u8], asked: usize) -> Got
    requires connection { (S.state sockets.old).is_open ≡ true }
    requires some { 0 < asked }
    requires fits { asked ≤ length octets.old }
    ensures within { GotWithin result asked }
    ensures log { Reports (S.state sockets.old).log (of_read result octets.new ∷ [])
        (S.state sockets.new).log }
    ensures connection { (S.state sockets.new).is_open ≡ true }
    ensures newcomers { KeepsNewcomers (S.state sockets.old) (S.state sockets.new) }
{
    sockets.read(&mut octets[..asked])
}

/// Reads octets of the connection. The read would block if the window's octets have been returned. It would also block
/// if the system had no more at the last read, no wait has found any since, and the other side has not ended its
/// output. On the operators' port a request of HTTP is withheld, and the answer is `End`.
#[tactic(auto, using(crate::proofs::ReadingLemmas::read_nothing, crate::proofs::ReadingLemmas::read_blocked, crate::proofs::ReadingLemmas::read_octets, crate::proofs::ReadingLemmas::read_http, crate::proofs::ReadingLemmas::reads_unasked, crate::proofs::ReadingLemmas::reads_answer))]
fn read_sockets<S: Sockets>(
    sockets: &mut S,
    budget: &mut Budget,
    served: &mut Served,
    is_carrier: bool,
    octets: &mut [u8],
) -> Got
    requires connection { (S.state sockets.old).is_open ≡ true }
    requires some { 0 < length octets.old }
    ensures within { GotWithin result (length octets.new) }
    ensures log { Reads is_carrier served.old.first.octets.items (S.state sockets.old).log
        result octets.new served.new.first.octets.items (S.state sockets.new).log }
    ensures reads { ReadsInWindow is_carrier (S.state sockets.old).clock budget.old served.old
        result octets.new (S.state sockets.new).clock budget.new served.new }
    ensures unread { served.new.patience.unread ≡ served.old.patience.unread }
    ensures connection { (S.state sockets.new).is_open ≡ true }
    ensures newcomers { KeepsNewcomers (S.state sockets.old) (S.state sockets.new) }
{
    let now = sockets.now();
    let asked = octets.len().min(usize::from(budget.left_at(now)));
    if asked == 0 || !served.has_to_ask() {
        return Got::Block;
    }
    let got = ask(sockets, octets, asked);
    served.note_read(got, asked);
    match got {
        Got::Octets(count) => {
            budget.spend(count);
            if !served.note_octets(&octets[..count], is_carrier) {
                return Got::End;
            }
            Got::Octets(count)
        }
        Got::End => Got::End,
        Got::Interrupted => Got::Interrupted,
        Got::Block => Got::Block,
        Got::Fault => Got::Fault,
    }
}

/// Reads octets of the connection, after sending those that are kept. If some of these are left, the read would block,
/// and if they cannot be sent, it fails.
#[tactic(auto, using(crate::proofs::ReadingLemmas::read_later, crate::proofs::ReadingLemmas::reads_then, crate::proofs::ReadingLemmas::reads_nothing, crate::proofs::ReadingLemmas::gives_later))]
pub fn read_connection<S: Sockets>(
    sockets: &mut S,
    unsent: &mut Unsent,
    budget: &mut Budget,
    served: &mut Served,
    is_carrier: bool,
    octets: &mut [u8],
) -> Got
    requires connection { (S.state sockets.old).is_open ≡ true }
    requires some { 0 < length octets.old }
    requires budget { budget.old.given ≤ 512 }
    ensures within { GotWithin result (length octets.new) }
    ensures passes { ReadsAfterSending is_carrier served.old.first.octets.items
        (S.state sockets.old).log unsent.old result octets.new
        served.new.first.octets.items (S.state sockets.new).log unsent.new }
    ensures behind { (count : ℕ) → result ≡ Got.Octets count → unsent.new ≡ [] }
    ensures reads { ReadsInWindow is_carrier (S.state sockets.old).clock budget.old served.old
        result octets.new (S.state sockets.new).clock budget.new served.new }
    ensures unread { unsent.new ≢ [] → served.new.patience.unread ≡ served.old.patience.unread }
    ensures none_kept { unsent.old ≡ []
        → served.new.patience.unread ≡ served.old.patience.unread }
    ensures all_sent { unsent.old ≢ [] → unsent.new ≡ [] → result ≢ Got.Fault
        → served.new.patience.unread ≡ 0 }
    ensures connection { (S.state sockets.new).is_open ≡ true }
    ensures newcomers { KeepsNewcomers (S.state sockets.old) (S.state sockets.new) }
{
    match send_kept(sockets, unsent, served) {
        Sent::All => read_sockets(sockets, budget, served, is_carrier, octets),
        Sent::Part => Got::Block,
        Sent::Fault => Got::Fault,
    }
}
