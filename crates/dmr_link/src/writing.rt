//! Writes answers to the port of a peer.

ghost use Rattle.std.specs.Prelude.{◌≡◌, true};
ghost use Rattle.dmr_link.specs.Console.{reply_text};
ghost use Rattle.dmr_link.specs.Moves.{WritesText};
ghost use Rattle.dmr_link.specs.Notices.{peer_notice};
ghost use Rattle.dmr_link.specs.Peers.{answer_text, peer_notice_text, next_after_answer};

use crate::answers::{AnswerRoom, encode_answer};
use crate::limits::MOST_INTERRUPTIONS;
use crate::notices::{LineFault, PeerNotice, SiteNotice};
use crate::numbering::Numbering;
use dmr_console::{line_too_long, print, unknown_command};
use dmr_core::{Acts, Event, Reply};
use dmr_frames::{FrameOut, write_frame};
use dmr_wire::{Put, Wire};

/// Writes octets, write by write, and returns whether the port took all of them.
/// Without octets it writes nothing. It stops at a write that takes no octet, would block or fails. It also stops at an
/// interruption that follows [`MOST_INTERRUPTIONS`] others in a row. Octets that the port took until then are not
/// written again.
fn write_octets<W: Wire>(port: &mut W, octets: &[u8]) -> bool
    ensures { WritesText (W.reported port.old) octets.now result (W.reported port.new) }
{
    if octets.is_empty() {
        return true;
    }
    let mut from = 0;
    let mut row = 0;
    while from < octets.len() {
        match port.write(&octets[from..]) {
            Put::Octets(count) => {
                if count == 0 {
                    return false;
                }
                from += count;
                row = 0;
            }
            Put::Interrupted => {
                if row == MOST_INTERRUPTIONS {
                    return false;
                }
                row += 1;
            }
            Put::Block => return false,
            Put::Fault => return false,
        }
    }
    true
}

/// Writes the text of a reply, if there is one, and returns whether the port took all of it.
fn write_reply<W: Wire>(port: &mut W, reply: &Option<Reply>) -> bool
    ensures { WritesText (W.reported port.old) (reply_text reply.now) result (W.reported port.new) }
{
    match reply {
        Some(reply) => {
            let printed = print(reply);
            write_octets(port, printed.as_str().as_bytes())
        }
        None => true,
    }
}

/// Writes the site's answer to a notice, and returns whether the port took all of it.
/// A carrier receives WELCOME, or the TXs and DONE of a poll; an operator receives the reply. The first write offers
/// the whole answer. Another write follows only if the port took a part of it, or if the write was interrupted. If the
/// port took all, `numbering` has the number of the next TX. The answer is encoded in `room`.
pub fn write_answer<W: Wire>(
    port: &mut W,
    room: &mut AnswerRoom,
    numbering: &mut Numbering,
    notice: &SiteNotice,
    acts: &Acts,
) -> bool
    ensures puts { WritesText (W.reported port.old)
        (answer_text numbering.old notice.now acts.now) result (W.reported port.new) }
    ensures next { result ≡ true
        → numbering.new ≡ next_after_answer numbering.old notice.now acts.now }
{
    match notice {
        SiteNotice::Happened(Event::Say(_)) => write_reply(port, &acts.said),
        _ => {
            encode_answer(room, numbering, notice, acts.list.as_slice());
            write_octets(port, room.octets.as_slice())
        }
    }
}

/// Writes the answer to a notice for the peer alone, and returns whether the port took all of it.
/// A carrier receives REFUSED; an operator receives what is wrong with a line.
pub fn write_peer_answer<W: Wire>(port: &mut W, notice: &PeerNotice) -> bool
    ensures { WritesText (W.reported port.old) (peer_notice_text (peer_notice notice.now)) result
        (W.reported port.new) }
{
    match notice {
        PeerNotice::Refused(_, refusal) => {
            let octets = write_frame(&FrameOut::Refused(*refusal));
            write_octets(port, octets.as_slice())
        }
        PeerNotice::Rejected(LineFault::UnknownCommand) => write_octets(
            port,
            unknown_command().as_bytes(),
        ),
        PeerNotice::Rejected(LineFault::TooLong) => write_octets(port, line_too_long().as_bytes()),
    }
}
