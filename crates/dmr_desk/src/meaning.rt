//! Laws on what all connections of a worker mean together. These functions do nothing: their contracts are the laws.

ghost use Rattle.std.specs.Prelude.{◌≡◌, ◌++◌, List, [], Some, map};
ghost use Rattle.dmr_wire.specs.Answers.{Answer};
ghost use Rattle.dmr_link.specs.declared.stream.Peer.{Peer as APeer};
ghost use Rattle.dmr_link.specs.declared.link_state.LinkState.{LinkState as ALinkState};
ghost use Rattle.dmr_link.specs.Sessions.{Session, HasPast};
ghost use Rattle.dmr_desk.specs.Meaning.{IsOneMeaning, IsOneRecord, in_record, read_on};
ghost use Rattle.dmr_desk.specs.Work.{Step, IsOrderly, WorkState, Steps, past_after};

use dmr_link::laws::{links_account, links_rest, records_read};

/// One record. If a worker's steps are in order, then all answers of its port, read in one go, give the connections of
/// the steps, except for their deposits. So the port's record alone says what came on each connection, what the
/// connection took, and how it ended; no reader needs to know when a call began.
pub fn one_record()
    ensures steps { (who : APeer) (past : List Session) (steps : List Step)
        → IsOrderly who past steps → IsOneRecord past steps }
    // If the port reports its record, these are the connections that its answers since then give.
    ensures since { (m n : WorkState) (past : List Session) (steps : List Step)
        (begun whole : List Answer) → Steps m n steps → HasPast m.at.link past
        → m.at.reported ≡ Some begun → n.at.reported ≡ Some whole
        → (answers : List Answer) × (whole ≡ begun ++ answers)
        × (map in_record (past_after past steps) ≡ read_on past answers) }
    // If link and port were new, these are the connections of the port's whole record.
    ensures whole { (m n : WorkState) (steps : List Step) (whole : List Answer) → Steps m n steps
        → HasPast m.at.link [] → m.at.reported ≡ Some [] → n.at.reported ≡ Some whole
        → map in_record (past_after [] steps) ≡ read_on [] whole }
{
    records_read();
}

/// One meaning. The octets that came on all connections of a link, one after another, mean some notices, and then the
/// link's pending notices. The events of the former are those that the desk took from these connections. Each
/// connection took the text of its own part. It took only the first part of the text if a write failed, or if the
/// connection was cut while an event was kept.
pub fn one_meaning()
    ensures stands { (link : ALinkState) (past : List Session) → HasPast link past
        → IsOneMeaning link past }
    // The same of a worker's link, after the worker's steps.
    ensures works { (m n : WorkState) (past : List Session) (steps : List Step) → Steps m n steps
        → HasPast m.at.link past → IsOneMeaning n.at.link (past_after past steps) }
{
    links_account();
    links_rest();
}
