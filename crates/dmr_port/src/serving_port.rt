//! The port: a connection at a time for the link, over sockets.

ghost use Rattle.std.specs.Prelude.{◌≡◌, ◌≢◌, ◌≤◌, ◌<◌, ◌+◌, ◌-◌, ℕ, [], ◌∷◌, true, false, None};
ghost use Rattle.std.specs.Prelude.{Some, length, min, option_map, IfOk, IfErr};
ghost use Rattle.std.specs.Option.{is_some};
ghost use Rattle.dmr_wire.specs.Answers.{GotWithin, Opened, PutWithin, Reports, of_connect};
ghost use Rattle.dmr_wire.specs.Answers.{of_read};
ghost use Rattle.dmr_wire.specs.Answers.{of_wait, of_write};
ghost use Rattle.dmr_port.specs.Budget.{Gives};
ghost use Rattle.dmr_port.specs.Causes.{cause_of_closing};
ghost use Rattle.dmr_port.specs.Newcomers.{IsClaimedAs};
ghost use Rattle.dmr_port.specs.PortState.{Connection, HasRead, HasWaited, HasWaitedIf, IsFinding};
ghost use Rattle.dmr_port.specs.PortState.{IsFresh, IsLater, OnlyServes, Passes, PassesThenReads};
ghost use Rattle.dmr_port.specs.PortState.{PortAgrees, connection_after_write, count_of, empty_port};
ghost use Rattle.dmr_port.specs.PortState.{unread_of, with_cause};
ghost use Rattle.dmr_port.specs.Record.{Agrees};
ghost use Rattle.dmr_port.specs.Settings.{is_carrier};
ghost use Rattle.dmr_port.specs.Sockets.{taken_by};

use crate::budget::Budget;
use crate::cause::CloseCause;
use crate::newcomers::{look_at_all, make_room};
use crate::notes::{Note, PortNotes};
use crate::port_log::PortLog;
use crate::reading::read_connection;
use crate::served::Served;
use crate::settings::PortSettings;
use crate::sockets::{Accepted, Ready, Sockets};
use crate::unsent::Unsent;
use crate::waiting_room::{Newcomer, WaitingRoom};
use crate::witness::{NoWitness, Witness};
use dmr_pdu::OutOfMemory;
use dmr_wire::{Closing, Connect, Got, Port, Put, RecordEntry, Waited, Wire};
use std::alloc::Global;
use std::io;
use std::marker::Model;
use std::net::SocketAddr;

/// The most milliseconds of a wait for a connection, and the most that one counts.
const WAIT_MS: u64 = 100;

/// The most milliseconds of a wait while nobody is connected. Whatever comes ends it, and so does the end of a term. So
/// a port whose sockets cannot be woken delays that end by this much at most.
const IDLE_MS: u64 = 5000;

/// The most connections that are accepted in one call.
const MOST_ACCEPTS: usize = 16;

/// A port over sockets. It serves one connection at a time to its link.
///
/// - In a window of 60 ms it returns at most 512 octets to the link; then a read would block.
/// - A connection from which no octet came for `silence` waits of 100 ms is silent, unless octets are kept for it. So
///   is, after as long, a carrier's connection without a whole HELLO, and an operator's connection with a line that did
///   not end. Between the ends of two waits at most 100 ms count.
/// - If the connection would block, octets are kept, at most 65,536, and sent before anything more is read. A
///   connection that does not take them within 50 waits is given up.
/// - At most 8 newcomers wait. When a ninth comes and none has ended, the oldest that has sent no HELLO for this
///   carrier is closed, and if all have sent one, the newest. On the operators' port it is the ninth itself.
/// - The next connection is the first newcomer that has sent a HELLO for this carrier, and if none has, the oldest.
/// - If the connection has sent no whole HELLO, or no octet for 1 s, a newcomer with a HELLO for this carrier takes its
///   place.
/// - A connection to the operators' port that begins with a request of HTTP is ended.
///
/// The numbers are this project's profile.
///
/// A witness sees each answer, and the port's record is what it keeps. If the sockets' log is known too, the two agree,
/// connection by connection. What came was given to the link, except for a request of HTTP on the operators' port. What
/// was taken from it was sent, or is kept, or was dropped at the connection's end. The program's port has no witness.
#[derive(Drop)]
pub struct ServingPort<S: Sockets + Drop, N: PortNotes + Drop, W: Witness + Drop = NoWitness> {
    sockets: S,
    // What was written to the connection and is not yet sent, and what may still be read.
    unsent: Unsent,
    budget: Budget,
    served: Option<Served>,
    room: WaitingRoom,
    log: PortLog<N>,
    settings: PortSettings,
    // There may be a connection to accept, or something to see of a newcomer.
    has_news: bool,
    // Connections cannot be accepted, and that has been noted.
    refuses: bool,
    // The time up to which waits for the connection have been counted.
    counted: u64,
    witness: W,
}

impl<S: Sockets + Drop, N: PortNotes + Drop, W: Witness + Drop> Model for ServingPort<S, N, W> {
    ghost use Rattle.std.specs.Prelude.{◌≡◌, ◌≤◌, [], false, option_map};
    ghost use Rattle.std.specs.Option.{is_some};
    ghost use Rattle.arrayvec.specs.ArrayVec.{array_vec_len};
    ghost use Rattle.dmr_port.specs.Newcomers.{HasNewcomersOf};
    ghost use Rattle.dmr_port.specs.PortState.{PortState, connection_of, first_if_served};
    ghost use Rattle.dmr_port.specs.Record.{Agrees};
    ghost use Rattle.dmr_port.specs.Settings.{is_carrier};

    ghost Value = { PortState W };

    ghost view = { λ p. record {
      settings = p.settings;
      connection = option_map connection_of p.served;
      unsent = p.unsent;
      log = (S.state p.sockets).log;
      waiting = array_vec_len p.room.newcomers;
      window = p.budget;
      witness = p.witness;
      clock = (S.state p.sockets).clock;
      counted = p.counted;
      found = (S.state p.sockets).found;
      shown = (S.state p.sockets).shown;
    } };

    ghost invariant = { λ p. ((S.state p.sockets).is_open ≡ is_some p.served)
        × HasNewcomersOf p.settings p.room (S.state p.sockets)
        × (array_vec_len p.room.newcomers ≤ 8) × (is_some p.served ≡ false → p.unsent ≡ [])
        × (p.budget.given ≤ 512)
        × Agrees (is_carrier p.settings.whose) (first_if_served (option_map connection_of p.served))
        p.unsent (S.state p.sockets).log (W.reported p.witness) };
}

impl<S: Sockets + Drop, N: PortNotes + Drop> ServingPort<S, N> {
    /// Makes a port over sockets that have no connection and no newcomer. It has no witness. On an error an allocation
    /// was refused; the error returns the sockets and the notes.
    #[tactic(auto, using(crate::proofs::RecordLemmas::agrees_nothing))]
    pub fn new(
        alloc: Global,
        sockets: S,
        notes: N,
        settings: PortSettings,
    ) -> Result<ServingPort<S, N>, (OutOfMemory, S, N)>
        requires connection { (S.state sockets).is_open ≡ false }
        requires newcomers { (S.state sockets).waiting ≡ 0 }
        ensures ok { IfOk result (λ port. port
            ≡ empty_port settings (S.state sockets) (record {})) }
        ensures err { IfErr result (λ refused. (refused.1 ≡ sockets) × (refused.2 ≡ notes)) }
    {
        match ServingPort::with_witness(alloc, sockets, notes, settings, NoWitness) {
            Ok(port) => Ok(port),
            Err((refused, sockets, notes, _)) => Err((refused, sockets, notes)),
        }
    }
}

impl<S: Sockets + Drop, N: PortNotes + Drop, W: Witness + Drop> ServingPort<S, N, W> {
    /// Makes a port over sockets that have no connection and no newcomer, for a witness. What the witness keeps of
    /// connections before has to agree with the sockets' log. On an error an allocation was refused; the error returns
    /// the sockets, the notes and the witness.
    pub fn with_witness(
        alloc: Global,
        sockets: S,
        notes: N,
        settings: PortSettings,
        witness: W,
    ) -> Result<ServingPort<S, N, W>, (OutOfMemory, S, N, W)>
        requires connection { (S.state sockets).is_open ≡ false }
        requires newcomers { (S.state sockets).waiting ≡ 0 }
        requires record { Agrees (is_carrier settings.whose) None []
            (S.state sockets).log (W.reported witness) }
        ensures ok { IfOk result (λ port. port ≡ empty_port settings (S.state sockets) witness) }
        ensures err { IfErr result (λ refused. (refused.1 ≡ sockets) × (refused.2 ≡ notes)
            × (refused.3 ≡ witness)) }
    {
        match Unsent::new(alloc) {
            Ok(unsent) => Ok(ServingPort {
                sockets,
                unsent,
                budget: Budget::new(),
                served: None,
                room: WaitingRoom::new(),
                log: PortLog::new(notes),
                settings,
                has_news: true,
                refuses: false,
                counted: 0,
                witness,
            }),
            Err(refused) => Err((refused, sockets, notes, witness)),
        }
    }

    /// Returns what the port writes its notes to.
    pub fn notes(&self) -> &N {
        self.log.notes()
    }

    /// Returns who sees the port's answers.
    pub fn witness(&self) -> &W
        ensures { result.now ≡ self.now.witness }
    {
        &self.witness
    }

    /// Does nothing. A proof that calls it learns that the port's record agrees with the log of its sockets, if both
    /// are known (`PortAgrees`).
    pub fn use_invariant(&self)
        ensures { PortAgrees W.reported self.now }
    {
        let _ = &self.witness;
    }

    /// Takes the port apart: returns the sockets, with the connection and the newcomers that they still have, and the
    /// notes. Kept octets and the witness are lost.
    pub fn into_parts(self) -> (S, N)
        ensures { (S.state result.0).log ≡ self.log }
    {
        (self.sockets, self.log.into_notes())
    }

    /// Writes a note.
    #[inline(never)]
    fn note(&mut self, note: &Note<'_>)
        ensures { IsLater self.old self.new }
    {
        let now = self.sockets.now();
        self.log.write(now, note);
    }

    /// Closes the connection that is served, if there is one. Kept octets that it does not take at once are lost.
    #[inline(never)]
    fn let_go(&mut self)
        ensures { IsLater (record self.old {
          connection = None;
          unsent = [];
          log = self.new.log;
        }) self.new }
    {
        let Some(served) = self.served.take() else {
            return;
        };
        let _ = self.unsent.send_all(&mut self.sockets);
        self.unsent.clear();
        self.sockets.close();
        let cause = served.ended.unwrap_or(CloseCause::Controller);
        self.note(&Note::Ended {
            from: served.from,
            cause,
        });
    }

    /// Serves the newcomer at a place, and answers so to the link. Returns `false` if it cannot be polled; it is then
    /// closed, and nothing is answered.
    #[tactic(auto, using(crate::proofs::NewcomersLemmas::known_removed, crate::proofs::RecordLemmas::agrees_opened, crate::proofs::RecordLemmas::has_begun))]
    fn serve(&mut self, place: usize) -> bool
        requires place { place < self.old.waiting }
        requires connection { self.old.connection ≡ None }
        ensures fresh { result ≡ true → IsFresh self.new }
        ensures none { result ≡ false → self.new.connection ≡ None }
        ensures waiting { self.new.waiting + 1 ≡ self.old.waiting }
        ensures settings { self.new.settings ≡ self.old.settings }
        ensures window { self.new.window ≡ self.old.window }
        ensures answers { result ≡ true
            → Reports (W.reported self.old.witness) (Opened ∷ []) (W.reported self.new.witness) }
        ensures silent { result ≡ false → self.new.witness ≡ self.old.witness }
        ensures clock { self.old.clock ≤ self.new.clock }
        ensures counted { result ≡ true
            → (self.old.clock ≤ self.new.counted) × (self.new.counted ≤ self.new.clock) }
    {
        let from = self.room.remove(place).from;
        match self.sockets.take(place) {
            Ok(()) => {
                self.served = Some(Served::new(from, self.settings.is_carrier()));
                self.counted = self.sockets.now();
                self.witness.see(RecordEntry::Connect(Connect::Ready), &[]);
                self.note(&Note::Connected { from });
                true
            }
            Err(error) => {
                self.note(&Note::Connected { from });
                self.note(&Note::CannotAccept(&error));
                self.note(&Note::Ended {
                    from,
                    cause: CloseCause::Controller,
                });
                false
            }
        }
    }

    /// Answers to the link that no connection has come yet.
    fn answer_not_yet(&mut self) -> Connect
        ensures answer { result ≡ Connect.NotYet }
        ensures port { self.new ≡ record self.old { witness = self.new.witness } }
        ensures few { self.new.waiting ≤ 8 }
        ensures reported { Reports (W.reported self.old.witness) (of_connect Connect.NotYet ∷ [])
            (W.reported self.new.witness) }
    {
        self.witness.see(RecordEntry::Connect(Connect::NotYet), &[]);
        Connect::NotYet
    }

    /// Notes that connections cannot be accepted, unless that has just been noted.
    fn note_refusal(&mut self, error: &io::Error)
        ensures { IsLater self.old self.new }
    {
        if !self.refuses {
            self.refuses = true;
            self.note(&Note::CannotAccept(error));
        }
    }

    /// Notes that connections can be accepted again, if they could not.
    fn note_no_refusal(&mut self)
        ensures { IsLater self.old self.new }
    {
        if self.refuses {
            self.refuses = false;
            self.note(&Note::AcceptsAgain);
        }
    }

    /// Notes that a newcomer came, and which was closed because of it, if one was.
    fn note_newcomer(&mut self, from: SocketAddr, refused: Option<SocketAddr>)
        ensures { IsLater self.old self.new }
    {
        self.note_no_refusal();
        if let Some(from) = refused {
            self.note(&Note::Refused { from });
        }
        if refused != Some(from) && self.served.is_some() {
            let count = self.room.len();
            self.note(&Note::Waits { from, count });
        }
    }

    /// Accepts a connection, if one has come. Returns whether another may have come.
    #[tactic(auto, using(crate::proofs::NewcomersLemmas::known_added))]
    fn accept_one(&mut self) -> bool
        ensures { IsLater (record self.old { waiting = self.new.waiting; shown = self.new.shown })
            self.new }
    {
        match self.sockets.accept() {
            Accepted::Came(from) => {
                self.room.add(Newcomer {
                    from,
                    has_hello: false,
                });
                let refused = make_room(&mut self.sockets, &mut self.room, &self.settings);
                self.note_newcomer(from, refused);
                true
            }
            Accepted::None => {
                self.note_no_refusal();
                false
            }
            Accepted::Interrupted => true,
            Accepted::Refused(error) => {
                self.note_refusal(&error);
                false
            }
        }
    }

    /// Accepts the connections that have come, and looks at what the newcomers have sent.
    #[inline(never)]
    fn admit(&mut self)
        ensures { IsLater (record self.old { waiting = self.new.waiting; shown = self.new.shown })
            self.new }
    {
        let mut more = true;
        for _ in 0..MOST_ACCEPTS {
            if !self.accept_one() {
                more = false;
                break;
            }
        }
        look_at_all(&mut self.sockets, &mut self.room, &self.settings);
        self.has_news = more || self.refuses;
    }

    /// Returns for how many milliseconds the next wait asks: for none if more connections may have come than were
    /// accepted. If the connection has to be read and the window's octets have been given, the wait ends with the
    /// window. Without a connection only a connection that could not be accepted has to be asked for again.
    fn milliseconds_to_wait(&self, now: u64) -> u64 {
        if self.has_news && !self.refuses {
            return 0;
        }
        let Some(served) = &self.served else {
            return if self.refuses { WAIT_MS } else { IDLE_MS };
        };
        if served.has_to_ask() && self.budget.is_spent() {
            return self.budget.ms_until_next(now).min(WAIT_MS);
        }
        WAIT_MS
    }

    /// Waits, and accepts newcomers if there is news of some. Returns what the wait found, and how many milliseconds
    /// passed since the end of the wait before, at most those of one wait. Counted from there, waits that end at once
    /// add up.
    #[tactic(auto, using(crate::proofs::ServedLemmas::is_finding))]
    fn wait_and_admit(&mut self, keeps: bool) -> (Ready, u32)
        ensures milliseconds { result.1 ≡ min (self.new.counted - self.old.counted) 100 }
        ensures after { self.old.clock ≤ self.new.counted }
        ensures before { self.new.counted ≤ self.new.clock }
        ensures finding { IsFinding self.old.clock result.0 keeps self.new.counted self.new.found }
        ensures port { IsLater (record self.old {
          waiting = self.new.waiting;
          counted = self.new.counted;
          found = self.new.found;
          shown = self.new.shown;
        }) self.new }
    {
        let before = self.sockets.now();
        let asked = self.milliseconds_to_wait(before);
        let ready = self.sockets.wait(asked, keeps);
        let now = self.sockets.now();
        let passed = now.saturating_sub(self.counted).min(WAIT_MS);
        self.counted = now;
        if ready.newcomers || self.has_news {
            self.admit();
        }
        (ready, passed as u32)
    }

    /// Notes that the connection yields its place to a claimant, if it was given up for that.
    #[inline(never)]
    fn note_displaced(&mut self, cause: CloseCause, from: SocketAddr, quiet: u32)
        ensures { IsLater self.old self.new }
    {
        if cause != CloseCause::Displaced {
            return;
        }
        if let Some(place) = self.room.place_of_claimant() {
            let by = self.room.at(place).from;
            self.note(&Note::Displaced { from, by, quiet });
        }
    }

    /// Returns whether a newcomer has sent a HELLO for this carrier.
    #[tactic(auto, using(crate::proofs::NewcomersLemmas::claimed))]
    fn is_claimed(&self) -> bool
        ensures { IsClaimedAs self.now.settings self.now.shown result }
    {
        self.room.place_of_claimant().is_some()
    }

    /// Decides after a wait of this many milliseconds whether the connection goes on. `keeps`: octets were kept for it
    /// during the wait. `is_claimed`: a newcomer has sent a HELLO for this carrier.
    fn judge(&mut self, ready: Ready, milliseconds: u32, keeps: bool, is_claimed: bool) -> Waited
        ensures judged { HasWaitedIf self.old.settings.silence milliseconds keeps ready.connection
            is_claimed self.old.connection self.new.connection result }
        ensures port { IsLater (record self.old { connection = self.new.connection }) self.new }
        ensures few { self.new.waiting ≤ 8 }
    {
        let silence = self.settings.silence;
        let Some(served) = &mut self.served else {
            return Waited::Silent;
        };
        match served.end_wait(ready, milliseconds, keeps, silence, is_claimed) {
            None => Waited::Again,
            Some(cause) => {
                let from = served.from;
                let quiet = served.patience.quiet;
                self.note_displaced(cause, from, quiet);
                Waited::Silent
            }
        }
    }
}

impl<S: Sockets + Drop, N: PortNotes + Drop, W: Witness + Drop> Wire for ServingPort<S, N, W> {
    ghost reported = { λ port. W.reported port.witness };

    /// Reads octets of the connection, after sending those that are kept. The read would block if some of these are
    /// left, or if the window's octets have been returned. It would also block if the system had no more at the last
    /// read, and no wait has found any since. It asks the system all the same if kept octets have just been sent, or if
    /// the other side has ended its output. It fails without a connection, and if kept octets cannot be sent. On the
    /// operators' port a request of HTTP is withheld, and the answer is `End`.
    fn read(&mut self, octets: &mut [u8]) -> Got
        requires { 0 < length octets.old }
        ensures within { GotWithin result (length octets.new) }
        ensures reported { Reports (W.reported self.old.witness) (of_read result octets.new ∷ [])
            (W.reported self.new.witness) }
        ensures passes { PassesThenReads self.old result octets.new self.new }
        ensures behind { (count : ℕ) → result ≡ Got.Octets count → self.new.unsent ≡ [] }
        ensures budget { Gives self.old.clock self.old.window (count_of result) self.new.window
            self.new.clock }
        ensures unread { self.new.unsent ≢ []
            → option_map unread_of self.new.connection ≡ option_map unread_of self.old.connection }
        ensures none_kept { self.old.unsent ≡ []
            → option_map unread_of self.new.connection ≡ option_map unread_of self.old.connection }
        ensures all_sent { self.old.unsent ≢ [] → self.new.unsent ≡ [] → result ≢ Got.Fault
            → option_map unread_of self.new.connection
            ≡ option_map (λ (_ : Connection). 0) self.old.connection }
        ensures connection { HasRead (is_carrier self.old.settings.whose) self.old.connection result
            octets.new self.new.connection }
        ensures rest { OnlyServes self.old self.new }
    {
        let Some(served) = &mut self.served else {
            self.witness.see(RecordEntry::Read(Got::Fault), octets);
            return Got::Fault;
        };
        let is_carrier = self.settings.is_carrier();
        let got = read_connection(
            &mut self.sockets,
            &mut self.unsent,
            &mut self.budget,
            served,
            is_carrier,
            octets,
        );
        self.witness.see(RecordEntry::Read(got), octets);
        got
    }

    /// Writes octets to the connection. They are kept only if others are kept already, or if the connection would
    /// block. `Octets` counts those that were taken or kept; the others have still to be written. Without room, or if
    /// the connection takes no octet, the write would block. After `Block` and `Fault` the port has noted the
    /// connection's end. Without a connection the write fails.
    fn write(&mut self, octets: &[u8]) -> Put
        requires { 0 < length octets.now }
        ensures within { PutWithin result (length octets.now) }
        ensures reported { Reports (W.reported self.old.witness) (of_write result octets.now ∷ [])
            (W.reported self.new.witness) }
        ensures passes { Passes self.old (taken_by result octets.now) self.new }
        ensures connection { self.new.connection
            ≡ option_map (connection_after_write result) self.old.connection }
        ensures window { self.new.window ≡ self.old.window }
        ensures rest { OnlyServes self.old self.new }
    {
        let Some(served) = &mut self.served else {
            self.witness.see(RecordEntry::Write(Put::Fault), octets);
            return Put::Fault;
        };
        let put = self.unsent.write(&mut self.sockets, octets);
        let answer = served.note_write(put);
        self.witness.see(RecordEntry::Write(answer), octets);
        answer
    }
}

impl<S: Sockets + Drop, N: PortNotes + Drop, W: Witness + Drop> Port for ServingPort<S, N, W> {
    /// Closes the connection that is served, and serves the next newcomer. If there is none, it waits for one, at most
    /// 5 s, or 100 ms while connections cannot be accepted. The answer is then `NotYet`, even if one came. It is so too
    /// if the newcomer cannot be polled; that one is closed. It is never `Finished`.
    fn connect(&mut self) -> Connect
        ensures reported { Reports (W.reported self.old.witness) (of_connect result ∷ [])
            (W.reported self.new.witness) }
        ensures ready { result ≡ Connect.Ready → IsFresh self.new }
        ensures none { result ≡ Connect.NotYet → self.new.connection ≡ None }
        ensures goes { result ≢ Connect.Finished }
        ensures few { self.new.waiting ≤ 8 }
        ensures settings { self.new.settings ≡ self.old.settings }
        ensures window { self.new.window ≡ self.old.window }
        ensures clock { self.old.clock ≤ self.new.clock }
        ensures counted { result ≡ Connect.Ready
            → (self.old.clock ≤ self.new.counted) × (self.new.counted ≤ self.new.clock) }
    {
        self.let_go();
        self.admit();
        match self.room.place_of_next() {
            Some(place) => {
                if self.serve(place) {
                    return Connect::Ready;
                }
                self.answer_not_yet()
            }
            None => {
                let now = self.sockets.now();
                let asked = self.milliseconds_to_wait(now);
                let _ = self.sockets.wait(asked, false);
                self.answer_not_yet()
            }
        }
    }

    /// Waits until the connection can be read, or written if octets are kept, at most 100 ms. A newcomer, or the end of
    /// a window whose octets were returned, ends the wait too. Accepts newcomers meanwhile. `Silent`: the connection is
    /// given up, or there is none. Without a connection it may wait 5 s.
    #[tactic(auto, using(crate::proofs::ServedLemmas::has_waited))]
    fn wait(&mut self) -> Waited
        ensures reported { Reports (W.reported self.old.witness) (of_wait result ∷ [])
            (W.reported self.new.witness) }
        ensures judged { HasWaited self.old self.new result }
        ensures few { self.new.waiting ≤ 8 }
    {
        let keeps = !self.unsent.is_empty();
        let (ready, milliseconds) = self.wait_and_admit(keeps);
        let is_claimed = self.is_claimed();
        let waited = self.judge(ready, milliseconds, keeps, is_claimed);
        self.witness.see(RecordEntry::Wait(waited), &[]);
        waited
    }

    /// Keeps why the link closed the connection, unless the port has already noted its end.
    fn closed(&mut self, closing: Closing)
        ensures port { self.new ≡ record self.old {
          connection =
              option_map (with_cause (cause_of_closing closing self.old.settings.whose))
              self.old.connection;
        } }
    {
        let cause = CloseCause::of_closing(closing, self.settings.whose);
        if let Some(served) = &mut self.served {
            served.keep_cause(cause);
        }
    }

    /// Wakes all ports of the site, so that their workers ask whether the term is over.
    fn term_over(&mut self)
        ensures { IsLater self.old self.new }
    {
        self.sockets.wake_all();
    }
}
