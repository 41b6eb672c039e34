//! Answers that are kept: those of sockets, as their log, and those of a port, by a witness.

ghost use Rattle.std.specs.Prelude.{◌≡◌, [], ◌∷◌, Some};
ghost use Rattle.dmr_wire.specs.Answers.{Reports};
ghost use Rattle.dmr_wire.specs.Entries.{answer_of};

use dmr_port::Witness;
use dmr_wire::RecordEntry;
use std::alloc::Global;
use std::marker::Model;

/// An answer, and its octets.
#[derive(Drop)]
pub struct Kept {
    /// The answer.
    pub entry: RecordEntry,
    /// The octets that came or were taken with it are the first of these.
    pub octets: Vec<u8>,
}

/// All answers so far, oldest first. If an allocation is refused, none are kept from then on.
#[derive(Drop)]
pub struct Answers {
    alloc: Global,
    kept: Vec<Kept>,
    is_over: bool,
}

impl Model for Answers {
    ghost use Rattle.std.specs.Prelude.{List, Option, Some, None, map, if◌then◌else◌};
    ghost use Rattle.dmr_wire.specs.Answers.{Answer};
    ghost use Rattle.dmr_wire.specs.Entries.{answer_of};

    ghost Value = { Option (List Answer) };

    ghost view = { λ a. if a.is_over then None
        else Some (map (λ k. answer_of k.entry k.octets.items k.octets.items) a.kept.items) };
}

impl Answers {
    /// No answer yet.
    pub fn new(alloc: Global) -> Answers
        ensures { result ≡ Some [] }
    {
        Answers {
            alloc,
            kept: Vec::new(alloc),
            is_over: false,
        }
    }

    /// Keeps an answer, with its octets: the first of the slice.
    pub fn add(&mut self, entry: RecordEntry, octets: &[u8])
        ensures { Reports self.old (answer_of entry octets.now octets.now ∷ []) self.new }
    {
        let Ok(octets) = octets.to_vec(self.alloc) else {
            self.is_over = true;
            return;
        };
        if self.kept.push(Kept { entry, octets }).is_err() {
            self.is_over = true;
        }
    }

    /// The answers, unless an allocation was refused.
    pub fn kept(&self) -> Option<&[Kept]> {
        if self.is_over {
            return None;
        }
        Some(self.kept.as_slice())
    }
}

impl Witness for Answers {
    ghost reported = { λ a. a };

    fn see(&mut self, entry: RecordEntry, octets: &[u8]) {
        self.add(entry, octets);
    }
}
