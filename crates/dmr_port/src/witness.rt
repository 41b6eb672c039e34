//! Witnesses: they see what a port answers.

ghost use Rattle.std.specs.Prelude.{List, [], ◌∷◌, Option};
ghost use Rattle.dmr_wire.specs.Answers.{Answer, Reports};
ghost use Rattle.dmr_wire.specs.Entries.{answer_of};

use dmr_wire::RecordEntry;

/// Sees each answer of a port. A port's record is what its witness keeps of them.
pub trait Witness {
    /// The answers that it has seen, oldest first, if it keeps them. It may stop keeping them at any call.
    ghost reported: { Self → Option (List Answer) };

    /// Sees an answer. Its octets, if it has any, are the first of the slice.
    fn see(&mut self, entry: RecordEntry, octets: &[u8])
        ensures { Reports (reported self.old) (answer_of entry octets.now octets.now ∷ [])
            (reported self.new) };
}

/// A witness that keeps nothing.
#[derive(Clone, Copy, Debug, PartialEq, Eq)]
pub struct NoWitness;

impl Witness for NoWitness {
    ghost use Rattle.std.specs.Prelude.{None};

    ghost reported = { λ w. None };

    /// Keeps nothing.
    fn see(&mut self, entry: RecordEntry, octets: &[u8]) {
        let _ = entry;
        let _ = octets;
    }
}
