//! Stores of records.

ghost use Rattle.std.specs.Prelude.{◌≡◌, [], ◌∷◌, Bool, false, IfErr, IsOk, OnErr, OnOk, Option, None};
ghost use Rattle.dmr_keeper.specs.declared.keeper.KeepFault.{KeepFault as AFault};
ghost use Rattle.dmr_keeper.specs.declared.time.TimedRecords.{TimedRecords as TermRecords};
ghost use Rattle.dmr_keeper.specs.Kept.{Keeps, Kept};

use crate::time::TimedRecords;
use thiserror::Error;

/// Why a store did not keep records. The texts are those of a note for the operator.
#[derive(Clone, Copy, Debug, PartialEq, Eq, Error)]
pub enum KeepFault {
    /// Memory ran out.
    #[error("out of memory")]
    OutOfMemory,
    /// The file cannot be opened or made.
    #[error("cannot open the file")]
    CannotOpen,
    /// Another program has the file open. The same call may be made again.
    #[error("another program has the file open")]
    InUse,
    /// A later version of the site wrote the file.
    #[error("a later version wrote the file")]
    Newer,
    /// The file is not one of records.
    #[error("not a file of records")]
    NotRecords,
    /// A part of the file is damaged.
    #[error("the file is damaged")]
    Damaged,
    /// The store has no room left.
    #[error("the disk is full")]
    Full,
    /// The disk failed or refused a read or a write.
    #[error("the disk failed or refused a read or a write")]
    NotTransferred,
}

/// A store of records. It is handed the records of each term, oldest term first.
pub trait Keeper {
    /// If the keeper reports it: what it has kept. It may stop reporting at any call, and then never reports again.
    ghost kept: { Self → Option Kept };

    /// What holds if the keeper refuses the records of this term with this fault.
    ghost refuses: { Self → TermRecords → AFault → Type 0 };

    /// Whether the keeper asks for records.
    ghost wants: { Self → Bool };

    /// Reports whether records are wanted. If they are not, a caller need not make any.
    fn wants_records(&self) -> bool
        ensures { result ≡ wants self.now };

    /// Keeps the records of a term. On an error it keeps none of them, and the same call can be made again.
    fn keep(&mut self, term: &TimedRecords) -> Result<(), KeepFault>
        ensures kept { OnOk result (Keeps (kept self.old) (term.now ∷ []) (kept self.new)) }
        ensures same { OnErr result (Keeps (kept self.old) [] (kept self.new)) }
        ensures refused { IfErr result (λ fault. refuses self.old term.now fault) };
}

/// The store that keeps nothing, for a site without records.
#[derive(Clone, Copy, Debug, PartialEq, Eq)]
pub struct Forget;

impl Keeper for Forget {
    ghost kept = { λ store. None };

    ghost refuses = { λ store term fault. ⊥ };

    ghost wants = { λ store. false };

    /// Reports that no records are wanted.
    fn wants_records(&self) -> bool
        ensures { result ≡ false }
    {
        false
    }

    /// Keeps nothing, and succeeds.
    fn keep(&mut self, _term: &TimedRecords) -> Result<(), KeepFault>
        ensures done { IsOk result }
        ensures unchanged { self.new ≡ self.old }
        ensures kept { OnOk result (Keeps None (_term.now ∷ []) None) }
        ensures same { OnErr result (Keeps None [] None) }
        ensures refused { IfErr result (λ fault. ⊥) }
    {
        Ok(())
    }
}
