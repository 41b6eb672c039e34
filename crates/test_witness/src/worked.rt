//! A term that is written out.

ghost use Rattle.dmr_plan.specs.declared.settings.Settings.{Settings};
ghost use Rattle.dmr_desk.specs.Term.{IsTerm};
ghost use Rattle.test_witness.specs.Worked.{end, start};

/// A term with a fault and a cut. Two carriers come up. One polls, and then sends an octet with which no frame begins.
/// The other falls silent, and is cut. The octets, the records of the ports, the steps of the workers and the journal
/// are written out, and they meet the definition of a term. The plan has these two carriers, and its other settings may
/// be any. So there are terms, and `run_term`'s clause can be met.
pub fn a_term_with_a_fault_and_a_cut()
    ensures term { (others : Settings) → IsTerm (start others) (end others) }
{}
