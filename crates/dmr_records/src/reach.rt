//! How the database of the records is reached.

ghost use Rattle.std.specs.Prelude.{IfErr, IfOk};
ghost use Rattle.dmr_records.specs.declared.fault.FileFault.{FileFault as AFault};

use crate::fault::FileFault;

/// How the database of the records is reached, by connections `C`. It is opened for each call, and closed before the
/// call returns.
pub trait Reach<C> {
    /// What holds of a connection that `open` returns.
    ghost opens: { Self → C → Self → Type 0 };

    /// What holds if the database cannot be opened, with this fault.
    ghost refuses: { Self → AFault → Self → Type 0 };

    /// What closing a connection leaves.
    ghost closes: { Self → C → Self → Type 0 };

    /// Opens the database. Each [`FileFault`] says why it cannot.
    fn open(&mut self) -> Result<C, FileFault>
        ensures opens { IfOk result (λ conn. opens self.old conn self.new) }
        ensures refuses { IfErr result (λ fault. refuses self.old fault self.new) };

    /// Closes it.
    fn close(&mut self, conn: C)
        ensures { closes self.old conn self.new };
}
