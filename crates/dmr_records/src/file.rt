//! The file of records, as a database that is reached by its path.

ghost use Rattle.std.specs.Prelude.{◌≡◌, ⊤, IfErr, IfOk, IsTrue};
ghost use Rattle.sqlite.specs.Files.{file_state, IsOpened};
ghost use Rattle.sqlite.specs.Opening.{is_open_error};
ghost use Rattle.sqlite.specs.State.{HasCleanDisk};
ghost use Rattle.dmr_records.specs.Faults.{fault_of as fault_by_error};

use crate::fault::{FileFault, fault_of};
use crate::reach::Reach;
use crate::store::RecordsIn;
use sqlite::{Connection, File, FileStore};

/// A file of records at a path. It is opened for each call, and closed before the call returns.
#[derive(Clone, Copy)]
pub struct RecordsPath<'a> {
    rt: &'a HostRuntime,
    path: &'a str,
}

/// The records in a file.
pub type RecordsFile<'a> = RecordsIn<FileStore<File>, RecordsPath<'a>>;

impl<'a> RecordsPath<'a> {
    /// Names the file at this path. Nothing is opened yet. A file that does not exist is made when it is opened.
    pub fn new(rt: &'a HostRuntime, path: &'a str) -> RecordsPath<'a> {
        RecordsPath { rt, path }
    }
}

/// A connection is as the library opens it, and a fault is that of an error of opening. What the file has is not said,
/// since other programs use it and the disk too.
impl Reach<Connection<FileStore<File>>> for RecordsPath<'_> {
    ghost use Rattle.std.specs.Prelude.{◌≡◌, ⊤, IsTrue};
    ghost use Rattle.sqlite.specs.Files.{file_state, IsOpened};
    ghost use Rattle.sqlite.specs.Opening.{is_open_error};
    ghost use Rattle.sqlite.specs.State.{HasCleanDisk};
    ghost use Rattle.dmr_records.specs.Faults.{fault_of};

    ghost opens = { λ before conn after. HasCleanDisk (file_state conn) → IsOpened conn };

    ghost refuses = { λ before fault after. (e : _) × IsTrue (is_open_error e) × (fault ≡ fault_of e) };

    ghost closes = { λ before conn after. ⊤ };

    fn open(&mut self) -> Result<Connection<FileStore<File>>, FileFault>
        ensures opens { IfOk result (λ conn. HasCleanDisk (file_state conn) → IsOpened conn) }
        ensures refuses { IfErr result (λ fault. (e : _) × IsTrue (is_open_error e) × (fault ≡ fault_by_error e)) }
    {
        match Connection::open(self.rt, self.path) {
            Ok(conn) => Ok(conn),
            Err(error) => Err(fault_of(error)),
        }
    }

    /// Closes the file. If the log cannot be copied into it, what was committed is safe in the log, and the next call
    /// tries again.
    fn close(&mut self, conn: Connection<FileStore<File>>)
        ensures { ⊤ }
    {
        let _ = conn.close();
    }
}
