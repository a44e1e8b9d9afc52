//! Where the files of a bag go.
ghost use Rattle.std.specs.Prelude.{◌≡◌, OnOk, OnErr};
ghost use Rattle.std.specs.Io.KnownBytes.{Appends, Keeps};
ghost use Rattle.dep_types.specs.Writing.{HasRisen};
ghost use Rattle.dep_types.specs.Sinks.{folder_made, file_begun, file_ended};

use crate::outlet::Outlet;
use std::error::Error;
use std::fmt;

/// The sink took no more.
#[derive(Clone, Copy, Debug)]
pub struct SinkFailed;

impl fmt::Display for SinkFailed {
    fn fmt<W: fmt::Write>(&self, f: &mut fmt::Formatter<W>) -> fmt::Result {
        f.write_str("the sink failed")
    }
}

impl Error for SinkFailed {}

/// Where the files of a bag go, one after another, as a folder or an archive. The bytes of a file
/// are what is written to it as an outlet, between the file's beginning and its end. A failure of
/// any call counts as one of the outlet's.
pub trait BagSink: Outlet {
    /// Makes a folder.
    fn folder(&mut self, path: &str) -> Result<(), SinkFailed>
        ensures ok { OnOk result
            (Appends (Self.taken self.old) (Self.taken self.new) (folder_made path.now)) }
        ensures err { OnErr result (Keeps (Self.taken self.old) (Self.taken self.new)) }
        ensures count { OnOk result (Self.failures self.new ≡ Self.failures self.old) }
        ensures cause { OnErr result (HasRisen (Self.failures self.old) (Self.failures self.new)) };

    /// Begins a file, and makes the folders that its path names.
    fn begin(&mut self, path: &str) -> Result<(), SinkFailed>
        ensures ok { OnOk result
            (Appends (Self.taken self.old) (Self.taken self.new) (file_begun path.now)) }
        ensures err { OnErr result (Keeps (Self.taken self.old) (Self.taken self.new)) }
        ensures count { OnOk result (Self.failures self.new ≡ Self.failures self.old) }
        ensures cause { OnErr result (HasRisen (Self.failures self.old) (Self.failures self.new)) };

    /// Ends the file that was begun last.
    fn finish(&mut self) -> Result<(), SinkFailed>
        ensures ok { OnOk result
            (Appends (Self.taken self.old) (Self.taken self.new) file_ended) }
        ensures err { OnErr result (Keeps (Self.taken self.old) (Self.taken self.new)) }
        ensures count { OnOk result (Self.failures self.new ≡ Self.failures self.old) }
        ensures cause { OnErr result (HasRisen (Self.failures self.old) (Self.failures self.new)) };
}
