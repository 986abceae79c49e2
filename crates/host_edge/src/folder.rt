//! Files by name, as a program relies on them.

ghost use Rattle.std.specs.Prelude.{◌≡◌, ◌+◌, ◌≤◌, length, IfOk, OnOk, OnErr, IsErrOf};
ghost use Rattle.host_edge.specs.Views.{FolderView, Known, NoCountFalls, HasBytes};
ghost use Rattle.faults.specs.Counts.{Rose, RoseBy};
ghost use Rattle.host_edge.specs.Views.{IsLonger, KeepsOthers, Unfailed};

use crate::answer::{Failed, LoadNo};
use std::alloc::Global;

/// Files by name. Its faults are counted: a fault is answered only where its count rose, and a call
/// that is Ok raises none.
pub trait Folder {
    ghost view: { Self → FolderView };

    /// The bytes of the file, if there are at most `limit`. No load changes a file.
    fn load(&mut self, name: &str, limit: u64, alloc: Global) -> Result<Vec<u8>, LoadNo>
        ensures files { (view self.new).holds ≡ (view self.old).holds }
        ensures counts { NoCountFalls (view self.old) (view self.new) }
        ensures bytes { IfOk result (λ bytes. HasBytes (view self.old) name.now bytes.items) }
        ensures within { IfOk result (λ bytes. length bytes.items ≤ limit) }
        ensures unfailed { OnOk result (Unfailed (view self.old) (view self.new)) }
        ensures failed { IsErrOf result LoadNo.Failed
            → Rose ((view self.old).load_faults name.now) ((view self.new).load_faults name.now) }
        ensures too_long { IsErrOf result LoadNo.TooLong
            → RoseBy (limit + 1) (view self.old).taken (view self.new).taken }
        ensures longer { IsErrOf result LoadNo.TooLong → IsLonger limit (view self.old) name.now };

    /// Sets the file to the bytes. After a failure that file is unspecified.
    fn store(&mut self, name: &str, bytes: &[u8]) -> Result<(), Failed>
        ensures others { Known (KeepsOthers name.now) (view self.old).holds (view self.new).holds }
        ensures counts { NoCountFalls (view self.old) (view self.new) }
        ensures stored { OnOk result (HasBytes (view self.new) name.now bytes.now) }
        ensures unfailed { OnOk result (Unfailed (view self.old) (view self.new)) }
        ensures failed { OnErr result (Rose (view self.old).store_faults
            (view self.new).store_faults) };
}
