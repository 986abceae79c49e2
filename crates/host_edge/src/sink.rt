//! A place for bytes, as a program relies on it.

ghost use Rattle.std.specs.Prelude.{◌≡◌, ◌≤◌, ◌++◌, OnOk, OnErr};
ghost use Rattle.host_edge.specs.Views.{SinkView, Known, AppendsPart};
ghost use Rattle.faults.specs.Counts.{Rose};

use crate::answer::Failed;

/// Takes bytes, in order. Its faults are counted as a folder's.
pub trait Sink {
    ghost view: { Self → SinkView };

    /// Appends the bytes, and after a failure a prefix of them.
    fn put(&mut self, bytes: &[u8]) -> Result<(), Failed>
        ensures counts { (view self.old).faults ≤ (view self.new).faults }
        ensures sent { OnOk result (Known (λ old new. new ≡ old ++ bytes.now) (view self.old).sent
            (view self.new).sent) }
        ensures unfailed { OnOk result ((view self.new).faults ≡ (view self.old).faults) }
        ensures part { OnErr result (Known (AppendsPart bytes.now) (view self.old).sent
            (view self.new).sent) }
        ensures failed { OnErr result (Rose (view self.old).faults (view self.new).faults) };
}
