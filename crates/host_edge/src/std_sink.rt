//! A sink over a writer, as standard output.

ghost use Rattle.std.specs.Prelude.{◌≡◌, ◌≤◌, ◌++◌, OnOk, OnErr};
ghost use Rattle.host_edge.specs.Disk.{std_view};
ghost use Rattle.host_edge.specs.Views.{SinkView, Known, AppendsPart};
ghost use Rattle.faults.specs.Counts.{Rose, raised};

use crate::answer::Failed;
use crate::sink::Sink;
use crate::stream::write_whole;
use faults::raised;
use std::io::Write;

/// Puts to a writer. It tells what the writer tells of its bytes, and standard output tells
/// nothing.
#[derive(Drop)]
pub struct StdSink<W> {
    out: W,
    faults: u64,
}

impl<W: Write> StdSink<W> {
    pub fn new(out: W) -> StdSink<W>
        ensures { std_view W.contents result ≡ record { sent = W.contents out; faults = 0 } }
    {
        StdSink { out, faults: 0 }
    }
}

impl<W: Write> Sink for StdSink<W> {
    ghost view = { std_view W.contents };

    fn put(&mut self, bytes: &[u8]) -> Result<(), Failed>
        ensures counts { (std_view W.contents self.old).faults
            ≤ (std_view W.contents self.new).faults }
        ensures sent { OnOk result (Known (λ old new. new
            ≡ old ++ bytes.now) (std_view W.contents self.old).sent
            (std_view W.contents self.new).sent) }
        ensures unfailed { OnOk result ((std_view W.contents self.new).faults
            ≡ (std_view W.contents self.old).faults) }
        ensures part { OnErr result (Known (AppendsPart bytes.now)
            (std_view W.contents self.old).sent (std_view W.contents self.new).sent) }
        ensures failed { OnErr result (Rose (std_view W.contents self.old).faults
            (std_view W.contents self.new).faults) }
        ensures counted { OnErr result ((std_view W.contents self.new).faults
            ≡ raised 1 (std_view W.contents self.old).faults) }
    {
        if write_whole(&mut self.out, bytes) {
            Ok(())
        } else {
            self.faults = raised(self.faults, 1);
            Err(Failed)
        }
    }
}
