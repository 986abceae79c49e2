//! A sink for the lines of the plain instructions.

ghost use Rattle.std.specs.Prelude.{◌≡◌, ◌≤◌, ◌++◌, None, OnOk, OnErr, IsOk};
ghost use Rattle.host_edge.specs.Views.{SinkView, Known, AppendsPart};
ghost use Rattle.faults.specs.Counts.{Rose};
ghost use Rattle.tmr_guard.specs.Steps.{unseen};

use host_edge::{Failed, Sink};

/// Drops what is put, and counts no fault.
#[derive(Drop)]
pub(crate) struct Dropped;

impl Sink for Dropped {
    ghost view = { λ _. unseen };

    fn put(&mut self, _bytes: &[u8]) -> Result<(), Failed> {
        Ok(())
    }
}
