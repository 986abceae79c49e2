//! A sink for report lines that nobody reads.

ghost use Rattle.std.specs.Prelude.{◌≡◌, ◌≤◌, None, OnOk, OnErr};
ghost use Rattle.host_edge.specs.Views.{SinkView};

use host_edge::{Failed, Sink};

/// It drops what it is given, and counts no fault.
#[derive(Drop)]
pub(crate) struct Dropped;

impl Sink for Dropped {
    ghost view = { λ _. record { sent = None; faults = 0 } };

    fn put(&mut self, _bytes: &[u8]) -> Result<(), Failed> {
        Ok(())
    }
}
