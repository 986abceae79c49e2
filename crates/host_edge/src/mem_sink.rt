//! A sink in memory, whose puts fail where they are set to.

ghost use Rattle.std.specs.Prelude.{◌≡◌, ◌≤◌, ◌++◌, [], ◌∷◌, Some, IsErr, IsTrue, OnOk, OnErr};
ghost use Rattle.host_edge.specs.Mem.{sink_view, sink_plan};
ghost use Rattle.faults.specs.Plans.{is_due, next_call};
ghost use Rattle.host_edge.specs.Views.{SinkView, Known, AppendsPart};
ghost use Rattle.faults.specs.Counts.{Rose, raised};

use crate::NoMemory;
use crate::answer::Failed;
use crate::sink::Sink;
use faults::{CallPlan, raised};
use std::alloc::Global;

/// Keeps the bytes that it is sent. A put that is set to fail, or that finds no memory, keeps
/// none.
#[derive(Drop)]
pub struct MemSink {
    bytes: Vec<u8>,
    faults: u64,
    plan: CallPlan,
}

impl MemSink {
    pub fn new(alloc: Global) -> MemSink
        ensures view { sink_view result ≡ record { sent = Some []; faults = 0 } }
        ensures plan { sink_plan result ≡ record { calls = 0; failing = [] } }
    {
        MemSink {
            bytes: Vec::new(alloc),
            faults: 0,
            plan: CallPlan::new(alloc),
        }
    }

    /// Lets the put of this number fail, counted from 1.
    pub fn fail_at(&mut self, call: u64) -> Result<(), NoMemory>
        ensures view { sink_view self.new ≡ sink_view self.old }
        ensures listed { OnOk result (sink_plan self.new
            ≡ record (sink_plan self.old) { failing = (sink_plan self.old).failing ++ call ∷ [] }) }
        ensures unlisted { OnErr result (sink_plan self.new ≡ sink_plan self.old) }
    {
        self.plan.fail_at(call)
    }

    pub fn bytes(&self) -> &[u8]
        ensures { (sink_view self.now).sent ≡ Some result.now }
    {
        self.bytes.as_slice()
    }
}

impl Sink for MemSink {
    ghost view = { sink_view };

    fn put(&mut self, bytes: &[u8]) -> Result<(), Failed>
        ensures counts { (sink_view self.old).faults ≤ (sink_view self.new).faults }
        ensures sent { OnOk result (Known (λ old new. new
            ≡ old ++ bytes.now) (sink_view self.old).sent (sink_view self.new).sent) }
        ensures unfailed { OnOk result ((sink_view self.new).faults ≡ (sink_view self.old).faults) }
        ensures part { OnErr result (Known (AppendsPart bytes.now) (sink_view self.old).sent
            (sink_view self.new).sent) }
        ensures failed { OnErr result (Rose (sink_view self.old).faults
            (sink_view self.new).faults) }
        ensures none_kept { OnErr result (sink_view self.new
            ≡ record (sink_view self.old) { faults = raised 1 (sink_view self.old).faults }) }
        ensures due { IsTrue (is_due (sink_plan self.old)) → IsErr result }
        ensures plan { sink_plan self.new ≡ next_call (sink_plan self.old) }
    {
        let fails = self.plan.next();
        let kept = !fails && self.bytes.extend_from_slice(bytes).is_ok();
        if kept {
            Ok(())
        } else {
            self.faults = raised(self.faults, 1);
            Err(Failed)
        }
    }
}
