//! Calls that are counted, some of which are to fail.

ghost use Rattle.std.specs.Prelude.{◌≡◌, [], ◌∷◌, ◌++◌, OnOk, OnErr};
ghost use Rattle.faults.specs.Plans.{plan_of, is_due, next_call};

use crate::count::raised;
use crate::want::NoMemory;
use std::alloc::Global;

/// How many calls there were, and the numbers of those that fail, which count from 1.
#[derive(Drop)]
pub struct CallPlan {
    calls: u64,
    failing: Vec<u64>,
}

impl CallPlan {
    /// No call yet, and none that fails.
    pub fn new(alloc: Global) -> CallPlan
        ensures { plan_of result ≡ record { calls = 0; failing = [] } }
    {
        CallPlan::with(Vec::new(alloc))
    }

    /// No call yet, and those with the listed numbers fail.
    pub fn with(failing: Vec<u64>) -> CallPlan
        ensures { plan_of result ≡ record { calls = 0; failing = failing.items } }
    {
        CallPlan { calls: 0, failing }
    }

    /// Lets the call of this number fail too.
    pub fn fail_at(&mut self, call: u64) -> Result<(), NoMemory>
        ensures listed { OnOk result (plan_of self.new
            ≡ record (plan_of self.old) { failing = (plan_of self.old).failing ++ call ∷ [] }) }
        ensures unchanged { OnErr result (plan_of self.new ≡ plan_of self.old) }
    {
        match self.failing.push(call) {
            Ok(()) => Ok(()),
            Err(_) => Err(NoMemory),
        }
    }

    /// Counts the call that begins, and says whether it is to fail.
    pub fn next(&mut self) -> bool
        ensures due { result ≡ is_due (plan_of self.old) }
        ensures counted { plan_of self.new ≡ next_call (plan_of self.old) }
    {
        self.calls = raised(self.calls, 1);
        self.failing.contains(&self.calls)
    }
}
