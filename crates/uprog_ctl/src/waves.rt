//! Runs microprograms on several banks at once.

ghost use Rattle.std.specs.Prelude.{◌≡◌, ℕ, ◌+◌, ◌<◌, ◌≤◌, ◌^◌, length, map, All, OnOk, OnErr};
ghost use Rattle.dram_model.specs.Column.{run};
ghost use Rattle.dram_model.specs.View.{HasBegun, Kept, Did};
ghost use Rattle.uprog_ctl.specs.Events.{risen};
ghost use Rattle.uprog_ctl.specs.Waves.{bound_jobs, job_queues, CanRun, wave_counts};
ghost use Rattle.uprog_ctl.specs.Waves.{wave_events, StoppedAmong};
ghost use Rattle.wave_model.specs.Schedule.{IsWhole, whole_picks, last_state};

use crate::controller::do_command;
use crate::cursor::{first_cursors, go_on, heads_of};
use crate::pickers::Picker;
use arrayvec::ArrayVec;
use dram_model::{ChipFault, Dram};
use uprog_code::{Binding, Fetch};

/// A microprogram that runs on the first so many banks.
#[derive(Drop)]
pub struct Job<F> {
    pub entry: F,
    pub binding: Binding,
    pub banks: u16,
}

/// No commands, in no bank.
impl<F: Default> Default for Job<F> {
    fn default() -> Self {
        Job {
            entry: F::default(),
            binding: Binding {
                n: 0,
                result: 0,
                second: None,
                sources: ArrayVec::new(),
                scratch: 0,
            },
            banks: 0,
        }
    }
}

/// Runs jobs as one wave: each bank does the jobs that it has, in order, and the picker chooses
/// again before each command which of the banks that have commands left does its next one. A call
/// that fails ends the wave: the commands before it are done.
pub fn run_wave<D: Dram, F: Fetch, P: Picker>(
    dram: &mut D,
    jobs: &[Job<F>],
    picker: &mut P,
) -> Result<(), ChipFault>
    requires begun { HasBegun (D.view dram.old) }
    requires few_jobs { length jobs.now ≤ 16 }
    requires jobs { All (CanRun (D.view dram.old).geometry)
        (bound_jobs F.shape F.code jobs.now) }
    requires aap_room { (D.view dram.old).counters.aap < 2 ^ 62 + 2 ^ 60 }
    requires ap_room { (D.view dram.old).counters.ap < 2 ^ 62 + 2 ^ 60 }
    ensures borrow { D.borrow dram.new ≡ D.borrow dram.old }
    ensures kept { Kept (D.view dram.old) (D.view dram.new) }
    ensures did { OnOk result (Did (wave_events P.rule (D.view dram.old).geometry.banks
        (P.state picker.old) (job_queues (D.view dram.old).geometry.rows
        (bound_jobs F.shape F.code jobs.now))) (D.view dram.old) (D.view dram.new)) }
    ensures whole { IsWhole (D.view dram.old).geometry.banks
        (whole_picks P.rule (D.view dram.old).geometry.banks (P.state picker.old)
        (job_queues (D.view dram.old).geometry.rows (bound_jobs F.shape F.code jobs.now)))
        (job_queues (D.view dram.old).geometry.rows (bound_jobs F.shape F.code jobs.now)) }
    ensures state { OnOk result (P.state picker.new
        ≡ last_state P.rule (D.view dram.old).geometry.banks (P.state picker.old)
        (job_queues (D.view dram.old).geometry.rows (bound_jobs F.shape F.code jobs.now))) }
    ensures alone { OnOk result ((bank : ℕ) → bank < (D.view dram.old).geometry.banks
        → (D.view dram.new).banks bank ≡ map (run (job_queues (D.view dram.old).geometry.rows
        (bound_jobs F.shape F.code jobs.now) bank)) ((D.view dram.old).banks bank)) }
    ensures counters { OnOk result ((D.view dram.new).counters
        ≡ risen (wave_counts (bound_jobs F.shape F.code jobs.now)) (D.view dram.old).counters) }
    ensures stopped { OnErr result (StoppedAmong (wave_events P.rule
        (D.view dram.old).geometry.banks (P.state picker.old)
        (job_queues (D.view dram.old).geometry.rows (bound_jobs F.shape F.code jobs.now)))
        (job_queues (D.view dram.old).geometry.rows (bound_jobs F.shape F.code jobs.now))
        (D.view dram.old) (D.view dram.new)) }
{
    let g = dram.geometry();
    let heads = heads_of(jobs);
    let mut cursors = first_cursors(jobs, heads.as_slice(), g);
    while !cursors.is_empty() {
        let k = usize::from(picker.pick(cursors.len() as u16));
        let cursor = cursors.as_slice()[k];
        do_command(dram, cursor.bank, cursor.next)?;
        go_on(jobs, heads.as_slice(), g, &mut cursors, k);
    }
    Ok(())
}
