//! The flips that are due.

ghost use Rattle.std.specs.Prelude.{◌≡◌, ◌<◌, ◌≤◌, ◌^◌, length, IfOk, OnOk, OnErr};
ghost use Rattle.std.specs.List.{AllByRecursion};
ghost use Rattle.dram_model.specs.Chip.{Grew};
ghost use Rattle.dram_model.specs.View.{HasBegun, Kept};
ghost use Rattle.transpose_unit.specs.Stopped.{StoppedWithin};
ghost use Rattle.faults.specs.Counts.{Rose};
ghost use Rattle.guard_model.specs.Flips.{all_flipped, due};
ghost use Rattle.guard_model.specs.FlipText.{AreSorted};
ghost use Rattle.guard_job.specs.Events.{flip_events};
ghost use Rattle.guard_job.specs.Parts.{IsCell, after_flips};

use dram_model::{ChipFault, Dram};
use guard_model::Flip;
use tmr_guard::do_flip;

/// Does the flips at the front that come before instruction k; answers how many they are.
pub(crate) fn flip_due<D: Dram>(
    flips: &[Flip],
    k: u32,
    stage: &mut [u64],
    chip: &mut D,
) -> Result<usize, ChipFault>
    requires begun { HasBegun (D.view chip.old) }
    requires cells { AllByRecursion (IsCell (D.view chip.old).geometry) flips.now }
    requires sorted { AreSorted k flips.now }
    requires stage { (D.view chip.old).geometry.words ≤ length stage.old }
    requires few { length flips.now ≤ 2 ^ 32 }
    requires reads_room { (D.view chip.old).counters.reads < 2 ^ 62 }
    requires writes_room { (D.view chip.old).counters.writes < 2 ^ 62 }
    ensures borrow { D.borrow chip.new ≡ D.borrow chip.old }
    ensures kept { Kept (D.view chip.old) (D.view chip.new) }
    ensures stage { length stage.new ≡ length stage.old }
    ensures count { IfOk result (λ n. n ≡ length (due k flips.now)) }
    ensures within { IfOk result (λ n. n ≤ length flips.now) }
    ensures banks { OnOk result ((D.view chip.new).banks
        ≡ all_flipped (due k flips.now) (D.view chip.old).banks) }
    ensures counters { IfOk result (λ n. (D.view chip.new).counters
        ≡ after_flips n (D.view chip.old).counters) }
    ensures log { OnOk result (Grew (D.view chip.old).log (D.view chip.new).log
        (flip_events (due k flips.now) (D.view chip.old).banks)) }
    ensures faults { OnOk result ((D.view chip.new).faults ≡ (D.view chip.old).faults) }
    ensures failed { OnErr result (Rose (D.view chip.old).faults (D.view chip.new).faults) }
    ensures left { OnErr result (StoppedWithin 0 (flip_events (due k flips.now)
        (D.view chip.old).banks) (D.view chip.old).banks (D.view chip.new).banks) }
{
    let mut done = 0;
    'flips: while done < flips.len() && flips[done].before == k {
        do_flip(&flips[done], chip, stage)?;
        done += 1;
    }
    Ok(done)
}
