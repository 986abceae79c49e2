//! The trace file of what was recorded.

ghost use Rattle.std.specs.Prelude.{◌≡◌, List};
ghost use Rattle.dram_model.specs.Chip.{Event};
ghost use Rattle.dram_model.specs.View.{HasBegun};
ghost use Rattle.cmd_trace.specs.Tape.{file_on, recorded};
ghost use Rattle.trace_job.specs.Telling.{Saw, Spelled};

use cmd_trace::Recorder;
use dram_model::Dram;
use object_alloc::Table;

/// Spells the trace file of all events since the mark, with these objects, where all were kept;
/// answers whether they were. The log goes on. It takes no memory.
pub fn spell_trace<D: Dram>(recorder: &mut Recorder<'_, D>, table: &Table) -> bool
    requires { HasBegun (recorded (D.view recorder.old.dram.now) recorder.old.notes.now) }
    ensures same_reference { recorder.new.dram.ghost_name ≡ recorder.old.dram.ghost_name }
    ensures chip { recorder.new.dram.now ≡ recorder.old.dram.now }
    ensures shown { recorded (D.view recorder.new.dram.now) recorder.new.notes.now
        ≡ recorded (D.view recorder.old.dram.now) recorder.old.notes.now }
    ensures since { recorder.new.notes.now.since ≡ recorder.old.notes.now.since }
    ensures spelled { (events : List Event)
        → Saw (D.view recorder.old.dram.now) recorder.old.notes.now events
        → Spelled (D.view recorder.old.dram.now).geometry table.now.pairs events
        (file_on recorder.new.notes.now) result }
{
    if !recorder.is_known() {
        return false;
    }
    recorder.spell_file(table);
    true
}
