//! A trace done again on a chip.

ghost use Rattle.std.specs.Prelude.{◌≡◌, ℕ, ◌+◌, ◌*◌, ◌<◌, ◌≤◌, ◌^◌, ◌∷◌, [], length, true, OnOk};
ghost use Rattle.std.specs.Prelude.{OnErr};
ghost use Rattle.dram_model.specs.Chip.{Grew, bank_of};
ghost use Rattle.dram_model.specs.View.{HasBegun, Kept, Did, FailedIn, StoppedIn};
ghost use Rattle.trace_model.specs.Spelling.{IsEvent};
ghost use Rattle.trace_model.specs.Reading.{events_at};
ghost use Rattle.cmd_trace.specs.Tape.{ends_at, events_read};
ghost use Rattle.cmd_trace.specs.Opened.{event_of, IsRowOf};

use crate::events::{Found, read_event};
use crate::view::TraceView;
use dram_model::{ChipFault, Command, Dram, Geometry};
use object_alloc::words_of_bytes;

/// Does one event.
fn do_event<D: Dram>(event: Found<'_>, stage: &mut [u64], dram: &mut D) -> Result<(), ChipFault>
    requires begun { HasBegun (D.view dram.old) }
    requires event { IsEvent (D.view dram.old).geometry (event_of event) }
    requires row { IsRowOf (8 * (D.view dram.old).geometry.words) event }
    requires words { length stage.old ≡ (D.view dram.old).geometry.words }
    requires aap { (D.view dram.old).counters.aap < 2 ^ 63 }
    requires ap { (D.view dram.old).counters.ap < 2 ^ 63 }
    requires writes { (D.view dram.old).counters.writes < 2 ^ 63 }
    ensures borrow { D.borrow dram.new ≡ D.borrow dram.old }
    ensures kept { Kept (D.view dram.old) (D.view dram.new) }
    ensures stage { length stage.new ≡ length stage.old }
    ensures did { OnOk result (Did (event_of event.entry ∷ []) (D.view dram.old)
        (D.view dram.new)) }
    ensures failed { OnErr result (FailedIn (bank_of (event_of event.entry)) (D.view dram.old)
        (D.view dram.new)) }
    ensures no_event { OnErr result (Grew (D.view dram.old).log (D.view dram.new).log []) }
{
    match event {
        Found::Row(bank, Command::Aap(x, y)) => dram.aap(u16::from(bank), x, y),
        Found::Row(bank, Command::Ap(x)) => dram.ap(u16::from(bank), x),
        Found::Write(bank, row, bytes) => {
            words_of_bytes(bytes, stage);
            dram.write_row(u16::from(bank), row, stage)
        }
    }
}

/// Does so many events, of which the first stands at a place.
fn do_events<D: Dram>(
    g: Geometry,
    count: u32,
    bytes: &[u8],
    start: usize,
    stage: &mut [u64],
    dram: &mut D,
) -> Result<(), ChipFault>
    requires small { length bytes.now < 2 ^ 32 }
    requires place { start ≤ length bytes.now }
    requires whole { ends_at (length bytes.now) (events_at count g start bytes.now) ≡ true }
    requires begun { HasBegun (D.view dram.old) }
    requires geometry { (D.view dram.old).geometry ≡ g }
    requires words { length stage.old ≡ g.words }
    requires aap { (D.view dram.old).counters.aap < 2 ^ 62 }
    requires ap { (D.view dram.old).counters.ap < 2 ^ 62 }
    requires writes { (D.view dram.old).counters.writes < 2 ^ 62 }
    ensures borrow { D.borrow dram.new ≡ D.borrow dram.old }
    ensures kept { Kept (D.view dram.old) (D.view dram.new) }
    ensures did { OnOk result (Did (events_read (events_at count g start bytes.now))
        (D.view dram.old) (D.view dram.new)) }
    ensures stopped { OnErr result (StoppedIn (events_read (events_at count g start bytes.now))
        (D.view dram.old) (D.view dram.new)) }
{
    let mut at = start;
    for _k in 0..count {
        let (event, next) = match read_event(g, bytes, at) {
            Ok(found) => found,
            Err(_) => unreachable!(),
        };
        do_event(event, stage, dram)?;
        at = next;
    }
    Ok(())
}

/// Does all events of a trace on a chip of its shape, in order, and nothing else. It takes no
/// memory.
pub fn replay_events<D: Dram>(trace: &TraceView<'_>, dram: &mut D) -> Result<(), ChipFault>
    requires begun { HasBegun (D.view dram.old) }
    requires geometry { (D.view dram.old).geometry ≡ trace.now.geometry }
    requires aap { (D.view dram.old).counters.aap < 2 ^ 62 }
    requires ap { (D.view dram.old).counters.ap < 2 ^ 62 }
    requires writes { (D.view dram.old).counters.writes < 2 ^ 62 }
    ensures borrow { D.borrow dram.new ≡ D.borrow dram.old }
    ensures kept { Kept (D.view dram.old) (D.view dram.new) }
    ensures did { OnOk result (Did trace.now.events (D.view dram.old) (D.view dram.new)) }
    // Where a call fails, the log has the events before it, and all banks but its own are as these
    // leave them.
    ensures stopped { OnErr result (StoppedIn trace.now.events (D.view dram.old)
        (D.view dram.new)) }
{
    let mut row = [0; 1024];
    let stage = &mut row[..usize::from(trace.geometry.words)];
    do_events(
        trace.geometry,
        trace.count,
        trace.bytes,
        trace.start,
        stage,
        dram,
    )
}
