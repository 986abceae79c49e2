//! The trace file, read in place.

ghost use Rattle.std.specs.Prelude.{◌≡◌, ℕ, ◌+◌, ◌*◌, ◌<◌, ◌≤◌, ◌^◌, [], length, true, Ok, OnOk};
ghost use Rattle.std.specs.Prelude.{Err, IfErr, IfOk, List};
ghost use Rattle.dram_model.specs.Chip.{Event};
ghost use Rattle.dram_model.specs.Geometry.{is_geometry};
ghost use Rattle.object_alloc.specs.Listed.{limit_of};
ghost use Rattle.object_alloc.specs.Reading.{geometry_at, table_at, rows_start};
ghost use Rattle.file_fields.specs.Fields.{Gives};
ghost use Rattle.trace_model.specs.Spelling.{Trace, IsTrace, bytes_of_trace};
ghost use Rattle.trace_model.specs.Reading.{events_at, events_start, lifted, opening_in, trace_in};
ghost use Rattle.cmd_trace.specs.Opened.{Answers, IsOpen, trace_of};

use crate::events::read_event;
use crate::fault::{TraceNo, trace_fault};
use dram_model::Geometry;
use file_fields::{bytes_at, rule, u16_at, u32_at};
use object_alloc::{HEAD_BYTES, ImageNo, RECORD_BYTES, Table, read_geometry, read_table};
use std::alloc::Global;
use std::marker::Model;
use trace_model::{TraceFault, TraceKind};

/// Whether the file begins as a trace of the version that there is.
#[tactic(auto, unfolding(trace_model::specs::Reading::opening_in))]
fn opening_of(bytes: &[u8]) -> Result<(), TraceFault>
    requires { length bytes.now < 2 ^ 32 }
    ensures gives { Gives (λ x. x) result (opening_in bytes.now) }
    ensures within { OnOk result (6 ≤ length bytes.now) }
{
    let magic = bytes_at(bytes, 0, 4, TraceKind::Short)?;
    rule(magic == b"SDMT".as_slice(), 0, TraceKind::Magic)?;
    let version = u16_at(bytes, 4, TraceKind::Short)?;
    rule(version == 1, 4, TraceKind::Version)?;
    Ok(())
}

/// The geometry.
fn geometry_of(bytes: &[u8]) -> Result<Geometry, TraceFault>
    requires small { length bytes.now < 2 ^ 32 }
    requires place { 6 ≤ length bytes.now }
    ensures gives { Gives (λ g. g) result (lifted (geometry_at 6 bytes.now)) }
    ensures geometry { IfOk result (λ g. is_geometry g ≡ true) }
    ensures within { OnOk result (12 ≤ length bytes.now) }
{
    match read_geometry(bytes, 6) {
        Ok(g) => Ok(g),
        Err(fault) => Err(trace_fault(fault)),
    }
}

/// The table.
fn table_of(bytes: &[u8], g: Geometry, alloc: Global) -> Result<Table, TraceNo>
    requires geometry { is_geometry g ≡ true }
    requires small { length bytes.now < 2 ^ 32 }
    requires place { 12 ≤ length bytes.now }
    ensures gives { Answers (λ t. t.pairs) result (lifted (table_at g 12 bytes.now)) }
    ensures limit { IfOk result (λ t. t.limit ≡ limit_of g) }
    ensures within { IfOk result (λ t. rows_start t.pairs ≤ length bytes.now) }
{
    match read_table(bytes, 12, g, alloc) {
        Ok(table) => Ok(table),
        Err(ImageNo::Fault(fault)) => Err(TraceNo::Fault(trace_fault(fault))),
        Err(ImageNo::NoMemory) => Err(TraceNo::NoMemory),
    }
}

/// Where so many events end that begin at a place.
fn check_events(g: Geometry, count: u32, bytes: &[u8], start: usize) -> Result<usize, TraceFault>
    requires small { length bytes.now < 2 ^ 32 }
    requires place { start ≤ length bytes.now }
    ensures ok { IfOk result (λ end. (events : List Event) ×
        (events_at count g start bytes.now ≡ Ok (events, end))) }
    ensures err { IfErr result (λ f. events_at count g start bytes.now ≡ Err f) }
    ensures within { IfOk result (λ end. end ≤ length bytes.now) }
{
    let mut at = start;
    for _k in 0..count {
        let (_event, next) = read_event(g, bytes, at)?;
        at = next;
    }
    Ok(at)
}

/// A trace file that was accepted. It borrows the bytes.
#[derive(Drop)]
pub struct TraceView<'a> {
    pub(crate) geometry: Geometry,
    pub(crate) table: Table,
    pub(crate) count: u32,
    pub(crate) start: usize,
    pub(crate) bytes: &'a [u8],
}

impl<'a> Model for TraceView<'a> {
    ghost use Rattle.std.specs.Prelude.{◌≡◌};
    ghost use Rattle.object_alloc.specs.Listed.{limit_of};
    ghost use Rattle.trace_model.specs.Spelling.{Trace};
    ghost use Rattle.cmd_trace.specs.Opened.{IsOpen, trace_of};

    ghost Value = { Trace };

    ghost view = { λ v. trace_of v.geometry v.table.pairs v.count v.start v.bytes.now };

    ghost invariant = { λ v. IsOpen v.geometry v.count v.start v.bytes.now
        × (v.table.limit ≡ limit_of v.geometry) };
}

/// What the file holds, or its first fault.
#[tactic(auto, unfolding(trace_model::specs::Reading::trace_in))]
fn whole(bytes: &[u8], alloc: Global) -> Result<TraceView<'_>, TraceNo>
    requires { length bytes.now < 2 ^ 32 }
    ensures { Answers (λ t. t) result (trace_in bytes.now) }
{
    opening_of(bytes)?;
    let geometry = geometry_of(bytes)?;
    let table = table_of(bytes, geometry, alloc)?;
    let place = HEAD_BYTES + RECORD_BYTES * usize::from(table.len());
    let count = u32_at(bytes, place, TraceKind::Short)?;
    let start = place + 4;
    let end = check_events(geometry, count, bytes, start)?;
    rule(bytes.len() == end, end, TraceKind::Rest)?;
    Ok(TraceView {
        geometry,
        table,
        count,
        start,
        bytes,
    })
}

impl<'a> TraceView<'a> {
    /// The trace that the bytes spell, or the first field that is not whole or breaks its rule.
    pub fn open(bytes: &'a [u8], alloc: Global) -> Result<TraceView<'a>, TraceNo>
        requires { length bytes.now < 2 ^ 32 }
        // Which trace it is, and which fault.
        ensures exact { Answers (λ t. t) result (trace_in bytes.now) }
        // What is accepted is a trace, and the bytes are its spelling.
        ensures spelled { IfOk result (λ t. IsTrace t × (bytes.now ≡ bytes_of_trace t)) }
        // That spelling is accepted, unless memory runs out.
        ensures only { (t : Trace) → IsTrace t → bytes.now ≡ bytes_of_trace t
            → Answers (λ x. x) result (Ok t) }
    {
        whole(bytes, alloc)
    }

    /// The shape of the chip that the events are for.
    pub fn geometry(&self) -> Geometry
        ensures { result ≡ self.now.geometry }
    {
        self.geometry
    }

    /// The objects after the events.
    pub fn table(&self) -> &Table
        ensures objects { result.now.pairs ≡ self.now.table }
        ensures limit { result.now.limit ≡ limit_of self.now.geometry }
    {
        &self.table
    }
}
