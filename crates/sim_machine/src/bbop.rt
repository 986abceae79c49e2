//! A bbop: what it is granted, and its job.

ghost use Rattle.std.specs.Prelude.{◌≡◌, ◌+◌, ◌*◌, ◌<◌, ◌≤◌, ◌∷◌, ℕ, List, length, map, Some};
ghost use Rattle.std.specs.Prelude.{None, OnOk, IfOk, IfErr, IfSome};
ghost use Rattle.std.specs.Option.{option_map, option_to_list};
ghost use Rattle.uprog_bin.specs.Opened.{code_of, program_of};
ghost use Rattle.uprog_code.specs.Shape.{shape_of};
ghost use Rattle.uprog_code.specs.Bound.{bound_of};
ghost use Rattle.uprog_code.specs.Legal.{IsLegalCode};
ghost use Rattle.uprog_ctl.specs.Waves.{CanRun, wave_job};
ghost use Rattle.machine_model.specs.Routines.{routine_of, routines_in};
ghost use Rattle.machine_model.specs.Refusals.{bbop_conditions, first, rows_of, dsts_in};
ghost use Rattle.machine_model.specs.Refusals.{refusal, srcs_in};
ghost use Rattle.machine_model.specs.Steps.{counts_for, job_of, times};
ghost use Rattle.object_steps.specs.Objects.{LiesOn};
ghost use Rattle.bbop_isa.specs.declared.instr.Place.{Place};
ghost use Rattle.sim_machine.specs.Granted.{IsGranted, granted_job, job_bound, said_bbop};

use crate::refusal::{Bbop, Grant, allow, sources_of};
use crate::walks::WalkedProgram;
use arrayvec::ArrayVec;
use bbop_isa::Place;
use bit_rows::WIDTH_MAX;
use dram_model::Geometry;
use machine_model::Why;
use object_alloc::Table;
use object_steps::{rows_of, segments};
use text_lex::Name;
use uprog_bin::Entry;
use uprog_code::{Binding, Counts, Fetch, Head, Kind, WALK_MAX};
use uprog_ctl::Job;

/// The first rows of the sources.
fn bases(table: &Table, kinds: &[Kind], srcs: &[Place]) -> ArrayVec<u16, 4>
    requires few { length kinds.now ≤ 4 }
    requires each { length srcs.now ≡ length kinds.now }
    ensures { result.items ≡ map (λ p. (rows_of table.now.pairs p).base) srcs.now }
{
    let mut bases = ArrayVec::new();
    for src in srcs {
        bases.push(rows_of(table, src).base);
    }
    bases
}

/// The first row of the second destination, where there are two results.
fn second_base(table: &Table, head: &Head, srcs: &[Place]) -> Option<u16>
    ensures { (dst : Place) → (rows_of table.now.pairs dst).base ∷ option_to_list result
        ≡ map (λ p. (rows_of table.now.pairs p).base)
        (dsts_in (shape_of head.now) (dst ∷ srcs.now)) }
{
    match (head.second, srcs) {
        (Some(_), [second, ..]) => Some(rows_of(table, second).base),
        _ => None,
    }
}

/// Where the operation's rows lie: those of its objects, and the scratch that it was granted.
fn bind_head(table: &Table, head: &Head, bbop: &Bbop<'_>, scratch: u16) -> Binding
    requires { length (srcs_in (shape_of head.now) (bbop.now.dst.now ∷ bbop.now.srcs.now))
        ≡ length head.now.sources.items }
    ensures width { result.n ≡ bbop.now.n }
    ensures results { (bound_of result).results
        ≡ map (λ p. (rows_of table.now.pairs p).base)
        (dsts_in (shape_of head.now) (bbop.now.dst.now ∷ bbop.now.srcs.now)) }
    ensures sources { (bound_of result).sources
        ≡ map (λ p. (rows_of table.now.pairs p).base)
        (srcs_in (shape_of head.now) (bbop.now.dst.now ∷ bbop.now.srcs.now)) }
    ensures scratch { (bound_of result).scratch ≡ scratch }
{
    Binding {
        n: bbop.n,
        result: rows_of(table, bbop.dst).base,
        second: second_base(table, head, bbop.srcs),
        sources: bases(
            table,
            head.sources.as_slice(),
            sources_of(bbop.dst, head, bbop.srcs),
        ),
        scratch,
    }
}

/// Where the rows of an entry's operation lie.
pub(crate) fn bind(table: &Table, entry: &Entry<'_>, bbop: &Bbop<'_>, scratch: u16) -> Binding
    requires { length (srcs_in entry.now.shape (bbop.now.dst.now ∷ bbop.now.srcs.now))
        ≡ length entry.now.shape.sources }
    ensures width { result.n ≡ bbop.now.n }
    ensures results { (bound_of result).results
        ≡ map (λ p. (rows_of table.now.pairs p).base)
        (dsts_in entry.now.shape (bbop.now.dst.now ∷ bbop.now.srcs.now)) }
    ensures sources { (bound_of result).sources
        ≡ map (λ p. (rows_of table.now.pairs p).base)
        (srcs_in entry.now.shape (bbop.now.dst.now ∷ bbop.now.srcs.now)) }
    ensures scratch { (bound_of result).scratch ≡ scratch }
{
    let head = entry.head();
    bind_head(table, &head, bbop, scratch)
}

/// So many times the commands.
fn times_counts(banks: u16, counts: Counts) -> Counts
    requires banks { banks ≤ 16 }
    requires few { counts.aap + counts.ap ≤ WALK_MAX }
    ensures { result ≡ times banks counts }
{
    Counts {
        aap: u64::from(banks) * counts.aap,
        ap: u64::from(banks) * counts.ap,
    }
}

/// The chip's shape, the table of its objects, and the program that its bbops run.
#[derive(Clone, Copy)]
pub(crate) struct Setting<'s, 'p> {
    pub geometry: Geometry,
    pub table: &'s Table,
    pub prog: &'s WalkedProgram<'p>,
}

/// The job of a bbop that is granted.
fn job_for<'p>(
    setting: &Setting<'_, 'p>,
    found: Entry<'p>,
    bbop: &Bbop<'_>,
    grant: Grant,
) -> Job<Entry<'p>>
    requires lies { LiesOn setting.now.geometry setting.now.table.now }
    requires few { length bbop.now.srcs.now ≤ 5 }
    requires legal { IsLegalCode found.shape (code_of found) }
    requires some { 0 < bbop.now.n }
    requires narrow { bbop.now.n ≤ WIDTH_MAX }
    requires allowed { first (bbop_conditions setting.now.table.now.limit
        setting.now.table.now.pairs (routine_of (program_of found)) (bbop.now.dst.now
        ∷ bbop.now.srcs.now) bbop.now.count bbop.now.n) ≡ None }
    requires granted { IsGranted setting.now.table.now.limit setting.now.table.now.pairs
        (program_of found) bbop.now.n grant }
    ensures runs { CanRun setting.now.geometry (job_bound result) }
    ensures job { wave_job setting.now.geometry.rows (job_bound result)
        ≡ granted_job setting.now.geometry setting.now.table.now.pairs (program_of found.entry)
        bbop.now.dst.now bbop.now.srcs.now bbop.now.n }
{
    let binding = bind(setting.table, &found, bbop, grant.scratch);
    let banks = segments(setting.geometry, rows_of(setting.table, bbop.dst));
    Job {
        entry: found,
        binding,
        banks,
    }
}

/// A bbop that is not refused: its row commands in all its banks, and its job.
#[derive(Drop)]
pub(crate) struct Granted<'p> {
    pub counts: Counts,
    pub job: Job<Entry<'p>>,
}

/// What a bbop is granted, or the first condition that refuses it.
pub(crate) fn grant<'p>(
    setting: &Setting<'_, 'p>,
    op: &Name,
    bbop: &Bbop<'_>,
) -> Result<Granted<'p>, Why>
    requires lies { LiesOn setting.now.geometry setting.now.table.now }
    requires few { length bbop.now.srcs.now ≤ 5 }
    requires some { 0 < bbop.now.n }
    requires narrow { bbop.now.n ≤ WIDTH_MAX }
    ensures refused { IfErr result (λ why. refusal setting.now.geometry
        (routines_in setting.now.prog.now.programs) setting.now.table.now.pairs
        (said_bbop op.now bbop.now) ≡ Some why) }
    ensures allowed { OnOk result (refusal setting.now.geometry
        (routines_in setting.now.prog.now.programs) setting.now.table.now.pairs
        (said_bbop op.now bbop.now) ≡ None) }
    ensures counts { IfOk result (λ granted. granted.counts
        ≡ counts_for setting.now.geometry (routines_in setting.now.prog.now.programs)
        setting.now.table.now.pairs (said_bbop op.now bbop.now)) }
    ensures job { IfOk result (λ granted. wave_job setting.now.geometry.rows
        (job_bound granted.job)
        ≡ job_of setting.now.geometry (routines_in setting.now.prog.now.programs)
        setting.now.table.now.pairs (said_bbop op.now bbop.now)) }
    ensures runs { IfOk result (λ granted. CanRun setting.now.geometry
        (job_bound granted.job)) }
{
    let found = match setting.prog.find(op) {
        None => return Err(Why::NoOp),
        Some(found) => found,
    };
    let walk = setting.prog.walk(&found, bbop.n);
    let grant = allow(setting.table, &found.entry, walk, bbop)?;
    let job = job_for(setting, found.entry, bbop, grant);
    let counts = times_counts(job.banks, grant.counts);
    Ok(Granted { counts, job })
}
