//! A case on the chip.

ghost use Rattle.std.specs.Prelude.{◌≡◌, ℕ, ◌+◌, ◌*◌, ◌<◌, ◌≤◌, ◌^◌, [], ◌∷◌, length, map};
ghost use Rattle.std.specs.Prelude.{OnOk, OnErr, IfOk};
ghost use Rattle.dram_model.specs.Column.{run};
ghost use Rattle.dram_model.specs.View.{HasBegun, Kept, Did};
ghost use Rattle.faults.specs.Counts.{Rose};
ghost use Rattle.transpose_unit.specs.Stopped.{StoppedWithin};
ghost use Rattle.uprog_code.specs.Shape.{Microprogram};
ghost use Rattle.uprog_code.specs.Bound.{bound, bound_of};
ghost use Rattle.uprog_code.specs.Legal.{IsLegalCode};
ghost use Rattle.uprog_code.specs.Programs.{IsProgram};
ghost use Rattle.uprog_bin.specs.Opened.{code_of, program_of};
ghost use Rattle.uprog_bin.specs.Spelling.{program_bytes};
ghost use Rattle.uprog_ctl.specs.Events.{risen};
ghost use Rattle.uprog_ctl.specs.Waves.{wave_events};
ghost use Rattle.wave_model.specs.Schedule.{in_turn, Ahead};
ghost use Rattle.soak_job.specs.Cases.{source_kinds};
ghost use Rattle.soak_job.specs.Words.{after_all};
ghost use Rattle.soak_job.specs.Layout.{bases_from, source_row_count, soak_chip, source_rows};
ghost use Rattle.soak_job.specs.Layout.{layout, case_events, case_queues, issues_at, FitsChip};
ghost use Rattle.soak_job.specs.Sums.{case_sum, in_both_banks};
ghost use Rattle.soak_job.specs.OneCase.{CaseDone, IsFileOf, IsProgramOf, RisesLittle};

use crate::cases::{Case, result_of, rows_of, sources_of};
use crate::load::{CHIP, load_sources};
use crate::sums::sum_of;
use arrayvec::ArrayVec;
use dram_model::{ChipFault, Dram};
use op_text::Kind;
use rand_xoshiro::SplitMix64;
use uprog_bin::{Entry, ProgView};
use uprog_code::{Binding, Counts, walk};
use uprog_ctl::{Forward, Job, run_wave};

/// The first row of each source, from row 0 on, and the row after them.
fn bases_of(kinds: &[Kind], n: u8) -> (ArrayVec<u16, 4>, u16)
    requires few { length kinds.now ≤ 3 }
    ensures bases { result.0.items ≡ bases_from 0 n kinds.now }
    ensures end { result.1 ≡ source_row_count n kinds.now }
    ensures within { result.1 ≤ 765 }
{
    let mut bases = ArrayVec::new();
    let mut row = 0;
    for kind in kinds {
        bases.push(row);
        row += u16::from(rows_of(*kind, n));
    }
    (bases, row)
}

/// Where a case's operation lies.
fn bind(case: Case) -> Binding
    ensures width { result.n ≡ case.n }
    ensures rows { bound_of result ≡ layout case }
    ensures result { result.result ≡ source_rows case }
{
    let (sources, row) = bases_of(sources_of(case.op), case.n);
    Binding {
        n: case.n,
        result: row,
        second: None,
        sources,
        scratch: row + u16::from(rows_of(result_of(case.op), case.n)),
    }
}

/// The entry of the program that a file of one entry holds.
fn own_entry(file: &[u8]) -> Entry<'_>
    requires { (m : Microprogram) × IsProgram (m ∷ []) × (file.now ≡ program_bytes 2 (m ∷ [])) }
    ensures program { (m : Microprogram) → IsProgram (m ∷ []) → file.now ≡ program_bytes 2 (m ∷ [])
        → program_of result ≡ m }
    ensures legal { IsLegalCode result.shape (code_of result) }
{
    match ProgView::open(file) {
        Ok(view) => view.entry(0),
        Err(_) => unreachable!(),
    }
}

/// The row commands of a case's program in both banks.
fn count_both(case: Case, entry: &Entry<'_>) -> Counts
    requires fits { FitsChip case }
    requires does { IsProgramOf case (program_of entry.now) }
    ensures value { result ≡ in_both_banks case (program_of entry.now) }
    ensures few { result.aap + result.ap ≤ 2 ^ 27 }
{
    match walk(entry, case.n) {
        Ok(counts) => Counts {
            aap: 2 * counts.aap,
            ap: 2 * counts.ap,
        },
        Err(_) => unreachable!(),
    }
}

/// Runs a case's program in both banks as one wave, where its sources stand.
fn run_case<D: Dram>(chip: &mut D, case: Case, entry: Entry<'_>) -> Result<(), ChipFault>
    requires begun { HasBegun (D.view chip.old) }
    requires geometry { (D.view chip.old).geometry ≡ soak_chip }
    requires fits { FitsChip case }
    requires does { IsProgramOf case (program_of entry) }
    requires aap_room { (D.view chip.old).counters.aap < 2 ^ 62 }
    requires ap_room { (D.view chip.old).counters.ap < 2 ^ 62 }
    ensures borrow { D.borrow chip.new ≡ D.borrow chip.old }
    ensures kept { Kept (D.view chip.old) (D.view chip.new) }
    ensures did { OnOk result (Did (wave_events in_turn 2 Ahead
        (case_queues case (program_of entry.entry))) (D.view chip.old) (D.view chip.new)) }
    ensures counters { OnOk result ((D.view chip.new).counters
        ≡ risen (in_both_banks case (program_of entry.entry)) (D.view chip.old).counters) }
    ensures alone { OnOk result ((bank : ℕ) → bank < 2 → (D.view chip.new).banks bank
        ≡ map (run (bound 512 entry.entry.shape case.n (layout case)
        (issues_at case (program_of entry.entry)))) ((D.view chip.old).banks bank)) }
    ensures failed { OnErr result (Rose (D.view chip.old).faults (D.view chip.new).faults) }
    ensures left { OnErr result (StoppedWithin 0 (wave_events in_turn 2 Ahead
        (case_queues case (program_of entry.entry))) (D.view chip.old).banks
        (D.view chip.new).banks) }
{
    let jobs = [Job {
        entry,
        binding: bind(case),
        banks: CHIP.banks,
    }];
    run_wave(chip, &jobs, &mut Forward::new())
}

/// What the line of a case tells: its row commands in both banks, and its sum.
#[derive(Clone, Copy, PartialEq, Eq)]
pub struct Outcome {
    pub counts: Counts,
    pub sum: u64,
}

/// Loads the sources of a case, runs the program of its file, and adds its results.
pub fn do_case<D: Dram>(
    chip: &mut D,
    case: Case,
    file: &[u8],
    generator: &mut SplitMix64,
) -> Result<Outcome, ChipFault>
    requires begun { HasBegun (D.view chip.old) }
    requires geometry { (D.view chip.old).geometry ≡ soak_chip }
    requires fits { FitsChip case }
    requires file { IsFileOf case.op file.now }
    requires aap_room { (D.view chip.old).counters.aap < 2 ^ 60 }
    requires ap_room { (D.view chip.old).counters.ap < 2 ^ 60 }
    requires writes_room { (D.view chip.old).counters.writes < 2 ^ 60 }
    requires reads_room { (D.view chip.old).counters.reads < 2 ^ 60 }
    ensures borrow { D.borrow chip.new ≡ D.borrow chip.old }
    ensures kept { Kept (D.view chip.old) (D.view chip.new) }
    ensures sum { IfOk result (λ outcome. outcome.sum ≡ case_sum generator.old case) }
    ensures counts { IfOk result (λ outcome. (f : IsFileOf case.op file.now)
        → outcome.counts ≡ in_both_banks case f.program) }
    ensures done { OnOk result ((f : IsFileOf case.op file.now)
        → CaseDone generator.old case f.program (D.view chip.old) (D.view chip.new)) }
    ensures few { OnOk result (RisesLittle (D.view chip.old).counters (D.view chip.new).counters) }
    ensures following { OnOk result (generator.new ≡ after_all generator.old
        (source_kinds case.op)) }
    ensures failed { OnErr result (Rose (D.view chip.old).faults (D.view chip.new).faults) }
    ensures left { OnErr result ((f : IsFileOf case.op file.now)
        → StoppedWithin 2 (case_events generator.old case f.program) (D.view chip.old).banks
        (D.view chip.new).banks) }
{
    let entry = own_entry(file);
    let counts = count_both(case, &entry);
    let kinds = sources_of(case.op);
    load_sources(chip, kinds, case.n, generator)?;
    run_case(chip, case, entry)?;
    let (_, base) = bases_of(kinds, case.n);
    let sum = sum_of(chip, base, rows_of(result_of(case.op), case.n))?;
    Ok(Outcome { counts, sum })
}
