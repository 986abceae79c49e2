//! The cases, one after another.

ghost use Rattle.std.specs.Prelude.{◌≡◌, ◌<◌, ◌^◌, ◌∷◌, List, length, Err, OnOk, IfErr};
ghost use Rattle.std.specs.List.{AllByRecursion};
ghost use Rattle.host_edge.specs.Views.{FolderView};
ghost use Rattle.dram_model.specs.View.{HasBegun, Kept};
ghost use Rattle.cli_model.specs.World.{world};
ghost use Rattle.soak_job.specs.Cases.{soak_cases, source_kinds};
ghost use Rattle.soak_job.specs.Words.{after_all};
ghost use Rattle.soak_job.specs.Layout.{soak_chip};
ghost use Rattle.soak_job.specs.Done.{CanBeDone, CaseWent, CasesGo, SoakGoes};

use crate::cases::{Case, all_cases};
use crate::chip::do_case;
use crate::line::{last_line, line_of};
use crate::load::CHIP;
use crate::programs::program_file;
use dram_model::{BeginNo, Dram};
use host_edge::Sink;
use rand_xoshiro::SplitMix64;
use rand_xoshiro::rand_core::SeedableRng;
use std::alloc::Global;

/// Why a soak stopped.
#[derive(Clone, Copy, PartialEq, Eq)]
pub enum SoakError {
    NoMemory,
    ChipFailed,
    PutFailed,
}

/// Does a case, and puts its line.
fn soak_case<S: Sink, D: Dram>(
    case: Case,
    generator: &mut SplitMix64,
    out: &mut S,
    chip: &mut D,
    alloc: Global,
) -> Result<(), SoakError>
    requires begun { HasBegun (D.view chip.old) }
    requires geometry { (D.view chip.old).geometry ≡ soak_chip }
    requires can { CanBeDone case }
    requires aap_room { (D.view chip.old).counters.aap < 2 ^ 60 }
    requires ap_room { (D.view chip.old).counters.ap < 2 ^ 60 }
    requires writes_room { (D.view chip.old).counters.writes < 2 ^ 60 }
    requires reads_room { (D.view chip.old).counters.reads < 2 ^ 60 }
    ensures borrow { D.borrow chip.new ≡ D.borrow chip.old }
    ensures kept { Kept (D.view chip.old) (D.view chip.new) }
    ensures went { OnOk result ((files : FolderView) → CaseWent generator.old case
        (world files (S.view out.old) (D.view chip.old))
        (world files (S.view out.new) (D.view chip.new))) }
    ensures following { OnOk result (generator.new ≡ after_all generator.old
        (source_kinds case.op)) }
    ensures stopped { IfErr result (λ why. (files : FolderView) (cases : List Case)
        → CasesGo generator.old (case ∷ cases) (world files (S.view out.old) (D.view chip.old))
        (world files (S.view out.new) (D.view chip.new)) (Err why)) }
{
    let Ok(file) = program_file(case.op, alloc) else {
        return Err(SoakError::NoMemory);
    };
    let Ok(outcome) = do_case(chip, case, &file, generator) else {
        return Err(SoakError::ChipFailed);
    };
    let line = line_of(case, outcome.counts, outcome.sum);
    if out.put(line.as_slice()).is_err() {
        return Err(SoakError::PutFailed);
    }
    Ok(())
}

/// Does the cases in order, and puts the last line.
fn soak_cases<S: Sink, D: Dram>(
    cases: &[Case],
    generator: &mut SplitMix64,
    out: &mut S,
    chip: &mut D,
    alloc: Global,
) -> Result<(), SoakError>
    requires begun { HasBegun (D.view chip.old) }
    requires geometry { (D.view chip.old).geometry ≡ soak_chip }
    requires can { AllByRecursion CanBeDone cases.now }
    requires all { length cases.now ≡ length soak_cases }
    requires aap_room { (D.view chip.old).counters.aap ≡ 0 }
    requires ap_room { (D.view chip.old).counters.ap ≡ 0 }
    requires writes_room { (D.view chip.old).counters.writes ≡ 0 }
    requires reads_room { (D.view chip.old).counters.reads ≡ 0 }
    ensures borrow { D.borrow chip.new ≡ D.borrow chip.old }
    ensures kept { Kept (D.view chip.old) (D.view chip.new) }
    ensures goes { (files : FolderView) → CasesGo generator.old cases.now
        (world files (S.view out.old) (D.view chip.old))
        (world files (S.view out.new) (D.view chip.new)) result }
{
    for case in cases {
        soak_case(*case, generator, out, chip, alloc)?;
    }
    let line = last_line(cases.len());
    if out.put(line.as_slice()).is_err() {
        return Err(SoakError::PutFailed);
    }
    Ok(())
}

/// Begins the chip, and does every word operation with one result at the widths 1, 8 and 64 on 256
/// elements of SplitMix64 words from the seed; puts a line for each case, and a last one. Each case
/// compiles the op of one statement, encodes and opens its program, loads the sources, runs the
/// program in both banks and reads the result back.
pub fn soak<S: Sink, D: Dram>(
    seed: u64,
    out: &mut S,
    chip: &mut D,
    alloc: Global,
) -> Result<(), SoakError>
    ensures borrow { D.borrow chip.new ≡ D.borrow chip.old }
    ensures goes { (files : FolderView) → SoakGoes seed
        (world files (S.view out.old) (D.view chip.old))
        (world files (S.view out.new) (D.view chip.new)) result }
{
    match chip.begin(CHIP) {
        Ok(()) => {}
        Err(BeginNo::NoMemory) => return Err(SoakError::NoMemory),
        Err(BeginNo::Failed) => return Err(SoakError::ChipFailed),
    }
    let cases = all_cases();
    let mut generator = SplitMix64::seed_from_u64(seed);
    soak_cases(cases.as_slice(), &mut generator, out, chip, alloc)
}
