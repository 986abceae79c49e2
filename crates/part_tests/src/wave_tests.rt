//! Waves on two banks, under every order and one of the tests' own.

ghost use Rattle.std.specs.Prelude.{◌≡◌, ℕ, ◌<◌, ◌≤◌, ◌^◌, All, length, OnOk, IfOk};
ghost use Rattle.dram_model.specs.View.{HasBegun, Kept};
ghost use Rattle.uprog_code.specs.Shape.{shape_of};
ghost use Rattle.uprog_ctl.specs.Waves.{bound_job, bound_jobs, CanRun};
ghost use Rattle.part_tests.specs.Waves.{last_live, two_banks, IsReady};
ghost use Rattle.part_tests.specs.Xor.{xor_shape, xor_code};

use crate::program_tests::{SMALL, xor_entry};
use arrayvec::ArrayVec;
use dram_chip::{Chip, ChipFault, Counters, Dram, FailingChip};
use std::alloc::Global;
use std::test::Fail;
use uprog_code::{Binding, EntryCode, Fetch};
use uprog_ctl::{Forward, Job, Order, Picker, Seeded, Turns, run_wave};

/// Picks the last live bank, and keeps how many were live at its first pick.
#[derive(Clone, Copy)]
struct Last {
    first: Option<u16>,
}

impl Picker for Last {
    ghost use Rattle.std.specs.Prelude.{◌<◌, ℕ, Option};
    ghost use Rattle.std.specs.Prelude.{◌-◌};
    ghost use Rattle.std.proofs.Common.{subst};
    ghost use Rattle.std.proofs.Math.Nat.{sub-zero};
    ghost use Rattle.std.proofs.Math.Numerals.{sub-suc-lt};
    ghost use Rattle.part_tests.specs.Waves.{last_live};

    ghost State = { Option ℕ };

    ghost state = { λ s. s.first };

    ghost rule = { last_live };

    fn pick(&mut self, live: u16) -> u16 {
        if self.first.is_none() {
            self.first = Some(live);
        }
        live - 1
    }

    ghost picks_live = { λ state count some. subst (λ (n : ℕ). count - 1 < n) (sub-zero count)
        (sub-suc-lt count 0 some) };
}

/// The row `result` takes the exclusive or of two rows before it, in the first banks.
fn xor_job(
    left: u16,
    right: u16,
    to: u16,
    banks: u16,
    alloc: Global,
) -> Result<Job<EntryCode>, Fail>
    requires left { left < to }
    requires right { right < to }
    requires to { to < 32 }
    requires banks { banks ≤ 2 }
    ensures { IfOk result (λ job. CanRun two_banks (bound_job ⟦<EntryCode as Fetch>⟧.shape
        ⟦<EntryCode as Fetch>⟧.code job)) }
{
    let mut sources = ArrayVec::new();
    sources.push(left);
    sources.push(right);
    let binding = Binding {
        n: 1,
        result: to,
        second: None,
        sources,
        scratch: 3,
    };
    let entry = xor_entry(alloc)?;
    Ok(Job {
        entry,
        binding,
        banks,
    })
}

/// Row 2 takes rows 0 and 1, row 3 rows 2 and 1 on bank 0 alone, and row 4 rows 3 and 2.
fn three_jobs(alloc: Global) -> Result<[Job<EntryCode>; 3], Fail>
    ensures { IfOk result (λ jobs. All (CanRun two_banks) (bound_jobs
        ⟦<EntryCode as Fetch>⟧.shape ⟦<EntryCode as Fetch>⟧.code jobs)) }
{
    Ok([
        xor_job(0, 1, 2, 2, alloc)?,
        xor_job(2, 1, 3, 1, alloc)?,
        xor_job(3, 2, 4, 2, alloc)?,
    ])
}

const A: u64 = 0x0123_4567_89ab_cdef;

const B: u64 = 0xfedc_ba98_0f0f_3355;

/// Begins a chip, and writes rows 0 and 1 of two banks: A and B, and B and 1.
fn begun<D: Dram>(chip: &mut D) -> Result<(), Fail>
    ensures { OnOk result (IsReady (D.view chip.new)) }
{
    chip.begin(SMALL).ok().ok_or("it begins")?;
    chip.write_row(0, 0, &[A]).ok().ok_or("a write")?;
    chip.write_row(0, 1, &[B]).ok().ok_or("a write")?;
    chip.write_row(1, 0, &[B]).ok().ok_or("a write")?;
    chip.write_row(1, 1, &[1]).ok().ok_or("a write")?;
    Ok(())
}

/// A wave on a chip that is ready.
fn run_jobs<D: Dram, P: Picker>(
    chip: &mut D,
    jobs: &[Job<EntryCode>],
    picker: &mut P,
) -> Result<(), ChipFault>
    requires ready { IsReady (D.view chip.old) }
    requires few { length jobs.now ≤ 16 }
    requires run { All (CanRun two_banks) (bound_jobs ⟦<EntryCode as Fetch>⟧.shape
        ⟦<EntryCode as Fetch>⟧.code jobs.now) }
    ensures kept { Kept (D.view chip.old) (D.view chip.new) }
    ensures reads { OnOk result ((D.view chip.new).counters.reads
        ≡ (D.view chip.old).counters.reads) }
{
    run_wave(chip, jobs, picker)
}

/// The word of a row after the three jobs, and the counters.
fn after_three<P: Picker>(
    picker: &mut P,
    bank: u16,
    row: u16,
    alloc: Global,
) -> Result<(u64, Counters), Fail>
    requires bank { bank < 2 }
    requires row { row < 64 }
{
    let jobs = three_jobs(alloc)?;
    let mut chip = Chip::new(alloc);
    begun(&mut chip)?;
    run_jobs(&mut chip, &jobs, picker)?;
    let mut word = [0; 1];
    chip.read_row(bank, row, &mut word)?;
    Ok((word[0], chip.tally()))
}

#[test]
fn every_order_ends_alike(rt: HostRuntime) -> Result<(), Fail> {
    let cases = [
        (0u16, 2u16, 0xffff_ffff_86a4_feba),
        (0, 3, A),
        (0, 4, B),
        (1, 2, 0xfedc_ba98_0f0f_3354),
        (1, 3, 0),
        (1, 4, 0xfedc_ba98_0f0f_3354),
    ];
    let counters = Counters {
        aap: 25,
        ap: 10,
        writes: 4,
        reads: 1,
    };
    for (bank, row, want) in cases {
        let mut last = Last { first: None };
        let ends = [
            after_three(&mut Order::First(Forward::new()), bank, row, rt.alloc())?,
            after_three(&mut Order::Turns(Turns::new()), bank, row, rt.alloc())?,
            after_three(&mut Order::Seeded(Seeded::new(7)), bank, row, rt.alloc())?,
            after_three(&mut last, bank, row, rt.alloc())?,
        ];
        for (word, tally) in ends {
            assert!(rt; word == want);
            assert!(rt; tally == counters);
        }
        assert!(rt; last.first == Some(2));
    }
    Ok(())
}

#[test]
fn no_jobs_do_nothing(rt: HostRuntime) -> Result<(), Fail> {
    let mut chip = Chip::new(rt.alloc());
    begun(&mut chip)?;
    let mut last = Last { first: None };
    let jobs: [Job<EntryCode>; 0] = [];
    run_jobs(&mut chip, &jobs, &mut last)?;
    assert!(rt; last.first == None);
    assert!(rt; chip.tally().aap == 0);
    Ok(())
}

/// The calls before the wave are the beginning and four writes.
#[test]
fn a_call_that_fails_ends_the_wave(rt: HostRuntime) -> Result<(), Fail> {
    let jobs = three_jobs(rt.alloc())?;
    for command in 1..37u64 {
        let mut chip = FailingChip::new(rt.alloc(), [5 + command].to_vec(rt.alloc())?);
        begun(&mut chip)?;
        let done = run_jobs(&mut chip, &jobs, &mut Turns::new());
        assert!(rt; done.is_ok() == (command > 35));
    }
    Ok(())
}
