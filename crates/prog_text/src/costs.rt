//! What the entries of a program cost at widths.

ghost use Rattle.std.specs.Prelude.{◌≡◌, ◌<◌, ◌≤◌, ◌++◌, codes, OnOk, IfOk};
ghost use Rattle.uprog_code.specs.Legal.{IsLegalCode};
ghost use Rattle.uprog_code.specs.Shape.{shape_of};
ghost use Rattle.prog_text.specs.Costs.{at_text, cost_line, cost_lines, cost_text as text_of};
ghost use Rattle.prog_text.specs.Costs.{costs, stuck_word};
ghost use Rattle.prog_text.specs.Widths.{AreWidths};

use crate::pieces::{put, put_number};
use bit_rows::WIDTH_MAX;
use faults::NoMemory;
use std::alloc::Global;
use uprog_bin::ProgView;
use uprog_code::{BadWalk, Counts, Fetch, Head, Why3, walk};

/// Why a walk is stuck, at the end of its line.
pub fn stuck_word(why: Why3) -> &'static [u8]
    ensures { result.now ≡ stuck_word why }
{
    match why {
        Why3::Index => b"index",
        Why3::Register => b"register",
        Why3::Budget => b"budget",
    }
}

/// Appends what a walk of an entry came to.
fn put_walked(
    out: &mut Vec<u8>,
    head: &Head,
    n: u8,
    walked: Result<Counts, BadWalk>,
) -> Result<(), NoMemory>
    ensures { OnOk result (out.new.items ≡ out.old.items ++ text_of (shape_of head.now) n walked) }
{
    match walked {
        Ok(counts) => {
            let rows = u64::from(head.bits) + u64::from(n) * u64::from(head.words);
            put_number(out, b" aap=", counts.aap)?;
            put_number(out, b" ap=", counts.ap)?;
            put_number(out, b" rows=", rows)
        }
        Err(stuck) => {
            put_number(out, b" bad_walk ", u64::from(stuck.at))?;
            put(out, b" ")?;
            put(out, stuck_word(stuck.why))
        }
    }
}

/// Appends at which width, where more than one was asked for.
fn put_at(out: &mut Vec<u8>, n: u8, single: bool) -> Result<(), NoMemory>
    ensures { OnOk result (out.new.items ≡ out.old.items ++ at_text single n) }
{
    if single {
        return Ok(());
    }
    put_number(out, b" at ", u64::from(n))
}

/// Appends the line of an entry at a width.
fn put_cost<F: Fetch>(out: &mut Vec<u8>, entry: &F, n: u8, single: bool) -> Result<(), NoMemory>
    requires legal { IsLegalCode (F.shape entry.now) (F.code entry.now) }
    requires some { 0 < n }
    requires narrow { n ≤ WIDTH_MAX }
    ensures { OnOk result (out.new.items ≡ out.old.items ++ cost_line single (record {
      name = F.name entry.now;
      shape = F.shape entry.now;
      code = F.code entry.now;
    }) n) }
{
    let head = entry.head();
    put(out, head.name.bytes())?;
    put_at(out, n, single)?;
    put_walked(out, &head, n, walk(entry, n))?;
    put(out, b"\n")
}

/// Appends the lines of an entry.
fn put_costs<F: Fetch>(out: &mut Vec<u8>, entry: &F, widths: &[u8]) -> Result<(), NoMemory>
    requires legal { IsLegalCode (F.shape entry.now) (F.code entry.now) }
    requires widths { AreWidths widths.now }
    ensures { OnOk result (out.new.items ≡ out.old.items ++ cost_lines widths.now (record {
      name = F.name entry.now;
      shape = F.shape entry.now;
      code = F.code entry.now;
    })) }
{
    let single = widths.len() == 1;
    for width in widths {
        put_cost(out, entry, *width, single)?;
    }
    Ok(())
}

/// What each entry of an accepted program file costs at widths, a line for each: its row commands
/// of each kind and its rows of scratch, or where its walk is stuck. The lines of an entry stand
/// together; they name the width where there is more than one.
pub fn cost_text(prog: &ProgView<'_>, widths: &[u8], alloc: Global) -> Result<Vec<u8>, NoMemory>
    requires { AreWidths widths.now }
    ensures { IfOk result (λ text. text.items ≡ costs widths.now prog.now.programs) }
{
    let mut out = Vec::new(alloc);
    for k in 0..prog.entries() {
        put_costs(&mut out, &prog.entry(k), widths)?;
    }
    Ok(out)
}
