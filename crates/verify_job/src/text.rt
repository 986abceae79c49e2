//! The report of findings, and the exit status.

ghost use Rattle.std.specs.Prelude.{◌≡◌, ◌<◌, ◌≤◌, ◌++◌, count_by, length, map, IfOk};
ghost use Rattle.std.specs.Prelude.{OnOk};
ghost use Rattle.std.specs.List.{list_all};
ghost use Rattle.op_text.specs.Language.{operation, operations};
ghost use Rattle.uprog_code.specs.Shape.{shape_of};
ghost use Rattle.verify_job.specs.Findings.{is_right, is_right_throughout, may_be_right};
ghost use Rattle.verify_job.specs.Findings.{may_be_right_throughout, status_of};
ghost use Rattle.verify_job.specs.Report.{at_text, case_text, counts_text, finding_text, last_line};
ghost use Rattle.verify_job.specs.Report.{limit_word, lines, numbers_text, op_lines, rest_text};
ghost use Rattle.verify_job.specs.Report.{report as report_of, run_line, says_same, source_text};
ghost use Rattle.verify_job.specs.Report.{sources_text, verdict_text};
ghost use Rattle.verify_job.specs.Widths.{WritesEnded, ends_run};

use crate::cells::put_ones;
use crate::finding::{Finding, FoundAt, OpFindings};
use crate::pieces::{put, put_count, put_number};
use crate::widths::put_widths;
use bit_rows::Value;
use faults::{NoMemory, keep};
use op_text::{Op, Ops, Param};
use prog_text::stuck_word;
use std::alloc::Global;
use uprog_code::{Counts, Head};
use verify_core::{Case, Limit, Verdict};

/// Appends numbers, each after a blank.
fn put_numbers(out: &mut Vec<u8>, numbers: &[Value]) -> Result<(), NoMemory>
    ensures { OnOk result (out.new.items ≡ out.old.items ++ numbers_text numbers.now) }
{
    for number in numbers {
        put_number(out, b" ", *number)?;
    }
    Ok(())
}

/// Appends the number of a source after its name.
fn put_source(out: &mut Vec<u8>, param: &Param, number: Value) -> Result<(), NoMemory>
    ensures { OnOk result (out.new.items ≡ out.old.items ++ source_text param.now number) }
{
    put(out, b" ")?;
    put(out, param.name.bytes())?;
    put_number(out, b"=", number)
}

/// Appends the numbers of the sources, each after its name.
fn put_sources(out: &mut Vec<u8>, params: &[Param], numbers: &[Value]) -> Result<(), NoMemory>
    ensures { OnOk result (out.new.items ≡ out.old.items ++ sources_text params.now numbers.now) }
{
    for (param, number) in params.iter().zip(numbers) {
        put_source(out, param, *number)?;
    }
    Ok(())
}

/// Appends a case: its sources, what an entry of the head gives, what the op means, and the cells
/// that are 1 at its start.
fn put_case(
    out: &mut Vec<u8>,
    params: &[Param],
    head: &Head,
    n: u8,
    case: &Case,
) -> Result<(), NoMemory>
    ensures { OnOk result (out.new.items
        ≡ out.old.items ++ case_text params.now (shape_of head.now) n case.now) }
{
    put_sources(out, params, case.sources.as_slice())?;
    put(out, b" gives")?;
    put_numbers(out, case.got.as_slice())?;
    put(out, b" not")?;
    put_numbers(out, case.wanted.as_slice())?;
    put_ones(out, head, n, case.ones.as_slice())
}

/// Which limit a diagram reached.
fn limit_word(limit: Limit) -> &'static [u8]
    ensures { result.now ≡ limit_word limit }
{
    match limit {
        Limit::Nodes(_) => b"nodes",
        Limit::Depth => b"depth",
        Limit::Steps(_) => b"steps",
    }
}

/// Appends a verdict, without its case and its row commands.
fn put_verdict(out: &mut Vec<u8>, verdict: &Verdict) -> Result<(), NoMemory>
    ensures { OnOk result (out.new.items ≡ out.old.items ++ verdict_text verdict.now) }
{
    match verdict {
        Verdict::Right(_) => put(out, b" right"),
        Verdict::Wrong(_) => put(out, b" wrong"),
        Verdict::Stuck(stuck) => {
            put_number(out, b" bad_walk ", Value::from(stuck.at))?;
            put(out, b" ")?;
            put(out, stuck_word(stuck.why))
        }
        Verdict::OtherKinds => put(out, b" other_kinds"),
        Verdict::Unknown(limit) => {
            put(out, b" unknown ")?;
            put(out, limit_word(*limit))
        }
    }
}

/// Appends a finding, without its case and its row commands.
fn put_finding(out: &mut Vec<u8>, finding: &Finding) -> Result<(), NoMemory>
    ensures { OnOk result (out.new.items ≡ out.old.items ++ finding_text finding.now) }
{
    match finding {
        Finding::NoEntry => put(out, b" no_entry"),
        Finding::Entry(_, verdict) => put_verdict(out, verdict),
    }
}

/// Appends the row commands of an entry that is right.
fn put_counts(out: &mut Vec<u8>, counts: Counts) -> Result<(), NoMemory>
    ensures { OnOk result (out.new.items ≡ out.old.items ++ counts_text counts) }
{
    put_count(out, b" aap=", counts.aap)?;
    put_count(out, b" ap=", counts.ap)
}

/// Appends what follows a finding: the case of an entry that is wrong, and the row commands of one
/// that is right, where one width alone was asked for.
fn put_rest(
    out: &mut Vec<u8>,
    params: &[Param],
    found: &FoundAt,
    single: bool,
) -> Result<(), NoMemory>
    ensures { OnOk result (out.new.items
        ≡ out.old.items ++ rest_text single params.now found.now.width found.now.finding) }
{
    match &found.finding {
        Finding::Entry(_, Verdict::Right(counts)) if single => put_counts(out, *counts),
        Finding::Entry(head, Verdict::Wrong(case)) => {
            put_case(out, params, head, found.width, case)
        }
        _ => Ok(()),
    }
}

/// A finding as a text, without its case and its row commands.
fn finding_bytes(finding: &Finding, alloc: Global) -> Result<Vec<u8>, NoMemory>
    ensures { IfOk result (λ text. text.items ≡ finding_text finding.now) }
{
    let mut out = Vec::new(alloc);
    put_finding(&mut out, finding)?;
    Ok(out)
}

/// What follows it, as a text.
fn rest_bytes(
    params: &[Param],
    found: &FoundAt,
    single: bool,
    alloc: Global,
) -> Result<Vec<u8>, NoMemory>
    ensures { IfOk result (λ text. text.items
        ≡ rest_text single params.now found.now.width found.now.finding) }
{
    let mut out = Vec::new(alloc);
    put_rest(&mut out, params, found, single)?;
    Ok(out)
}

/// Whether the same is said at two widths.
fn says_same(
    params: &[Param],
    a: &FoundAt,
    b: &FoundAt,
    single: bool,
    alloc: Global,
) -> Result<bool, NoMemory>
    ensures { IfOk result (λ same. same ≡ says_same single params.now a.now b.now) }
{
    let first = finding_bytes(&a.finding, alloc)?;
    let second = finding_bytes(&b.finding, alloc)?;
    let one = rest_bytes(params, a, single, alloc)?;
    let other = rest_bytes(params, b, single, alloc)?;
    Ok(first.as_slice() == second.as_slice() && one.as_slice() == other.as_slice())
}

/// The widths of findings.
fn widths_of(run: &[FoundAt], alloc: Global) -> Result<Vec<u8>, NoMemory>
    ensures { IfOk result (λ widths. widths.items ≡ map (λ f. f.width) run.now) }
{
    let mut widths = Vec::new(alloc);
    for found in run {
        keep(&mut widths, found.width)?;
    }
    Ok(widths)
}

/// Appends at which widths it is, where more than one was asked for.
fn put_at(out: &mut Vec<u8>, run: &[FoundAt], single: bool, alloc: Global) -> Result<(), NoMemory>
    ensures { OnOk result (out.new.items
        ≡ out.old.items ++ at_text single (map (λ f. f.width) run.now)) }
{
    if single {
        return Ok(());
    }
    let widths = widths_of(run, alloc)?;
    put(out, b" at ")?;
    put_widths(out, widths.as_slice())
}

/// Appends the line of widths at which the same is said of an op.
fn put_run(
    out: &mut Vec<u8>,
    op: &Op,
    run: &[FoundAt],
    single: bool,
    alloc: Global,
) -> Result<(), NoMemory>
    ensures { OnOk result (out.new.items
        ≡ out.old.items ++ run_line single (operation op.now) run.now) }
{
    match run {
        [] => Ok(()),
        [found, ..] => {
            put(out, op.name.bytes())?;
            put_finding(out, &found.finding)?;
            put_at(out, run, single, alloc)?;
            put_rest(out, op.params.as_slice(), found, single)?;
            put(out, b"\n")
        }
    }
}

/// Whether the first of the findings ends its run: something else is said at the next width.
fn ends_run(
    params: &[Param],
    found: &[FoundAt],
    single: bool,
    alloc: Global,
) -> Result<bool, NoMemory>
    ensures { IfOk result (λ ends. ends ≡ ends_run (says_same single params.now) found.now) }
{
    match found {
        [a, b, ..] => {
            let same = says_same(params, a, b, single, alloc)?;
            Ok(!same)
        }
        _ => Ok(true),
    }
}

/// Appends the line of the findings from one up to the k-th, if the k-th ends its run. Where the
/// next run begins then, or still this one.
fn put_ended(
    out: &mut Vec<u8>,
    op: &Op,
    found: &[FoundAt],
    from: usize,
    k: usize,
    single: bool,
    alloc: Global,
) -> Result<usize, NoMemory>
    requires { (from ≤ k) × (k < length found.now) }
    ensures { IfOk result (λ next. WritesEnded (run_line single (operation op.now))
        (says_same single (operation op.now).params) found.now from k out.old.items out.new.items
        next) }
{
    if !ends_run(op.params.as_slice(), &found[k..], single, alloc)? {
        return Ok(from);
    }
    put_run(out, op, &found[from..k + 1], single, alloc)?;
    Ok(k + 1)
}

/// Appends the lines of an op: widths that follow one another share a line where the same is said
/// at them.
fn put_op(
    out: &mut Vec<u8>,
    op: &Op,
    found: &[FoundAt],
    single: bool,
    alloc: Global,
) -> Result<(), NoMemory>
    ensures { OnOk result (out.new.items
        ≡ out.old.items ++ op_lines single (operation op.now) found.now) }
{
    let mut from = 0;
    for k in 0..found.len() {
        from = put_ended(out, op, found, from, k, single, alloc)?;
    }
    Ok(())
}

/// Appends the lines of ops.
fn put_lines(
    out: &mut Vec<u8>,
    ops: &[Op],
    found: &[OpFindings],
    single: bool,
    alloc: Global,
) -> Result<(), NoMemory>
    ensures { OnOk result (out.new.items
        ≡ out.old.items ++ lines single (map operation ops.now) found.now) }
{
    for (op, findings) in ops.iter().zip(found) {
        put_op(out, op, findings.at.as_slice(), single, alloc)?;
    }
    Ok(())
}

/// Whether the op has an entry, which does it.
fn is_right(finding: &Finding) -> bool
    ensures { result ≡ is_right finding.now }
{
    matches!(finding, Finding::Entry(_, Verdict::Right(_)))
}

/// Whether the op has an entry that does it, or of which that is not known.
fn may_be_right(finding: &Finding) -> bool
    ensures { result ≡ may_be_right finding.now }
{
    matches!(
        finding,
        Finding::Entry(_, Verdict::Right(_) | Verdict::Unknown(_))
    )
}

/// Whether the op has an entry that does it at each width.
fn is_right_throughout(found: &OpFindings) -> bool
    ensures { result ≡ is_right_throughout found.now }
{
    found.at.iter().all(|found| is_right(&found.finding))
}

/// Whether the op has an entry that does it at each width, or of which that is not known.
fn may_be_right_throughout(found: &OpFindings) -> bool
    ensures { result ≡ may_be_right_throughout found.now }
{
    found.at.iter().all(|found| may_be_right(&found.finding))
}

/// How many entries do their ops at each width.
fn rights(found: &[OpFindings]) -> usize
    ensures { result ≡ count_by is_right_throughout found.now }
{
    found
        .iter()
        .filter(|found| is_right_throughout(found))
        .count()
}

/// Appends the last line.
fn put_last(out: &mut Vec<u8>, widths: &[u8], found: &[OpFindings]) -> Result<(), NoMemory>
    ensures { OnOk result (out.new.items ≡ out.old.items ++ last_line widths.now found.now) }
{
    put_number(out, b"verified ", rights(found) as Value)?;
    put_number(out, b" of ", found.len() as Value)?;
    put(out, b" at ")?;
    put_widths(out, widths)?;
    put(out, b"\n")
}

/// The report: the lines of each op, in order, and how many entries do their ops at each width.
pub fn report(
    ops: &Ops,
    widths: &[u8],
    found: &[OpFindings],
    alloc: Global,
) -> Result<Vec<u8>, NoMemory>
    ensures { IfOk result (λ text. text.items
        ≡ report_of widths.now (operations ops.now) found.now) }
{
    let mut out = Vec::new(alloc);
    put_lines(
        &mut out,
        ops.ops.as_slice(),
        found,
        widths.len() == 1,
        alloc,
    )?;
    put_last(&mut out, widths, found)?;
    Ok(out)
}

/// Whether each entry does its op at each width.
fn all_right(found: &[OpFindings]) -> bool
    ensures { result ≡ list_all is_right_throughout found.now }
{
    found.iter().all(|found| is_right_throughout(found))
}

/// Whether each entry does its op at each width, or it is not known whether it does.
fn all_may_be_right(found: &[OpFindings]) -> bool
    ensures { result ≡ list_all may_be_right_throughout found.now }
{
    found.iter().all(|found| may_be_right_throughout(found))
}

/// The exit status of findings: 0 where each entry does its op at each width, 20 where each does it
/// or it is not known whether it does, else 19.
pub fn status(found: &[OpFindings]) -> u8
    ensures { result ≡ status_of found.now }
{
    if all_right(found) {
        0
    } else if all_may_be_right(found) {
        20
    } else {
        19
    }
}
