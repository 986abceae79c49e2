//! Widths, as a call lists them.

ghost use Rattle.std.specs.Prelude.{◌≡◌, ◌<◌, ◌≤◌, ◌==◌, ◌∷◌, ◌++◌, if◌then◌else◌, length};
ghost use Rattle.std.specs.Prelude.{IfOk, OnOk};
ghost use Rattle.verify_job.specs.Widths.{WritesEnded, ends_run, follows, span_text, widths_text};

use crate::pieces::{put, put_number};
use bit_rows::Value;
use faults::NoMemory;

/// Appends a run of widths that follow one another.
fn put_span(out: &mut Vec<u8>, run: &[u8]) -> Result<(), NoMemory>
    ensures { OnOk result (out.new.items ≡ out.old.items ++ span_text run.now) }
{
    match run {
        [] => Ok(()),
        [only] => put_number(out, b"", Value::from(*only)),
        [first, rest @ ..] => {
            put_number(out, b"", Value::from(*first))?;
            put_number(out, b"-", Value::from(rest[rest.len() - 1]))
        }
    }
}

/// Whether the first of the widths ends its run.
fn ends_run(widths: &[u8]) -> bool
    ensures { result ≡ ends_run follows widths.now }
{
    match widths {
        [a, b, ..] => u16::from(*a) + 1 != u16::from(*b),
        _ => true,
    }
}

/// Appends a run of widths, after a comma unless it is the first.
fn put_next(out: &mut Vec<u8>, run: &[u8], first: bool) -> Result<(), NoMemory>
    ensures { OnOk result (out.new.items
        ≡ out.old.items ++ (if first then span_text run.now else 44 ∷ span_text run.now)) }
{
    if !first {
        put(out, b",")?;
        return put_span(out, run);
    }
    put_span(out, run)
}

/// Appends the widths from one up to the k-th, if the k-th ends its run. Where the next run begins
/// then, or still this one.
fn put_ended(out: &mut Vec<u8>, widths: &[u8], from: usize, k: usize) -> Result<usize, NoMemory>
    requires { (from ≤ k) × (k < length widths.now) }
    ensures { IfOk result (λ next. WritesEnded
        (λ run. if from == 0 then span_text run else 44 ∷ span_text run) follows widths.now from k
        out.old.items out.new.items next) }
{
    if !ends_run(&widths[k..]) {
        return Ok(from);
    }
    put_next(out, &widths[from..k + 1], from == 0)?;
    Ok(k + 1)
}

/// Appends widths: numbers and spans, with commas between.
pub(crate) fn put_widths(out: &mut Vec<u8>, widths: &[u8]) -> Result<(), NoMemory>
    ensures { OnOk result (out.new.items ≡ out.old.items ++ widths_text widths.now) }
{
    let mut from = 0;
    for k in 0..widths.len() {
        from = put_ended(out, widths, from, k)?;
    }
    Ok(())
}
