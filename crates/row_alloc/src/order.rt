//! Whether the outputs are written late.

ghost use Rattle.std.specs.Prelude.{◌≡◌, ◌≢◌, ◌<◌, ◌≤◌, ◌↔◌, ℕ, length, IsTrue, Some};
ghost use Rattle.row_alloc.specs.Body.{read_by as reads_of, written_by as writes_of};
ghost use Rattle.row_alloc.specs.Body.{command_at, WritesLate};
ghost use Rattle.row_alloc.specs.Order.{input_taken, ReadsKept};

use crate::body::{BodyCmd, BodyRef, OutRow};

/// The row that a command activates first.
fn read_by(cmd: BodyCmd) -> BodyRef
    ensures { result ≡ reads_of cmd }
{
    match cmd {
        BodyCmd::Aap(x, _) | BodyCmd::Ap(x) => x,
    }
}

/// The row that takes what a command senses.
fn written_by(cmd: BodyCmd) -> BodyRef
    ensures { result ≡ writes_of cmd }
{
    match cmd {
        BodyCmd::Aap(_, x) | BodyCmd::Ap(x) => x,
    }
}

/// The input whose row a command writes as an output.
fn taken(outs: &[OutRow], cmd: BodyCmd) -> Option<u8>
    ensures { result ≡ input_taken outs.now cmd }
{
    match written_by(cmd) {
        BodyRef::Out(j) if (j as usize) < outs.len() => outs[j as usize].same,
        _ => None,
    }
}

/// Whether none of the first commands writes in an input's row.
fn is_kept(outs: &[OutRow], cmds: &[BodyCmd], before: usize, k: u8) -> bool
    requires { before ≤ length cmds.now }
    ensures { IsTrue result ↔ ((p : ℕ) → p < before
        → input_taken outs.now (command_at cmds.now p) ≢ Some k) }
{
    for p in 0..before {
        if taken(outs, cmds[p]) == Some(k) {
            return false;
        }
    }
    true
}

/// Whether a command reads no input in whose row an earlier one writes.
fn reads_kept(outs: &[OutRow], cmds: &[BodyCmd], at: usize) -> bool
    requires { at < length cmds.now }
    ensures { IsTrue result ↔ ReadsKept outs.now cmds.now at }
{
    match read_by(cmds[at]) {
        BodyRef::In(k) => is_kept(outs, cmds, at, k),
        _ => true,
    }
}

/// Whether each output that stands in an input's row is written only after the last command that
/// reads the input.
pub fn writes_late(outs: &[OutRow], cmds: &[BodyCmd]) -> bool
    ensures { IsTrue result ↔ WritesLate outs.now cmds.now }
{
    for at in 0..cmds.len() {
        if !reads_kept(outs, cmds, at) {
            return false;
        }
    }
    true
}
