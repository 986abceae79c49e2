//! Whole scripts.

ghost use Rattle.std.specs.Prelude.{◌≡◌, ◌+◌, ◌*◌, ◌<◌, ◌≤◌, ◌^◌, length, map, Ok, Err};
ghost use Rattle.std.specs.Prelude.{IfOk, IfErr};
ghost use Rattle.bbop_isa.specs.Forms.{view_of};
ghost use Rattle.bbop_isa.specs.Script.{script_of, Refused};
ghost use Rattle.bbop_isa.specs.Reading.{AddsLine};

use crate::forms::line_of;
use crate::instr::{Instr, LineError, ScriptFault, ScriptNo};
use crate::lines::split_line;
use faults::keep;
use std::alloc::Global;

/// Adds the instruction of a line, if it has one.
fn add_line(script: &mut Vec<Instr>, line: &[u8], alloc: Global) -> Result<(), LineError>
    ensures { AddsLine line.now script.old.items result script.new.items }
{
    if let Some(instr) = line_of(line, alloc)? {
        keep(script, instr)?;
    }
    Ok(())
}

/// How many bytes the shortest instruction has: `free a`.
const SHORTEST: usize = 6;

/// How many of the text's lines are long enough for an instruction.
fn long_lines(text: &[u8]) -> usize
    ensures few { 7 * result ≤ length text.now + 1 }
{
    let mut count = 0;
    let mut rest = text;
    'lines: loop {
        let (line, others) = split_line(rest);
        if line.len() >= SHORTEST {
            count += 1;
        }
        let Some(more) = others else {
            return count;
        };
        rest = more;
    }
}

/// The instructions of a script's lines, or the first line that breaks a rule. Time and memory are
/// in proportion to the text.
pub fn parse_script(text: &[u8], alloc: Global) -> Result<Vec<Instr>, ScriptNo>
    requires { length text.now < 2 ^ 32 }
    ensures accepted { IfOk result (λ script. script_of text.now ≡ Ok (map view_of script.items)) }
    ensures refused { IfErr result (Refused text.now) }
{
    let Ok(mut script) = Vec::with_capacity(alloc, long_lines(text)) else {
        return Err(ScriptNo::NoMemory);
    };
    let mut rest = text;
    let mut number: u64 = 1;
    'lines: loop {
        let (line, others) = split_line(rest);
        match add_line(&mut script, line, alloc) {
            Ok(()) => {}
            Err(LineError::Bad(kind)) => {
                let line = number as u32;
                return Err(ScriptNo::Fault(ScriptFault { line, kind }));
            }
            Err(LineError::NoMemory) => return Err(ScriptNo::NoMemory),
        }
        let Some(more) = others else {
            return Ok(script);
        };
        rest = more;
        number += 1;
    }
}
