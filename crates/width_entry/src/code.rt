//! The instructions of a line, of the test of a width, and of an entry behind both.

ghost use Rattle.std.specs.Prelude.{◌≡◌, ◌+◌, ◌<◌, ◌≤◌, ◌++◌, ◌^◌, [], ◌∷◌, OnOk, IfOk, length};
ghost use Rattle.std.specs.Prelude.{map, ℕ};
ghost use Rattle.uprog_code.specs.Legal.{IsLegalCode};
ghost use Rattle.uprog_code.specs.OneStep.{HasOperands, issue_of, row_of};
ghost use Rattle.width_entry.specs.Lines.{issues};
ghost use Rattle.width_entry.specs.Code.{command_code, line_code, moved_uop, no_register, row_by};
ghost use Rattle.width_entry.specs.Code.{setting, test_code};

use faults::{NoMemory, keep};
use std::alloc::Global;
use uprog_code::{Fetch, Issued, RowPosition, RowRef, RowSpace, Uop};

/// What names position 0 of a row.
fn no_register(space: RowSpace) -> u8
    ensures { result ≡ no_register space }
{
    match space {
        RowSpace::Result | RowSpace::Source | RowSpace::ScratchWord => 8,
        _ => 0,
    }
}

/// A row as an instruction names it, by a register where its position is not 0.
fn row_by(register: u8, row: &RowPosition) -> RowRef
    ensures { result ≡ row_by register (row_of row.now) }
{
    RowRef {
        space: row.space,
        which: row.which,
        index: if row.index == 0 {
            no_register(row.space)
        } else {
            register
        },
    }
}

/// Appends what sets the register of a row's position, where it needs one.
fn put_setting(code: &mut Vec<Uop>, register: u8, row: &RowPosition) -> Result<(), NoMemory>
    ensures { OnOk result (code.new.items
        ≡ code.old.items ++ setting register (row_of row.now)) }
{
    if row.index == 0 {
        Ok(())
    } else {
        keep(code, Uop::SetI(register, row.index))
    }
}

/// Appends the instructions of a command.
fn put_command(code: &mut Vec<Uop>, issued: &Issued) -> Result<(), NoMemory>
    ensures { OnOk result (code.new.items
        ≡ code.old.items ++ command_code (issue_of issued.now)) }
{
    match issued {
        Issued::Aap(x, y) => {
            put_setting(code, 0, x)?;
            put_setting(code, 1, y)?;
            keep(code, Uop::Aap(row_by(0, x), row_by(1, y)))
        }
        Issued::Ap(x) => {
            put_setting(code, 0, x)?;
            keep(code, Uop::Ap(row_by(0, x)))
        }
    }
}

/// The instructions of a line.
pub(crate) fn line_code(line: &[Issued], alloc: Global) -> Result<Vec<Uop>, NoMemory>
    ensures { IfOk result (λ code. code.items ≡ line_code (issues line.now)) }
{
    let mut code = Vec::new(alloc);
    for issued in line {
        put_command(&mut code, issued)?;
    }
    Ok(code)
}

/// The test of the width n, which goes to a place where it is another.
pub(crate) fn test_code(n: u8, other: u16) -> [Uop; 8]
    ensures { result ≡ test_code n other }
{
    [
        Uop::SetN(0),
        Uop::SetI(1, u16::from(n)),
        Uop::Bnez(0, 4),
        Uop::Bnez(1, other),
        Uop::SubI(0, 1),
        Uop::SubI(1, 1),
        Uop::Bnez(1, 2),
        Uop::Bnez(0, other),
    ]
}

/// An instruction behind so many others.
fn moved_uop(by: u16, uop: Uop) -> Uop
    requires room { (size : ℕ) × HasOperands size uop × (size + by < 2 ^ 16) }
    ensures { result ≡ moved_uop by uop }
{
    match uop {
        Uop::Bnez(r, target) => Uop::Bnez(r, target + by),
        other => other,
    }
}

/// Appends an entry's own code behind so many instructions.
pub(crate) fn put_own<F: Fetch>(code: &mut Vec<Uop>, entry: &F, by: u16) -> Result<(), NoMemory>
    requires legal { IsLegalCode (F.shape entry.now) (F.code entry.now) }
    requires room { length (F.code entry.now) + by < 2 ^ 16 }
    ensures { OnOk result (code.new.items
        ≡ code.old.items ++ map (moved_uop by) (F.code entry.now)) }
{
    for at in 0..entry.len() {
        keep(code, moved_uop(by, entry.fetch(at)))?;
    }
    Ok(())
}
