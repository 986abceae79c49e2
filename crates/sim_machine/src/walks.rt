//! The program of a machine, and the walks of its entries that were done.

ghost use Rattle.std.specs.Prelude.{◌≡◌, ◌+◌, ◌*◌, ◌<◌, ◌≤◌, ℕ, length, map, Some, IfOk, IfSome};
ghost use Rattle.std.specs.Prelude.{IsErrOf, slice_get};
ghost use Rattle.std.specs.List.{AllByRecursion, find};
ghost use Rattle.std.specs.Option.{option_map};
ghost use Rattle.std.specs.Str.{bytes_eq};
ghost use Rattle.bbop_isa.specs.Forms.{view_of};
ghost use Rattle.machine_model.specs.Agrees.{IsPlain};
ghost use Rattle.uprog_bin.specs.Opened.{code_of, program_of};
ghost use Rattle.uprog_code.specs.Shape.{Microprogram};
ghost use Rattle.uprog_code.specs.Count.{walked};
ghost use Rattle.uprog_code.specs.Legal.{IsLegalCode};
ghost use Rattle.uprog_code.specs.Machine.{trace};

use crate::machine::StartNo;
use bbop_isa::Instr;
use bit_rows::WIDTH_MAX;
use std::alloc::Global;
use std::marker::Model;
use text_lex::Name;
use uprog_bin::{Entry, ProgView};
use uprog_code::{BadWalk, Counts, WALK_MAX, walk};

/// The widths from 0 to the greatest.
const WIDTHS: usize = 129;

/// What came of the walk of an entry, given by its place in the program, at a width.
#[derive(Clone, Copy)]
pub(crate) struct Walk {
    pub at: u16,
    pub n: u8,
    pub came: Result<Counts, BadWalk>,
}

/// A program, and the walks of its entries that were done so far. Each entry has room for one at
/// each width.
pub(crate) struct WalkedProgram<'a> {
    prog: ProgView<'a>,
    walks: Vec<Option<Walk>>,
}

impl Drop for WalkedProgram<'_> {
    fn drop(self) {
        let WalkedProgram { prog: _, walks: _ } = self;
    }
}

impl<'a> Model for WalkedProgram<'a> {
    ghost use Rattle.uprog_bin.specs.Opened.{File};
    ghost use Rattle.sim_machine.specs.Walks.{AreWalks};

    ghost Value = { File };

    ghost view = { λ p. p.prog };

    ghost invariant = { λ p. AreWalks p.prog.programs p.walks.items };
}

/// An entry, and its place in the program.
#[derive(Drop)]
pub(crate) struct Found<'a> {
    pub at: u16,
    pub entry: Entry<'a>,
}

/// The entry of this name.
fn entry_named<'a>(prog: &ProgView<'a>, op: &Name) -> Option<Found<'a>>
    ensures value { option_map (λ f. program_of f.entry) result
        ≡ find (λ m. bytes_eq m.name op.now) prog.now.programs }
    ensures place { IfSome result (λ f. slice_get prog.now.programs f.at
        ≡ Some (program_of f.entry)) }
    ensures legal { IfSome result (λ f. IsLegalCode f.entry.shape (code_of f.entry)) }
{
    match prog.find(op) {
        Some(at) => Some(Found {
            at,
            entry: prog.entry(at),
        }),
        None => None,
    }
}

/// Where the walk of an entry at a width is kept.
fn slot(at: u16, n: u8) -> usize
    ensures { result ≡ 129 * at + n }
{
    WIDTHS * usize::from(at) + usize::from(n)
}

impl<'a> WalkedProgram<'a> {
    /// The program with no walk yet. It takes the memory for all of them.
    pub fn new(prog: ProgView<'a>, alloc: Global) -> Result<WalkedProgram<'a>, StartNo>
        ensures program { IfOk result (λ p. p ≡ prog.entry) }
        ensures failed { IsErrOf result StartNo.ChipFault → ⊥ }
    {
        match vec![in alloc; None; WIDTHS * usize::from(prog.entries())] {
            Ok(walks) => Ok(WalkedProgram { prog, walks }),
            Err(_) => Err(StartNo::NoMemory),
        }
    }

    /// The entry of this name.
    pub fn find(&self, op: &Name) -> Option<Found<'a>>
        ensures value { option_map (λ f. program_of f.entry) result
            ≡ find (λ m. bytes_eq m.name op.now) self.now.programs }
        ensures place { IfSome result (λ f. slice_get self.now.programs f.at
            ≡ Some (program_of f.entry)) }
        ensures legal { IfSome result (λ f. IsLegalCode f.entry.shape (code_of f.entry)) }
    {
        entry_named(&self.prog, op)
    }

    /// The walk of an entry at a width, where it is kept. Its slot tells whose it has.
    fn kept(&self, at: u16, n: u8) -> Option<Result<Counts, BadWalk>>
        requires place { at < length self.now.programs }
        requires narrow { n ≤ WIDTH_MAX }
        ensures value { (m : Microprogram) → slice_get self.now.programs at ≡ Some m
            → IfSome result (λ came. walked (trace m.shape m.code n) ≡ came) }
        ensures few { IfSome result (λ came. IfOk came (λ counts. counts.aap + counts.ap
            ≤ WALK_MAX)) }
    {
        let Some(walk) = self.walks[slot(at, n)] else {
            return None;
        };
        if walk.at == at && walk.n == n {
            Some(walk.came)
        } else {
            None
        }
    }

    /// What comes of the walk of an entry at a width: what is kept, or a new walk.
    pub fn walk(&self, found: &Found<'_>, n: u8) -> Result<Counts, BadWalk>
        requires place { slice_get self.now.programs found.now.at
            ≡ Some (program_of found.now.entry) }
        requires legal { IsLegalCode found.now.entry.shape (code_of found.now.entry) }
        requires some { 0 < n }
        requires narrow { n ≤ WIDTH_MAX }
        ensures value { result ≡ walked (trace found.now.entry.shape (code_of found.now.entry) n) }
        ensures few { IfOk result (λ counts. counts.aap + counts.ap ≤ WALK_MAX) }
    {
        match self.kept(found.at, n) {
            Some(came) => came,
            None => walk(&found.entry, n),
        }
    }

    /// Walks the entry of this name at a width, and keeps what comes of it, unless it is kept.
    fn learn(&mut self, op: &Name, n: u8)
        requires some { 0 < n }
        requires narrow { n ≤ WIDTH_MAX }
        ensures { self.new ≡ self.old }
    {
        let Some(at) = self.prog.find(op) else {
            return;
        };
        if self.kept(at, n).is_none() {
            let came = walk(&self.prog.entry(at), n);
            self.walks[slot(at, n)] = Some(Walk { at, n, came });
        }
    }

    /// Keeps the walks of these bbops.
    pub fn learn_all(&mut self, instrs: &[Instr])
        requires plain { AllByRecursion IsPlain (map view_of instrs.now) }
        ensures { self.new ≡ self.old }
    {
        for instr in instrs {
            if let Instr::Bbop { op, n, .. } = instr {
                self.learn(op, *n);
            }
        }
    }
}
