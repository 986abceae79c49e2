//! The commands that load one file and put a text about it: `show`, `list` and `cost`.

ghost use Rattle.std.specs.Prelude.{◌≡◌, IfOk, IfErr, IfSome};
ghost use Rattle.dram_model.specs.View.{ChipView};
ghost use Rattle.op_print.specs.Canonical.{canonical_text};
ghost use Rattle.cli_model.specs.World.{world};
ghost use Rattle.cli_model.specs.Runs.{Runs};
ghost use Rattle.simdram_cli.specs.Plans.{said_of};
ghost use Rattle.simdram_cli.specs.Stops.{reason_of};
ghost use Rattle.simdram_cli.specs.Accounts.{ComesTo, HasWidths, IsAsked, account_named};
ghost use Rattle.simdram_cli.specs.Accounts.{StopsBefore};
ghost use Rattle.simdram_cli.specs.Accounts.{account_plan, program_plan, program_text, ops_plan};

use crate::completion::Completion;
use crate::load::{load, load_ops};
use crate::stop::Stop;
use crate::widths::Widths;
use crate::words::PROG_MAX;
use faults::NoMemory;
use host_edge::{Folder, Sink};
use op_print::print_ops;
use prog_text::{cost_text, list_text};
use std::alloc::Global;
use uprog_bin::ProgView;

/// What is told of a program: its listing, or what its entries cost at widths.
#[derive(Drop)]
pub enum ProgramAccount {
    Listing,
    Costs(Widths),
}

/// What is told of a file: the canonical text of its operations, or an account of its program.
#[derive(Drop)]
pub enum Account {
    Canonical,
    OfProgram(ProgramAccount),
}

/// The account that a word asks for, of the command on one file.
pub(crate) fn account_named(verb: &str) -> Option<Account>
    ensures value { result ≡ account_named verb.now }
    ensures widths { IfSome result HasWidths }
{
    if verb == "show" {
        Some(Account::Canonical)
    } else if verb == "list" {
        Some(Account::OfProgram(ProgramAccount::Listing))
    } else {
        None
    }
}

/// Loads OPS. The canonical text of its ops.
fn text_of_ops<'a, F: Folder>(
    name: &'a str,
    files: &mut F,
    alloc: Global,
) -> Result<Vec<u8>, Stop<'a>>
    ensures told { IfOk result (λ text. ComesTo (ops_plan canonical_text name.now) text.items
        (F.view files.old) (F.view files.new)) }
    ensures stopped { IfErr result (λ stop. StopsBefore (ops_plan canonical_text name.now)
        (reason_of stop) (F.view files.old) (F.view files.new)) }
{
    let ops = load_ops(name, files, alloc)?;
    let Ok(text) = print_ops(&ops, alloc) else {
        return Err(Stop::NoMemory);
    };
    Ok(text)
}

/// The account of an accepted program.
fn program_text(
    account: &ProgramAccount,
    prog: &ProgView<'_>,
    alloc: Global,
) -> Result<Vec<u8>, NoMemory>
    requires { IsAsked account.now }
    ensures { IfOk result (λ text. text.items ≡ program_text account.now prog.now.programs) }
{
    match account {
        ProgramAccount::Listing => list_text(prog, alloc),
        ProgramAccount::Costs(widths) => cost_text(prog, widths.as_slice(), alloc),
    }
}

/// Loads PROG. The account of its program.
fn text_of_program<'a, F: Folder>(
    name: &'a str,
    account: &ProgramAccount,
    files: &mut F,
    alloc: Global,
) -> Result<Vec<u8>, Stop<'a>>
    requires { IsAsked account.now }
    ensures told { IfOk result (λ text. ComesTo (program_plan name.now account.now) text.items
        (F.view files.old) (F.view files.new)) }
    ensures stopped { IfErr result (λ stop. StopsBefore (program_plan name.now account.now)
        (reason_of stop) (F.view files.old) (F.view files.new)) }
{
    let bytes = load(name, PROG_MAX, files, alloc)?;
    let prog = match ProgView::open(&bytes) {
        Ok(prog) => prog,
        Err(fault) => return Err(Stop::BadProg(fault)),
    };
    let Ok(text) = program_text(account, &prog, alloc) else {
        return Err(Stop::NoMemory);
    };
    Ok(text)
}

/// The text that an account of a file is.
fn account_text<'a, F: Folder>(
    name: &'a str,
    account: &Account,
    files: &mut F,
    alloc: Global,
) -> Result<Vec<u8>, Stop<'a>>
    requires { HasWidths account.now }
    ensures told { IfOk result (λ text. ComesTo (account_plan name.now account.now) text.items
        (F.view files.old) (F.view files.new)) }
    ensures stopped { IfErr result (λ stop. StopsBefore (account_plan name.now account.now)
        (reason_of stop) (F.view files.old) (F.view files.new)) }
{
    match account {
        Account::Canonical => text_of_ops(name, files, alloc),
        Account::OfProgram(account) => text_of_program(name, account, files, alloc),
    }
}

/// Loads the file, and puts the account of it. Nothing is refused.
pub(crate) fn give_account<'a, F: Folder, S: Sink>(
    name: &'a str,
    account: &Account,
    files: &mut F,
    out: &mut S,
    alloc: Global,
) -> Result<Completion, Stop<'a>>
    requires { HasWidths account.now }
    ensures { (chip : ChipView) → Runs (account_plan name.now account.now)
        (world (F.view files.old) (S.view out.old) chip)
        (world (F.view files.new) (S.view out.new) chip) (said_of result) }
{
    let text = account_text(name, account, files, alloc)?;
    if out.put(&text).is_err() {
        return Err(Stop::PutFailed);
    }
    Ok(Completion::AllDone)
}
