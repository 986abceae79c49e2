//! Files are loaded and read.

ghost use Rattle.std.specs.Prelude.{◌≡◌, ◌<◌, ◌≤◌, ◌+◌, length, map, IfOk, IfErr};
ghost use Rattle.std.specs.List.{AllByRecursion};
ghost use Rattle.bbop_isa.specs.Forms.{view_of};
ghost use Rattle.op_text.specs.Language.{operations};
ghost use Rattle.op_text.specs.Spelling.{MeetRules};
ghost use Rattle.machine_model.specs.Agrees.{IsPlain};
ghost use Rattle.simdram_cli.specs.Inputs.{ops_in, script_in};
ghost use Rattle.cli_model.specs.Reads.{LoadedAs, NotLoaded, NotRead, ReadAs};
ghost use Rattle.simdram_cli.specs.Reads.{OpsRead};
ghost use Rattle.simdram_cli.specs.Stops.{reason_of};

use crate::stop::Stop;
use crate::words::{OPS_MAX, SCRIPT_MAX};
use bbop_isa::{Instr, ScriptNo, parse_script};
use host_edge::{Folder, LoadNo};
use op_lang::parse_ops;
use op_text::{Ops, OpsNo};
use std::alloc::Global;

/// Loads a file of at most so many bytes.
pub(crate) fn load<'a, F: Folder>(
    name: &'a str,
    limit: u64,
    files: &mut F,
    alloc: Global,
) -> Result<Vec<u8>, Stop<'a>>
    ensures loaded { IfOk result (λ bytes. LoadedAs name.now limit bytes.items (F.view files.old)
        (F.view files.new)) }
    ensures kept { (F.view files.new).holds ≡ (F.view files.old).holds }
    ensures within { IfOk result (λ bytes. length bytes.items ≤ limit) }
    ensures failed { IfErr result (λ stop. NotLoaded name.now limit (reason_of stop)
        (F.view files.old) (F.view files.new)) }
{
    match files.load(name, limit, alloc) {
        Ok(bytes) => Ok(bytes),
        Err(LoadNo::Failed) => Err(Stop::CannotRead(name)),
        Err(LoadNo::TooLong) => Err(Stop::TooLong(name)),
        Err(LoadNo::NoMemory) => Err(Stop::NoMemory),
    }
}

/// Loads OPS, with its ops.
pub(crate) fn load_ops<'a, F: Folder>(
    name: &'a str,
    files: &mut F,
    alloc: Global,
) -> Result<Ops, Stop<'a>>
    ensures read { IfOk result (λ ops. OpsRead name.now (operations ops) (F.view files.old)
        (F.view files.new)) }
    ensures meets { IfOk result (λ ops. MeetRules (operations ops)) }
    ensures not_read { IfErr result (λ stop. NotRead ops_in name.now OPS_MAX (reason_of stop)
        (F.view files.old) (F.view files.new)) }
{
    let text = load(name, OPS_MAX, files, alloc)?;
    match parse_ops(&text, alloc) {
        Ok(ops) => Ok(ops),
        Err(OpsNo::Fault(fault)) => Err(Stop::BadOps(fault)),
        Err(OpsNo::NoMemory) => Err(Stop::NoMemory),
    }
}

/// Loads SCRIPT, with its instructions.
pub(crate) fn load_script<'a, F: Folder>(
    name: &'a str,
    files: &mut F,
    alloc: Global,
) -> Result<Vec<Instr>, Stop<'a>>
    ensures read { IfOk result (λ script. ReadAs script_in name.now SCRIPT_MAX
        (map view_of script.items) (F.view files.old) (F.view files.new)) }
    ensures plain { IfOk result (λ script. AllByRecursion IsPlain (map view_of script.items)) }
    ensures few { IfOk result (λ script. length script.items ≤ SCRIPT_MAX + 1) }
    ensures not_read { IfErr result (λ stop. NotRead script_in name.now SCRIPT_MAX (reason_of stop)
        (F.view files.old) (F.view files.new)) }
{
    let text = load(name, SCRIPT_MAX, files, alloc)?;
    match parse_script(&text, alloc) {
        Ok(script) => Ok(script),
        Err(ScriptNo::Fault(fault)) => Err(Stop::BadScript(fault)),
        Err(ScriptNo::NoMemory) => Err(Stop::NoMemory),
    }
}
