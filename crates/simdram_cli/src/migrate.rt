//! The command `migrate`.

ghost use Rattle.dram_model.specs.View.{ChipView};
ghost use Rattle.cli_model.specs.World.{world};
ghost use Rattle.cli_model.specs.Runs.{Runs};
ghost use Rattle.simdram_cli.specs.Migrate.{migrate_plan};
ghost use Rattle.simdram_cli.specs.Plans.{said_of};

use crate::completion::Completion;
use crate::counted::put_counted;
use crate::load::load;
use crate::stop::Stop;
use crate::words::{MigrateNames, PROG_MAX};
use host_edge::{Folder, Sink};
use std::alloc::Global;

/// Stores the version 2 file of OLD's program as NEW, and puts how many entries it has. Nothing is
/// refused.
pub(crate) fn migrate<'a, F: Folder, S: Sink>(
    names: &MigrateNames<'a>,
    files: &mut F,
    out: &mut S,
    alloc: Global,
) -> Result<Completion, Stop<'a>>
    ensures { (chip : ChipView) → Runs (migrate_plan names.now)
        (world (F.view files.old) (S.view out.old) chip)
        (world (F.view files.new) (S.view out.new) chip) (said_of result) }
{
    let mut bytes = load(names.old, PROG_MAX, files, alloc)?;
    let entries = match uprog_bin::migrate(&mut bytes) {
        Ok(entries) => entries,
        Err(fault) => return Err(Stop::BadProg(fault)),
    };
    if files.store(names.new, &bytes).is_err() {
        return Err(Stop::CannotWrite(names.new));
    }
    if put_counted(b"migrated ", usize::from(entries), out).is_err() {
        return Err(Stop::PutFailed);
    }
    Ok(Completion::AllDone)
}
