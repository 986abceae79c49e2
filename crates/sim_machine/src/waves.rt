//! A wave: bbops that run on their banks at once.

ghost use Rattle.std.specs.Prelude.{◌≡◌, ℕ, ◌+◌, ◌<◌, ◌≤◌, ◌^◌, ◌∷◌, [], ◌++◌, List, length, map};
ghost use Rattle.std.specs.Prelude.{Some, None, true, IfOk, IfErr, OnOk, OnErr};
ghost use Rattle.std.specs.List.{AllByRecursion};
ghost use Rattle.dram_model.specs.View.{HasBegun, Kept, Did};
ghost use Rattle.uprog_ctl.specs.Orders.{turn_of as state_of};
ghost use Rattle.uprog_ctl.specs.Waves.{CanRun, StoppedAmong, wave_job};
ghost use Rattle.bbop_isa.specs.Forms.{view_of};
ghost use Rattle.machine_model.specs.Agrees.{IsPlain};
ghost use Rattle.machine_model.specs.Routines.{routines_in};
ghost use Rattle.machine_model.specs.Pieces.{AreBbops, Wave, jobs_of, piece_events, turn_after};
ghost use Rattle.machine_model.specs.Pieces.{wave_queues};
ghost use Rattle.machine_model.specs.Refusals.{refusal};
ghost use Rattle.machine_model.specs.Script.{is_bbop};
ghost use Rattle.machine_model.specs.Steps.{counts_for, job_of, reply_to};
ghost use Rattle.object_steps.specs.Objects.{LiesOn};
ghost use Rattle.sim_machine.specs.Granted.{job_bound};

use crate::bbop::{Granted, Setting, grant};
use crate::refusal::Bbop;
use arrayvec::ArrayVec;
use bbop_isa::Instr;
use dram_model::{ChipFault, Dram};
use machine_model::{Reply, Why};
use uprog_bin::Entry;
use uprog_ctl::{Job, Order, run_wave};

/// What the bbop of an instruction is granted, or the first condition that refuses it.
fn grant_instr<'p>(setting: &Setting<'_, 'p>, instr: &Instr) -> Result<Granted<'p>, Why>
    requires lies { LiesOn setting.now.geometry setting.now.table.now }
    requires bbop { is_bbop (view_of instr.now) ≡ true }
    requires plain { IsPlain (view_of instr.now) }
    ensures refused { IfErr result (λ why. refusal setting.now.geometry
        (routines_in setting.now.prog.now.programs) setting.now.table.now.pairs
        (view_of instr.now) ≡ Some why) }
    ensures allowed { OnOk result (refusal setting.now.geometry
        (routines_in setting.now.prog.now.programs) setting.now.table.now.pairs
        (view_of instr.now) ≡ None) }
    ensures counts { IfOk result (λ granted. granted.counts
        ≡ counts_for setting.now.geometry (routines_in setting.now.prog.now.programs)
        setting.now.table.now.pairs (view_of instr.now)) }
    ensures job { IfOk result (λ granted. wave_job setting.now.geometry.rows
        (job_bound granted.job)
        ≡ job_of setting.now.geometry (routines_in setting.now.prog.now.programs)
        setting.now.table.now.pairs (view_of instr.now)) }
    ensures runs { IfOk result (λ granted. CanRun setting.now.geometry
        (job_bound granted.job)) }
{
    let Instr::Bbop {
        op,
        dst,
        srcs,
        count,
        n,
    } = instr
    else {
        unreachable!()
    };
    let bbop = Bbop {
        dst,
        srcs: srcs.as_slice(),
        count: *count,
        n: *n,
    };
    grant(setting, op, &bbop)
}

/// The replies to the bbops of a wave, and the jobs of those that are not refused.
#[derive(Drop)]
struct Plan<'p> {
    replies: ArrayVec<Reply, 16>,
    jobs: ArrayVec<Job<Entry<'p>>, 16>,
}

/// One more bbop.
fn add_bbop<'p>(plan: &mut Plan<'p>, setting: &Setting<'_, 'p>, instr: &Instr)
    requires lies { LiesOn setting.now.geometry setting.now.table.now }
    requires bbop { is_bbop (view_of instr.now) ≡ true }
    requires plain { IsPlain (view_of instr.now) }
    requires replies_room { length plan.old.replies.items < 16 }
    requires jobs_room { length plan.old.jobs.items < 16 }
    ensures replies { plan.new.replies.items ≡ plan.old.replies.items
        ++ reply_to setting.now.geometry (routines_in setting.now.prog.now.programs)
        setting.now.table.now.pairs (view_of instr.now) ∷ [] }
    ensures jobs { map (wave_job setting.now.geometry.rows) (map job_bound plan.new.jobs.items)
        ≡ map (wave_job setting.now.geometry.rows) (map job_bound plan.old.jobs.items)
        ++ jobs_of setting.now.geometry (routines_in setting.now.prog.now.programs)
        setting.now.table.now.pairs (view_of instr.now ∷ []) }
    ensures run { AllByRecursion (CanRun setting.now.geometry) (map job_bound plan.old.jobs.items)
        → AllByRecursion (CanRun setting.now.geometry) (map job_bound plan.new.jobs.items) }
    ensures few { length plan.new.jobs.items ≤ length plan.old.jobs.items + 1 }
{
    match grant_instr(setting, instr) {
        Err(why) => plan.replies.push(Reply::Refused(why)),
        Ok(granted) => {
            plan.replies.push(Reply::Done(granted.counts));
            plan.jobs.push(granted.job);
        }
    }
}

/// What comes of the bbops of a wave.
fn plan_of<'p>(setting: &Setting<'_, 'p>, instrs: &[Instr]) -> Plan<'p>
    requires lies { LiesOn setting.now.geometry setting.now.table.now }
    requires few { length instrs.now ≤ 16 }
    requires bbops { AreBbops (map view_of instrs.now) }
    requires plain { AllByRecursion IsPlain (map view_of instrs.now) }
    ensures replies { result.replies.items ≡ map (reply_to setting.now.geometry
        (routines_in setting.now.prog.now.programs) setting.now.table.now.pairs)
        (map view_of instrs.now) }
    ensures jobs { map (wave_job setting.now.geometry.rows) (map job_bound result.jobs.items)
        ≡ jobs_of setting.now.geometry (routines_in setting.now.prog.now.programs)
        setting.now.table.now.pairs (map view_of instrs.now) }
    ensures run { AllByRecursion (CanRun setting.now.geometry) (map job_bound result.jobs.items) }
    ensures few { length result.jobs.items ≤ 16 }
{
    let mut plan = Plan {
        replies: ArrayVec::new(),
        jobs: ArrayVec::new(),
    };
    for instr in instrs {
        add_bbop(&mut plan, setting, instr);
    }
    plan
}

/// Does bbops as one wave under the order in force, and answers each.
pub(crate) fn do_wave<D: Dram>(
    setting: &Setting<'_, '_>,
    order: &mut Order,
    instrs: &[Instr],
    dram: &mut D,
) -> Result<ArrayVec<Reply, 16>, ChipFault>
    requires lies { LiesOn setting.now.geometry setting.now.table.now }
    requires begun { HasBegun (D.view dram.old) }
    requires geometry { (D.view dram.old).geometry ≡ setting.now.geometry }
    requires few { length instrs.now ≤ 16 }
    requires bbops { AreBbops (map view_of instrs.now) }
    requires plain { AllByRecursion IsPlain (map view_of instrs.now) }
    requires aap_room { (D.view dram.old).counters.aap < 2 ^ 62 + 2 ^ 60 }
    requires ap_room { (D.view dram.old).counters.ap < 2 ^ 62 + 2 ^ 60 }
    ensures borrow { D.borrow dram.new ≡ D.borrow dram.old }
    ensures kept { Kept (D.view dram.old) (D.view dram.new) }
    ensures replies { IfOk result (λ replies. replies.items ≡ map (reply_to setting.now.geometry
        (routines_in setting.now.prog.now.programs) setting.now.table.now.pairs)
        (map view_of instrs.now)) }
    ensures turn { OnOk result (state_of order.new ≡ turn_after setting.now.geometry
        (routines_in setting.now.prog.now.programs) (state_of order.old)
        setting.now.table.now.pairs (Wave (map view_of instrs.now))) }
    ensures did { OnOk result (Did (piece_events setting.now.geometry
        (routines_in setting.now.prog.now.programs) (state_of order.old)
        setting.now.table.now.pairs (Wave (map view_of instrs.now))) (D.view dram.old)
        (D.view dram.new)) }
    ensures stopped { OnErr result (StoppedAmong (piece_events setting.now.geometry
        (routines_in setting.now.prog.now.programs) (state_of order.old)
        setting.now.table.now.pairs (Wave (map view_of instrs.now)))
        (wave_queues setting.now.geometry (routines_in setting.now.prog.now.programs)
        setting.now.table.now.pairs (map view_of instrs.now)) (D.view dram.old)
        (D.view dram.new)) }
{
    let Plan { replies, jobs } = plan_of(setting, instrs);
    run_wave(dram, jobs.as_slice(), order)?;
    Ok(replies)
}
