//! Where a bank stands in its queue, and the way to its next command.

ghost use Rattle.std.specs.Prelude.{◌≡◌, ℕ, ◌<◌, ◌≤◌, ◌^◌, [], ◌∷◌, ◌++◌, List, length, map, drop};
ghost use Rattle.std.specs.Prelude.{true, false, MatchOption, All, slice_index_or};
ghost use Rattle.uprog_code.specs.Shape.{shape_of};
ghost use Rattle.uprog_code.specs.Machine.{start};
ghost use Rattle.uprog_ctl.specs.Waves.{bound_job, bound_jobs, CanRun, job_queues};
ghost use Rattle.uprog_ctl.specs.Cursors.{bank_commands, StandsIn, Finds, left_after};
ghost use Rattle.uprog_ctl.specs.Cursors.{StandsInFirst};
ghost use Rattle.uprog_ctl.specs.Cursors.{AreHeads, IsAt, AreAt, MovesOn};

use crate::waves::Job;
use arrayvec::ArrayVec;
use dram_model::{Addr, Command, Geometry};
use uprog_code::{Fetch, Head, Kind, Name, WALK_MAX, Walk, next_command};

/// A bank that has commands left: the next one, and the job and the place after it.
#[derive(Clone, Copy, PartialEq, Eq)]
pub(crate) struct Cursor {
    pub bank: u16,
    pub next: Command,
    pub job: usize,
    pub walk: Walk,
}

impl Cursor {
    /// A bank before its first job.
    fn before(bank: u16) -> Cursor
        ensures bank { result.bank ≡ bank }
        ensures job { result.job ≡ 0 }
        ensures walk { result.walk ≡ record { pc = 0; regs = start; left = WALK_MAX } }
    {
        Cursor {
            bank,
            next: Command::Ap(Addr::B(0)),
            job: 0,
            walk: Walk::start(),
        }
    }
}

impl Default for Cursor {
    fn default() -> Self {
        Cursor::before(0)
    }
}

/// The head of a job's entry.
#[derive(Drop)]
pub(crate) struct JobHead {
    pub head: Head,
}

impl Default for JobHead {
    fn default() -> Self {
        JobHead {
            head: Head {
                name: Name::default(),
                sources: ArrayVec::new(),
                result: Kind::Word,
                second: None,
                bits: 0,
                words: 0,
            },
        }
    }
}

/// The heads of the jobs' entries.
pub(crate) fn heads_of<F: Fetch>(jobs: &[Job<F>]) -> ArrayVec<JobHead, 16>
    requires { length jobs.now ≤ 16 }
    ensures { AreHeads F.shape jobs.now result.items }
{
    let mut heads = ArrayVec::new();
    for job in jobs {
        heads.push(JobHead {
            head: job.entry.head(),
        });
    }
    heads
}

/// A bank's first row command in a job, from a place on; the place goes past it. None where the
/// bank does not run the job, or the microprogram ends before one.
#[inline(always)]
fn seek<F: Fetch>(
    job: &Job<F>,
    head: &Head,
    g: Geometry,
    bank: u16,
    walk: &mut Walk,
) -> Option<Command>
    requires run { CanRun g (bound_job F.shape F.code job.now) }
    requires head { shape_of head.now ≡ F.shape job.now.entry }
    requires stands { StandsIn (bound_job F.shape F.code job.now) walk.old }
    ensures { MatchOption result
        (bank_commands g.rows bank (bound_job F.shape F.code job.now) walk.old ≡ [])
        (Finds g.rows bank (bound_job F.shape F.code job.now) walk.old walk.new) }
{
    if bank >= job.banks {
        return None;
    }
    next_command(&job.entry, head, g.rows, &job.binding, walk)
}

/// Moves a bank on to its next command; false where it has none left. The bank stands in one of the
/// jobs, at a place of its code.
#[inline(always)]
fn move_on<F: Fetch>(jobs: &[Job<F>], heads: &[JobHead], g: Geometry, cursor: &mut Cursor) -> bool
    requires jobs { All (CanRun g) (bound_jobs F.shape F.code jobs.now) }
    requires heads { AreHeads F.shape jobs.now heads.now }
    requires stands { StandsInFirst (drop cursor.old.job (bound_jobs F.shape F.code jobs.now))
        cursor.old.walk }
    ensures bank { cursor.new.bank ≡ cursor.old.bank }
    ensures next { result ≡ true → IsAt g.rows (bound_jobs F.shape F.code jobs.now)
        (left_after g.rows (bound_jobs F.shape F.code jobs.now) cursor.old) cursor.new }
    ensures none { result ≡ false
        → left_after g.rows (bound_jobs F.shape F.code jobs.now) cursor.old ≡ [] }
{
    let bank = cursor.bank;
    for i in cursor.job..jobs.len() {
        let job = &jobs[i];
        let head = &heads[i].head;
        if let Some(next) = seek(job, head, g, bank, &mut cursor.walk) {
            cursor.next = next;
            cursor.job = i;
            return true;
        }
        cursor.walk = Walk::start();
    }
    false
}

/// The banks that have commands left, upwards, each before its first one.
pub(crate) fn first_cursors<F: Fetch>(
    jobs: &[Job<F>],
    heads: &[JobHead],
    g: Geometry,
) -> ArrayVec<Cursor, 16>
    requires few { g.banks ≤ 16 }
    requires jobs { All (CanRun g) (bound_jobs F.shape F.code jobs.now) }
    requires heads { AreHeads F.shape jobs.now heads.now }
    ensures { AreAt g.banks g.rows (bound_jobs F.shape F.code jobs.now)
        (job_queues g.rows (bound_jobs F.shape F.code jobs.now)) result.items }
{
    let mut cursors = ArrayVec::new();
    for bank in 0..g.banks {
        let mut cursor = Cursor::before(bank);
        if move_on(jobs, heads, g, &mut cursor) {
            cursors.push(cursor);
        }
    }
    cursors
}

/// The bank of the k-th cursor goes on after its command; it is no longer among them where it has
/// none left.
#[inline(always)]
pub(crate) fn go_on<F: Fetch>(
    jobs: &[Job<F>],
    heads: &[JobHead],
    g: Geometry,
    cursors: &mut ArrayVec<Cursor, 16>,
    k: usize,
)
    requires jobs { All (CanRun g) (bound_jobs F.shape F.code jobs.now) }
    requires heads { AreHeads F.shape jobs.now heads.now }
    requires k { k < length cursors.old.items }
    requires stands { (d : Cursor) → StandsInFirst (drop (slice_index_or cursors.old.items k d).job
        (bound_jobs F.shape F.code jobs.now)) (slice_index_or cursors.old.items k d).walk }
    ensures { MovesOn g.rows (bound_jobs F.shape F.code jobs.now) cursors.old.items k
        cursors.new.items }
{
    if move_on(jobs, heads, g, &mut cursors.as_mut_slice()[k]) {
        return;
    }
    cursors.remove(k);
}
