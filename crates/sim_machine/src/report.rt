//! The lines of a report.

ghost use Rattle.std.specs.Prelude.{◌≡◌, ◌+◌, ◌≤◌, ◌++◌, codes, decimal, length, map, OnOk, OnErr};
ghost use Rattle.host_edge.specs.Views.{Known, AppendsPart};
ghost use Rattle.faults.specs.Counts.{Rose};
ghost use Rattle.machine_model.specs.Report.{Said, at_number, walk_word, why_text, line, lines};
ghost use Rattle.machine_model.specs.Report.{total_line};

use arrayvec::ArrayVec;
use dram_model::Counters;
use host_edge::{Failed, Sink};
use itoa::Buffer;
use machine_model::{Reply, Why};
use uprog_code::Why3;

/// A line of an instruction.
pub(crate) type Line = ArrayVec<u8, 80>;

/// The line of the totals.
pub(crate) type Total = ArrayVec<u8, 160>;

/// Appends bytes that there is room for.
fn add<const N: usize>(text: &mut ArrayVec<u8, N>, piece: &[u8])
    requires { length text.old.items + length piece.now ≤ N }
    ensures text { text.new.items ≡ text.old.items ++ piece.now }
    ensures length { length text.new.items ≡ length text.old.items + length piece.now }
{
    text.try_extend_from_slice(piece).unwrap()
}

/// Appends a number in decimal.
fn add_number<const N: usize>(text: &mut ArrayVec<u8, N>, number: u64)
    requires { length text.old.items + 20 ≤ N }
    ensures text { text.new.items ≡ text.old.items ++ decimal number }
    ensures length { length text.new.items ≤ length text.old.items + 20 }
{
    let mut buffer = Buffer::new();
    add(text, buffer.format(number).as_bytes());
}

/// Appends a word and a place.
fn add_place<const N: usize>(text: &mut ArrayVec<u8, N>, word: &[u8], place: u32)
    requires { length text.old.items + length word.now + 21 ≤ N }
    ensures text { text.new.items ≡ text.old.items ++ at_number word.now place }
    ensures length { length text.new.items ≤ length text.old.items + length word.now + 21 }
{
    add(text, word);
    add(text, b" ");
    add_number(text, u64::from(place));
}

/// Appends why a walk is stuck.
fn add_walk<const N: usize>(text: &mut ArrayVec<u8, N>, why: Why3)
    requires { length text.old.items + 8 ≤ N }
    ensures text { text.new.items ≡ text.old.items ++ walk_word why }
    ensures length { length text.new.items ≤ length text.old.items + 8 }
{
    match why {
        Why3::Index => add(text, b"index"),
        Why3::Register => add(text, b"register"),
        Why3::Budget => add(text, b"budget"),
    }
}

/// Appends why an instruction is refused.
fn add_why<const N: usize>(text: &mut ArrayVec<u8, N>, why: Why)
    requires { length text.old.items + 40 ≤ N }
    ensures text { text.new.items ≡ text.old.items ++ why_text why }
    ensures length { length text.new.items ≤ length text.old.items + 40 }
{
    match why {
        Why::NoOp => add(text, b"no_op"),
        Why::Arity => add(text, b"arity"),
        Why::NoObject(place) => add_place(text, b"no_object", place),
        Why::Slice(place) => add_place(text, b"slice", place),
        Why::Width(place) => add_place(text, b"width", place),
        Why::Size(place) => add_place(text, b"size", place),
        Why::Overlap(place) => add_place(text, b"overlap", place),
        Why::BadWalk(walk) => {
            add_place(text, b"bad_walk", u32::from(walk.at));
            add(text, b" ");
            add_walk(text, walk.why);
        }
        Why::NoRows => add(text, b"no_rows"),
        Why::Exists => add(text, b"exists"),
        Why::TableFull => add(text, b"table_full"),
        Why::TooLarge => add(text, b"too_large"),
        Why::Count => add(text, b"count"),
        Why::Range(place) => add_place(text, b"range", place),
    }
}

/// The line of a reply.
fn reply_line(number: u64, reply: Reply) -> Line
    ensures { result.items ≡ line number (Said.Answered reply) }
{
    let mut text = ArrayVec::new();
    add_number(&mut text, number);
    add(&mut text, b" ");
    match reply {
        Reply::Done(counts) => {
            add(&mut text, b"ok aap=");
            add_number(&mut text, counts.aap);
            add(&mut text, b" ap=");
            add_number(&mut text, counts.ap);
        }
        Reply::Refused(why) => {
            add(&mut text, b"refused ");
            add_why(&mut text, why);
        }
    }
    add(&mut text, b"\n");
    text
}

/// Puts the line of a reply.
fn put_line<S: Sink>(number: u64, reply: Reply, out: &mut S) -> Result<(), Failed>
    ensures faults { (S.view out.old).faults ≤ (S.view out.new).faults }
    ensures unfailed { OnOk result ((S.view out.new).faults ≡ (S.view out.old).faults) }
    ensures sent { OnOk result (Known (λ before after. after
        ≡ before ++ line number (Said.Answered reply)) (S.view out.old).sent
        (S.view out.new).sent) }
    ensures part { OnErr result (Known (AppendsPart (line number (Said.Answered reply)))
        (S.view out.old).sent (S.view out.new).sent) }
    ensures rose { OnErr result (Rose (S.view out.old).faults (S.view out.new).faults) }
{
    let text = reply_line(number, reply);
    out.put(text.as_slice())
}

/// Puts the line of one instruction's reply.
pub fn put_reply<S: Sink>(number: u32, reply: Reply, out: &mut S) -> Result<(), Failed>
    ensures faults { (S.view out.old).faults ≤ (S.view out.new).faults }
    ensures unfailed { OnOk result ((S.view out.new).faults ≡ (S.view out.old).faults) }
    ensures sent { OnOk result (Known (λ before after. after
        ≡ before ++ line number (Said.Answered reply)) (S.view out.old).sent
        (S.view out.new).sent) }
    ensures part { OnErr result (Known (AppendsPart (line number (Said.Answered reply)))
        (S.view out.old).sent (S.view out.new).sent) }
    ensures rose { OnErr result (Rose (S.view out.old).faults (S.view out.new).faults) }
{
    put_line(u64::from(number), reply, out)
}

/// Puts the lines of replies, of which the first has this number.
pub(crate) fn put_lines<S: Sink>(number: u32, replies: &[Reply], out: &mut S) -> Result<(), Failed>
    requires { length replies.now ≤ 16 }
    ensures faults { (S.view out.old).faults ≤ (S.view out.new).faults }
    ensures unfailed { OnOk result ((S.view out.new).faults ≡ (S.view out.old).faults) }
    ensures sent { OnOk result (Known (λ before after. after
        ≡ before ++ lines number (map Said.Answered replies.now)) (S.view out.old).sent
        (S.view out.new).sent) }
    ensures part { OnErr result (Known (AppendsPart
        (lines number (map Said.Answered replies.now))) (S.view out.old).sent
        (S.view out.new).sent) }
    ensures rose { OnErr result (Rose (S.view out.old).faults (S.view out.new).faults) }
{
    let mut next = u64::from(number);
    for reply in replies {
        put_line(next, *reply, out)?;
        next += 1;
    }
    Ok(())
}

/// The line of the totals.
pub(crate) fn total(tally: Counters, refused: u64) -> Total
    ensures { result.items ≡ total_line tally refused }
{
    let mut text = ArrayVec::new();
    add(&mut text, b"total aap=");
    add_number(&mut text, tally.aap);
    add(&mut text, b" ap=");
    add_number(&mut text, tally.ap);
    add(&mut text, b" writes=");
    add_number(&mut text, tally.writes);
    add(&mut text, b" reads=");
    add_number(&mut text, tally.reads);
    add(&mut text, b" refused=");
    add_number(&mut text, refused);
    add(&mut text, b"\n");
    text
}
