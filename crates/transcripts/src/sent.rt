//! What a chip was sent, bank by bank and in which order.

use crate::said::Said;
use dram_chip::Command;

/// What a bank was sent: a row command, or the number of a row that the host wrote.
#[derive(Clone, Copy, PartialEq, Eq)]
pub enum Sent {
    Command(u16, Command),
    Write(u16, u16),
}

fn bank_of(sent: &Sent) -> u16 {
    match sent {
        Sent::Command(bank, _) => *bank,
        Sent::Write(bank, _) => *bank,
    }
}

/// The bank of a row command at a place.
fn commanded(sent: &[Sent], place: usize) -> Option<u16> {
    match sent.get(place) {
        Some(Sent::Command(bank, _)) => Some(*bank),
        _ => None,
    }
}

/// The bank and the row of a write at a place.
fn written(sent: &[Sent], place: usize) -> Option<(u16, u16)> {
    match sent.get(place) {
        Some(Sent::Write(bank, row)) => Some((*bank, *row)),
        _ => None,
    }
}

/// How many commands come first whose banks are those of the commands so many places before.
fn commands(sent: &[Sent], period: usize) -> usize {
    let mut count: usize = 0;
    for place in 0..sent.len() {
        let own = commanded(sent, place);
        let before = match place.checked_sub(period) {
            Some(before) => commanded(sent, before),
            None => own,
        };
        if own.is_none() || own != before {
            break;
        }
        count = count.saturating_add(1);
    }
    count
}

/// How many writes come first that are of the rows one after another of a bank.
fn writes(sent: &[Sent]) -> usize {
    let mut count: usize = 0;
    let mut next: Option<(u16, u16)> = None;
    for place in 0..sent.len() {
        let own = written(sent, place);
        if own.is_none() || 0 < count && own != next {
            break;
        }
        next = match own {
            Some((bank, row)) => Some((bank, row.wrapping_add(1))),
            None => None,
        };
        count = count.saturating_add(1);
    }
    count
}

/// Says ` w0/3`, or ` w0/0..127` of more rows than one.
fn put_writes(said: &mut Said, bank: u16, row: u16, count: usize) {
    said.put(" w");
    said.put_item(bank);
    said.put("/");
    said.put_item(row);
    if count > 1 {
        said.put("..");
        said.put_item(usize::from(row).saturating_add(count).saturating_sub(1));
    }
}

/// Says ` c0*16`.
fn put_commands(said: &mut Said, bank: u16, count: usize) {
    said.put(" c");
    said.put_item(bank);
    said.put("*");
    said.put_item(count);
}

/// Says ` (c0 c1)*7`.
fn put_turns(said: &mut Said, first: u16, second: u16, count: usize) {
    said.put(" (c");
    said.put_item(first);
    said.put(" c");
    said.put_item(second);
    said.put(")*");
    said.put_item(count);
}

/// Says the first items, and gives how many they are.
fn put_first(said: &mut Said, sent: &[Sent]) -> usize {
    if let Some((bank, row)) = written(sent, 0) {
        let count = writes(sent);
        put_writes(said, bank, row, count);
        return count;
    }
    let (one, two) = (commands(sent, 1), commands(sent, 2) / 2);
    let first = commanded(sent, 0).unwrap_or(0);
    if one == 1
        && two > 1
        && let Some(second) = commanded(sent, 1)
    {
        put_turns(said, first, second, two);
        return two.saturating_mul(2);
    }
    put_commands(said, first, one);
    one
}

/// Says in which order the banks were sent what.
pub fn put_order(said: &mut Said, sent: &[Sent]) {
    said.put("=");
    let mut rest = sent;
    for _item in 0..sent.len() {
        if rest.is_empty() {
            break;
        }
        let count = put_first(said, rest);
        rest = rest.get(count..).unwrap_or(&[]);
    }
    said.put("\n");
}

/// The first place, from one on, of an item that the bank was sent.
fn next_on(bank: u16, sent: &[Sent], from: usize) -> usize {
    let mut place = from;
    for item in sent.get(from..).unwrap_or(&[]) {
        if bank_of(item) == bank {
            break;
        }
        place = place.saturating_add(1);
    }
    place
}

/// Whether a bank was sent the same in both.
fn is_same_on(bank: u16, one: &[Sent], other: &[Sent]) -> bool {
    let mut place: usize = 0;
    for item in one {
        if bank_of(item) == bank {
            place = next_on(bank, other, place);
            if other.get(place) != Some(item) {
                return false;
            }
            place = place.saturating_add(1);
        }
    }
    next_on(bank, other, place) == other.len()
}

/// Whether each bank was sent the same in both.
fn is_same_on_each(one: &[Sent], other: &[Sent]) -> bool {
    for bank in 0..16u16 {
        if !is_same_on(bank, one, other) {
            return false;
        }
    }
    one.len() == other.len()
}

/// How what was sent compares with an earlier list.
pub fn put_comparison(said: &mut Said, kept: &[Sent], sent: &[Sent]) {
    said.put_line(if kept == sent {
        "= the same"
    } else if is_same_on_each(kept, sent) {
        "= the same on each bank, in another order"
    } else {
        "= other"
    });
}
