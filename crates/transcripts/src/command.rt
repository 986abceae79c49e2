//! A command: the words of a `$` line, and what came of them.

use crate::cases::lines_of;
use crate::chip::ListeningChip;
use crate::numbers::{put_items, split_words};
use crate::said::Said;
use crate::stop::LineError;
use crate::world::World;
use host_edge::{MemFolder, MemSink};
use simdram_cli::simdram;
use std::alloc::{AllocError, Global};

/// Four lines and more that are numbered one after another and else alike are said as one.
const ALIKE: usize = 4;

/// Does the command in the folder of the world, and says its status, what it sent and which files
/// it stored.
pub fn do_command(world: &mut World, text: &str, said: &mut Said) -> Result<(), LineError> {
    let mut names = Vec::new(world.alloc);
    split_words(text, &mut names)?;
    in_folder(world, &names, said)
}

/// Does it in a folder of its own.
fn in_folder(world: &mut World, names: &[&str], said: &mut Said) -> Result<(), LineError> {
    let mut folder = MemFolder::new(world.alloc);
    in_filled(world, names, &mut folder, said)
}

fn in_filled(
    world: &mut World,
    names: &[&str],
    folder: &mut MemFolder,
    said: &mut Said,
) -> Result<(), LineError> {
    world.fill(folder)?;
    into_sink(world, names, folder, said)?;
    take_stored(world, names, folder, said)
}

/// Does it with a sink of its own.
fn into_sink(
    world: &mut World,
    names: &[&str],
    folder: &mut MemFolder,
    said: &mut Said,
) -> Result<(), LineError> {
    let mut out = MemSink::new(world.alloc);
    into_failing(world, names, folder, &mut out, said)
}

fn into_failing(
    world: &mut World,
    names: &[&str],
    folder: &mut MemFolder,
    out: &mut MemSink,
    said: &mut Said,
) -> Result<(), LineError> {
    world.set_failing(out)?;
    let status = on_chip(world, names, folder, out);
    said.put("= ");
    said.put_item(status);
    said.put("\n");
    put_sent(said, out.bytes(), world.alloc)
}

/// Does it on a chip of its own; the status.
fn on_chip(world: &mut World, names: &[&str], folder: &mut MemFolder, out: &mut MemSink) -> u8 {
    let mut chip = ListeningChip::new(world.take_failing(), world.alloc);
    let status = simdram(names, folder, out, &mut chip, world.alloc);
    world.hear(chip.take_heard(world.alloc));
    status
}

/// Takes each file over whose bytes the command changed, and says its name and length. A file that
/// is no word of the command has to be as before.
fn take_stored(
    world: &mut World,
    names: &[&str],
    folder: &MemFolder,
    said: &mut Said,
) -> Result<(), LineError> {
    for name in names {
        if let Some(bytes) = folder.file(name)
            && world.file(name) != Some(bytes)
        {
            world.set(name, bytes)?;
            said.put("+ ");
            said.put(name);
            said.put(" ");
            said.put_item(bytes.len());
            said.put("\n");
        }
    }
    if !world.is_as_in(folder) {
        said.put("= a file that is no word of the command was changed\n");
    }
    Ok(())
}

/// Says what was sent, line by line.
fn put_sent(said: &mut Said, bytes: &[u8], alloc: Global) -> Result<(), LineError> {
    let Ok(text) = str::from_utf8(bytes) else {
        said.put("= no text was sent\n");
        return Ok(());
    };
    put_text(said, text, alloc)?;
    if !text.is_empty() && !text.ends_with('\n') {
        said.put("= no end of the last line\n");
    }
    Ok(())
}

fn put_text(said: &mut Said, text: &str, alloc: Global) -> Result<(), AllocError> {
    let lines = lines_of(text, alloc)?;
    put_lines(said, &lines, alloc)
}

fn put_lines(said: &mut Said, lines: &[&str], alloc: Global) -> Result<(), AllocError> {
    let mut rest = lines;
    for _line in 0..lines.len() {
        let Some(first) = rest.first() else { break };
        let count = numbered_alike(rest);
        if let Some((number, tail)) = numbered(first)
            && ALIKE <= count
        {
            put_numbered(said, number, count, tail);
            rest = rest.get(count..).unwrap_or(&[]);
        } else {
            put_line(said, first, alloc)?;
            rest = rest.get(1..).unwrap_or(&[]);
        }
    }
    Ok(())
}

/// Says lines that are numbered one after another as one.
fn put_numbered(said: &mut Said, number: u64, count: usize, tail: &str) {
    said.put("> ");
    said.put_item(number);
    said.put("..");
    said.put_item(number.wrapping_add(count as u64).wrapping_sub(1));
    said.put(" ");
    said.put_line(tail);
}

/// Says a line, words that are alike only once.
fn put_line(said: &mut Said, line: &str, alloc: Global) -> Result<(), AllocError> {
    let mut words = Vec::new(alloc);
    for word in line.split(' ') {
        words.push(word)?;
    }
    said.put("> ");
    put_items(said, &words);
    said.put("\n");
    Ok(())
}

/// The number before a line's first blank, and what follows that.
fn numbered(line: &str) -> Option<(u64, &str)> {
    let (number, tail) = line.split_once(' ')?;
    match number.parse() {
        Ok(number) => Some((number, tail)),
        Err(_) => None,
    }
}

/// How many of the first lines are numbered one after another, and else alike.
fn numbered_alike(lines: &[&str]) -> usize {
    let mut count: usize = 0;
    let mut next: Option<(u64, &str)> = None;
    for line in lines {
        let own = numbered(line);
        if own.is_none() || 0 < count && own != next {
            break;
        }
        next = match own {
            Some((number, tail)) => Some((number.wrapping_add(1), tail)),
            None => None,
        };
        count = count.saturating_add(1);
    }
    count
}
