//! What the lines of a case do.

use crate::command::do_command;
use crate::images::{
    add_object, banks_and_rows, number_of, numbers_in, object_of, put_empty_image, row_place,
};
use crate::numbers::{decimal, hex_byte, put_hex_bytes, put_items, put_unescaped};
use crate::plain::value;
use crate::said::Said;
use crate::sent::{put_comparison, put_order};
use crate::stop::LineError;
use crate::tables::{fill, range_of};
use crate::world::World;
use std::alloc::Global;
use std::str::SplitWhitespace;

/// What the rows after a line are.
#[derive(Clone, Copy)]
pub enum Rows {
    /// There are none.
    No,
    /// Lines of a text.
    Lines,
    /// Bytes.
    Bytes,
    /// Objects of an image.
    Objects,
}

/// The first word, and the rest.
fn first_word(text: &str) -> (&str, &str) {
    text.split_once(' ').unwrap_or((text, ""))
}

/// What the rows after a line are, and the file that they are for.
pub fn rows_after(line: &str) -> (Rows, &str) {
    let (verb, rest) = first_word(line);
    let (name, _tail) = first_word(rest);
    let rows = match verb {
        "file" => Rows::Lines,
        "hex" => Rows::Bytes,
        "image" => Rows::Objects,
        _ => Rows::No,
    };
    (rows, name)
}

/// Does a line, and says what came.
pub fn do_line(world: &mut World, line: &str, said: &mut Said) -> Result<(), LineError> {
    let (verb, rest) = first_word(line);
    let (name, tail) = first_word(rest);
    match verb {
        "$" => do_command(world, rest, said),
        "file" | "text" | "hex" | "image" | "copy" | "each" => make(world, verb, name, tail),
        "row" | "cut" | "pad" | "drop" | "set" => change(world, verb, name, tail),
        "fails" => fail(world, name, tail),
        "order" | "keep" | "compare" if rest.is_empty() => ask_of_chip(world, verb, said),
        _ => ask(world, verb, name, tail, said),
    }
}

/// A line that makes a file.
fn make(world: &mut World, verb: &str, name: &str, tail: &str) -> Result<(), LineError> {
    match verb {
        "text" => set_text(world, name, tail),
        "hex" => put_hex_bytes(world.begun(name)?, tail),
        "image" => make_image(world, name, tail),
        "each" => append_each(world, name, tail),
        "copy" if is_word(tail) => world.copy(name, tail),
        "file" if tail.is_empty() => match world.begun(name) {
            Ok(_file) => Ok(()),
            Err(stop) => Err(stop),
        },
        _ => Err(LineError::Unread),
    }
}

/// A line that changes a file.
fn change(world: &mut World, verb: &str, name: &str, tail: &str) -> Result<(), LineError> {
    let file = world.changed(name)?;
    match verb {
        "row" => set_row(file, tail),
        "cut" => cut(file, tail),
        "pad" => pad(file, tail),
        "drop" => drop_first(file, tail),
        _ => set_bytes(file, tail),
    }
}

fn is_word(text: &str) -> bool {
    !text.is_empty() && !text.contains(' ')
}

/// Does a row: appends it to the file that the line before it names.
pub fn do_row(world: &mut World, rows: Rows, name: &str, row: &str) -> Result<(), LineError> {
    let file = world.changed(name)?;
    match rows {
        Rows::No => Err(LineError::Unread),
        Rows::Lines => {
            file.extend_from_slice(row.as_bytes())?;
            file.push(b'\n')?;
            Ok(())
        }
        Rows::Bytes => put_hex_bytes(file, row),
        Rows::Objects => add_objects(file, row),
    }
}

fn add_objects(image: &mut Vec<u8>, objects: &str) -> Result<(), LineError> {
    for object in objects.split_whitespace() {
        add_object(image, object)?;
    }
    Ok(())
}

/// `text NAME TEXT`.
fn set_text(world: &mut World, name: &str, text: &str) -> Result<(), LineError> {
    let mut plain = Said::new(world.alloc);
    set_unescaped(world.begun(name)?, text, &mut plain)
}

fn set_unescaped(file: &mut Vec<u8>, text: &str, plain: &mut Said) -> Result<(), LineError> {
    put_unescaped(plain, text)?;
    file.extend_from_slice(plain.whole()?.as_bytes())?;
    Ok(())
}

/// `image NAME BANKSxROWSxWORDS OBJECTS`.
fn make_image(world: &mut World, name: &str, tail: &str) -> Result<(), LineError> {
    let (shape, objects) = first_word(tail);
    let (banks, rest) = shape.split_once('x').ok_or(LineError::Unread)?;
    let (rows, words) = rest.split_once('x').ok_or(LineError::Unread)?;
    let shape = [decimal(banks)?, decimal(rows)?, decimal(words)?];
    let image = world.begun(name)?;
    put_empty_image(image, shape)?;
    add_objects(image, objects)
}

/// `row IMAGE BANK/ROW BYTES`, the first columns first.
fn set_row(image: &mut Vec<u8>, tail: &str) -> Result<(), LineError> {
    let (place, bytes) = first_word(tail);
    let (bank, row) = place.split_once('/').ok_or(LineError::Unread)?;
    let (bank, row) = (decimal(bank)?, decimal(row)?);
    let (banks, rows) = banks_and_rows(image);
    if banks <= bank || rows <= row {
        return Err(LineError::Unread);
    }
    let (start, size) = row_place(image, bank, row);
    let written = match bytes.split_once('#') {
        Some((front, _)) => front,
        None => bytes,
    };
    let mut end = start.saturating_add(size);
    end = end.min(image.len());
    let mut place = start;
    for pair in written.split_whitespace() {
        if end <= place {
            return Err(LineError::Unread);
        }
        *image.get_mut(place).ok_or(LineError::Unread)? = hex_byte(pair)?;
        place = place.saturating_add(1);
    }
    if place == start {
        Err(LineError::Unread)
    } else {
        Ok(())
    }
}

/// `fails chip|folder|sink CALLS`, counted from 1.
fn fail(world: &mut World, part: &str, tail: &str) -> Result<(), LineError> {
    for call in tail.split_whitespace() {
        world.fail(part, call)?;
    }
    if tail.is_empty() {
        Err(LineError::Unread)
    } else {
        Ok(())
    }
}

/// `each FILE A..B TEXT`: appends the text for each number, with the number for `{}`.
fn append_each(world: &mut World, name: &str, tail: &str) -> Result<(), LineError> {
    let (range, text) = first_word(tail);
    let range = range_of(range).ok_or(LineError::Unread)?;
    if world.file(name).is_none() {
        world.begun(name)?;
    }
    let mut plain = Said::new(world.alloc);
    append_unescaped(world, name, range, text, &mut plain)
}

fn append_unescaped(
    world: &mut World,
    name: &str,
    range: (u64, u64),
    text: &str,
    plain: &mut Said,
) -> Result<(), LineError> {
    put_unescaped(plain, text)?;
    let mut pieces = Said::new(world.alloc);
    put_each(&mut pieces, range, plain.whole()?, world.alloc);
    world
        .changed(name)?
        .extend_from_slice(pieces.whole()?.as_bytes())?;
    Ok(())
}

fn put_each(pieces: &mut Said, range: (u64, u64), text: &str, alloc: Global) {
    let mut number = Said::new(alloc);
    for k in range.0..=range.1 {
        number.clear();
        number.put_item(k);
        fill(pieces, text, number.as_str());
    }
}

/// `pad FILE BYTES`: zero bytes follow until it has so many.
fn pad(file: &mut Vec<u8>, tail: &str) -> Result<(), LineError> {
    let size: usize = decimal(tail)?;
    if file.len() < size {
        file.resize(size, 0)?;
    }
    Ok(())
}

/// `drop FILE BYTES`: leaves its first bytes, so many, out.
fn drop_first(file: &mut Vec<u8>, tail: &str) -> Result<(), LineError> {
    let count: usize = decimal(tail)?;
    if file.len() < count {
        return Err(LineError::Unread);
    }
    *file = file.split_off(count)?;
    Ok(())
}

/// `cut FILE BYTES`: leaves its first bytes, so many.
fn cut(file: &mut Vec<u8>, tail: &str) -> Result<(), LineError> {
    file.truncate(decimal(tail)?);
    Ok(())
}

/// `set FILE PLACE=BYTE ..`: changes bytes, or adds one at the end.
fn set_bytes(file: &mut Vec<u8>, tail: &str) -> Result<(), LineError> {
    for change in tail.split_whitespace() {
        let (place, byte) = change.split_once('=').ok_or(LineError::Unread)?;
        let (place, byte) = (decimal(place)?, hex_byte(byte)?);
        if place == file.len() {
            file.push(byte)?;
        } else {
            *file.get_mut(place).ok_or(LineError::Unread)? = byte;
        }
    }
    if tail.is_empty() {
        Err(LineError::Unread)
    } else {
        Ok(())
    }
}

/// A line that asks what the chip was sent.
fn ask_of_chip(world: &mut World, verb: &str, said: &mut Said) -> Result<(), LineError> {
    match verb {
        "keep" => world.keep(),
        "order" => {
            put_order(said, world.heard()?);
            Ok(())
        }
        _ => {
            put_comparison(said, world.kept()?, world.heard()?);
            Ok(())
        }
    }
}

/// A line that asks of a file.
fn ask(
    world: &World,
    verb: &str,
    name: &str,
    tail: &str,
    said: &mut Said,
) -> Result<(), LineError> {
    match verb {
        "numbers" => put_numbers(world.existing(name)?, tail, said, world),
        "plain" => compare_plain(world.existing(name)?, tail, said),
        "bytes" => put_bytes(world.existing(name)?, tail, said),
        "same" => put_same(world.existing(name)?, world.existing(tail)?, said),
        "rows" if tail.is_empty() => put_rows(world.existing(name)?, said),
        "size" if tail.is_empty() => put_size(world.file(name), said),
        _ => Err(LineError::Unread),
    }
}

/// `numbers IMAGE OBJECT`.
fn put_numbers(
    image: &[u8],
    object: &str,
    said: &mut Said,
    world: &World,
) -> Result<(), LineError> {
    let numbers = numbers_in(image, object_of(image, object)?, world.alloc)?;
    said.put("= ");
    put_items(said, &numbers);
    said.put("\n");
    Ok(())
}

/// The next word of a line.
fn next_of<'a>(words: &mut SplitWhitespace<'a>) -> Result<&'a str, LineError> {
    words.next().ok_or(LineError::Unread)
}

/// `plain IMAGE RESULT OPERATION WORD WORD BIT`: in how many columns the result is the operation's
/// value on the sources, by plain arithmetic.
fn compare_plain(image: &[u8], tail: &str, said: &mut Said) -> Result<(), LineError> {
    let mut words = tail.split_whitespace();
    let result = object_of(image, next_of(&mut words)?)?;
    let operation = next_of(&mut words)?;
    let a = object_of(image, next_of(&mut words)?)?;
    let b = object_of(image, next_of(&mut words)?)?;
    let s = object_of(image, next_of(&mut words)?)?;
    if words.next().is_some() {
        return Err(LineError::Unread);
    }
    let n = u8::try_from(a.width).unwrap_or(0);
    let mut right: usize = 0;
    for e in 0..result.count {
        let (first, second) = (number_of(image, a, e), number_of(image, b, e));
        let found = number_of(image, result, e);
        if found == value(operation, n, first, second, number_of(image, s, e))? {
            right = right.saturating_add(1);
        }
    }
    said.put("= ");
    said.put_item(right);
    said.put(" of ");
    said.put_item(result.count);
    said.put("\n");
    Ok(())
}

/// `rows IMAGE`: each row that is not zero, as `BANK/ROW` and its bytes.
fn put_rows(image: &[u8], said: &mut Said) -> Result<(), LineError> {
    let (banks, rows) = banks_and_rows(image);
    let before = said.as_str().len();
    for place in 0..banks.saturating_mul(rows) {
        let bank = place.checked_div(rows).unwrap_or(0);
        put_row(image, bank, place.checked_rem(rows).unwrap_or(0), said)?;
    }
    if said.as_str().len() == before {
        said.put_line("= each is zero");
    }
    Ok(())
}

fn put_row(image: &[u8], bank: usize, row: usize, said: &mut Said) -> Result<(), LineError> {
    let (start, size) = row_place(image, bank, row);
    let bytes = image
        .get(start..start.saturating_add(size))
        .ok_or(LineError::Unread)?;
    if has_one(bytes) {
        said.put("= ");
        said.put_item(bank);
        said.put("/");
        said.put_item(row);
        put_hex(bytes, said);
    }
    Ok(())
}

/// Whether a byte is not zero.
fn has_one(bytes: &[u8]) -> bool {
    for byte in bytes {
        if *byte != 0 {
            return true;
        }
    }
    false
}

fn put_hex(bytes: &[u8], said: &mut Said) {
    for byte in bytes {
        said.put(" ");
        said.put_hex(*byte);
    }
    said.put("\n");
}

/// `bytes FILE FIRST END`: from the first place on up to the end.
fn put_bytes(file: &[u8], tail: &str, said: &mut Said) -> Result<(), LineError> {
    let (first, end) = first_word(tail);
    let bytes = file
        .get(decimal(first)?..decimal(end)?)
        .ok_or(LineError::Unread)?;
    said.put("=");
    put_hex(bytes, said);
    Ok(())
}

/// `size FILE`.
fn put_size(file: Option<&[u8]>, said: &mut Said) -> Result<(), LineError> {
    match file {
        Some(bytes) => {
            said.put("= ");
            said.put_item(bytes.len());
            said.put(" bytes\n");
        }
        None => said.put("= absent\n"),
    }
    Ok(())
}

/// `same FILE OTHER`.
fn put_same(file: &[u8], other: &[u8], said: &mut Said) -> Result<(), LineError> {
    said.put_line(if file == other {
        "= the same"
    } else {
        "= not the same"
    });
    Ok(())
}
