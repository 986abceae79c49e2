//! Image files: their numbers and rows, and images that are made of numbers.

use crate::numbers::decimal;
use crate::plain::{drawn, next_word, ones};
use crate::stop::LineError;
use std::alloc::Global;

/// Bytes before the records of the objects, and of a record.
const HEAD: usize = 14;

const RECORD: usize = 24;

/// Banks, rows of a bank, words of a row, and objects.
#[derive(Clone, Copy)]
struct Shape {
    banks: usize,
    rows: usize,
    words: usize,
    objects: usize,
}

/// An object's first row, its rows, and its elements.
#[derive(Clone, Copy)]
pub struct Object {
    base: usize,
    pub width: usize,
    pub count: usize,
}

fn byte_at(bytes: &[u8], place: usize) -> usize {
    match bytes.get(place) {
        Some(byte) => usize::from(*byte),
        None => 0,
    }
}

/// The number in so many bytes, the low byte first.
fn number_at(bytes: &[u8], place: usize, size: usize) -> usize {
    let mut number: usize = 0;
    for k in (0..size).rev() {
        let byte = byte_at(bytes, place.saturating_add(k));
        number = number.wrapping_mul(256).wrapping_add(byte);
    }
    number
}

fn shape_of(image: &[u8]) -> Shape {
    Shape {
        banks: number_at(image, 6, 2),
        rows: number_at(image, 8, 2),
        words: number_at(image, 10, 2),
        objects: number_at(image, 12, 2),
    }
}

impl Shape {
    /// Where the rows begin.
    fn start(self) -> usize {
        self.objects.saturating_mul(RECORD).saturating_add(HEAD)
    }

    /// The columns of a row.
    fn columns(self) -> usize {
        self.words.saturating_mul(64)
    }

    /// Where a row of a bank begins.
    fn row(self, bank: usize, row: usize) -> usize {
        let before = self.rows.saturating_mul(bank).saturating_add(row);
        before
            .saturating_mul(self.words)
            .saturating_mul(8)
            .saturating_add(self.start())
    }

    /// The byte of element e's bit k, and the bit's place in it.
    fn bit(self, object: Object, e: usize, k: usize) -> (usize, usize) {
        let bank = e.checked_div(self.columns()).unwrap_or(0);
        let column = e.checked_rem(self.columns()).unwrap_or(0);
        let row = self.row(bank, object.base.saturating_add(k));
        (row.saturating_add(column / 8), column % 8)
    }
}

/// The object whose record is the one of this number.
fn object_at(image: &[u8], k: usize) -> Object {
    let record = k.saturating_mul(RECORD).saturating_add(HEAD);
    Object {
        width: byte_at(image, record.saturating_add(17)),
        base: number_at(image, record.saturating_add(18), 2),
        count: number_at(image, record.saturating_add(20), 4),
    }
}

/// Whether the record of this number has the name.
fn has_name(image: &[u8], k: usize, name: &str) -> bool {
    let record = k.saturating_mul(RECORD).saturating_add(HEAD);
    let rest = image.get(record.saturating_add(1)..).unwrap_or(&[]);
    byte_at(image, record) == name.len() && rest.starts_with(name.as_bytes())
}

/// The object of a name.
pub fn object_of(image: &[u8], name: &str) -> Result<Object, LineError> {
    for k in 0..shape_of(image).objects {
        if has_name(image, k, name) {
            return Ok(object_at(image, k));
        }
    }
    Err(LineError::Unread)
}

/// The number of an object's element e.
pub fn number_of(image: &[u8], object: Object, e: usize) -> u128 {
    let shape = shape_of(image);
    let mut number: u128 = 0;
    for k in (0..object.width).rev() {
        let (place, bit) = shape.bit(object, e, k);
        let one = byte_at(image, place) >> (bit % 8) & 1;
        number = number.wrapping_add(number).wrapping_add(one as u128);
    }
    number
}

/// The numbers of an object's elements.
pub fn numbers_in(image: &[u8], object: Object, alloc: Global) -> Result<Vec<u128>, LineError> {
    let mut numbers = Vec::new(alloc);
    for e in 0..object.count {
        numbers.push(number_of(image, object, e))?;
    }
    Ok(numbers)
}

/// Makes the file an image of so many banks, rows and words, without objects and with zero rows.
pub fn put_empty_image(file: &mut Vec<u8>, shape: [u16; 3]) -> Result<(), LineError> {
    file.extend_from_slice(b"SDMI\x01\x00")?;
    for number in shape {
        file.extend_from_slice(&number.to_le_bytes())?;
    }
    file.extend_from_slice(&[0, 0])?;
    let end = shape_of(file).row(usize::from(shape[0]), 0);
    file.resize(end, 0)?;
    Ok(())
}

/// The row after those of the last object.
fn next_base(image: &[u8]) -> usize {
    match shape_of(image).objects.checked_sub(1) {
        Some(last) => {
            let object = object_at(image, last);
            object.base.saturating_add(object.width)
        }
        None => 0,
    }
}

/// An object as a case writes it: its name, its width, how many elements it has, and the numbers of
/// its first elements, or the seed of numbers for all.
#[derive(Clone, Copy)]
struct Given<'a> {
    name: &'a str,
    width: u8,
    count: u32,
    numbers: &'a str,
    seed: &'a str,
}

/// How many numbers stand between commas.
fn listed(numbers: &str) -> Result<u32, LineError> {
    let mut count: u32 = 0;
    if !numbers.is_empty() {
        for _number in numbers.split(',') {
            count = count.checked_add(1).ok_or(LineError::Unread)?;
        }
    }
    Ok(count)
}

/// The object of `NAME:WIDTH=NUMBERS`, `NAME:WIDTH/COUNT`, `NAME:WIDTH/COUNT=NUMBERS`, or
/// `NAME:WIDTH/COUNT~SEED` of drawn numbers.
fn given_of(text: &str) -> Result<Given<'_>, LineError> {
    let (name, rest) = text.split_once(':').ok_or(LineError::Unread)?;
    let (front, numbers) = rest.split_once('=').unwrap_or((rest, ""));
    let (size, seed) = front.split_once('~').unwrap_or((front, ""));
    let (width, count) = size.split_once('/').unwrap_or((size, ""));
    let width = decimal(width)?;
    let listed = listed(numbers)?;
    let count = if count.is_empty() {
        listed
    } else {
        decimal(count)?
    };
    let is_fit = 0 < width && width <= 128 && name.len() <= 16 && listed <= count;
    if !is_fit || !numbers.is_empty() && !seed.is_empty() {
        return Err(LineError::Unread);
    }
    Ok(Given {
        name,
        width,
        count,
        numbers,
        seed,
    })
}

/// The record of an object.
fn record_of(given: &Given<'_>, base: usize) -> [u8; RECORD] {
    let mut record = [0u8; RECORD];
    record[0] = u8::try_from(given.name.len()).unwrap_or(0);
    for (place, byte) in record
        .iter_mut()
        .skip(1)
        .zip(given.name.as_bytes().iter().take(16))
    {
        *place = *byte;
    }
    record[17] = given.width;
    let rest = base.to_le_bytes().into_iter().take(2);
    let count = given.count.to_le_bytes();
    for (place, byte) in record.iter_mut().skip(18).zip(rest.chain(count)) {
        *place = byte;
    }
    record
}

/// Whether bit k of a number is 1.
fn is_one(number: u128, k: usize) -> bool {
    let place = u32::try_from(k).unwrap_or(u32::MAX);
    number.checked_shr(place).unwrap_or(0) % 2 == 1
}

/// Sets a bit of a byte.
fn set_bit(image: &mut [u8], place: usize, bit: usize) {
    if let Some(byte) = image.get_mut(place) {
        *byte |= 1 << (bit % 8);
    }
}

/// Sets element e, which is 0, to a number.
fn set_number(image: &mut [u8], object: Object, e: usize, number: u128) {
    let shape = shape_of(image);
    for k in 0..object.width {
        if is_one(number, k) {
            let (place, bit) = shape.bit(object, e, k);
            set_bit(image, place, bit);
        }
    }
}

/// Sets the first elements to the numbers between commas, each of which its width can hold.
fn set_listed(image: &mut [u8], object: Object, given: &Given<'_>) -> Result<(), LineError> {
    for (e, number) in given.numbers.split(',').enumerate() {
        let number = decimal(number)?;
        if ones(given.width) < number {
            return Err(LineError::Unread);
        }
        set_number(image, object, e, number);
    }
    Ok(())
}

/// Sets all elements to numbers drawn with the seed.
fn set_drawn(image: &mut [u8], object: Object, given: &Given<'_>) -> Result<(), LineError> {
    let seed: u64 = decimal(given.seed)?;
    let mut word = seed;
    for e in 0..object.count {
        word = next_word(word);
        set_number(image, object, e, drawn(given.width, seed, e as u64, word));
    }
    Ok(())
}

/// Adds the record after the others, and one to the number of objects.
fn add_record(image: &mut Vec<u8>, record: [u8; RECORD]) -> Result<(), LineError> {
    let start = shape_of(image).start();
    if image.len() < start {
        return Err(LineError::Unread);
    }
    let rows = image.split_off(start)?;
    image.extend_from_slice(&record)?;
    image.extend_from_slice(&rows)?;
    let count = shape_of(image).objects.saturating_add(1).to_le_bytes();
    for (place, byte) in image.iter_mut().skip(12).take(2).zip(count) {
        *place = byte;
    }
    Ok(())
}

/// Adds an object after the last one's rows.
pub fn add_object(image: &mut Vec<u8>, text: &str) -> Result<(), LineError> {
    let given = given_of(text)?;
    add_record(image, record_of(&given, next_base(image)))?;
    let object = object_at(image, shape_of(image).objects.saturating_sub(1));
    if !given.seed.is_empty() {
        set_drawn(image, object, &given)
    } else if !given.numbers.is_empty() {
        set_listed(image, object, &given)
    } else {
        Ok(())
    }
}

/// The bytes of a row of a bank.
pub fn row_place(image: &[u8], bank: usize, row: usize) -> (usize, usize) {
    let shape = shape_of(image);
    (shape.row(bank, row), shape.words.saturating_mul(8))
}

/// How many banks an image has, and how many rows a bank.
pub fn banks_and_rows(image: &[u8]) -> (usize, usize) {
    let shape = shape_of(image);
    (shape.banks, shape.rows)
}
