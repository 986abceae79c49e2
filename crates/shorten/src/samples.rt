//! Assignments of the sources: all of them where these have few bits, and else drawn ones.

use crate::draws::Draws;
use crate::names::Names;
use crate::roles::Span;
use crate::value::{UNKNOWN, Value, ZERO};
use faults::{NoMemory, keep};
use std::alloc::Global;

/// 64 assignments: bit k of one is that of source k.
pub type Page = [u128; 64];

/// The most bits of which the samples are all assignments, and the most of which a comparison goes
/// through all.
const MOST_SAMPLED: u8 = 10;

const MOST_COMPARED: u8 = 16;

/// How many pages of samples there are of more bits.
const DRAWN_PAGES: usize = 16;

/// How many pages a comparison draws where it cannot go through all assignments.
const COMPARED_PAGES: u64 = 1_024;

/// The sources' bits, and the assignments that the samples must have.
pub struct Samples {
    words: Vec<Span>,
    bits: u8,
    failed: Vec<u128>,
}

impl Drop for Samples {
    fn drop(self) {
        let Samples {
            words: _,
            bits: _,
            failed: _,
        } = self;
    }
}

/// So many bits, all set.
fn ones(count: u16) -> u128 {
    if count < 128 {
        (1u128 << count).wrapping_sub(1)
    } else {
        u128::MAX
    }
}

/// A number shifted left, without the bits that are lost.
fn left(bits: u128, by: u16) -> u128 {
    if by < 128 { bits << by } else { 0 }
}

/// The values of what stands for no command: of what is not known, of C0 and of the sources.
pub fn fixed_of(page: &Page, sources: u8, alloc: Global) -> Result<Vec<Value>, NoMemory> {
    let mut values = Vec::new(alloc);
    keep(&mut values, UNKNOWN)?;
    keep(&mut values, ZERO)?;
    for source in 0..sources {
        keep(&mut values, Value::of_bits(column_of(page, source)))?;
    }
    Ok(values)
}

/// A source's bits under each assignment.
fn column_of(page: &Page, source: u8) -> u64 {
    let mut column = 0u64;
    for (k, bits) in page.iter().enumerate() {
        let bit = (*bits >> (source % 128) & 1) as u64;
        column |= bit << (k as u64 % 64);
    }
    column
}

impl Samples {
    pub fn new(sources: &[Span], names: &Names, alloc: Global) -> Result<Samples, NoMemory> {
        let mut words = Vec::new(alloc);
        for span in sources {
            keep(&mut words, *span)?;
        }
        Ok(Samples {
            words,
            bits: names.sources(),
            failed: Vec::new(alloc),
        })
    }

    /// Whether the samples are all assignments.
    pub fn are_all(&self) -> bool {
        self.bits <= MOST_SAMPLED
    }

    /// How many pages of samples there are.
    pub fn pages(&self) -> usize {
        match self.bits {
            0..=6 => 1,
            7 => 2,
            8 => 4,
            9 => 8,
            _ => DRAWN_PAGES,
        }
    }

    /// How many pages a comparison has.
    pub fn compared(&self) -> u64 {
        if self.bits > MOST_COMPARED {
            COMPARED_PAGES
        } else {
            1 << self.bits.saturating_sub(6)
        }
    }

    /// A page of a comparison.
    pub fn page(&self, number: u64, draws: &mut Draws) -> Page {
        let mut page = [0u128; 64];
        for k in 0..64usize {
            page[k] = if self.bits > MOST_COMPARED {
                self.drawn(draws)
            } else {
                u128::from(number.wrapping_mul(64).wrapping_add(k as u64)) & ones(self.bits.into())
            };
        }
        page
    }

    /// Remembers an assignment under which a program failed. The oldest go.
    pub fn remember(&mut self, assignment: u128) -> Result<(), NoMemory> {
        if self.failed.len() >= DRAWN_PAGES * 32 && !self.failed.is_empty() {
            let _oldest = self.failed.remove(0);
        }
        keep(&mut self.failed, assignment)
    }

    /// The pages of samples: each has as many of the assignments that failed.
    pub fn sampled(&self, draws: &mut Draws, alloc: Global) -> Result<Vec<Page>, NoMemory> {
        let pages = self.pages();
        let mut sampled = vec![in alloc; [0u128; 64]; pages]?;
        for k in 0..pages * 64 {
            let bits = self.sample(k, draws);
            // The low bits of a number are mixed into the page, so that a page has all of them.
            let place = (k ^ k / pages ^ k / pages / pages) % pages;
            if let Some(page) = sampled.get_mut(place) {
                page[k / pages % 64] = bits;
            }
        }
        Ok(sampled)
    }

    /// The sample of this number.
    fn sample(&self, k: usize, draws: &mut Draws) -> u128 {
        if self.are_all() {
            return k as u128 & ones(self.bits.into());
        }
        match self.failed.get(k) {
            Some(bits) => *bits,
            None => self.drawn(draws),
        }
    }

    /// A drawn assignment. Numbers that are equal, near, small or powers of two come often.
    fn drawn(&self, draws: &mut Draws) -> u128 {
        let kind = draws.below(8);
        let mut bits = 0u128;
        let mut at = 0u16;
        let mut last = draws.wide();
        for word in &self.words {
            last = drawn_word(kind, word.count, last, draws) & ones(word.count);
            bits |= left(last, at);
            at = at.saturating_add(word.count);
        }
        bits
    }
}

/// A drawn number of so many bits, after the last one.
fn drawn_word(kind: usize, count: u16, last: u128, draws: &mut Draws) -> u128 {
    let drawn = draws.wide();
    let place = (draws.below(usize::from(count)) & 0xFFFF) as u16;
    match kind {
        1 => drawn & draws.wide(),
        2 => drawn | draws.wide(),
        3 => (drawn & ones(count)) >> (place % 128),
        4 => last,
        5 => last ^ left(1, place),
        6 => left(1, place),
        7 if draws.coin() => 0,
        7 if draws.coin() => u128::MAX,
        _ => drawn,
    }
}
