//! Numbers that a generator draws: the same ones of the same seed on every machine.

use rand_xoshiro::Xoshiro256PlusPlus;
use rand_xoshiro::rand_core::SeedableRng;
use rand_xoshiro::rand_core::utils::NextWord;

/// A generator, and what is left of its last word.
#[derive(Drop)]
pub struct Draws {
    generator: Xoshiro256PlusPlus,
    word: u64,
    left: u8,
}

/// How many numbers one word gives, of 16 bits each.
const PARTS: u8 = 4;

impl Draws {
    pub fn new(seed: u64) -> Draws {
        Draws {
            generator: Xoshiro256PlusPlus::seed_from_u64(seed),
            word: 0,
            left: 0,
        }
    }

    /// A word of 64 drawn bits.
    pub fn word(&mut self) -> u64 {
        self.generator.next_word()
    }

    /// 128 drawn bits.
    pub fn wide(&mut self) -> u128 {
        u128::from(self.word()) << 64 | u128::from(self.word())
    }

    /// A number below the count, which is at most 2^16; 0 where the count is 0.
    #[inline(always)]
    pub fn below(&mut self, count: usize) -> usize {
        if self.left == 0 {
            self.word = self.generator.next_word();
            self.left = PARTS;
        }
        self.left -= 1;
        let part = self.word & 0xFFFF;
        self.word >>= 16;
        (part.wrapping_mul(count as u64) >> 16) as usize
    }

    /// The same of a number of one byte.
    #[inline(always)]
    pub fn byte(&mut self, count: u8) -> u8 {
        (self.below(usize::from(count)) & 0xFF) as u8
    }

    /// Whether one of two equal chances comes.
    #[inline(always)]
    pub fn coin(&mut self) -> bool {
        self.below(2) == 1
    }

    /// A drawn one of the items, or another where there are none.
    #[inline(always)]
    pub fn one_of(&mut self, items: &[u8], other: u8) -> u8 {
        match items.get(self.below(items.len())) {
            Some(item) => *item,
            None => other,
        }
    }
}
