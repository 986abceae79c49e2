//! The values of a source.

ghost use Rattle.std.specs.Prelude.{◌≡◌, ◌≤◌, ◌<◌, ◌^◌, All, length};
ghost use Rattle.soak_job.specs.Words.{following, elements, values_of};

use bit_rows::Value;
use rand_xoshiro::SplitMix64;
use rand_xoshiro::rand_core::utils::NextWord;

/// How many elements each source has.
pub(crate) const ELEMENTS: usize = 256;

/// The generator's next words, each cut to so many bits.
pub(crate) fn draw(generator: &mut SplitMix64, bits: u8) -> [Value; ELEMENTS]
    requires { bits ≤ 64 }
    ensures values { result ≡ values_of generator.old bits }
    ensures following { generator.new ≡ following generator.old elements }
{
    let mut values = [0; ELEMENTS];
    for i in 0..ELEMENTS {
        values[i] = Value::from(generator.next_word()) % (1 << bits);
    }
    values
}
