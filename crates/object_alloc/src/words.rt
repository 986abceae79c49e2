//! Rows as words and as bytes.

ghost use Rattle.std.specs.Prelude.{◌≡◌, ◌+◌, ◌*◌, ◌≤◌, ◌++◌, length, vec_len, vec_capacity};
ghost use Rattle.bit_rows.specs.Bits.{bits, bits_of_words};
ghost use Rattle.object_alloc.specs.Bytes.{bits_of_bytes, bytes_of_bits};

use crate::spelling::append;

fn word_of_bytes(bytes: &[u8]) -> u64
    requires { length bytes.now ≡ 8 }
    ensures { bits result 64 ≡ bits_of_bytes bytes.now }
{
    u64::from_le_bytes([
        bytes[0], bytes[1], bytes[2], bytes[3], bytes[4], bytes[5], bytes[6], bytes[7],
    ])
}

/// The words of a row from its bytes, the low byte of each word first.
pub fn words_of_bytes(bytes: &[u8], words: &mut [u64])
    requires { length bytes.now ≡ 8 * length words.old }
    ensures length { length words.new ≡ length words.old }
    ensures bits { bits_of_words words.new ≡ bits_of_bytes bytes.now }
{
    for i in 0..words.len() {
        words[i] = word_of_bytes(&bytes[8 * i..8 * i + 8]);
    }
}

/// Appends the bytes of a row's words, the low byte of each first. There has to be room for them,
/// so that it takes no
/// memory.
pub fn bytes_of_words(words: &[u64], out: &mut Vec<u8>)
    requires { vec_len out.old + 8 * length words.now ≤ vec_capacity out.old }
    ensures items { out.new.items ≡ out.old.items
        ++ bytes_of_bits (8 * length words.now) (bits_of_words words.now) }
    ensures len { vec_len out.new ≡ vec_len out.old + 8 * length words.now }
    ensures room { vec_capacity out.old ≤ vec_capacity out.new }
{
    for word in words {
        append(out, &word.to_le_bytes());
    }
}
