//! Single fields of a file.

ghost use Rattle.std.specs.Prelude.{◌≡◌, ◌+◌, ◌<◌, ◌≤◌, ◌^◌, length, IfOk, OnOk};
ghost use Rattle.std.specs.Int.{w8, w16, w32};
ghost use Rattle.file_fields.specs.Fields.{Gives, bytes_at as bytes_at_place, number_at};
ghost use Rattle.file_fields.specs.Fields.{is_between};

use crate::faults::{FileFault, fault};

/// So many bytes from a place on. A file that ends before breaks `short` at its length.
pub fn bytes_at<K: Copy>(
    bytes: &[u8],
    at: usize,
    len: usize,
    short: K,
) -> Result<&[u8], FileFault<K>>
    requires small { length bytes.now < 2 ^ 32 }
    requires place { at + len < 2 ^ 64 }
    ensures gives { Gives (λ field. field.now) result (bytes_at_place short len at bytes.now) }
    ensures whole { IfOk result (λ field. length field.now ≡ len) }
    ensures within { OnOk result (at + len ≤ length bytes.now) }
{
    if bytes.len() < at + len {
        return Err(fault(bytes.len(), short));
    }
    let (_, rest) = bytes.split_at(at);
    let (field, _) = rest.split_at(len);
    Ok(field)
}

/// The byte at a place.
pub fn u8_at<K: Copy>(bytes: &[u8], at: usize, short: K) -> Result<u8, FileFault<K>>
    requires small { length bytes.now < 2 ^ 32 }
    requires place { at ≤ length bytes.now }
    ensures gives { Gives (λ n. n) result (number_at short w8 at bytes.now) }
    ensures within { OnOk result (at + 1 ≤ length bytes.now) }
{
    let field = bytes_at(bytes, at, 1, short)?;
    Ok(field[0])
}

/// The number in two bytes at a place, the low byte first.
pub fn u16_at<K: Copy>(bytes: &[u8], at: usize, short: K) -> Result<u16, FileFault<K>>
    requires small { length bytes.now < 2 ^ 32 }
    requires place { at ≤ length bytes.now }
    ensures gives { Gives (λ n. n) result (number_at short w16 at bytes.now) }
    ensures within { OnOk result (at + 2 ≤ length bytes.now) }
{
    let field = bytes_at(bytes, at, 2, short)?;
    Ok(u16::from_le_bytes([field[0], field[1]]))
}

/// The number in four bytes at a place, the low byte first.
pub fn u32_at<K: Copy>(bytes: &[u8], at: usize, short: K) -> Result<u32, FileFault<K>>
    requires small { length bytes.now < 2 ^ 32 }
    requires place { at ≤ length bytes.now }
    ensures gives { Gives (λ n. n) result (number_at short w32 at bytes.now) }
    ensures within { OnOk result (at + 4 ≤ length bytes.now) }
{
    let field = bytes_at(bytes, at, 4, short)?;
    Ok(u32::from_le_bytes([field[0], field[1], field[2], field[3]]))
}

/// Whether a number is at least `low` and at most `high`.
pub fn is_between(low: u32, high: u32, n: u32) -> bool
    ensures { result ≡ is_between low high n }
{
    low <= n && n <= high
}
