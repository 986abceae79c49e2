//! Names as fields of a file.

ghost use Rattle.std.specs.Prelude.{◌≡◌, ◌≤◌, ◌==◌, [], take, length, Some, None, if◌then◌else◌};
ghost use Rattle.std.specs.List.{list_all};
ghost use Rattle.arrayvec.specs.ArrayVec.{array_vec_len};
ghost use Rattle.file_fields.specs.Fields.{is_padded_name, name_bytes};

use arrayvec::ArrayVec;
use text_lex::Name;

/// How many bytes a name has at most.
pub const NAME_MAX: usize = 16;

/// The bytes of a name in a file: its length, its bytes, and zeros.
pub const NAME_BYTES: usize = NAME_MAX + 1;

fn all_zero(bytes: &[u8]) -> bool
    ensures { result ≡ list_all (λ b. b == 0) bytes.now }
{
    bytes.iter().all(|b| *b == 0)
}

/// The name that the first so many bytes of a field spell, where the others are zeros.
pub fn padded_name(len: u8, field: &[u8]) -> Option<Name>
    requires { len ≤ length field.now }
    ensures { result ≡ (if is_padded_name len field.now then Some (take len field.now) else None) }
{
    let (front, following) = field.split_at(usize::from(len));
    if !all_zero(following) {
        return None;
    }
    Name::new(front)
}

/// A name's length, its bytes, and zeros up to 16.
pub fn name_field(name: &Name) -> [u8; NAME_BYTES]
    ensures { result ≡ name_bytes name.now }
{
    let bytes = name.bytes();
    let mut field = ArrayVec::new();
    field.push(bytes.len() as u8);
    match field.try_extend_from_slice(bytes) {
        Ok(()) => {}
        Err(_) => unreachable!(),
    }
    for _k in bytes.len()..NAME_MAX {
        field.push(0);
    }
    match field.into_inner() {
        Ok(bytes) => bytes,
        Err(_) => unreachable!(),
    }
}
