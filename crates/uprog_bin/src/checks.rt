//! The code of a program file, checked in place.

ghost use Rattle.std.specs.Prelude.{◌≡◌, ℕ, List, ◌+◌, ◌*◌, ◌<◌, ◌≤◌, ◌^◌, length, Some, IfOk};
ghost use Rattle.std.specs.Prelude.{OnOk};
ghost use Rattle.uprog_code.specs.Shape.{shape_of};
ghost use Rattle.uprog_bin.specs.Reading.{Checks, unit_of, uops_at, codes_at, codes_start};
ghost use Rattle.uprog_bin.specs.Reading.{total_count, listings_of, opening_in};
ghost use Rattle.file_fields.specs.Fields.{Gives};

use crate::directory::{Listed, directory_of};
use crate::fault::{ProgFault, ProgKind};
use crate::instruction::uop_of;
use crate::sizes::INSTRUCTION_BYTES;
use file_fields::{bytes_at, rule, u16_at};
use uprog_code::Head;

/// The first fault of so many instructions from a place on.
fn check_code(head: &Head, count: u16, bytes: &[u8], at: usize) -> Result<(), ProgFault>
    requires small { length bytes.now < 2 ^ 32 }
    requires place { at ≤ length bytes.now }
    ensures gives { Checks result (uops_at count (shape_of head.now) count at bytes.now) }
    ensures within { OnOk result (at + 8 * count ≤ length bytes.now) }
{
    let mut place = at;
    for k in 0..count {
        let _uop = uop_of(head, count, k + 1 == count, bytes, place)?;
        place += INSTRUCTION_BYTES;
    }
    Ok(())
}

/// The end of the entries' code, or its first fault.
pub(crate) fn check_codes(listed: &[Listed], bytes: &[u8], start: usize) -> Result<usize, ProgFault>
    requires small { length bytes.now < 2 ^ 32 }
    requires place { start ≤ length bytes.now }
    ensures gives { Checks (unit_of result) (codes_at (listings_of listed.now) start bytes.now) }
    ensures end { IfOk result (λ end. end ≡ start + 8 * total_count (listings_of listed.now)) }
    ensures within { IfOk result (λ end. end ≤ length bytes.now) }
{
    let mut at = start;
    for l in listed {
        check_code(&l.head, l.count, bytes, at)?;
        at += INSTRUCTION_BYTES * usize::from(l.count);
    }
    Ok(at)
}

/// The version of a file that begins as a program.
#[tactic(auto, unfolding(crate::specs::Reading::opening_in))]
pub(crate) fn opening_of(bytes: &[u8]) -> Result<u16, ProgFault>
    requires { length bytes.now < 2 ^ 32 }
    ensures gives { Gives (λ version. version) result (opening_in bytes.now) }
    ensures within { OnOk result (6 ≤ length bytes.now) }
{
    let magic = bytes_at(bytes, 0, 4, ProgKind::Short)?;
    rule(magic == b"SDMP".as_slice(), 0, ProgKind::Magic)?;
    let version = u16_at(bytes, 4, ProgKind::Short)?;
    rule(version == 1 || version == 2, 4, ProgKind::Version)?;
    Ok(version)
}
