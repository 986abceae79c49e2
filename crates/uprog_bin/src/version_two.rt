//! The version 2 file of a program.

ghost use Rattle.std.specs.Prelude.{◌≡◌, ℕ, List, ◌<◌, ◌^◌, length, Ok, Err, IfOk, IfErr, OnOk};
ghost use Rattle.uprog_code.specs.Shape.{Microprogram};
ghost use Rattle.uprog_code.specs.Programs.{IsProgram};
ghost use Rattle.uprog_bin.specs.Reading.{program_in};
ghost use Rattle.uprog_bin.specs.Spelling.{HasVersion, program_bytes};
ghost use Rattle.uprog_bin.specs.Opened.{IsProgramFile};

use crate::fault::ProgFault;
use crate::view::ProgView;

/// The number of entries of a program file.
fn entries_of(bytes: &[u8]) -> Result<u16, ProgFault>
    requires { length bytes.now < 2 ^ 32 }
    ensures file { IfOk result (λ k. IsProgramFile bytes.now) }
    ensures program { (v : ℕ) (ms : List Microprogram) → IsProgram ms → HasVersion v ms
        → bytes.now ≡ program_bytes v ms → result ≡ Ok (length ms) }
    ensures long { OnOk result (4 < length bytes.now) }
    ensures fault { IfErr result (λ f. program_in bytes.now ≡ Err f) }
{
    let view = ProgView::open(bytes)?;
    Ok(view.entries())
}

/// Makes the file of a program its version 2 file, and answers the number of entries. It takes no
/// memory.
pub fn migrate(bytes: &mut [u8]) -> Result<u16, ProgFault>
    requires { length bytes.old < 2 ^ 32 }
    ensures file { IfOk result (λ k. IsProgramFile bytes.old) }
    ensures program { (v : ℕ) (ms : List Microprogram) → IsProgram ms → HasVersion v ms
        → bytes.old ≡ program_bytes v ms
        → (result ≡ Ok (length ms)) × (bytes.new ≡ program_bytes 2 ms) }
    ensures fault { IfErr result (λ f. program_in bytes.old ≡ Err f) }
    ensures kept { IfErr result (λ f. bytes.new ≡ bytes.old) }
{
    let entries = entries_of(bytes)?;
    bytes[4] = 2;
    Ok(entries)
}
