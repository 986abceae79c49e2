//! What holds of every program file.

ghost use Rattle.std.specs.Prelude.{◌≡◌, ℕ, List, slice_set};
ghost use Rattle.uprog_code.specs.Shape.{Microprogram};
ghost use Rattle.uprog_code.specs.Programs.{IsProgram};
ghost use Rattle.uprog_bin.specs.Spelling.{HasVersion, program_bytes};

/// Shows that a file is that of one program in one version, and that its version 2 file differs
/// from it at most in byte 4.
pub fn program_files_are_exact()
    ensures one { (v w : ℕ) (ms ns : List Microprogram) → IsProgram ms → IsProgram ns
        → HasVersion v ms → HasVersion w ns → program_bytes v ms ≡ program_bytes w ns
        → (v ≡ w) × (ms ≡ ns) }
    ensures version { (v : ℕ) (ms : List Microprogram) → HasVersion v ms
        → program_bytes 2 ms ≡ slice_set (program_bytes v ms) 4 2 }
{}
