//! Why reading ends early.

ghost use Rattle.std.specs.Prelude.{◌≡◌};
ghost use Rattle.op_lang.specs.declared.fault.ReadError.TheVariants as no;
ghost use Rattle.op_lang.specs.declared.fault.ReadError.TheVariants.{Memory};
ghost use Rattle.op_lang.specs.declared.fault.RuleError.TheVariants as refused;

use faults::NoMemory;
use grammar::Breach;
use op_text::OpsKind;
use std::alloc::{AllocError, AllocFailed};

/// Why a part of a text is not read.
#[derive(Drop)]
pub(crate) enum ReadError {
    Memory,
    Breach(Breach<OpsKind>),
}

/// Why a token is refused that the grammar allows.
#[derive(Clone, Copy)]
pub(crate) enum RuleError {
    Memory,
    Rule(OpsKind),
}

impl From<NoMemory> for RuleError {
    ghost from_gives = { λ _ e. e ≡ refused.Memory };

    fn from(_no: NoMemory) -> RuleError {
        RuleError::Memory
    }
}

impl From<AllocError> for ReadError {
    ghost from_gives = { λ _ e. e ≡ Memory };

    fn from(_e: AllocError) -> ReadError {
        ReadError::Memory
    }
}

impl<T: Drop> From<AllocFailed<T>> for ReadError {
    ghost from_gives = { λ _ e. e ≡ Memory };

    fn from(_e: AllocFailed<T>) -> ReadError {
        ReadError::Memory
    }
}

impl From<Breach<OpsKind>> for ReadError {
    ghost from_gives = { λ b e. e ≡ no.Breach b };

    fn from(b: Breach<OpsKind>) -> ReadError {
        ReadError::Breach(b)
    }
}
