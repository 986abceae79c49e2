//! Where a machine takes its instructions from.

ghost use Rattle.std.specs.Prelude.{◌≡◌, ℕ, ◌<◌, ◌≤◌, List, length, Some, slice_get};
ghost use Rattle.uprog_code.specs.declared.code.Uop.{Uop};
ghost use Rattle.uprog_code.specs.Shape.{Shape, shape_of};

use crate::code::{EntryCode, Head, Uop};

/// An operation's microprogram, wherever it is kept.
pub trait Fetch {
    /// The operation's name.
    ghost name: { Self → List ℕ };
    /// What it takes and gives.
    ghost shape: { Self → Shape };
    /// Its instructions.
    ghost code: { Self → List Uop };

    /// The head.
    fn head(&self) -> Head
        ensures name { result.name ≡ name self.now }
        ensures shape { shape_of result ≡ shape self.now };

    /// The number of instructions.
    fn len(&self) -> u16
        requires { length (code self.now) ≤ 65535 }
        ensures { result ≡ length (code self.now) };

    /// The instruction at a place.
    fn fetch(&self, at: u16) -> Uop
        requires { at < length (code self.now) }
        ensures { slice_get (code self.now) at ≡ Some result };
}

impl Fetch for EntryCode {
    ghost use Rattle.uprog_code.specs.Shape.{shape_of};

    ghost name = { λ e. e.head.name };

    ghost shape = { λ e. shape_of e.head };

    ghost code = { λ e. e.code.items };

    fn head(&self) -> Head {
        self.head.copied()
    }

    fn len(&self) -> u16 {
        self.code.len() as u16
    }

    fn fetch(&self, at: u16) -> Uop {
        self.code[at as usize]
    }
}
