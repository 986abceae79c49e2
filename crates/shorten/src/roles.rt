//! What the data rows of straight-line commands are for.

ghost use Rattle.std.specs.Prelude.{◌≡◌};
ghost use Rattle.shorten.specs.Allowed.{is_in_span, is_in as is_in_spans};
ghost use Rattle.shorten.specs.Allowed.{may_be_first as may_stand_first};
ghost use Rattle.shorten.specs.Allowed.{may_be_second as may_stand_second};
ghost use Rattle.shorten.specs.Allowed.{is_allowed as is_good, are_allowed as are_good};

use arrayvec::ArrayVec;
use dram_model::{Addr, Command};

/// So many data rows from a first one on.
#[derive(Clone, Copy, Debug, Default, PartialEq, Eq)]
pub struct Span {
    pub first: u16,
    pub count: u16,
}

/// The data rows that commands may name. Each span of the sources is a number, its lowest bit
/// first.
#[derive(Drop)]
pub struct Roles {
    pub sources: ArrayVec<Span, 4>,
    pub results: ArrayVec<Span, 2>,
    pub scratch: ArrayVec<Span, 2>,
}

impl Span {
    /// Whether the row is one of these.
    fn has(self, row: u16) -> bool
        ensures { result ≡ is_in_span row self }
    {
        self.first <= row && u32::from(row) < u32::from(self.first) + u32::from(self.count)
    }
}

/// Whether the row is in one of the spans.
fn is_in(spans: &[Span], row: u16) -> bool
    ensures { result ≡ is_in_spans spans.now row }
{
    spans.iter().any(|span| span.has(row))
}

/// Whether the address may stand first.
fn may_be_first(roles: &Roles, x: Addr) -> bool
    ensures { result ≡ may_stand_first roles.now x }
{
    match x {
        Addr::B(k) => k < 8 || 12 <= k && k < 16,
        Addr::C(k) => k < 2,
        Addr::D(row) => {
            is_in(roles.sources.as_slice(), row)
                || (is_in(roles.results.as_slice(), row) || is_in(roles.scratch.as_slice(), row))
        }
    }
}

/// Whether the address may stand second.
fn may_be_second(roles: &Roles, y: Addr) -> bool
    ensures { result ≡ may_stand_second roles.now y }
{
    match y {
        Addr::B(k) => k < 16,
        Addr::C(_) => false,
        Addr::D(row) => {
            !is_in(roles.sources.as_slice(), row)
                && (is_in(roles.results.as_slice(), row) || is_in(roles.scratch.as_slice(), row))
        }
    }
}

/// Whether each address of the command may stand where it does.
fn is_allowed(roles: &Roles, command: Command) -> bool
    ensures { result ≡ is_good roles.now command }
{
    match command {
        Command::Ap(x) => may_be_first(roles, x),
        Command::Aap(x, y) => may_be_first(roles, x) && may_be_second(roles, y),
    }
}

/// Whether each command names only what it may.
pub fn are_allowed(roles: &Roles, commands: &[Command]) -> bool
    ensures { result ≡ are_good roles.now commands.now }
{
    commands.iter().all(|command| is_allowed(roles, *command))
}
