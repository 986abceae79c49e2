//! Events as eight bytes.

ghost use Rattle.std.specs.Prelude.{◌≡◌, ◌+◌, ◌*◌, ◌<◌, ◌≤◌, ◌^◌, length, Bool, Option, IfOk, OnOk};
ghost use Rattle.std.specs.Prelude.{◌∷◌, [], ◌==◌};
ghost use Rattle.std.specs.Int.{from_le_bytes, w16};
ghost use Rattle.std.specs.List.{list_all};
ghost use Rattle.std.specs.Option.{option_map};
ghost use Rattle.dram_model.specs.Column.{is_in_range};
ghost use Rattle.dram_model.specs.declared.address.Addr.{Addr};
ghost use Rattle.file_fields.specs.Fields.{Gives};
ghost use Rattle.trace_model.specs.Spelling.{address_bytes as spelled_address, event_head_bytes};
ghost use Rattle.trace_model.specs.Spelling.{Commands, Writes};
ghost use Rattle.trace_model.specs.Reading.{address_of as address_named, event_at, head_at};
ghost use Rattle.trace_model.specs.Reading.{head_in, is_legal_head, of_kind as event_of_kind};
ghost use Rattle.cmd_trace.specs.Opened.{head_of, event_of, IsRowOf};

use crate::sizes::EVENT_BYTES;
use dram_model::{Addr, Command, Geometry, legal_first, legal_second};
use file_fields::{bytes_at, fault, rule};
use trace_model::{TraceFault, TraceKind};

/// An event without the bits of a row that it writes.
#[derive(Clone, Copy)]
pub(crate) enum Head {
    Row(u8, Command),
    Write(u8, u16),
}

/// A group and a number, the low byte first.
fn address_bytes(x: Addr) -> [u8; 3]
    ensures { result ≡ spelled_address x }
{
    let (group, number) = match x {
        Addr::B(k) => (0, u16::from(k)),
        Addr::C(k) => (1, u16::from(k)),
        Addr::D(k) => (2, k),
    };
    let [low, high] = number.to_le_bytes();
    [group, low, high]
}

/// The eight bytes of a row command.
pub(crate) fn command_bytes(bank: u8, command: Command) -> [u8; 8]
    ensures { result ≡ event_head_bytes (Commands bank command) }
{
    match command {
        Command::Aap(x, y) => {
            let [xg, xl, xh] = address_bytes(x);
            let [yg, yl, yh] = address_bytes(y);
            [0, bank, xg, xl, xh, yg, yl, yh]
        }
        Command::Ap(x) => {
            let [group, low, high] = address_bytes(x);
            [1, bank, group, low, high, 0, 0, 0]
        }
    }
}

/// The eight bytes before the row of a write.
pub(crate) fn write_bytes(bank: u8, row: u16) -> [u8; 8]
    ensures { result ≡ event_head_bytes (Writes bank row) }
{
    let [group, low, high] = address_bytes(Addr::D(row));
    [2, bank, group, low, high, 0, 0, 0]
}

/// The address of a group and a number, where it names rows of a bank.
fn address_of(rows: u16, group: u8, number: u16) -> Option<Addr>
    ensures { result ≡ address_named rows group number }
{
    match group {
        0 if number < 16 => Some(Addr::B(number as u8)),
        1 if number < 2 => Some(Addr::C(number as u8)),
        2 if number < rows => Some(Addr::D(number)),
        _ => None,
    }
}

/// A row command where it is one, and a write where its row is named; blank where nothing stands
/// for the second address.
fn command_of(bank: u8, x: Option<Addr>, y: Option<Addr>) -> Option<Head>
    ensures { (blank : Bool) → option_map head_of result ≡ event_of_kind 0 bank x y blank }
{
    match x {
        None => None,
        Some(x) => match y {
            None => None,
            Some(y) => Some(Head::Row(bank, Command::Aap(x, y))),
        },
    }
}

/// An AP of the first address.
fn ap_of(bank: u8, x: Option<Addr>, blank: bool) -> Option<Head>
    ensures { (y : Option Addr) → option_map head_of result ≡ event_of_kind 1 bank x y blank }
{
    match x {
        None => None,
        Some(x) => {
            if blank {
                Some(Head::Row(bank, Command::Ap(x)))
            } else {
                None
            }
        }
    }
}

/// A write of the row that the first address names.
fn write_of(bank: u8, x: Option<Addr>, blank: bool) -> Option<Head>
    ensures { (y : Option Addr) → option_map head_of result ≡ event_of_kind 2 bank x y blank }
{
    match x {
        None => None,
        Some(Addr::B(_)) => None,
        Some(Addr::C(_)) => None,
        Some(Addr::D(row)) => {
            if blank {
                Some(Head::Write(bank, row))
            } else {
                None
            }
        }
    }
}

/// The event of a kind, whose second address is blank where the last three bytes are zeros.
fn of_kind(kind: u8, bank: u8, x: Option<Addr>, y: Option<Addr>, blank: bool) -> Option<Head>
    ensures { option_map head_of result ≡ event_of_kind kind bank x y blank }
{
    match kind {
        0 => command_of(bank, x, y),
        1 => ap_of(bank, x, blank),
        2 => write_of(bank, x, blank),
        _ => None,
    }
}

/// The address of three bytes.
fn address_in(rows: u16, group: u8, low: u8, high: u8) -> Option<Addr>
    ensures { result ≡ address_named rows group (from_le_bytes w16 (low ∷ high ∷ [])) }
{
    address_of(rows, group, u16::from_le_bytes([low, high]))
}

/// Whether three bytes are zeros.
fn is_blank(group: u8, low: u8, high: u8) -> bool
    ensures { result ≡ list_all (λ b. b == 0) (group ∷ low ∷ high ∷ []) }
{
    group == 0 && low == 0 && high == 0
}

/// The event that eight bytes name.
fn head_of_field(g: Geometry, field: &[u8]) -> Option<Head>
    requires { length field.now ≡ 8 }
    ensures { option_map head_of result ≡ head_in g field.now }
{
    let [kind, bank, xg, xl, xh, yg, yl, yh] = field else {
        unreachable!();
    };
    if u16::from(*bank) >= g.banks {
        return None;
    }
    let x = address_in(g.rows, *xg, *xl, *xh);
    let y = address_in(g.rows, *yg, *yl, *yh);
    of_kind(*kind, *bank, x, y, is_blank(*yg, *yl, *yh))
}

/// Whether the address names rows of a bank.
fn names_rows(rows: u16, x: Addr) -> bool
    ensures { result ≡ is_in_range rows x }
{
    match x {
        Addr::B(k) => k < 16,
        Addr::C(k) => k < 2,
        Addr::D(k) => k < rows,
    }
}

/// Whether each address may stand in its place.
fn is_allowed(g: Geometry, head: Head) -> bool
    ensures { result ≡ is_legal_head g (head_of head) }
{
    match head {
        Head::Row(_, Command::Aap(x, y)) => {
            (names_rows(g.rows, x) && legal_first(x)) && (names_rows(g.rows, y) && legal_second(y))
        }
        Head::Row(_, Command::Ap(x)) => names_rows(g.rows, x) && legal_first(x),
        Head::Write(_, _) => true,
    }
}

/// The event's eight bytes at a place.
#[tactic(auto, unfolding(trace_model::specs::Reading::head_at))]
fn read_head(g: Geometry, bytes: &[u8], at: usize) -> Result<Head, TraceFault>
    requires small { length bytes.now < 2 ^ 32 }
    requires place { at ≤ length bytes.now }
    ensures gives { Gives head_of result (head_at g at bytes.now) }
    ensures within { OnOk result (at + 8 ≤ length bytes.now) }
{
    let field = bytes_at(bytes, at, EVENT_BYTES, TraceKind::Short)?;
    let Some(head) = head_of_field(g, field) else {
        return Err(fault(at, TraceKind::Event));
    };
    rule(is_allowed(g, head), at, TraceKind::Legal)?;
    Ok(head)
}

/// An event in a file: a row command, or a write with the bytes of its row.
#[derive(Clone, Copy)]
pub(crate) enum Found<'a> {
    Row(u8, Command),
    Write(u8, u16, &'a [u8]),
}

/// The event at a place, and where the next begins.
#[tactic(auto, unfolding(trace_model::specs::Reading::event_at))]
pub(crate) fn read_event(
    g: Geometry,
    bytes: &[u8],
    at: usize,
) -> Result<(Found<'_>, usize), TraceFault>
    requires small { length bytes.now < 2 ^ 32 }
    requires place { at ≤ length bytes.now }
    ensures gives { Gives (λ x. (event_of x.0, x.1)) result (event_at g at bytes.now) }
    ensures row { IfOk result (λ x. IsRowOf (8 * g.words) x.0) }
    ensures within { IfOk result (λ x. x.1 ≤ length bytes.now) }
{
    let next = at + EVENT_BYTES;
    match read_head(g, bytes, at)? {
        Head::Row(bank, command) => Ok((Found::Row(bank, command), next)),
        Head::Write(bank, row) => {
            let size = 8 * usize::from(g.words);
            let row_bytes = bytes_at(bytes, next, size, TraceKind::Short)?;
            Ok((Found::Write(bank, row, row_bytes), next + size))
        }
    }
}
