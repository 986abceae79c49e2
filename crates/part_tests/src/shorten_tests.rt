//! A search for fewer commands: what it finds, on the rows of a chip.

use crate::body_tests::{SMALL, row_of};
use crate::rows::play;
use arrayvec::ArrayVec;
use dram_chip::{Addr, Chip, Command, Dram};
use shorten::{Roles, Span, shorten};
use std::alloc::Global;
use std::test::Fail;

/// Two numbers of two bits from D0 and from D2 on, and one from D4 on.
fn roles() -> Roles {
    let mut roles = Roles {
        sources: ArrayVec::new(),
        results: ArrayVec::new(),
        scratch: ArrayVec::new(),
    };
    roles.sources.push(Span { first: 0, count: 2 });
    roles.sources.push(Span { first: 2, count: 2 });
    roles.results.push(Span { first: 4, count: 2 });
    roles
}

/// The conjunction bit by bit, with a zero for each.
fn conjunction(alloc: Global) -> Result<Vec<Command>, Fail> {
    let mut commands = Vec::new(alloc);
    for i in 0..2u16 {
        commands.push(Command::Aap(Addr::D(i), Addr::B(0)))?;
        commands.push(Command::Aap(Addr::D(2 + i), Addr::B(1)))?;
        commands.push(Command::Aap(Addr::C(0), Addr::B(2)))?;
        commands.push(Command::Aap(Addr::B(12), Addr::D(4 + i)))?;
    }
    Ok(commands)
}

/// Whether at most eight commands leave the conjunction of drawn bits, and the sources.
fn conjoins(commands: &[Command], alloc: Global) -> Result<bool, Fail> {
    if commands.len() > 8 {
        return Ok(false);
    }
    let mut chip = Chip::new(alloc);
    chip.begin(SMALL)?;
    let (a, b) = (0x9E37_79B9_7F4A_7C15u64, 0xBF58_476D_1CE4_E5B9u64);
    let (c, d) = (0x94D0_49BB_1331_11EBu64, 0xD1B5_4A32_D192_ED03u64);
    chip.write_row(0, 0, &[a])?;
    chip.write_row(0, 1, &[b])?;
    chip.write_row(0, 2, &[c])?;
    chip.write_row(0, 3, &[d])?;
    play(&mut chip, SMALL, 0, commands)?;
    let sources = [row_of(&mut chip, 0)?, row_of(&mut chip, 3)?];
    let results = [row_of(&mut chip, 4)?, row_of(&mut chip, 5)?];
    Ok(sources == [a, d] && results == [a & c, b & d])
}

#[test]
fn conjunctions_share_a_zero(rt: HostRuntime) -> Result<(), Fail> {
    let alloc = rt.alloc();
    let given = conjunction(alloc)?;
    let fewer = shorten(&given, &roles(), 1, 20_000, alloc)?;
    assert_eq!(rt; fewer.len(), 7);
    assert!(rt; conjoins(&given, alloc)? && conjoins(&fewer, alloc)?);
    Ok(())
}

#[test]
fn what_writes_a_source_stays(rt: HostRuntime) -> Result<(), Fail> {
    let mut given = conjunction(rt.alloc())?;
    given.push(Command::Aap(Addr::C(0), Addr::D(0)))?;
    let same = shorten(&given, &roles(), 1, 20_000, rt.alloc())?;
    assert!(rt; same.as_slice() == given.as_slice());
    Ok(())
}
