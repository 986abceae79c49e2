//! What is printed of a case file.

use crate::cases::{Case, cases_of, lines_of, strays, with_name};
use crate::play::Play;
use std::{fs, io};

/// How many lines come before the first in which what is written and what came differ; none where
/// they are the same.
fn first_difference(written: &[&str], came: &[&str]) -> Option<usize> {
    if written == came {
        return None;
    }
    let mut count: usize = 0;
    for line in written {
        if came.get(count) != Some(line) {
            break;
        }
        count = count.saturating_add(1);
    }
    Some(count)
}

/// Prints the place of a line and both texts that it has.
fn print_difference(
    rt: &HostRuntime,
    place: (&str, usize, &str),
    written: Option<&&str>,
    came: Option<&&str>,
) -> io::Result<()> {
    let (file, line, name) = place;
    println!(rt; "{file}:{line}: {name}")?;
    if let Some(line) = written {
        println!(rt; "  written: {line}")?;
    }
    if let Some(line) = came {
        println!(rt; "  came:    {line}")?;
    }
    Ok(())
}

/// What is amiss with a case that came as it is written.
fn amiss(play: &Play<'_>, same_name: usize) -> Option<&'static str> {
    if !play.is_read {
        Some("a line is not read")
    } else if !play.has_command {
        Some("no command")
    } else if same_name > 1 {
        Some("another case has this name")
    } else {
        None
    }
}

/// Prints where a case differs from what came; whether it is as written.
fn compare_lines(
    rt: &HostRuntime,
    file: &str,
    case: &Case<'_>,
    came: &[&str],
    amiss: Option<&str>,
) -> io::Result<bool> {
    let (place, name) = (case.first, case.name);
    if let Some(k) = first_difference(case.lines, came) {
        let place = (file, place.saturating_add(k), name);
        print_difference(rt, place, case.lines.get(k), came.get(k))?;
        return Ok(false);
    }
    if let Some(why) = amiss {
        println!(rt; "{file}:{place}: {name}: {why}")?;
    }
    Ok(amiss.is_none())
}

/// Does a case, and prints where it differs; whether it is as written.
fn compare(rt: &HostRuntime, file: &str, case: &Case<'_>, same_name: usize) -> io::Result<bool> {
    let mut play = Play::new(rt.alloc());
    play.play(case);
    compare_play(rt, file, case, &play, same_name)
}

fn compare_play(
    rt: &HostRuntime,
    file: &str,
    case: &Case<'_>,
    play: &Play<'_>,
    same_name: usize,
) -> io::Result<bool> {
    let lines = lines_of(play.text()?, rt.alloc())?;
    compare_lines(rt, file, case, &lines, amiss(play, same_name))
}

/// Does the cases; how many are as written.
fn compare_cases(rt: &HostRuntime, file: &str, cases: &[Case<'_>]) -> io::Result<usize> {
    let mut right: usize = 0;
    for case in cases {
        if compare(rt, file, case, with_name(cases, case.name))? {
            right = right.saturating_add(1);
        }
    }
    Ok(right)
}

/// Prints how many cases are as written, of so many, and lines before the first; whether all are.
fn tell(rt: &HostRuntime, file: &str, right: usize, all: usize, stray: usize) -> io::Result<bool> {
    let name = file.strip_suffix(".case").unwrap_or(file);
    if stray > 0 {
        println!(rt; "{file}: {stray} lines before the first case")?;
    }
    if right == all && stray == 0 {
        println!(rt; "{name}: {all} cases as written")?;
    } else {
        println!(rt; "{name}: {right} of {all} cases as written")?;
    }
    Ok(0 < all && right == all && stray == 0)
}

fn compare_text(rt: &HostRuntime, file: &str, lines: &[&str]) -> io::Result<bool> {
    let cases = cases_of(lines, rt.alloc())?;
    let right = compare_cases(rt, file, &cases)?;
    tell(rt, file, right, cases.len(), strays(lines))
}

/// Does the cases of a file, and prints how many are as written; whether all are.
pub fn compare_all(rt: &HostRuntime, file: &str) -> io::Result<bool> {
    let text = fs::read_to_string(rt, file)?;
    let lines = lines_of(text.as_str(), rt.alloc())?;
    compare_text(rt, file, &lines)
}

/// Prints the lines as they are.
fn print_lines(rt: &HostRuntime, lines: &[&str]) -> io::Result<()> {
    for line in lines {
        println!(rt; "{line}")?;
    }
    Ok(())
}

/// Prints a case with what came in the place of what is written.
fn print_came(rt: &HostRuntime, case: &Case<'_>) -> io::Result<()> {
    let mut play = Play::new(rt.alloc());
    play.play(case);
    let text = play.text()?;
    print!(rt; "{text}")
}

/// Whether a case is the one that is named, or none is.
fn is_chosen(chosen: Option<&str>, name: &str) -> bool {
    match chosen {
        Some(only) => only == name,
        None => true,
    }
}

fn rewrite_lines(rt: &HostRuntime, lines: &[&str], chosen: Option<&str>) -> io::Result<()> {
    let cases = cases_of(lines, rt.alloc())?;
    let before = match cases.first() {
        Some(case) => case.first.saturating_sub(1),
        None => lines.len(),
    };
    print_lines(rt, lines.get(..before).unwrap_or(&[]))?;
    for case in &cases {
        if is_chosen(chosen, case.name) {
            print_came(rt, case)?;
        } else {
            print_lines(rt, case.lines)?;
        }
    }
    Ok(())
}

/// Prints a file with what came in the place of what is written, in the case of this name or, with
/// none, in each.
pub fn rewrite(rt: &HostRuntime, file: &str, chosen: Option<&str>) -> io::Result<()> {
    let text = fs::read_to_string(rt, file)?;
    let lines = lines_of(text.as_str(), rt.alloc())?;
    rewrite_lines(rt, &lines, chosen)
}
