//! Whole runs as text: goes through the case files of the folder that it is run in, does each case,
//! and compares what came with what is written. `docs/TESTS.md` has the format.
#![tactic(auto)]

mod cases;
mod chip;
mod command;
mod directives;
mod images;
mod numbers;
mod plain;
mod play;
mod report;
mod said;
mod sent;
mod stop;
mod tables;
mod world;

use crate::report::{compare_all, rewrite};
use std::process::ExitCode;
use std::{env, fs, io};

/// The words after the program's name.
fn words_of(rt: &HostRuntime) -> io::Result<Vec<String>> {
    let mut words = Vec::new(rt.alloc());
    for word in env::args(rt)?.skip(1) {
        words.push(word)?;
    }
    Ok(words)
}

/// The names of the folder's case files, in the order of their letters.
fn case_files(rt: &HostRuntime) -> io::Result<Vec<String>> {
    let mut names = Vec::new(rt.alloc());
    for entry in fs::read_dir(rt, ".")? {
        let entry = entry?;
        if entry.file_name().ends_with(".case") {
            names.push(String::from_str(rt.alloc(), entry.file_name())?)?;
        }
    }
    names.sort()?;
    Ok(names)
}

/// Goes through the case files, and prints what differs; the status.
fn compare_files(rt: &HostRuntime) -> io::Result<u8> {
    let mut status = 0;
    for name in &case_files(rt)? {
        if !compare_all(rt, name.as_str())? {
            status = 1;
        }
    }
    Ok(status)
}

/// With the words `rewrite FILE` and perhaps the name of a case, prints the file as it would have
/// to be written; else a line for each case file, and each difference.
fn run(rt: &HostRuntime, words: &[String]) -> io::Result<u8> {
    match words {
        [verb, file] if verb.as_str() == "rewrite" => {
            rewrite(rt, file.as_str(), None)?;
            Ok(0)
        }
        [verb, file, name] if verb.as_str() == "rewrite" => {
            rewrite(rt, file.as_str(), Some(name.as_str()))?;
            Ok(0)
        }
        _ => compare_files(rt),
    }
}

fn main(rt: HostRuntime) -> io::Result<ExitCode> {
    let words = words_of(&rt)?;
    Ok(ExitCode::from(run(&rt, &words)?))
}
