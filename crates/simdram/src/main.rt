//! The program: the words of the command line, real files and standard output, and the modelled
//! chip.
#![tactic(auto)]

ghost use Rattle.std.specs.Prelude.{◌≡◌, ◌⊎◌, map, IfOk, IfErr};
ghost use Rattle.std.specs.String.{string_bytes};

use dram_chip::Chip;
use host_edge::{DiskFolder, StdSink};
use simdram_cli::simdram;
use std::alloc::Global;
use std::process::ExitCode;
use std::{env, io};

/// The status where the words cannot be read.
const UNREAD: u8 = 1;

/// The status where there is no memory to keep them.
const NO_MEMORY: u8 = 10;

/// The words after the program's name.
fn words_of(rt: &HostRuntime, alloc: Global) -> Result<Vec<String>, u8>
    ensures status { IfErr result (λ status. (status ≡ 1) ⊎ (status ≡ 10)) }
{
    let mut words = Vec::new(alloc);
    match env::args(rt) {
        Ok(args) => {
            for word in args.skip(1) {
                if words.push(word).is_err() {
                    return Err(NO_MEMORY);
                }
            }
            Ok(words)
        }
        Err(e) if e.kind() == io::ErrorKind::OutOfMemory => Err(NO_MEMORY),
        Err(_) => Err(UNREAD),
    }
}

/// The same words, as the top call takes them.
fn borrowed<'a>(words: &'a [String], alloc: Global) -> Result<Vec<&'a str>, u8>
    ensures all { IfOk result (λ all. map (λ w. w.now) all.items ≡ map string_bytes words.now) }
    ensures status { IfErr result (λ status. status ≡ 10) }
{
    let mut all = Vec::new(alloc);
    for word in words {
        if all.push(word.as_str()).is_err() {
            return Err(NO_MEMORY);
        }
    }
    Ok(all)
}

fn main(rt: HostRuntime) -> ExitCode {
    let alloc = rt.alloc();
    let words = match words_of(&rt, alloc) {
        Ok(words) => words,
        Err(status) => return ExitCode::from(status),
    };
    let names = match borrowed(&words, alloc) {
        Ok(names) => names,
        Err(status) => return ExitCode::from(status),
    };
    let mut out = StdSink::new(io::writer(&rt));
    let mut files = DiskFolder::new(rt, &names);
    let mut chip = Chip::new(alloc);
    ExitCode::from(simdram(&names, &mut files, &mut out, &mut chip, alloc))
}
