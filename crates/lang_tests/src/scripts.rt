//! Scripts that are read.

use bbop_isa::{Instr, Order, Place, parse_script};
use std::alloc::AllocError;
use std::fmt::Write;
use std::str;
use text_lex::Name;

fn text_of(name: &Name) -> &str {
    str::from_utf8(name.bytes()).unwrap_or("?")
}

/// Appends an operand: its name, and of a part its first bit and how many bits it has.
fn spell_place(line: &mut String, place: &Place) -> Result<(), AllocError> {
    match place.part {
        None => write!(line, " {}", text_of(&place.name)),
        Some(part) => write!(
            line,
            " {}[{}+{}]",
            text_of(&place.name),
            part.low,
            part.size
        ),
    }
}

/// The instruction as a line, with one blank after each word.
fn spell(line: &mut String, instr: &Instr) -> Result<(), AllocError> {
    match instr {
        Instr::Init { name, count, n } => write!(line, "init {} {count} {n}\n", text_of(name)),
        Instr::Bbop {
            op,
            dst,
            srcs,
            count,
            n,
        } => {
            write!(line, "bbop {}", text_of(op))?;
            spell_place(line, dst)?;
            for src in srcs.as_slice() {
                spell_place(line, src)?;
            }
            write!(line, " {count} {n}\n")
        }
        Instr::Load { place, values } => {
            write!(line, "load")?;
            spell_place(line, place)?;
            for value in values.as_slice() {
                write!(line, " {value}")?;
            }
            write!(line, "\n")
        }
        Instr::Fill { place, value } => {
            write!(line, "fill")?;
            spell_place(line, place)?;
            write!(line, " {value}\n")
        }
        Instr::Print { place } => {
            write!(line, "print")?;
            spell_place(line, place)?;
            write!(line, "\n")
        }
        Instr::Free { name } => write!(line, "free {}\n", text_of(name)),
        Instr::Order(Order::Forward) => write!(line, "order in\n"),
        Instr::Order(Order::Turns) => write!(line, "order turns\n"),
        Instr::Order(Order::Seed(seed)) => write!(line, "order seed {seed}\n"),
    }
}

/// All nine forms, with their greatest and least numbers and names, blanks and comments.
const SCRIPT: &str = "# a script
bbop_trsp_init a, 004294967295, 128
bbop_trsp_init\t_b9 ,1 , 1# an object

bbop_not d, s, 1, 64
bbop_abcdefghijklmnop d,s1,s2,s3,s4,12,8\r
bbop_trsp_inits d, s, 3, 2
load a, 340282366920938463463374607431768211455, 0, 00
fill a, 7
print abcdefghijklmnop
free a
order in
order turns
order seed 18446744073709551615
order seed 0
bbop_add y[0 : 8], y[8], a, b[120:128], 3, 8
load p[127], 1
fill p [ 000:0128 ], 0
print p[3:4]";

const SAID: &str = "init a 4294967295 128
init _b9 1 1
bbop not d s 1 64
bbop abcdefghijklmnop d s1 s2 s3 s4 12 8
bbop trsp_inits d s 3 2
load a 340282366920938463463374607431768211455 0 0
fill a 7
print abcdefghijklmnop
free a
order in
order turns
order seed 18446744073709551615
order seed 0
bbop add y[0+8] y[8+1] a b[120+8] 3 8
load p[127+1] 1
fill p[0+128] 0
print p[3+1]
";

#[test]
fn right_scripts_are_read(rt: HostRuntime) {
    for (text, want) in [
        ("", ""),
        ("\n # none\n\n", ""),
        (SCRIPT, SAID),
        ("print a\n", "print a\n"),
    ] {
        let mut said = String::new(rt.alloc());
        match parse_script(text.as_bytes(), rt.alloc()) {
            Ok(script) => {
                for instr in script.as_slice() {
                    assert!(rt; spell(&mut said, instr).is_ok());
                }
            }
            Err(_) => assert!(rt; false),
        }
        assert!(rt; said.as_str() == want);
    }
}
