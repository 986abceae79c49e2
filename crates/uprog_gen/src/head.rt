//! The heads of entries.

ghost use Rattle.std.specs.Prelude.{◌≡◌, map};
ghost use Rattle.std.specs.Option.{option_map};
ghost use Rattle.op_text.specs.declared.tree.Param.{Param as Parameter};
ghost use Rattle.op_text.specs.Language.{statement, operation};
ghost use Rattle.op_text.specs.Scratch.{bits_inside, words_inside, need_inside, greatest};
ghost use Rattle.op_rules.specs.Meets.{OperationMeets};
ghost use Rattle.uprog_code.specs.Shape.{shape_of};
ghost use Rattle.uprog_code.specs.Texts.{op_shape};
ghost use Rattle.uprog_gen.specs.Layout.{IsLayoutMap};

use arrayvec::ArrayVec;
use loop_ir::NameMap;
use op_text::{Kind, Op, Param, Stmt, bits_inside, words_inside};
use uprog_code::Head;

/// Scratch that is needed beside the names: single rows, and words.
#[derive(Clone, Copy)]
struct Need {
    bits: u16,
    words: u16,
}

/// What a statement needs inside.
fn need_of(s: &Stmt) -> Need
    ensures bits { result.bits ≡ need_inside bits_inside (statement s.now) }
    ensures words { result.words ≡ need_inside words_inside (statement s.now) }
{
    match s {
        Stmt::Word { op, .. } => Need {
            bits: bits_inside(*op),
            words: words_inside(*op),
        },
        Stmt::Serial { .. } => Need { bits: 0, words: 0 },
    }
}

/// The most that a statement needs inside.
fn most_needed(body: &[Stmt]) -> Need
    ensures bits { result.bits
        ≡ greatest (map (need_inside bits_inside) (map statement body.now)) }
    ensures words { result.words
        ≡ greatest (map (need_inside words_inside) (map statement body.now)) }
{
    let mut most = Need { bits: 0, words: 0 };
    for s in body {
        let own = need_of(s);
        most.bits = most.bits.max(own.bits);
        most.words = most.words.max(own.words);
    }
    most
}

fn kind_of_second(second: &Option<Param>) -> Option<Kind>
    ensures { result ≡ option_map (λ (p : Parameter). p.kind) second.now }
{
    match second {
        Some(param) => Some(param.kind),
        None => None,
    }
}

/// What an operation is called, takes and gives, and its scratch: the rows that have names, and
/// after them as many as the neediest statement needs inside.
pub fn head_of(op: &Op, names: &NameMap) -> Head
    requires meets { OperationMeets (operation op.now) }
    requires names { IsLayoutMap (operation op.now) names.now }
    ensures name { result.name ≡ op.now.name }
    ensures shape { shape_of result ≡ op_shape (operation op.now) }
{
    let mut sources = ArrayVec::new();
    for param in &op.params {
        sources.push(param.kind);
    }
    let most = most_needed(&op.body);
    Head {
        name: op.name.copied(),
        sources,
        result: op.result.kind,
        second: kind_of_second(&op.second),
        bits: names.free_bit + most.bits as u8,
        words: names.free_word + most.words as u8,
    }
}
