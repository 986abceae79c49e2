//! Lists with commas: sources, arguments and states.

ghost use Rattle.std.specs.Prelude.{◌≡◌, List, [], ◌∷◌, IfOk, codes, true};
ghost use Rattle.op_text.specs.declared.wanted.Wanted.TheVariants as w;
ghost use Rattle.op_text.specs.Spelling.{between_commas, param_text, state_text, name_text};
ghost use Rattle.op_lang.specs.Reading.{Moves, left};
ghost use Rattle.op_lang.specs.Pieces.{is_name, is_kind};

use crate::fault::ReadError;
use crate::parser::Parser;
use crate::pieces::{kind, mark, more, name, name_or_end, state_start};
use op_text::{Param, State, Wanted};
use std::alloc::Global;
use text_lex::Name;

/// A source or the result.
pub(crate) fn param(
    parser: &mut Parser<'_>,
    naming: Wanted,
    kinding: Wanted,
) -> Result<Param, ReadError>
    requires named { is_name naming ≡ true }
    requires of_kind { is_kind kinding ≡ true }
    ensures moves { Moves (naming ∷ w.Colon ∷ kinding ∷ []) parser.old result parser.new }
    ensures spells { IfOk result (λ p. left parser.old ≡ param_text p (left parser.new)) }
{
    let name = name(parser, naming)?;
    mark(parser, Wanted::Colon)?;
    let kind = kind(parser, kinding)?;
    Ok(Param { name, kind })
}

/// The sources after the first, with the parenthesis after them.
fn sources_after(
    parser: &mut Parser<'_>,
    first: Param,
    alloc: Global,
) -> Result<Vec<Param>, ReadError>
    ensures moves { Moves (w.Params ∷ []) parser.old result parser.new }
    ensures spells { IfOk result (λ v. param_text first (left parser.old)
        ≡ between_commas param_text v.items (codes ")" ∷ left parser.new)) }
{
    let mut params = Vec::new(alloc);
    params.push(first)?;
    while more(parser, Wanted::Params)? {
        let next = param(parser, Wanted::NewParam, Wanted::ParamKind)?;
        params.push(next)?;
    }
    Ok(params)
}

/// The sources of an op, with the parenthesis after them.
pub(crate) fn sources(parser: &mut Parser<'_>, alloc: Global) -> Result<Vec<Param>, ReadError>
    ensures moves { Moves (w.NewParam ∷ w.Colon ∷ w.ParamKind ∷ w.Params ∷ []) parser.old result
        parser.new }
    ensures spells { IfOk result (λ v. left parser.old
        ≡ between_commas param_text v.items (codes ")" ∷ left parser.new)) }
{
    let first = param(parser, Wanted::NewParam, Wanted::ParamKind)?;
    sources_after(parser, first, alloc)
}

/// The arguments after the first, with the parenthesis after them.
fn arguments_after(
    parser: &mut Parser<'_>,
    first: Name,
    alloc: Global,
) -> Result<Vec<Name>, ReadError>
    ensures moves { Moves (w.MoreArgs ∷ []) parser.old result parser.new }
    ensures spells { IfOk result (λ v. name_text first (left parser.old)
        ≡ between_commas name_text v.items (codes ")" ∷ left parser.new)) }
{
    let mut names = Vec::new(alloc);
    names.push(first)?;
    while more(parser, Wanted::MoreArgs)? {
        let next = name(parser, Wanted::ArgName)?;
        names.push(next)?;
    }
    Ok(names)
}

/// The arguments of a word statement, with the parenthesis after them.
pub(crate) fn arguments(parser: &mut Parser<'_>, alloc: Global) -> Result<Vec<Name>, ReadError>
    ensures moves { Moves (w.Args ∷ []) parser.old result parser.new }
    ensures spells { IfOk result (λ v. left parser.old
        ≡ between_commas name_text v.items (codes ")" ∷ left parser.new)) }
{
    match name_or_end(parser, Wanted::Args)? {
        None => Ok(Vec::new(alloc)),
        Some(first) => arguments_after(parser, first, alloc),
    }
}

/// A state after its name.
fn state(parser: &mut Parser<'_>, name: Name) -> Result<State, ReadError>
    ensures moves { Moves (w.Equals ∷ w.Start ∷ []) parser.old result parser.new }
    ensures spells { IfOk result (λ s. name ∷ left parser.old ≡ state_text s (left parser.new)) }
{
    mark(parser, Wanted::Equals)?;
    let start = state_start(parser)?;
    Ok(State { name, start })
}

/// The states after the first, with the parenthesis after them.
fn states_after(
    parser: &mut Parser<'_>,
    first: State,
    alloc: Global,
) -> Result<Vec<State>, ReadError>
    ensures moves { Moves (w.MoreStates ∷ []) parser.old result parser.new }
    ensures spells { IfOk result (λ v. state_text first (left parser.old)
        ≡ between_commas state_text v.items (codes ")" ∷ left parser.new)) }
{
    let mut states = Vec::new(alloc);
    states.push(first)?;
    while more(parser, Wanted::MoreStates)? {
        let name = name(parser, Wanted::StateName)?;
        let next = state(parser, name)?;
        states.push(next)?;
    }
    Ok(states)
}

/// The states of a block, with the parenthesis after them.
pub(crate) fn states(parser: &mut Parser<'_>, alloc: Global) -> Result<Vec<State>, ReadError>
    ensures moves { Moves (w.States ∷ []) parser.old result parser.new }
    ensures spells { IfOk result (λ v. left parser.old
        ≡ between_commas state_text v.items (codes ")" ∷ left parser.new)) }
{
    match name_or_end(parser, Wanted::States)? {
        None => Ok(Vec::new(alloc)),
        Some(name) => {
            let first = state(parser, name)?;
            states_after(parser, first, alloc)
        }
    }
}
