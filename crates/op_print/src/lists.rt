//! Lists with commas, written.

ghost use Rattle.std.specs.Prelude.{◌≡◌, ◌++◌, ◌∷◌, OnOk};
ghost use Rattle.std.specs.Option.{option_to_list};
ghost use Rattle.std.specs.List.{flat_map};
ghost use Rattle.op_print.specs.Canonical.{listed, after_comma, spelled, param_text, state_text};

use crate::pieces::{kind_name, put, put_comma};
use faults::NoMemory;
use op_text::{Param, State};
use text_lex::Name;

/// Writes a parameter's name and kind.
pub(crate) fn put_param(out: &mut Vec<u8>, param: &Param) -> Result<(), NoMemory>
    ensures { OnOk result (out.new.items ≡ out.old.items ++ param_text param.now) }
{
    put(out, param.name.bytes())?;
    put(out, b": ")?;
    put(out, kind_name(param.kind))
}

fn put_more_params(out: &mut Vec<u8>, params: &[Param]) -> Result<(), NoMemory>
    ensures { OnOk result (out.new.items
        ≡ out.old.items ++ flat_map (after_comma param_text) params.now) }
{
    for param in params {
        put_comma(out)?;
        put_param(out, param)?;
    }
    Ok(())
}

/// Writes an op's results, with a comma between two.
pub(crate) fn put_results(
    out: &mut Vec<u8>,
    first: &Param,
    second: &Option<Param>,
) -> Result<(), NoMemory>
    ensures { OnOk result (out.new.items
        ≡ out.old.items ++ listed param_text (first.now ∷ option_to_list second.now)) }
{
    put_param(out, first)?;
    match second {
        Some(second) => {
            put_comma(out)?;
            put_param(out, second)
        }
        None => Ok(()),
    }
}

/// Writes a word statement's targets, with a comma between two.
pub(crate) fn put_targets(
    out: &mut Vec<u8>,
    first: &Name,
    second: &Option<Name>,
) -> Result<(), NoMemory>
    ensures { OnOk result (out.new.items
        ≡ out.old.items ++ listed spelled (first.now ∷ option_to_list second.now)) }
{
    put(out, first.bytes())?;
    match second {
        Some(second) => {
            put_comma(out)?;
            put(out, second.bytes())
        }
        None => Ok(()),
    }
}

/// Writes parameters, with commas between them.
pub(crate) fn put_params(out: &mut Vec<u8>, params: &[Param]) -> Result<(), NoMemory>
    ensures { OnOk result (out.new.items ≡ out.old.items ++ listed param_text params.now) }
{
    match params {
        [] => Ok(()),
        [first, more @ ..] => {
            put_param(out, first)?;
            put_more_params(out, more)
        }
    }
}

fn put_more_arguments(out: &mut Vec<u8>, args: &[Name]) -> Result<(), NoMemory>
    ensures { OnOk result (out.new.items
        ≡ out.old.items ++ flat_map (after_comma spelled) args.now) }
{
    for arg in args {
        put_comma(out)?;
        put(out, arg.bytes())?;
    }
    Ok(())
}

/// Writes names, with commas between them.
pub(crate) fn put_arguments(out: &mut Vec<u8>, args: &[Name]) -> Result<(), NoMemory>
    ensures { OnOk result (out.new.items ≡ out.old.items ++ listed spelled args.now) }
{
    match args {
        [] => Ok(()),
        [first, more @ ..] => {
            put(out, first.bytes())?;
            put_more_arguments(out, more)
        }
    }
}

fn put_state(out: &mut Vec<u8>, state: &State) -> Result<(), NoMemory>
    ensures { OnOk result (out.new.items ≡ out.old.items ++ state_text state.now) }
{
    put(out, state.name.bytes())?;
    put(out, if state.start { b" = 1" } else { b" = 0" })
}

fn put_more_states(out: &mut Vec<u8>, states: &[State]) -> Result<(), NoMemory>
    ensures { OnOk result (out.new.items
        ≡ out.old.items ++ flat_map (after_comma state_text) states.now) }
{
    for state in states {
        put_comma(out)?;
        put_state(out, state)?;
    }
    Ok(())
}

/// Writes states and their starts, with commas between them.
pub(crate) fn put_states(out: &mut Vec<u8>, states: &[State]) -> Result<(), NoMemory>
    ensures { OnOk result (out.new.items ≡ out.old.items ++ listed state_text states.now) }
{
    match states {
        [] => Ok(()),
        [first, more @ ..] => {
            put_state(out, first)?;
            put_more_states(out, more)
        }
    }
}
