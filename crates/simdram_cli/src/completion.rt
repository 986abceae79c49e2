//! How a command ends that is done.

ghost use Rattle.std.specs.Prelude.{◌≡◌};
ghost use Rattle.simdram_cli.specs.Plans.{completion_status, said_of, script_said};

use crate::stop::Stop;

/// How a command ends that is done: with nothing refused, with an instruction refused, or with a
/// status that tells what it found.
#[derive(Clone, Copy)]
pub(crate) enum Completion {
    AllDone,
    SomeRefused,
    Found(u8),
}

/// The exit status.
pub(crate) fn completion_status(completion: Completion) -> u8
    ensures { result ≡ completion_status completion }
{
    match completion {
        Completion::AllDone => 0,
        Completion::SomeRefused => 8,
        Completion::Found(status) => status,
    }
}

/// How a script ends, from how many of its instructions were refused.
pub(crate) fn completed<'a>(script: Result<u64, Stop<'a>>) -> Result<Completion, Stop<'a>>
    ensures { said_of result ≡ script_said script.entry }
{
    match script {
        Ok(0) => Ok(Completion::AllDone),
        Ok(_) => Ok(Completion::SomeRefused),
        Err(stop) => Err(stop),
    }
}
