//! The line of a command that counts entries.

ghost use Rattle.std.specs.Prelude.{◌≡◌, ◌≤◌, ◌++◌, codes, decimal, OnOk, OnErr};
ghost use Rattle.host_edge.specs.Views.{Known, AppendsPart};
ghost use Rattle.faults.specs.Counts.{Rose};

use crate::stop::put_three;
use host_edge::{Failed, Sink};
use itoa::Buffer;

/// Puts a word with a blank after it, and how many entries there are.
pub(crate) fn put_counted<S: Sink>(word: &[u8], entries: usize, out: &mut S) -> Result<(), Failed>
    ensures counts { (S.view out.old).faults ≤ (S.view out.new).faults }
    ensures sent { OnOk result (Known (λ before after. after
        ≡ before ++ (word.now ++ decimal entries ++ codes "\n")) (S.view out.old).sent
        (S.view out.new).sent) }
    ensures unfailed { OnOk result ((S.view out.new).faults ≡ (S.view out.old).faults) }
    ensures part { Known (AppendsPart (word.now ++ decimal entries ++ codes "\n"))
        (S.view out.old).sent (S.view out.new).sent }
    ensures failed { OnErr result (Rose (S.view out.old).faults (S.view out.new).faults) }
{
    let mut buffer = Buffer::new();
    put_three(word, buffer.format(entries).as_bytes(), b"\n", out)
}
