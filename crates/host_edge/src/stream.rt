//! Readers and writers, taken to their ends.

ghost use Rattle.std.specs.Prelude.{◌≡◌, ◌<◌, ◌≤◌, ◌++◌, length, IfOk, IsErrOf};
ghost use Rattle.std.specs.Bool.{OnTrue, OnFalse};
ghost use Rattle.std.specs.Io.KnownBytes.{Appends, Consumes, IsAtEnd};
ghost use Rattle.host_edge.specs.Views.{Known, AppendsPart};

use crate::answer::LoadNo;
use faults::raised;
use std::alloc::Global;
use std::io::{ErrorKind, Read, Write};

/// Whether all the bytes were written. If not, a prefix of them was.
pub(crate) fn write_whole<W: Write>(out: &mut W, bytes: &[u8]) -> bool
    ensures all { OnTrue result (Known (λ old new. new ≡ old ++ bytes.now) (W.contents out.old)
        (W.contents out.new)) }
    ensures part { OnFalse result (Known (AppendsPart bytes.now) (W.contents out.old)
        (W.contents out.new)) }
{
    let mut rest = bytes;
    for _ in 0..u64::MAX {
        if rest.is_empty() {
            return true;
        }
        match out.write(rest) {
            Ok(0) => return false,
            Ok(n) => rest = &rest[n..],
            Err(e) => {
                if e.kind() != ErrorKind::Interrupted {
                    return false;
                }
            }
        }
    }
    false
}

/// How many bytes the reader gave, and all that it gives up to its end, if they are at most
/// `limit`.
pub(crate) fn read_whole<R: Read>(
    reader: &mut R,
    limit: u64,
    alloc: Global,
) -> (u64, Result<Vec<u8>, LoadNo>)
    ensures within { IfOk result.1 (λ bytes. length bytes.items ≤ limit) }
    ensures bytes { IfOk result.1 (λ bytes. Consumes (R.remaining reader.old)
        (R.remaining reader.new) bytes.items × IsAtEnd (R.remaining reader.new)) }
    ensures taken { IfOk result.1 (λ bytes. result.0 ≡ length bytes.items) }
    ensures too_long { IsErrOf result.1 LoadNo.TooLong → limit < result.0 }
{
    let mut bytes = Vec::new(alloc);
    let mut taken = 0;
    let mut piece = [0u8; 65536];
    for _ in 0..u64::MAX {
        match reader.read(&mut piece) {
            Ok(0) => return (taken, Ok(bytes)),
            Ok(n) => {
                taken = raised(taken, n as u64);
                if limit < taken {
                    return (taken, Err(LoadNo::TooLong));
                }
                if bytes.extend_from_slice(&piece[..n]).is_err() {
                    return (taken, Err(LoadNo::NoMemory));
                }
            }
            Err(e) => {
                if e.kind() != ErrorKind::Interrupted {
                    return (taken, Err(LoadNo::Failed));
                }
            }
        }
    }
    (taken, Err(LoadNo::Failed))
}
