//! Where a file breaks a rule.

ghost use Rattle.std.specs.Prelude.{◌≡◌, ◌<◌, ◌^◌};
ghost use Rattle.file_fields.specs.Fields.{Gives, rule as rule_of, fault_at};

/// The first field of a file that breaks a rule: the place of its first byte, and what it breaks.
#[derive(Clone, Copy, Debug, PartialEq, Eq)]
pub struct FileFault<K> {
    pub at: u32,
    pub kind: K,
}

/// The fault of a field that breaks this.
pub fn fault<K: Copy>(at: usize, kind: K) -> FileFault<K>
    requires { at < 2 ^ 32 }
    ensures { result ≡ fault_at at kind }
{
    FileFault {
        at: at as u32,
        kind,
    }
}

/// Goes on where the rule of a field holds.
pub fn rule<K: Copy>(holds: bool, at: usize, kind: K) -> Result<(), FileFault<K>>
    requires { at < 2 ^ 32 }
    ensures { Gives (λ x. x) result (rule_of holds at kind) }
{
    if holds { Ok(()) } else { Err(fault(at, kind)) }
}
