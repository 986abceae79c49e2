//! Counts that stand still at their last value.

ghost use Rattle.std.specs.Prelude.{◌≡◌, ◌≤◌};
ghost use Rattle.faults.specs.Counts.{raised};

/// The count, raised by so much.
pub fn raised(count: u64, by: u64) -> u64
    ensures value { result ≡ raised by count }
    ensures none_falls { count ≤ result }
{
    count.saturating_add(by)
}
