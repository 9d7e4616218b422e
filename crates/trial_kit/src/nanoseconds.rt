ghost use Rattle.std.specs.Prelude.{◌≡◌, ◌^◌, ◌-◌, min};
ghost use Rattle.std.specs.Duration.{as_nanos};

use std::time::Duration;

/// The nanoseconds of a time. A time of more than 584 years gives the greatest number.
pub fn nanoseconds_of(time: Duration) -> u64
    ensures { result ≡ min (as_nanos time) (2 ^ 64 - 1) }
{
    u64::try_from(time.as_nanos()).unwrap_or(u64::MAX)
}
