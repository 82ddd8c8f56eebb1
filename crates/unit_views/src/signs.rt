//! Signed distances.
ghost use Rattle.std.specs.Prelude.{◌≡◌, ◌<◌, ◌^◌, pos, ◌+ℤ◌};

/// How far `to` is from `from`, below 0 where it is before it. Both are below 2^53.
pub(crate) fn signed_gap(from: u64, to: u64) -> i64
    requires from_in { from < 2 ^ 53 }
    requires to_in { to < 2 ^ 53 }
    ensures { pos from +ℤ result ≡ pos to }
{
    if from <= to {
        return (to - from) as i64;
    }
    -((from - to) as i64)
}
