ghost use Rattle.std.specs.Prelude.{◌≡◌, ◌≤◌, ◌↔◌, IsTrue};
ghost use Rattle.outside.specs.Causes.{counted};
ghost use Rattle.outside.specs.Memory.{IsListed};

/// A read or a write that failed. The count of faults of its source or sink rose.
#[derive(Clone, Copy, Debug, PartialEq, Eq)]
pub struct Failed;

/// Counts one more, or stands at the last value of a `u64`.
pub(crate) fn raise(count: &mut u64)
    ensures one_more { count.new ≡ counted count.old }
    ensures later { count.old ≤ count.new }
{
    *count = count.saturating_add(1);
}

/// Counts one call more and tells whether its number, counted from 1, is listed.
///
/// Numbers end with the last value of a `u64`: a call past it is not listed. Time linear in the list.
pub(crate) fn count_call(calls: &mut u64, fails: &[u64]) -> bool
    ensures calls { calls.new ≡ counted calls.old }
    ensures listed { IsTrue result ↔ IsListed fails.now calls.old }
{
    match calls.checked_add(1) {
        Some(call) => {
            *calls = call;
            fails.contains(&call)
        }
        None => false,
    }
}
