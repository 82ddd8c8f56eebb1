//! Lists of slot numbers.
ghost use Rattle.std.specs.Prelude.{◌≡◌, ◌+◌, ◌-◌, ◌≤◌, ◌++◌, length, take, drop, vec_capacity, IfOk, IfErr};
ghost use Rattle.slot_table.specs.Numbers.{down_from};

use std::alloc::{AllocError, Global};

/// The numbers below `slots`, the greatest first.
pub(crate) fn all_slots(alloc: Global, slots: u32) -> Result<Vec<u32>, AllocError>
    ensures { IfOk result (λ v. (v.items ≡ down_from slots) × (slots ≤ vec_capacity v)) }
{
    let mut free = Vec::with_capacity(alloc, slots as usize)?;
    let mut left = slots;
    while left > 0 {
        left -= 1;
        free.push_reserved(left);
    }
    Ok(free)
}

/// Appends numbers to a list that has room for them.
pub(crate) fn append_all(list: &mut Vec<u32>, more: &[u32])
    requires { length list.old.items + length more.now ≤ vec_capacity list.old }
    ensures items { list.new.items ≡ list.old.items ++ more.now }
    ensures capacity { vec_capacity list.new ≡ vec_capacity list.old }
{
    for slot in more {
        list.push_reserved(*slot);
    }
}

/// The last `count` numbers go into a list of their own, with room for `room`.
pub(crate) fn hand_over(
    alloc: Global,
    from: &mut Vec<u32>,
    room: u32,
    count: u32,
) -> Result<Vec<u32>, AllocError>
    requires { (count ≤ length from.old.items) × (length from.old.items ≤ room) }
    ensures ok { IfOk result (λ v. (v.items ≡ drop (length from.old.items - count) from.old.items) × (room ≤ vec_capacity v) × (from.new.items ≡ take (length from.old.items - count) from.old.items)) }
    ensures err { IfErr result (λ _. from.new.items ≡ from.old.items) }
    ensures capacity { vec_capacity from.new ≡ vec_capacity from.old }
{
    let mut list = Vec::with_capacity(alloc, room as usize)?;
    let kept = from.len() - count as usize;
    append_all(&mut list, &from[kept..]);
    from.truncate(kept);
    Ok(list)
}
