//! References of one slot that look for its side.
ghost use Rattle.std.specs.Prelude.{◌≡◌, IfSome};

use crate::owners::{Anything, Work, stored};
use slot_table::{Pass, Ref};
use std::alloc::Global;
use std::thread::{Threads, join_mut};

// An owner of a reference, how often it looks, and how often it has found a side.
#[derive(Drop)]
struct Looker<'h> {
    held: Ref<'h, Anything>,
    rounds: u32,
    found: u64,
}

fn work<'h>(looker: &mut Looker<'h>)
    ensures { looker.new.held.heap ≡ looker.old.held.heap }
{
    for _ in 0..looker.rounds {
        if looker.held.look().is_some() {
            looker.found = looker.found.wrapping_add(1);
        }
    }
}

// A slot with a side.
fn sided<'h>(pass: &mut Pass<'h, Anything>) -> Option<Ref<'h, Anything>>
    ensures pass { pass.new.heap ≡ pass.old.heap }
    ensures reference { IfSome result (λ r. r.heap ≡ pass.old.heap) }
{
    let mut held = stored(pass, 7)?;
    let draft = pass.draft()?;
    held.install(draft, pass);
    Some(held)
}

/// A reference of one slot looks for its side.
pub(crate) struct Looks;

impl Work for Looks {
    fn words() -> (&'static str, &'static str) {
        ("a side found ", " times")
    }

    fn alone(mut pass: Pass<'_, Anything>, rounds: u32) -> u64 {
        let Some(held) = sided(&mut pass) else {
            return 0;
        };
        let mut looker = Looker {
            held,
            rounds,
            found: 0,
        };
        work(&mut looker);
        looker.found
    }

    fn together<R: Threads>(
        rt: &R,
        _alloc: Global,
        mut pass: Pass<'_, Anything>,
        rounds: u32,
    ) -> u64 {
        let Some(mut held) = sided(&mut pass) else {
            return 0;
        };
        let Some(second) = held.retain(&mut pass) else {
            return 0;
        };
        let mut one = Looker {
            held,
            rounds,
            found: 0,
        };
        let mut two = Looker {
            held: second,
            rounds,
            found: 0,
        };
        join_mut(rt, &mut || work(&mut one), &mut || work(&mut two));
        one.found.wrapping_add(two.found)
    }
}
