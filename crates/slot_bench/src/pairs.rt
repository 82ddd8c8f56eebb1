//! Slots of one word, published and released.
ghost use Rattle.std.specs.Prelude.{◌≡◌};

use crate::owners::{Anything, Work, stored};
use slot_table::Pass;
use std::alloc::Global;
use std::thread::{Threads, join_mut};

// An owner, how many pairs it makes, and how many of its releases were the last of their slot.
#[derive(Drop)]
struct Owner<'h> {
    pass: Pass<'h, Anything>,
    rounds: u32,
    last: u64,
}

fn work<'h>(owner: &mut Owner<'h>)
    ensures { owner.new.pass.heap ≡ owner.old.pass.heap }
{
    for word in 0..owner.rounds {
        let Some(reference) = stored(&mut owner.pass, word as u64) else {
            return;
        };
        if reference.release(&mut owner.pass) {
            owner.last = owner.last.wrapping_add(1);
        }
    }
}

/// A slot of one word is published and released.
pub(crate) struct Pairs;

impl Work for Pairs {
    fn words() -> (&'static str, &'static str) {
        ("", " slots published and released")
    }

    fn alone(pass: Pass<'_, Anything>, rounds: u32) -> u64 {
        let mut owner = Owner {
            pass,
            rounds,
            last: 0,
        };
        work(&mut owner);
        owner.last
    }

    fn together<R: Threads>(
        rt: &R,
        alloc: Global,
        mut pass: Pass<'_, Anything>,
        rounds: u32,
    ) -> u64 {
        let slots = pass.free_slots() / 2;
        if pass.credits() < 2 {
            return 0;
        }
        let Ok(other) = pass.split(alloc, slots, 1) else {
            return 0;
        };
        let mut one = Owner {
            pass,
            rounds,
            last: 0,
        };
        let mut two = Owner {
            pass: other,
            rounds,
            last: 0,
        };
        join_mut(rt, &mut || work(&mut one), &mut || work(&mut two));
        one.last.wrapping_add(two.last)
    }
}
