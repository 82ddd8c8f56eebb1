//! References of one slot, retained and released.
ghost use Rattle.std.specs.Prelude.{◌≡◌};

use crate::owners::{Anything, Work, stored};
use slot_table::{Pass, Ref};
use std::alloc::Global;
use std::thread::{Threads, join_mut};

// An owner with a reference of the slot, how many pairs it makes, and how many it has made.
#[derive(Drop)]
struct Sharer<'h> {
    pass: Pass<'h, Anything>,
    held: Ref<'h, Anything>,
    rounds: u32,
    pairs: u64,
}

fn work<'h>(sharer: &mut Sharer<'h>)
    requires { sharer.old.held.heap ≡ sharer.old.pass.heap }
    ensures { (sharer.new.held.heap ≡ sharer.new.pass.heap) × (sharer.new.pass.heap ≡ sharer.old.pass.heap) }
{
    for _ in 0..sharer.rounds {
        let Some(copy) = sharer.held.retain(&mut sharer.pass) else {
            return;
        };
        if !copy.release(&mut sharer.pass) {
            sharer.pairs = sharer.pairs.wrapping_add(1);
        }
    }
}

/// A reference of one slot is retained, and the new one released.
pub(crate) struct Copies;

impl Work for Copies {
    fn words() -> (&'static str, &'static str) {
        ("one slot retained and released ", " times")
    }

    fn alone(mut pass: Pass<'_, Anything>, rounds: u32) -> u64 {
        let Some(held) = stored(&mut pass, 7) else {
            return 0;
        };
        let mut sharer = Sharer {
            pass,
            held,
            rounds,
            pairs: 0,
        };
        work(&mut sharer);
        sharer.pairs
    }

    fn together<R: Threads>(
        rt: &R,
        alloc: Global,
        mut pass: Pass<'_, Anything>,
        rounds: u32,
    ) -> u64 {
        let Some(mut held) = stored(&mut pass, 7) else {
            return 0;
        };
        let Some(second) = held.retain(&mut pass) else {
            return 0;
        };
        if pass.credits() < 2 {
            return 0;
        }
        let Ok(other) = pass.split(alloc, 0, 1) else {
            return 0;
        };
        let mut one = Sharer {
            pass,
            held,
            rounds,
            pairs: 0,
        };
        let mut two = Sharer {
            pass: other,
            held: second,
            rounds,
            pairs: 0,
        };
        join_mut(rt, &mut || work(&mut one), &mut || work(&mut two));
        one.pairs.wrapping_add(two.pairs)
    }
}
