//! Times the crates of shared storage: histories checked; by one owner and by two in threads, slots published and
//! released, one slot retained and released, and one asked for its side; UTF-16 offsets of a text asked, with its breadcrumbs and
//! without; values made, read, copied and asked, in slots and in vectors.
//!
//! Standard output tells what was done and is the same in each run; standard error tells the milliseconds.
#![tactic(auto)]

mod copies;
mod histories;
mod looks;
mod owners;
mod pairs;
mod places;
mod values;

use anyhow::Result;
use copies::Copies;
use looks::Looks;
use owners::{one_owner, two_owners};
use pairs::Pairs;

fn main(rt: HostRuntime) -> Result<()> {
    histories::check(&rt, rt.alloc(), 100_000)?;
    histories::check(&rt, rt.alloc(), 200_000)?;
    one_owner::<Pairs>(&rt, rt.alloc(), 10_000_000)?;
    two_owners::<Pairs>(&rt, rt.alloc(), 5_000_000)?;
    one_owner::<Copies>(&rt, rt.alloc(), 10_000_000)?;
    two_owners::<Copies>(&rt, rt.alloc(), 5_000_000)?;
    one_owner::<Looks>(&rt, rt.alloc(), 10_000_000)?;
    two_owners::<Looks>(&rt, rt.alloc(), 5_000_000)?;
    places::ask(&rt, rt.alloc(), 1_000_000, true)?;
    places::ask(&rt, rt.alloc(), 10_000, true)?;
    places::ask(&rt, rt.alloc(), 10_000, false)?;
    values::time(&rt, rt.alloc(), 16)?;
    values::time(&rt, rt.alloc(), 0)
}
