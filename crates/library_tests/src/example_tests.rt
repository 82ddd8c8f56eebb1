//! The example of README.md, which shows the lines between the two marks.
ghost use Rattle.std.specs.Prelude.{◌≡◌};

use crate::heaps::heap_of;
use std::alloc::Global;
use std::marker::Brand;
use std::process::Abort;
use std::sync::ledger::{Blank, Ledger};
use std::test::Fail;
use str_value::{Str, StrPass};
use substring::slice;
use unit_views::{scalars, utf8};
use utf16_view::utf16;
use word_units::Steps;

#[tactic(auto, using(value_heaps::proofs::Moving::of_heap_moves))]
fn example<L: Ledger>(
    rt: &impl Abort,
    alloc: Global,
    pass: &mut StrPass,
    blank: Blank,
) -> Result<(), Fail>
    requires name { blank.name ≡ L.name }
    requires parts { blank.parts ≡ L.parts }
    requires one { blank.parts ≡ 1 }
{
    let steps = &mut Steps::<L>::from_blank(blank);
    // README begins
    let mut line = Str::from_utf8(alloc, pass, "say h😀!".as_bytes())?;
    let from = utf16::index_of_offset(&mut line, 4, steps)?;
    let to = utf16::index_of_offset(&mut line, 7, steps)?;
    let mut word = slice(alloc, &mut line, pass, from, to, steps)?;
    assert_eq!(rt; scalars::count(&mut word, steps), 2);
    assert_eq!(rt; utf8::count(&mut word, steps), 5);
    assert_eq!(rt; scalars::element(&mut word, from, steps)?, 'h');
    // README ends
    word.release(pass);
    line.release(pass);
    Ok(())
}

#[test]
fn the_example_of_the_readme_is_so(rt: HostRuntime) -> Result<(), Fail> {
    let (heap, whole) = heap_of(&rt, rt.alloc(), 4)?;
    let mut pass = heap.pass(whole);
    example::<Brand>(&rt, rt.alloc(), &mut pass, Blank::new(1))
}
