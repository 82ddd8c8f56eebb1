//! What the readers of words give of a text.
ghost use Rattle.std.specs.Prelude.{◌≡◌};

use std::alloc::Global;
use std::marker::Brand;
use std::sync::ledger::{Blank, Ledger};
use str_value::Str;
use text_spec::OutOfMemory;
use word_units::{Steps, Text, fill_backward, fill_forward, pass_run, pass_scalar, scalar_at};

/// The scalars of a text, one after another.
fn scalars_of<T: Text, L: Ledger>(
    alloc: Global,
    t: &mut T,
    steps: &mut Steps<L>,
) -> Result<String, OutOfMemory>
    ensures { t.new ≡ t.old }
{
    let end = t.count();
    let mut scalars = String::new(alloc);
    let mut at = 0;
    'scalars: while at < end {
        let (scalar, _width) = scalar_at(t, at, steps);
        scalars.push(scalar)?;
        let (next, _units) = pass_scalar(t, at, steps);
        at = next;
    }
    Ok(scalars)
}

fn read_with<L: Ledger>(alloc: Global, value: &mut Str, blank: Blank) -> Result<String, OutOfMemory>
    requires name { blank.name ≡ L.name }
    requires parts { blank.parts ≡ L.parts }
    requires one { blank.parts ≡ 1 }
    ensures { value.new ≡ value.old }
{
    let mut steps = Steps::<L>::from_blank(blank);
    scalars_of(alloc, value, &mut steps)
}

/// The text of a value, scalar after scalar.
pub(crate) fn read(alloc: Global, value: &mut Str) -> Result<String, OutOfMemory>
    ensures { value.new ≡ value.old }
{
    read_with::<Brand>(alloc, value, Blank::new(1))
}

/// What a walk from the start of a text to its end passed: where it ended, the code units of the other encoding, the scalars.
type Passed = (u64, u64, u64);

/// The walk that takes what begins in a word at once.
fn passed_by_runs<T: Text, L: Ledger>(t: &mut T, steps: &mut Steps<L>) -> Passed
    ensures { t.new ≡ t.old }
{
    let end = t.count();
    let mut at = 0;
    let mut units: u64 = 0;
    let mut scalars: u64 = 0;
    'scalars: while at < end {
        let (next, more, run) = pass_run(t, at, end - at, steps);
        at = next;
        units = units.saturating_add(more);
        scalars = scalars.saturating_add(run);
    }
    (at, units, scalars)
}

/// The longest piece of at most 64 bytes from a text's start.
fn forward<T: Text, L: Ledger>(
    alloc: Global,
    t: &mut T,
    steps: &mut Steps<L>,
) -> Result<Vec<u8>, OutOfMemory>
    ensures { t.new ≡ t.old }
{
    let _count = t.count();
    let low = t.low();
    let _high = t.high();
    let mut piece = [0; 64];
    let (size, _place) = fill_forward(t, low, &mut piece, steps);
    Ok(Vec::from_slice(alloc, &piece[..size])?)
}

/// The longest piece of at most 64 bytes up to a text's end.
fn backward<T: Text, L: Ledger>(
    alloc: Global,
    t: &mut T,
    steps: &mut Steps<L>,
) -> Result<Vec<u8>, OutOfMemory>
    ensures { t.new ≡ t.old }
{
    let _count = t.count();
    let _low = t.low();
    let high = t.high();
    let mut piece = [0; 64];
    let (size, _place) = fill_backward(t, high, &mut piece, steps);
    Ok(Vec::from_slice(alloc, &piece[..size])?)
}

/// What is passed by runs, and the first and the last piece.
#[derive(Drop)]
pub(crate) struct Pieces {
    pub(crate) passed: Passed,
    pub(crate) first: Vec<u8>,
    pub(crate) last: Vec<u8>,
}

fn pieces_with<L: Ledger>(
    alloc: Global,
    value: &mut Str,
    blank: Blank,
) -> Result<Pieces, OutOfMemory>
    requires name { blank.name ≡ L.name }
    requires parts { blank.parts ≡ L.parts }
    requires one { blank.parts ≡ 1 }
    ensures { value.new ≡ value.old }
{
    let mut steps = Steps::<L>::from_blank(blank);
    let first = forward(alloc, value, &mut steps)?;
    let last = backward(alloc, value, &mut steps)?;
    let passed = passed_by_runs(value, &mut steps);
    Ok(Pieces {
        passed,
        first,
        last,
    })
}

/// What the readers of runs and of pieces give of a value.
pub(crate) fn pieces_of(alloc: Global, value: &mut Str) -> Result<Pieces, OutOfMemory>
    ensures { value.new ≡ value.old }
{
    pieces_with::<Brand>(alloc, value, Blank::new(1))
}
