//! Values made, read, copied and asked, in slots of a heap and, where the heap has none, in vectors.
ghost use Rattle.std.specs.Prelude.{◌≡◌};
ghost use Rattle.text_spec.specs.declared.encoding.Encoding.TheVariants.{Utf8};
ghost use Rattle.str_value.specs.Meaning.{OfHeap};

use anyhow::Result;
use slot_model::Layout;
use slot_table::Heap;
use std::alloc::Global;
use std::marker::Brand;
use std::rt::Clock;
use std::sync::ledger::{Blank, Ledger};
use std::time::Instant;
use str_value::{Str, StrCrumbs, StrPass};
use text_spec::TextList;
use utf16_view::utf16;
use word_units::{Steps, Text};

/// Ten bytes and five UTF-16 units: a scalar of each length.
const PART: &str = "aé€😀";

/// How often a short text has that part, and a long one.
const SHORT_PARTS: u32 = 6;

const LONG_PARTS: u32 = 6_000;

/// How many offsets the long text has, its end among them.
const OFFSETS: u64 = 30_001;

/// How many words the long text takes in a slot, its count word among them.
const LONG_WORDS: u32 = 7_501;

fn mixed(alloc: Global, parts: u32) -> Result<String> {
    let mut text = String::new(alloc);
    for _ in 0..parts {
        text.push_str(PART)?;
    }
    Ok(text)
}

// Makes a value and gives it up, so often.
fn made(alloc: Global, pass: &mut StrPass, bytes: &[u8], rounds: u32) -> u32 {
    let mut done: u32 = 0;
    for _ in 0..rounds {
        if let Ok(value) = Str::from_utf8(alloc, pass, bytes) {
            value.release(pass);
            done = done.wrapping_add(1);
        }
    }
    done
}

// Writes as many words into a draft and gives it back, so often: the stores of a long value alone.
fn written(pass: &mut StrPass, rounds: u32) -> u32 {
    let mut done: u32 = 0;
    for _ in 0..rounds {
        if pass.capacity_words() < LONG_WORDS {
            return done;
        }
        if let Some(mut draft) = pass.draft() {
            for k in 0..LONG_WORDS {
                draft.write(k as u64);
            }
            draft.abandon(pass);
            done = done.wrapping_add(1);
        }
    }
    done
}

// Makes a value, learns its breadcrumbs and gives it up, so often.
fn learned<L: Ledger>(
    alloc: Global,
    pass: &mut StrPass,
    bytes: &[u8],
    rounds: u32,
    blank: Blank,
) -> u32
    requires name { blank.name ≡ L.name }
    requires parts { blank.parts ≡ L.parts }
    requires one { blank.parts ≡ 1 }
{
    let mut steps = Steps::<L>::from_blank(blank);
    let mut done: u32 = 0;
    for _ in 0..rounds {
        if let Ok(value) = Str::from_utf8(alloc, pass, bytes) {
            let mut value = value;
            value.learn_crumbs(pass, &mut steps);
            value.release(pass);
            done = done.wrapping_add(1);
        }
    }
    done
}

// Reads all whole words of a text in UTF-8 storage, so often, and adds them up.
fn read<T: Text, L: Ledger>(t: &mut T, rounds: u32, blank: Blank) -> u64
    requires storage { (T.part t.old).storage ≡ Utf8 }
    requires name { blank.name ≡ L.name }
    requires parts { blank.parts ≡ L.parts }
    requires one { blank.parts ≡ 1 }
    ensures { t.new ≡ t.old }
{
    let mut steps = Steps::<L>::from_blank(blank);
    let mut sum: u64 = 0;
    let words = t.count() / 8;
    'rounds: for _ in 0..rounds {
        'words: for k in 0..words {
            sum = sum.wrapping_add(t.word(k, &mut steps));
        }
    }
    sum
}

// Copies a value and gives the copy up, so often.
fn copied<'h>(alloc: Global, pass: &mut StrPass<'h>, value: &mut Str<'h>, rounds: u32) -> u32
    requires { OfHeap pass.old value.old.place }
    ensures { OfHeap pass.new value.new.place }
{
    let mut done: u32 = 0;
    for _ in 0..rounds {
        if let Ok(copy) = value.copy(alloc, pass) {
            copy.release(pass);
            done = done.wrapping_add(1);
        }
    }
    done
}

// Asks for the indices of so many random offsets, and adds up their positions.
fn asked<T: Text, L: Ledger>(t: &mut T, rounds: u32, blank: Blank) -> u64
    requires name { blank.name ≡ L.name }
    requires parts { blank.parts ≡ L.parts }
    requires one { blank.parts ≡ 1 }
    ensures { t.new ≡ t.old }
{
    let mut steps = Steps::<L>::from_blank(blank);
    let mut seed: u64 = 1;
    let mut sum: u64 = 0;
    for _ in 0..rounds {
        seed = seed
            .wrapping_mul(6364136223846793005)
            .wrapping_add(1442695040888963407);
        if let Ok(index) = utf16::index_of_offset(t, (seed >> 33) % OFFSETS, &mut steps) {
            sum = sum.wrapping_add(index.position());
        }
    }
    sum
}

fn tell(rt: &(impl Print + Eprint + Clock), start: Instant, what: &str, number: u64) -> Result<()> {
    let microseconds = start.elapsed(rt)?.as_micros();
    println!(rt; "{what}: {number}")?;
    eprintln!(rt; "{microseconds} us")?;
    Ok(())
}

// Each of these on a heap of so many slots.
fn work(rt: &(impl Print + Eprint + Clock), alloc: Global, pass: StrPass) -> Result<()> {
    let mut pass = pass;
    let short = mixed(alloc, SHORT_PARTS)?;
    let long = mixed(alloc, LONG_PARTS)?;
    let start = Instant::now(rt)?;
    let done = made(alloc, &mut pass, short.as_bytes(), 1_000_000);
    tell(
        rt,
        start,
        "values of 60 bytes made and released",
        done as u64,
    )?;
    let start = Instant::now(rt)?;
    let done = written(&mut pass, 10_000);
    tell(
        rt,
        start,
        "drafts of 7501 words written and given back",
        done as u64,
    )?;
    let start = Instant::now(rt)?;
    let done = made(alloc, &mut pass, long.as_bytes(), 10_000);
    tell(
        rt,
        start,
        "values of 60000 bytes made and released",
        done as u64,
    )?;
    let start = Instant::now(rt)?;
    let done = learned::<Brand>(alloc, &mut pass, long.as_bytes(), 1_000, Blank::new(1));
    tell(
        rt,
        start,
        "of them with their breadcrumbs learned",
        done as u64,
    )?;
    if let Ok(value) = Str::from_utf8(alloc, &mut pass, long.as_bytes()) {
        let mut value = value;
        ask(rt, alloc, &mut pass, &mut value)?;
    }
    Ok(())
}

fn ask<'h>(
    rt: &(impl Print + Eprint + Clock),
    alloc: Global,
    pass: &mut StrPass<'h>,
    value: &mut Str<'h>,
) -> Result<()>
    requires { OfHeap pass.old value.old.place }
{
    if value.encoding() == text_spec::Encoding::Utf8 {
        let start = Instant::now(rt)?;
        let sum = read::<Str, Brand>(value, 1_334, Blank::new(1));
        tell(rt, start, "sum of 10005000 words read", sum)?;
    }
    let start = Instant::now(rt)?;
    let done = copied(alloc, pass, value, 10_000);
    tell(rt, start, "copies made and released", done as u64)?;
    let start = Instant::now(rt)?;
    let sum = asked::<Str, Brand>(value, 10_000, Blank::new(1));
    tell(rt, start, "sum of the positions of 10000 offsets", sum)?;
    learn::<Brand>(pass, value, Blank::new(1));
    let start = Instant::now(rt)?;
    let sum = asked::<Str, Brand>(value, 10_000, Blank::new(1));
    tell(
        rt,
        start,
        "and again where breadcrumbs were learned, if they can be",
        sum,
    )
}

fn learn<'h, L: Ledger>(pass: &mut StrPass<'h>, value: &mut Str<'h>, blank: Blank)
    requires heap { OfHeap pass.old value.old.place }
    requires name { blank.name ≡ L.name }
    requires parts { blank.parts ≡ L.parts }
    requires one { blank.parts ≡ 1 }
{
    let mut steps = Steps::<L>::from_blank(blank);
    value.learn_crumbs(pass, &mut steps);
}

/// Times values on a heap with so many slots.
pub(crate) fn time(rt: &(impl Print + Eprint + Clock), alloc: Global, slots: u32) -> Result<()> {
    let layout = Layout {
        capacity_words: 8192,
        slots,
        credits: 64,
    };
    if let Ok((heap, whole)) = Heap::<StrCrumbs>::open(alloc, &layout, &TextList::new(alloc)) {
        println!(rt; "values on a heap of {slots} slots")?;
        work(rt, alloc, heap.pass(whole))?;
    }
    Ok(())
}
