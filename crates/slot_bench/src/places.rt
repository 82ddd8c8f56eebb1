//! Random offsets of a long mixed text, asked with its breadcrumbs and without.
ghost use Rattle.std.specs.Prelude.{◌≡◌, ◌<◌};

use anyhow::Result;
use crumbs::StoredText;
use index_words::Index;
use std::alloc::{AllocError, Global};
use std::marker::Brand;
use std::rt::Clock;
use std::sync::ledger::{Blank, Ledger};
use std::time::Instant;
use text_spec::Encoding;
use utf16_view::utf16;
use word_units::{Steps, Text, byte_word};

/// The distance of breadcrumbs, in UTF-16 units.
const DISTANCE: usize = 64;

/// Ten bytes and five UTF-16 units: a scalar of each length.
const PART: &str = "aé€😀";

/// How often the text has that part: 60,000 bytes and 30,000 units.
const PARTS: u32 = 6_000;

/// How many offsets it has, its end among them.
const OFFSETS: u64 = 30_001;

// The words of a stored text: a count word, and eight bytes to a word after it.
fn stored(alloc: Global, text: &str) -> std::result::Result<Vec<u64>, AllocError> {
    let bytes = text.as_bytes();
    let mut words = Vec::new(alloc);
    words.push(bytes.len() as u64)?;
    for k in 0..(bytes.len() + 7) / 8 {
        words.push(byte_word(bytes, k))?;
    }
    Ok(words)
}

// The list of its breadcrumbs: unit after unit, of which each `DISTANCE`-th gets an index word.
fn list(alloc: Global, text: &str) -> std::result::Result<Vec<u64>, AllocError> {
    let mut words = Vec::new(alloc);
    words.push(OFFSETS - 1)?;
    let mut unit: u64 = 0;
    for (position, scalar) in text.char_indices() {
        for past in 0..scalar.len_utf16() as u32 {
            if unit % DISTANCE as u64 == 0 {
                words.push(crumb(position as u64, past))?;
            }
            unit = unit.wrapping_add(1);
        }
    }
    if unit % DISTANCE as u64 == 0 {
        words.push(crumb(text.len() as u64, 0))?;
    }
    Ok(words)
}

fn crumb(position: u64, past: u32) -> u64 {
    let index = Index::new(position % (1 << 48), past % 4, Encoding::Utf8);
    if past == 0 {
        index.with_scalar_aligned().bits()
    } else {
        index.bits()
    }
}

// Asks for the indices of so many offsets, and adds up their positions.
fn asked<T: Text, L: Ledger>(t: &mut T, rounds: u32, blank: Blank) -> u64
    requires name { blank.name ≡ L.name }
    requires parts { blank.parts ≡ L.parts }
    requires one { blank.parts ≡ 1 }
{
    let mut steps = Steps::<L>::from_blank(blank);
    let mut seed: u64 = 1;
    let mut sum: u64 = 0;
    for _ in 0..rounds {
        seed = seed
            .wrapping_mul(6364136223846793005)
            .wrapping_add(1442695040888963407);
        if let Ok(index) = utf16::index_of_offset(t, (seed >> 33) % OFFSETS, &mut steps) {
            sum = sum.wrapping_add(index.position());
        }
    }
    sum
}

/// Asks for the indices of so many random offsets, of a text that tells its breadcrumbs or keeps them to itself.
pub(crate) fn ask(
    rt: &(impl Print + Eprint + Clock),
    alloc: Global,
    rounds: u32,
    tells: bool,
) -> Result<()> {
    let mut mixed = String::new(alloc);
    for _ in 0..PARTS {
        mixed.push_str(PART)?;
    }
    let words = stored(alloc, mixed.as_str())?;
    let list = list(alloc, mixed.as_str())?;
    if let Some(mut text) = StoredText::<DISTANCE>::new(words, list, tells) {
        let start = Instant::now(rt)?;
        let sum = asked::<StoredText<DISTANCE>, Brand>(&mut text, rounds, Blank::new(1));
        let milliseconds = start.elapsed(rt)?.as_millis();
        println!(rt; "{rounds} offsets, breadcrumbs known: {tells}, sum of the positions: {sum}")?;
        eprintln!(rt; "{milliseconds} ms")?;
    }
    Ok(())
}
