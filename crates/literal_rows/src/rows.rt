//! The rows of a list of texts, and which of the texts is too long.
ghost use Rattle.std.specs.Prelude.{◌≡◌, ◌≤◌, ◌^◌, ◌++◌, length, replicate, IfOk, OnOk, MatchOption};
ghost use Rattle.object_words.specs.CountWord.{IsCount};
ghost use Rattle.literal_rows.specs.Rows as rows;
ghost use Rattle.literal_rows.specs.Rows.{AllFit, AllCounted, IsFirstTooLong, literal_row, rows_of, row_starts};

use object_words::count_word::count_word;
use std::alloc::{AllocError, Global};
use text_spec::TextList;
use word_units::byte_word;

/// The number of the first literal, counted from 0, that has more than `most` bytes. There are at most 2^32 literals.
pub fn first_too_long(literals: &TextList, most: usize) -> Option<u32>
    requires { length literals.now ≤ 2 ^ 32 }
    ensures { MatchOption result (AllFit most literals.now) (IsFirstTooLong most literals.now) }
{
    for number in 0..literals.len() {
        if literals.get(number).len() > most {
            return Some(number as u32);
        }
    }
    None
}

/// Word 0 of a literal's row.
fn row_head(text: &str) -> u64
    requires { IsCount (length text.now) }
    ensures { result ≡ rows.row_head text.now }
{
    let ascii = text.is_ascii();
    count_word(ascii, ascii, false, true, false, text.len() as u64)
}

/// Appends the row of one literal.
fn push_row(words: &mut Vec<u64>, text: &str) -> Result<(), AllocError>
    requires { IsCount (length text.now) }
    ensures { OnOk result (words.new.items ≡ words.old.items ++ literal_row text.now) }
{
    words.push(row_head(text))?;
    let bytes = text.as_bytes();
    for k in 0..bytes.len().div_ceil(8) {
        words.push(byte_word(bytes, k))?;
    }
    Ok(())
}

/// The words of a table that ends with the rows of literals, one behind the other, and where each row begins.
#[derive(Drop)]
pub struct Rows {
    pub words: Vec<u64>,
    pub starts: Vec<usize>,
}

/// The words of a table that has `before` zeros and behind them the rows of the literals, each of fewer than 2^48 bytes.
///
/// Takes memory for these words, for the rows once more while it works, and for the beginnings.
pub fn rows_after(alloc: Global, before: usize, literals: &TextList) -> Result<Rows, AllocError>
    requires few { before ≤ 2 ^ 32 }
    requires counted { AllCounted literals.now }
    ensures words { IfOk result (λ r. r.words.items ≡ replicate before 0 ++ rows_of literals.now) }
    ensures starts { IfOk result (λ r. r.starts.items ≡ row_starts before literals.now) }
{
    let mut rows = Vec::new(alloc);
    let mut starts = Vec::new(alloc);
    for number in 0..literals.len() {
        starts.push(before + rows.len())?;
        push_row(&mut rows, literals.get(number))?;
    }
    let mut words = Vec::with_capacity(alloc, before + rows.len())?;
    words.resize(before, 0)?;
    words.extend_from_slice(rows.as_slice())?;
    Ok(Rows { words, starts })
}
