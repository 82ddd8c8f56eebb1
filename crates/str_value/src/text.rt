//! A value as a text that is read word by word.
ghost use Rattle.std.specs.Prelude.{◌≡◌, ◌<◌, true, length, slice_index};
ghost use Rattle.index_words.specs.Crumbs.{crumbs};
ghost use Rattle.text_spec.specs.Packed.{content_words};
ghost use Rattle.text_spec.specs.Views.{size_in};
ghost use Rattle.str_value.specs.Meaning.{storage_of, is_there, side_of};
ghost use Rattle.str_value.specs.Stored.{crumb_words};

use crate::limits::CRUMB_STRIDE;
use crate::small::object_word;
use crate::storage::Storage;
use crate::value::Str;
use std::sync::ledger::Ledger;
use text_spec::Encoding;
use word_units::{Steps, Text, byte_word, unit_word};

/// All of the storage is the text. Breadcrumbs are known where the value's reference knows its slot's side.
impl<'h> Text for Str<'h> {
    ghost use Rattle.object_words.specs.Rows.{ascii_of};
    ghost use Rattle.str_value.specs.Meaning.{own_part, is_there, side_of};
    ghost use Rattle.str_value.specs.declared.limits.TheConstants.{CRUMB_STRIDE};

    ghost part = { own_part };

    ghost words = { λ s. s.words };

    ghost knows_crumbs = { λ s. is_there (side_of s.place) };

    ghost marked_ascii = { λ s. ascii_of s.row };

    ghost STRIDE = { CRUMB_STRIDE };

    fn stride(&self) -> usize {
        CRUMB_STRIDE
    }

    fn encoding(&self) -> Encoding {
        match &self.storage {
            Storage::Words => Encoding::Utf8,
            Storage::Native(_, _) => Encoding::Utf8,
            Storage::Foreign(_) => Encoding::Utf16,
            Storage::Literal(_) => Encoding::Utf8,
            Storage::Bytes(_) => Encoding::Utf8,
            Storage::Units(_) => Encoding::Utf16,
        }
    }

    fn count(&self) -> u64 {
        self.object.count()
    }

    fn low(&self) -> u64 {
        0
    }

    fn high(&self) -> u64 {
        self.object.count()
    }

    fn word<L: Ledger>(&mut self, k: u64, steps: &mut Steps<L>) -> u64 {
        steps.tick();
        content_word(self, k)
    }

    fn crumbs_known(&self) -> bool {
        known_words(&self.storage) > 0
    }

    fn crumb_word<L: Ledger>(&mut self, j: u64, steps: &mut Steps<L>) -> u64 {
        steps.tick();
        side_word(self, j)
    }

    fn ascii(&self) -> bool {
        self.object.ascii()
    }
}

// Content word `k`: read out of the slot or the literal, or packed as it is asked for.
pub(crate) fn content_word(value: &mut Str, k: u64) -> u64
    requires { k < content_words (storage_of value.old.row) (size_in (storage_of value.old.row) value.old.text) }
    ensures word { result ≡ slice_index value.old.words k }
    ensures kept { value.new ≡ value.old }
{
    let object = value.object;
    match &mut value.storage {
        Storage::Words => object_word(object, k),
        Storage::Native(reference, _) => reference.read(k as u32 + 1),
        Storage::Foreign(reference) => reference.read(k as u32 + 1),
        Storage::Literal(literal) => literal.read(k as u32 + 1),
        Storage::Bytes(kept) => byte_word(kept.as_slice(), k as usize),
        Storage::Units(kept) => unit_word(kept.as_slice(), k as usize),
    }
}

// Word `j` of the breadcrumbs, where they are known and have so many.
fn side_word(value: &mut Str, j: u64) -> u64
    ensures word { is_there (side_of value.old.place) ≡ true → j < length (crumbs value.old.text 64) → result ≡ slice_index (crumbs value.old.text 64) j }
    ensures kept { value.new ≡ value.old }
{
    let known = known_words(&value.storage);
    match &mut value.storage {
        Storage::Native(reference, _) => {
            if j < known as u64 {
                reference.side(j as u32)
            } else {
                j
            }
        }
        _ => j,
    }
}

// The number of words of the breadcrumbs, or 0 where they aren't known.
pub(crate) fn known_words(storage: &Storage) -> u32
    ensures { result ≡ crumb_words storage.now }
{
    match storage {
        Storage::Native(_, crumbs) => *crumbs,
        _ => 0,
    }
}
