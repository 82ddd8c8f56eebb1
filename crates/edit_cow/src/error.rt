//! Why a value was not edited.
ghost use Rattle.std.specs.Prelude.{◌≡◌};
ghost use Rattle.edit_cow.specs.declared.error.EditError.TheVariants as refusal;

use index_words::Index;
use str_value::MakeError;
use word_units::OutOfBounds as Outside;

/// Why a value was not edited. It is as it was.
#[derive(Clone, Copy, Debug, PartialEq, Eq)]
pub enum EditError {
    /// An index lies outside the text: the first one, or the second one where the first is in range.
    OutOfBounds(Outside),
    /// The scalar boundary that the first index is rounded down to is after that of the second; both as they were handed in.
    Reversed { a: Index, b: Index },
    /// The bytes are not UTF-8 (the Unicode Standard, chapter 3); `valid_up_to` counts the bytes of their longest front that is.
    NotUtf8 { valid_up_to: usize },
    /// The new text would have `len` UTF-8 bytes, more than `str_value::MAX_TEXT_BYTES`.
    TooLong { len: u64 },
    /// Memory is wanting.
    OutOfMemory,
}

impl From<Outside> for EditError {
    ghost from_gives = { λ out e. e ≡ refusal.OutOfBounds out };

    fn from(out: Outside) -> EditError {
        EditError::OutOfBounds(out)
    }
}

impl From<MakeError> for EditError {
    ghost use Rattle.edit_cow.specs.Edits.{refusal_of};

    ghost from_gives = { λ m e. e ≡ refusal_of m };

    fn from(refused: MakeError) -> EditError {
        match refused {
            MakeError::NotUtf8 { valid_up_to } => EditError::NotUtf8 { valid_up_to },
            MakeError::TooLong { len } => EditError::TooLong { len },
            MakeError::OutOfMemory => EditError::OutOfMemory,
        }
    }
}
