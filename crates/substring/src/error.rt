//! Why no slice was cut.
ghost use Rattle.std.specs.Prelude.{◌≡◌};
ghost use Rattle.substring.specs.declared.error.SliceError.TheVariants as error;

use index_words::Index;
use text_spec::OutOfMemory as NoMemory;
use word_units::OutOfBounds as Outside;

/// Why two indices gave no slice.
#[derive(Clone, Copy, Debug, PartialEq, Eq)]
pub enum SliceError {
    /// An index lies outside the text: the first one, or the second one where the first is in range.
    OutOfBounds(Outside),
    /// The scalar boundary of `a` is after that of `b`, which are the two indices as they were handed in.
    Reversed { a: Index, b: Index },
    /// Memory is wanting.
    OutOfMemory,
}

impl From<Outside> for SliceError {
    ghost from_gives = { λ out e. e ≡ error.OutOfBounds out };

    fn from(out: Outside) -> SliceError {
        SliceError::OutOfBounds(out)
    }
}

impl From<NoMemory> for SliceError {
    ghost from_gives = { λ _ e. e ≡ error.OutOfMemory };

    fn from(_refused: NoMemory) -> SliceError {
        SliceError::OutOfMemory
    }
}
