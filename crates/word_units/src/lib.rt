//! Texts as packed words: the trait that every text of the product has, a counter of the words that are read, and the readers of
//! bytes, units and scalars on which all views stand.
//!
//! Content words hold eight bytes of UTF-8, or four units of UTF-16, each with the least first: byte `p` is bits `8 * (p % 8)` on of
//! word `p / 8`, unit `p` is bits `16 * (p % 4)` on of word `p / 4`. A surrogate without its other half reads as U+FFFD. What words
//! denote stands in `specs/Packed.antt` of text_spec. Start at `text.rt`. No call takes memory but the two that make a `VecText`.
//! Source: The Unicode Standard, section 3.9; the packing and the repair are ours.
#![tactic(auto)]

mod bounds;
mod content_words;
mod counting;
mod fill;
mod floor;
mod packing;
mod reading;
mod run;
mod scalar;
mod steps;
mod text;
mod vec_text;
mod walk;

pub use bounds::OutOfBounds;
pub use content_words::{byte_word, unit_or_zero, unit_word};
pub use counting::units_in;
pub use fill::{fill_backward, fill_forward};
pub use floor::boundary_at_or_before;
pub use packing::{units_of_width, width_of_lead};
pub use reading::{byte_at, unit_at};
pub use run::pass_run;
pub use scalar::scalar_at;
pub use steps::Steps;
pub use text::Text;
pub use vec_text::VecText;
pub use walk::{pass_lead, pass_scalar};
