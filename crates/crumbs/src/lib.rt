//! Breadcrumbs of a text in UTF-8 storage: an index word at each `STRIDE`-th UTF-16 unit, so that a question about a UTF-16 offset
//! walks over fewer than `STRIDE` units.
//!
//! A list of breadcrumbs has `u / STRIDE + 2` words, where the text has u UTF-16 units:
//!
//! | word | what |
//! |---|---|
//! | 0 | u |
//! | j + 1 | the index word of UTF-16 offset `j * STRIDE` |
//!
//! An offset on a scalar's first unit, or at the end, has that scalar's position, transcoded offset 0, and is marked scalar aligned;
//! one on the second half of a surrogate pair has the position of its scalar and transcoded offset 1. All are marked for UTF-8 alone,
//! without stride or Character mark.
//!
//! `Crumbs<STRIDE>` says which list of words may be the side of a stored text: its list of breadcrumbs, and no other. `build` writes
//! that list, `for_offset` and `near` find the breadcrumb that a question starts from, `index_of_offset` and `offset_of_index` answer it
//! by a walk from there. The list is the definition's (`crumbs` in `specs/Crumbs.antt` of index_words), for every stride. `StoredText` is
//! the words of a slot with the list beside them, as a text. No call takes memory. Lists, strides and layout are the project's own, after Swift's strings. Start at `asking.rt`.
#![tactic(auto)]

mod asking;
mod counting;
mod crumb;
mod decoding;
mod fitting;
pub mod laws;
mod listing;
mod scanning;
mod stored;
mod walking;

pub use asking::{for_offset, near};
pub use fitting::Crumbs;
pub use listing::build;
pub use stored::StoredText;
pub use walking::{index_of_offset, offset_of_index};
