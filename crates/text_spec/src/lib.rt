//! Texts as lists of Unicode scalars: the definitions by which every crate above says what it means, and small types that all of them share.
//!
//! A text is a list of scalars. Its UTF-8, its UTF-16, its offsets and what ill-formed UTF-16 reads as are defined in `specs/`,
//! each with its section of the Unicode Standard. The laws of these definitions are functions with empty bodies in `laws`.
#![tactic(auto)]

mod encoding;
pub mod laws;
mod out_of_memory;
mod scalar;
mod text_list;

pub use encoding::Encoding;
pub use out_of_memory::OutOfMemory;
pub use scalar::{scalar_len8, scalar_len16};
pub use text_list::TextList;
