//! Object words: what a string value is, in two 64-bit words.
//!
//! A value has one of five forms. A Small value is its own storage: up to 15 bytes of UTF-8 stand in the words. Each
//! other form says where its code units are kept and what is known of them. Word 1, from the highest bit down:
//!
//! | form | bits 63 to 56 | bits 55 to 0 |
//! |---|---|---|
//! | Small, ASCII, of n bytes | `E0 + n`, n 0 to 15 | bytes 8 to 14 of the text |
//! | Small, not ASCII, of n bytes | `A0 + n`, n 2 to 15 | bytes 8 to 14 of the text |
//! | Native: UTF-8 in a slot of the shared storage | `00` | the slot's number in 31 to 0 |
//! | Foreign: UTF-16 in a slot of the shared storage | `10` | the slot's number in 31 to 0 |
//! | Owned: a vector of the value's own | `20` | zero |
//! | Literal: UTF-8 in a row of the program's literals | `80` | the literal's number in 31 to 0 |
//!
//! Word 0 of a Small value is its bytes 0 to 7. In both words the least byte comes first, and a byte behind the text's
//! last is zero. Word 0 of each other form:
//!
//! | bits | what | Native | Foreign | Owned | Literal |
//! |---|---|---|---|---|---|
//! | 63 | each code unit is below 0x80 (ASCII); implies bit 62 | | | | |
//! | 62 | the text is known to be in NFC | | as bit 63 | as bit 63 where bit 59 is set | |
//! | 61 | natively stored | set | clear | clear | clear |
//! | 60 | UTF-8 stands in a row of the table, after its count word | set | clear | clear | set |
//! | 59 | the code units are UTF-16 | clear | set | either | clear |
//! | 58 to 48 | zero | | | | |
//! | 47 to 0 | number of code units | | | | |
//!
//! The numbers of word 0 stand in `count_word.rt`, the others in `layout.rt`, once each, and `laws.rt` says them as the
//! tables do. The words that a text has in a slot, and the row of a literal, begin with such a word 0 too. Meaning:
//! `specs/Rows.antt`, one definition for constructors, readers and `check`. Start at `object.rt`. No call takes memory, and all but `Object::small` and
//! `Object::check` are a few instructions with no loop. The layout is the project's own, after Swift's native strings.
#![tactic(auto)]

pub mod count_word;
mod form;
mod form_word;
pub mod laws;
mod layout;
mod object;
mod said;
mod small;

pub use form::Form;
pub use layout::SMALL_CAPACITY;
pub use object::Object;
