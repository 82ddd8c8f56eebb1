//! Values of the heap's literals.
ghost use Rattle.std.specs.Prelude.{◌≡◌, ◌≤◌, ◌↔◌, length, IsNone, IfSome};
ghost use Rattle.str_value.specs.Making.{IsLiteralOf};

use crate::storage::{Storage, StrPass};
use crate::value::Str;
use object_words::Object;
use object_words::count_word::{ASCII_BIT, unit_count};

impl<'h> Str<'h> {
    /// The value of literal `k` of the heap, counted from 0; `None` exactly where the heap has no more than `k`.
    ///
    /// Always the Literal form. Two loads, no event, no credit and no memory.
    pub fn literal(pass: &mut StrPass<'h>, k: u64) -> Option<Str<'h>>
        ensures none { IsNone result ↔ (length pass.old.heap.literals ≤ k) }
        ensures literal { IfSome result (IsLiteralOf pass.old k) }
        ensures pass { pass.new ≡ pass.old }
    {
        if k >= pass.literals() as u64 {
            return None;
        }
        let mut literal = pass.literal(k as u32);
        let head = literal.read(0);
        let ascii = head >> ASCII_BIT == 1;
        let count = unit_count(head);
        let object = Object::literal(ascii, ascii, count, k as u32);
        Some(Str {
            object,
            storage: Storage::Literal(literal),
        })
    }
}
