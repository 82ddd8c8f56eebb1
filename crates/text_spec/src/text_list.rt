ghost use Rattle.std.specs.Prelude.{◌≡◌, ◌<◌, [], ◌∷◌, ◌++◌, length, OnOk, OnErr, Some, slice_get};
ghost use Rattle.text_spec.specs.Texts.{AreTexts};

use crate::out_of_memory::OutOfMemory;
use std::alloc::Global;
use std::marker::Model;

/// A list of texts, which contracts see as the list of their UTF-8 bytes.
#[derive(Drop)]
pub struct TextList {
    texts: Vec<String>,
}

impl Model for TextList {
    ghost use Rattle.std.specs.Prelude.{ℕ, List, map, string_bytes};

    ghost Value = { List (List ℕ) };

    ghost view = { λ list. map string_bytes list.texts.items };
}

impl TextList {
    /// The empty list, which keeps its allocator. It takes no memory.
    pub fn new(alloc: Global) -> TextList
        ensures { result ≡ [] }
    {
        TextList {
            texts: Vec::new(alloc),
        }
    }

    /// Appends a text. Where memory is wanting the list is as before.
    pub fn push(&mut self, text: &str) -> Result<(), OutOfMemory>
        ensures pushed { OnOk result (self.new ≡ self.old ++ text.now ∷ []) }
        ensures kept { OnErr result (self.new ≡ self.old) }
    {
        let alloc = *self.texts.allocator();
        let text = String::from_str(alloc, text)?;
        self.texts.push(text)?;
        Ok(())
    }

    /// The number of texts. Each of them is the UTF-8 of a text.
    pub fn len(&self) -> usize
        ensures length { result ≡ length self.now }
        ensures texts { AreTexts self.now }
    {
        self.texts.len()
    }

    /// Text `k`, counted from 0. `k` is below `len`.
    pub fn get(&self, k: usize) -> &str
        requires { k < length self.now }
        ensures { slice_get self.now k ≡ Some result.now }
    {
        self.texts[k].as_str()
    }
}
