use std::marker::Model;

/// A list of words of 64 bits. Contracts see the list.
#[derive(Debug, Drop)]
pub struct Words {
    items: Vec<u64>,
}

impl Model for Words {
    ghost use Rattle.std.specs.Prelude.{List, ℕ};

    ghost Value = { List ℕ };

    ghost view = { λ w. w.items.items };
}

impl Words {
    ghost use Rattle.std.specs.Prelude.{◌≡◌};

    /// The list that `items` holds, in its order. Takes no memory.
    pub fn new(items: Vec<u64>) -> Self
        ensures { result ≡ items.items }
    {
        Words { items }
    }

    /// The list as a slice. Takes no memory.
    pub fn as_slice(&self) -> &[u64]
        ensures { result.now ≡ self.now }
    {
        self.items.as_slice()
    }

    /// The list as a `Vec`, in its order. Takes no memory.
    pub fn into_vec(self) -> Vec<u64>
        ensures { result.items ≡ self }
    {
        let Words { items } = self;
        items
    }
}
