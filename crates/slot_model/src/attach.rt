ghost use Rattle.std.specs.Prelude.{List, ℕ, ◌↔◌, IsTrue};

/// Which list of words may be attached to a held slot as its side.
///
/// `fits words side` says that `side` may stand beside a slot with the words `words`. It depends on the two lists alone.
pub trait Attach {
    ghost fits: { List ℕ → List ℕ → Type 0 };

    /// Whether `side` fits `words`. Takes no memory.
    fn check_fit(words: &[u64], side: &[u64]) -> bool
        ensures { IsTrue result ↔ fits words.now side.now };
}
