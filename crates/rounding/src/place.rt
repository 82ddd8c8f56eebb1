//! Where a text begins and ends, and the index of a place that is told.
ghost use Rattle.std.specs.Prelude.{◌≡◌, ◌^◌, ◌<◌, ◌==◌};
ghost use Rattle.index_words.specs.Fields.{plain, word_of};
ghost use Rattle.rounding.specs.Resolving.{Bounds};

use index_words::Index;
use text_spec::Encoding;
use word_units::Text;

/// The text's first and last boundary, in code units of the storage.
pub fn bounds<T: Text>(t: &T) -> (u64, u64)
    ensures { Bounds (T.part t.now) result.0 result.1 }
{
    let _count = t.count();
    (t.low(), t.high())
}

/// The index of a place `past` units of the other encoding into the scalar that begins at the boundary `at`.
pub fn index_from(encoding: Encoding, at: u64, past: u32) -> Index
    requires at_in { at < 2 ^ 48 }
    requires past_in { past < 4 }
    ensures { result ≡ word_of (record (plain at past encoding) { scalar_aligned = past == 0 }) }
{
    let index = Index::new(at, past, encoding);
    if past == 0 {
        return index.with_scalar_aligned();
    }
    index
}
