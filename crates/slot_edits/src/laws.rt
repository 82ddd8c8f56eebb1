//! What readers ask of an edit: the text that the words denote.
ghost use Rattle.std.specs.Prelude.{◌≡◌, ℕ, Bool, List, length, Some, chars};
ghost use Rattle.std.specs.Str.{IsUtf8};
ghost use Rattle.std.specs.Char.{len_utf8};
ghost use Rattle.text_spec.specs.Boundaries.{IsScalarBoundary};
ghost use Rattle.text_spec.specs.Editing.{replaced};
ghost use Rattle.text_spec.specs.Offsets.{down};
ghost use Rattle.text_spec.specs.Packed.{denoted_text};
ghost use Rattle.text_spec.specs.declared.encoding.Encoding.TheVariants.{Utf8};
ghost use Rattle.slot_edits.specs.declared.part.Part.{Part};
ghost use Rattle.slot_edits.specs.Parts.{spliced};
ghost use Rattle.slot_edits.specs.Texts.{IsText, Edited};
ghost use Rattle.slot_edits.specs.Words.{content};

/// An edit between two scalar boundaries makes of the text that a slot's content words denote what `replaced` makes of it.
/// Callers cite `edited-text`.
pub fn edited_words_denote_the_replaced_text()
    ensures { (known later with text : List ℕ) (part : Part) (ascii : Bool) → IsText known part.count ascii
        → denoted_text Utf8 (content known) part.count ≡ Some text
        → IsScalarBoundary len_utf8 text part.low → IsScalarBoundary len_utf8 text part.high → IsUtf8 with → Edited known part with later
        → denoted_text Utf8 (content later) (length (spliced known part with))
        ≡ Some (replaced text (down len_utf8 text part.low) (down len_utf8 text part.high) (chars with)) }
{}
