ghost use Rattle.std.specs.Prelude.{◌≡◌};
ghost use Rattle.unit_views.specs.Elements as elements;

use text_spec::Encoding;

/// What the elements of a text are.
#[derive(Clone, Copy, Debug)]
pub enum ElementKind {
    /// Unicode scalars (The Unicode Standard, section 3.9, D76).
    Scalars,
    /// The code units of an encoding, be it the storage's or not.
    Units(Encoding),
}

/// Whether the elements of the view are the code units of a storage in `encoding`.
pub(crate) fn is_own(view: ElementKind, encoding: Encoding) -> bool
    ensures { result ≡ elements.is_own view encoding }
{
    match view {
        ElementKind::Scalars => false,
        ElementKind::Units(Encoding::Utf8) => match encoding {
            Encoding::Utf8 => true,
            Encoding::Utf16 => false,
        },
        ElementKind::Units(Encoding::Utf16) => match encoding {
            Encoding::Utf8 => false,
            Encoding::Utf16 => true,
        },
    }
}
