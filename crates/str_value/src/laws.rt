//! What callers ask of values, each law a function with an empty body whose contract is the law.
ghost use Rattle.std.specs.Prelude.{◌≡◌};
ghost use Rattle.str_value.specs.Learning.{BareInstalls};

use crate::limits::{CRUMB_STRIDE, MAX_TEXT_BYTES};

/// A text has at most 16 MiB of UTF-8, and a breadcrumb stands at each 64th UTF-16 code unit. Definitions cite the constants, and would
/// move with them.
pub fn limits_are()
    ensures text { MAX_TEXT_BYTES ≡ 16777216 }
    ensures stride { CRUMB_STRIDE ≡ 64 }
{}

/// A bare value that learns its breadcrumbs makes a Look that finds none and one Install that wins, and no other event.
pub fn a_bare_value_installs_once()
    ensures { BareInstalls }
{}
