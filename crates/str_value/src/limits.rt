//! The limits of values.

/// The greatest length of a text, in UTF-8 bytes: 16 MiB.
pub const MAX_TEXT_BYTES: usize = 16_777_216;

/// The distance of a value's breadcrumbs, in UTF-16 code units.
pub const CRUMB_STRIDE: usize = 64;
