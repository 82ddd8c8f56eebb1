/// One of the two encodings in which texts are stored and counted (The Unicode Standard, section 3.9).
#[derive(Clone, Copy, Debug, PartialEq, Eq)]
pub enum Encoding {
    /// Code units of 8 bits, 1 to 4 for a scalar.
    Utf8,
    /// Code units of 16 bits, 1 or 2 for a scalar.
    Utf16,
}
