ghost use Rattle.std.specs.Prelude.{◌≡◌, length, encode_utf8};
ghost use Rattle.std.specs.Char.Escape.{encode_utf16};

/// How many bytes the UTF-8 of a scalar takes, 1 to 4 (The Unicode Standard, section 3.9, D92).
pub fn scalar_len8(scalar: char) -> u32
    ensures { result ≡ length (encode_utf8 scalar) }
{
    scalar.len_utf8() as u32
}

/// How many code units the UTF-16 of a scalar takes, 1 or 2 (The Unicode Standard, section 3.9, D91).
pub fn scalar_len16(scalar: char) -> u32
    ensures { result ≡ length (encode_utf16 scalar) }
{
    if (scalar as u32) < 0x1_0000 { 1 } else { 2 }
}
