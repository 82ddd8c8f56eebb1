//! Scalars found among packed bytes of which nothing is known.
ghost use Rattle.std.specs.Prelude.{◌≡◌, ◌^◌, ◌<◌, drop, MatchOption};
ghost use Rattle.std.specs.Str.{StartsWithNoChar};
ghost use Rattle.text_spec.specs.Packed.{byte_of, bytes_of};
ghost use Rattle.crumbs.specs.Fitting.{BeginsScalar};

use word_units::width_of_lead;

/// Byte `p` of content words, and 0 past them.
fn byte_or_zero(content: &[u64], p: u64) -> u8
    ensures { result ≡ byte_of content.now p }
{
    match content.get((p / 8) as usize) {
        Some(word) => ((*word >> (8 * (p % 8))) % 256) as u8,
        None => 0,
    }
}

/// How many bytes the scalar takes that begins at byte `p` of the first `count` bytes; `None` exactly where no scalar begins there.
pub(crate) fn width_at(content: &[u64], count: u64, p: u64) -> Option<u64>
    requires inside { p < count }
    requires small { count < 2 ^ 48 }
    ensures { MatchOption result (StartsWithNoChar (drop p (bytes_of content.now count))) (BeginsScalar content.now count p) }
{
    let lead = byte_or_zero(content, p);
    let width = width_of_lead(lead) as u64;
    if p + width > count {
        return None;
    }
    let bytes = [
        lead,
        byte_or_zero(content, p + 1),
        byte_or_zero(content, p + 2),
        byte_or_zero(content, p + 3),
    ];
    match str::from_utf8(&bytes[..width as usize]) {
        Ok(_scalar) => Some(width),
        Err(_fault) => None,
    }
}
