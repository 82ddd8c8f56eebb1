//! The sort key of a text: the UTF-8 of its normalization form C.
ghost use Rattle.std.specs.Prelude.{◌≡◌, ◌+◌, ◌*◌, ◌≤◌, IfOk, string_bytes};
ghost use Rattle.text_spec.specs.declared.encoding.Encoding.TheVariants.{Utf8};
ghost use Rattle.text_spec.specs.Packed.{content_words};
ghost use Rattle.text_spec.specs.Text.{utf8};
ghost use Rattle.text_spec.specs.Views.{part, size_in};
ghost use Rattle.word_units.specs.Parts.{text_in};
ghost use Rattle.unicode_normalization.specs.Forms.{nfc};

use simdutf8::compat::from_utf8;
use std::alloc::Global;
use std::sync::ledger::Ledger;
use text_spec::OutOfMemory;
use unicode_normalization::slice::{extend_nfc, is_nfc_quick};
use unicode_normalization::{QuickCheck, to_nfc};
use word_units::{Steps, Text, scalar_at};

/// The bytes of UTF-8 storage, all of them. Each word is read once.
fn bytes_of<T: Text, L: Ledger>(
    alloc: Global,
    t: &mut T,
    steps: &mut Steps<L>,
) -> Result<Vec<u8>, OutOfMemory>
    requires { (T.part t.old).storage ≡ Utf8 }
    ensures bytes { IfOk result (λ v. v.items ≡ utf8 (T.part t.old).whole) }
    ensures kept { t.new ≡ t.old }
    ensures cost { steps.new ≤ steps.old + content_words Utf8 (size_in Utf8 (T.part t.old).whole) }
{
    let count = t.count();
    let mut bytes = Vec::with_capacity(alloc, count as usize)?;
    let mut at = 0;
    'words: while at < count {
        let word = t.word(at / 8, steps);
        let size = (count - at).min(8);
        bytes.extend_from_slice(&word.to_le_bytes()[..size as usize])?;
        at += size;
    }
    Ok(bytes)
}

/// The key of a text in UTF-8 storage, of all of it. ASCII is its own form.
pub(crate) fn key_of_bytes<T: Text, L: Ledger>(
    alloc: Global,
    t: &mut T,
    steps: &mut Steps<L>,
) -> Result<Vec<u8>, OutOfMemory>
    requires { (T.part t.old).storage ≡ Utf8 }
    ensures key { IfOk result (λ v. v.items ≡ utf8 (nfc (T.part t.old).whole)) }
    ensures kept { t.new ≡ t.old }
    ensures cost { steps.new ≤ steps.old + content_words Utf8 (size_in Utf8 (T.part t.old).whole) }
{
    let _count = t.count();
    let bytes = bytes_of(alloc, t, steps)?;
    if t.ascii() {
        return Ok(bytes);
    }
    match from_utf8(bytes.as_slice()) {
        Ok(text) => Ok(to_nfc(alloc, text)?.into_bytes()),
        Err(_) => unreachable!(),
    }
}

/// The scalars of a text, in order. At most two words a scalar are read.
fn scalars_of<T: Text, L: Ledger>(
    alloc: Global,
    t: &mut T,
    steps: &mut Steps<L>,
) -> Result<Vec<char>, OutOfMemory>
    ensures scalars { IfOk result (λ v. v.items ≡ text_in (T.part t.old)) }
    ensures kept { t.new ≡ t.old }
    ensures cost { steps.new + 2 * (T.part t.old).first ≤ steps.old + 2 * (T.part t.old).end }
{
    let _count = t.count();
    let low = t.low();
    let high = t.high();
    let mut scalars = Vec::new(alloc);
    let mut at = low;
    'scalars: while at < high {
        let (scalar, width) = scalar_at(t, at, steps);
        scalars.push(scalar)?;
        at += width as u64;
    }
    Ok(scalars)
}

/// The scalars of a text in normalization form C. What the quick check shows to be in the form already isn't copied.
fn form_of<T: Text, L: Ledger>(
    alloc: Global,
    t: &mut T,
    steps: &mut Steps<L>,
) -> Result<Vec<char>, OutOfMemory>
    ensures form { IfOk result (λ v. v.items ≡ nfc (text_in (T.part t.old))) }
    ensures kept { t.new ≡ t.old }
    ensures cost { steps.new + 2 * (T.part t.old).first ≤ steps.old + 2 * (T.part t.old).end }
{
    let scalars = scalars_of(alloc, t, steps)?;
    if is_nfc_quick(scalars.as_slice()) == QuickCheck::Yes {
        return Ok(scalars);
    }
    let mut form = Vec::new(alloc);
    extend_nfc(&mut form, scalars.as_slice())?;
    Ok(form)
}

/// The UTF-8 of scalars.
fn utf8_of(alloc: Global, scalars: &[char]) -> Result<String, OutOfMemory>
    ensures { IfOk result (λ s. string_bytes s ≡ utf8 scalars.now) }
{
    let mut text = String::with_capacity(alloc, scalars.len())?;
    for scalar in scalars {
        text.push(*scalar)?;
    }
    Ok(text)
}

/// The key of a text in UTF-16 storage, by its scalars.
pub(crate) fn key_of_units<T: Text, L: Ledger>(
    alloc: Global,
    t: &mut T,
    steps: &mut Steps<L>,
) -> Result<Vec<u8>, OutOfMemory>
    ensures key { IfOk result (λ v. v.items ≡ utf8 (nfc (text_in (T.part t.old)))) }
    ensures kept { t.new ≡ t.old }
    ensures cost { steps.new + 2 * (T.part t.old).first ≤ steps.old + 2 * (T.part t.old).end }
{
    let form = form_of(alloc, t, steps)?;
    let text = utf8_of(alloc, form.as_slice())?;
    Ok(text.into_bytes())
}
