// Pieces of texts.
ghost use Rattle.std.specs.Prelude.{◌≡◌, ◌++◌, codes, decimal, OnOk};

use itoa::Buffer;
use std::alloc::AllocError;

/// Appends a number in decimal.
pub fn push_number(text: &mut Vec<u8>, number: u64) -> Result<(), AllocError>
    ensures { OnOk result (text.new.items ≡ text.old.items ++ decimal number) }
{
    text.extend_from_slice(Buffer::new().format(number).as_bytes())
}

/// Appends a number in decimal between two words.
pub fn push_between(
    text: &mut Vec<u8>,
    before: &[u8],
    number: u64,
    after: &[u8],
) -> Result<(), AllocError>
    ensures { OnOk result (text.new.items ≡ text.old.items ++ before.now ++ decimal number ++ after.now) }
{
    text.extend_from_slice(before)?;
    push_number(text, number)?;
    text.extend_from_slice(after)
}

/// Appends three words.
pub fn push_words(
    text: &mut Vec<u8>,
    first: &[u8],
    second: &[u8],
    third: &[u8],
) -> Result<(), AllocError>
    ensures { OnOk result (text.new.items ≡ text.old.items ++ first.now ++ second.now ++ third.now) }
{
    text.extend_from_slice(first)?;
    text.extend_from_slice(second)?;
    text.extend_from_slice(third)
}

/// The comma before what stands at this place in a list, if it is not the first.
pub fn comma(at: usize) -> &'static [u8] {
    if at > 0 { b", " } else { b"" }
}

/// Appends a hint as a line.
pub fn push_hint(text: &mut Vec<u8>, hint: &[u8]) -> Result<(), AllocError>
    ensures { OnOk result (text.new.items ≡ text.old.items ++ codes "hint: " ++ hint.now ++ codes "\n") }
{
    push_words(text, b"hint: ", hint, b"\n")
}
