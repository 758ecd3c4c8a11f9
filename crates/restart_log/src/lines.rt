// Numbers and printed lines, as bytes.
ghost use Rattle.std.specs.Prelude.{◌≡◌, ◌↔◌, ◌++◌, codes, IsTrue, OnOk, IfOk};
ghost use Rattle.std.specs.Fmt.{signed_decimal};
ghost use Rattle.restart_log.specs.meaning.Lines.{spaced, printed_line, printed};

use gp_base::Lines;
use itoa::{Buffer, Integer};
use std::alloc::{AllocError, Global};

/// Appends a number in decimal. The error is that memory is out.
pub fn push_number<I: Integer>(text: &mut Vec<u8>, number: I) -> Result<(), AllocError>
    ensures { OnOk result (text.new.items ≡ text.old.items ++ I.text number) }
{
    text.extend_from_slice(Buffer::new().format(number).as_bytes())
}

/// Appends a word and a number in decimal after it. The error is that memory is out.
pub fn push_number_after<I: Integer>(
    text: &mut Vec<u8>,
    word: &[u8],
    number: I,
) -> Result<(), AllocError>
    ensures { OnOk result (text.new.items ≡ text.old.items ++ word.now ++ I.text number) }
{
    text.extend_from_slice(word)?;
    push_number(text, number)
}

/// Appends a word, a number in decimal after it, and the end of the line. The error is that memory is out.
pub fn push_numbered_line<I: Integer>(
    text: &mut Vec<u8>,
    word: &[u8],
    number: I,
) -> Result<(), AllocError>
    ensures { OnOk result (text.new.items ≡ text.old.items ++ word.now ++ I.text number ++ codes "\n") }
{
    push_number_after(text, word, number)?;
    text.extend_from_slice(b"\n")
}

/// Appends each value in decimal after a space. The error is that memory is out.
pub fn push_spaced(text: &mut Vec<u8>, values: &[i64]) -> Result<(), AllocError>
    ensures { OnOk result (text.new.items ≡ text.old.items ++ spaced values.now) }
{
    for value in values {
        push_number_after(text, b" ", *value)?;
    }
    Ok(())
}

// Appends a printed line.
fn push_line(text: &mut Vec<u8>, values: &[i64]) -> Result<(), AllocError>
    ensures { OnOk result (text.new.items ≡ text.old.items ++ printed_line values.now) }
{
    if let Some((first, rest)) = values.split_first() {
        push_number(text, *first)?;
        push_spaced(text, rest)?;
    }
    text.extend_from_slice(b"\n")
}

/// Appends printed lines. The error is that memory is out.
pub fn push_lines(text: &mut Vec<u8>, lines: &Lines) -> Result<(), AllocError>
    ensures { OnOk result (text.new.items ≡ text.old.items ++ printed lines.now) }
{
    for line in lines.as_slice() {
        push_line(text, line.as_slice())?;
    }
    Ok(())
}

/// The bytes of printed lines. The error is that memory is out.
pub fn printed(alloc: Global, lines: &Lines) -> Result<Vec<u8>, AllocError>
    ensures { IfOk result (λ text. text.items ≡ printed lines.now) }
{
    let mut text = Vec::new(alloc);
    push_lines(&mut text, lines)?;
    Ok(text)
}

/// Whether this is the text of printed lines, which is made again for that. The error is that memory is out.
pub fn is_printed(alloc: Global, text: &[u8], lines: &Lines) -> Result<bool, AllocError>
    ensures { IfOk result (λ is. IsTrue is ↔ (text.now ≡ printed lines.now)) }
{
    let again = printed(alloc, lines)?;
    Ok(again.as_slice() == text)
}
