// The words and the files of a call.
ghost use Rattle.std.specs.Prelude.{◌≡◌, ◌++◌, ◌∷◌, [], OnOk};

use gp_base::{Name, Seq, Text};
use std::alloc::{AllocError, Global};

/// The words between spaces.
pub fn words_of(alloc: Global, text: &str) -> Result<Vec<String>, AllocError> {
    let mut words = Vec::new(alloc);
    if text.is_empty() {
        return Ok(words);
    }
    for word in text.split(' ') {
        words.push(String::from_str(alloc, word)?)?;
    }
    Ok(words)
}

/// Puts a file of this name after others.
pub fn put(
    alloc: Global,
    files: &mut Seq<(Name, Text)>,
    name: &[u8],
    text: &[u8],
) -> Result<(), AllocError>
    ensures { OnOk result (files.new ≡ files.old ++ (name.now, text.now) ∷ []) }
{
    let name = Name::from_slice(alloc, name)?;
    let text = Text::from_slice(alloc, text)?;
    files.push((name, text))
}
