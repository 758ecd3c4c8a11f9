// Words taken apart and put together.
ghost use Rattle.std.specs.Prelude.{◌≡◌, ◌≤◌, ◌∷◌, ◌++◌, length, option_map, IfOk, OnOk};
ghost use Rattle.command_line.specs.meaning.Words.{texts};
ghost use Rattle.db_words.specs.Names as spec;

use std::alloc::{AllocError, Global};

// Appends copies of these words.
fn push_words(alloc: Global, own: &mut Vec<String>, words: &[String]) -> Result<(), AllocError>
    ensures { OnOk result (texts own.new.items ≡ texts own.old.items ++ texts words.now) }
{
    for word in words {
        own.push(String::from_str(alloc, word.as_str())?)?;
    }
    Ok(())
}

/// A command with the words of both lists after it.
pub fn command_of(
    alloc: Global,
    command: &str,
    before: &[String],
    after: &[String],
) -> Result<Vec<String>, AllocError>
    ensures { IfOk result (λ own. texts own.items ≡ command.now ∷ (texts before.now ++ texts after.now)) }
{
    let mut own = Vec::new(alloc);
    own.push(String::from_str(alloc, command)?)?;
    push_words(alloc, &mut own, before)?;
    push_words(alloc, &mut own, after)?;
    Ok(own)
}

// The place of the option of the name among the words, or their number where it isn't there.
fn name_place(words: &[String]) -> usize
    ensures place { result ≡ spec.name_place (texts words.now) }
    ensures within { result ≤ length words.now }
{
    let mut place = 0;
    for word in words {
        if word.as_str() == "--name" {
            return place;
        }
        place += 1;
    }
    place
}

/// The name, the words before its option, and those after it.
#[derive(Drop)]
pub struct Named<'a> {
    pub name: &'a str,
    pub before: &'a [String],
    pub after: &'a [String],
}

/// The name among these words, with the other words, or none where there is no name.
pub fn name_in<'a>(words: &'a [String]) -> Option<Named<'a>>
    ensures { option_map (λ named. (named.name.now, texts named.before.now ++ texts named.after.now)) result ≡ spec.named_in (texts words.entry.now) }
{
    let (before, rest) = words.split_at(name_place(words));
    let (_, rest) = rest.split_first()?;
    let (name, after) = rest.split_first()?;
    Some(Named {
        name: name.as_str(),
        before,
        after,
    })
}
