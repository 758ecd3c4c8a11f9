// What the words of `explain` ask for.
ghost use Rattle.std.specs.Prelude.{◌≡◌, IfOk, IfSome};
ghost use Rattle.command_line.specs.meaning.Words.{texts};
ghost use Rattle.command_line.specs.Words.{IsWithinLimits};
ghost use Rattle.explain_calls.specs.meaning.Commands.{explained_by, is_explain};

use command_line::{Asked, Verb, asked_of};
use std::alloc::{AllocError, Global};

/// Whether the first of the words is `explain`.
pub fn is_explain(words: &[String]) -> bool
    ensures { result ≡ is_explain (texts words.now) }
{
    match words {
        [word, ..] => word.as_str() == "explain",
        [] => false,
    }
}

/// The run that is to be explained, or none where the words are not those of `explain`. `words` are those after the
/// program's own name. The error is that memory is out.
pub fn read_words(alloc: Global, words: &[String]) -> Result<Option<Asked>, AllocError>
    ensures asked { IfOk result (λ asked. asked ≡ explained_by (texts words.now)) }
    ensures within { IfOk result (λ asked. IfSome asked IsWithinLimits) }
{
    if !is_explain(words) {
        return Ok(None);
    }
    let Some(asked) = asked_of(alloc, true, Verb::Run, words)? else {
        return Ok(None);
    };
    if asked.trace {
        return Ok(None);
    }
    Ok(Some(asked))
}
