// What words ask for.
ghost use Rattle.std.specs.Prelude.{◌≡◌, ◌<◌, ◌≤◌, ◌+◌, ◌++◌, take, length, IfOk, IfSome, OnOk};
ghost use Rattle.command_line.specs.meaning.Words.{texts};
ghost use Rattle.command_line.specs.Words.{IsWithinLimits};
ghost use Rattle.view_calls.specs.meaning.Commands.{order_asked, trace_at, untraced, traced_by, timeline_by, run_by, viewed_by};

use command_line::{Asked, Verb, asked_of, read_why_words};
use gp_base::Name;
use std::alloc::{AllocError, Global};

/// What words ask to be shown: a run, with a position of it where one is asked for, and the file of its trace where
/// they name one.
#[derive(Drop)]
pub struct Viewed {
    pub run: Asked,
    pub position: Option<u64>,
    pub trace: Option<Name>,
}

// The run whose order is asked for, or none where the words are not those of `order`.
fn read_order(alloc: Global, words: &[String]) -> Result<Option<Viewed>, AllocError>
    ensures viewed { IfOk result (λ viewed. viewed ≡ order_asked (texts words.now)) }
    ensures within { IfOk result (λ viewed. IfSome viewed (λ v. IsWithinLimits v.run)) }
{
    let Some(run) = asked_of(alloc, true, Verb::One, words)? else {
        return Ok(None);
    };
    Ok(Some(Viewed {
        run,
        position: None,
        trace: None,
    }))
}

// Where the option `--trace` stands among the words, or how many they are.
fn trace_at(words: &[String]) -> usize
    ensures at { result ≡ trace_at (texts words.now) }
    ensures within { result ≤ length words.now }
{
    for at in 0..words.len() {
        if words[at].as_str() == "--trace" {
            return at;
        }
    }
    words.len()
}

// Appends words.
fn push_words(alloc: Global, to: &mut Vec<String>, words: &[String]) -> Result<(), AllocError>
    ensures { OnOk result (texts to.new.items ≡ texts to.old.items ++ texts words.now) }
{
    for word in words {
        to.push(String::from_str(alloc, word.as_str())?)?;
    }
    Ok(())
}

// The words without the option at this place and the word after it.
fn untraced(alloc: Global, words: &[String], at: usize) -> Result<Vec<String>, AllocError>
    requires { at + 1 < length words.now }
    ensures { IfOk result (λ rest. texts rest.items ≡ untraced at (texts words.now)) }
{
    let mut rest = Vec::new(alloc);
    push_words(alloc, &mut rest, &words[..at])?;
    push_words(alloc, &mut rest, &words[at + 2..])?;
    Ok(rest)
}

// The run that is asked for by words without the option, with this trace or with none.
fn read_traced(
    alloc: Global,
    words: &[String],
    trace: Option<Name>,
) -> Result<Option<Viewed>, AllocError>
    ensures viewed { IfOk result (λ viewed. viewed ≡ traced_by trace (texts words.now)) }
    ensures within { IfOk result (λ viewed. IfSome viewed (λ v. IsWithinLimits v.run)) }
{
    let Some(run) = asked_of(alloc, true, Verb::Run, words)? else {
        return Ok(None);
    };
    if run.trace {
        return Ok(None);
    }
    Ok(Some(Viewed {
        run,
        position: None,
        trace,
    }))
}

// The run whose picture is asked for, or none where the words are not those of `timeline`.
fn read_timeline(alloc: Global, words: &[String]) -> Result<Option<Viewed>, AllocError>
    ensures viewed { IfOk result (λ viewed. viewed ≡ timeline_by (texts words.now)) }
    ensures within { IfOk result (λ viewed. IfSome viewed (λ v. IsWithinLimits v.run)) }
{
    let at = trace_at(words);
    if words.len() <= at + 1 {
        return read_traced(alloc, words, None);
    }
    let file = Name::from_slice(alloc, words[at + 1].as_bytes())?;
    let rest = untraced(alloc, words, at)?;
    read_traced(alloc, &rest, Some(file))
}

// The run that words ask for, or none where they are those of no command that shows a whole run.
fn read_run(alloc: Global, words: &[String]) -> Result<Option<Viewed>, AllocError>
    ensures viewed { IfOk result (λ viewed. viewed ≡ run_by (texts words.now)) }
    ensures within { IfOk result (λ viewed. IfSome viewed (λ v. IsWithinLimits v.run)) }
{
    let [word, ..] = words else {
        return Ok(None);
    };
    if word.as_str() == "order" {
        return read_order(alloc, words);
    }
    if word.as_str() == "timeline" {
        return read_timeline(alloc, words);
    }
    Ok(None)
}

/// What the words ask for, or none where they are those of no command. `words` are those after the program's own name.
/// The error is that memory is out.
pub fn read_words(alloc: Global, words: &[String]) -> Result<Option<Viewed>, AllocError>
    ensures viewed { IfOk result (λ viewed. viewed ≡ viewed_by (texts words.now)) }
    ensures within { IfOk result (λ viewed. IfSome viewed (λ v. IsWithinLimits v.run)) }
{
    if let Some(sought) = read_why_words(alloc, words)? {
        return Ok(Some(Viewed {
            run: sought.run,
            position: Some(sought.position),
            trace: None,
        }));
    }
    read_run(alloc, words)
}
