// What the words of a call over a database ask for.
ghost use Rattle.std.specs.Prelude.{◌≡◌, ◌++◌, ◌∷◌, codes, option_map, IfOk};
ghost use Rattle.command_line.specs.meaning.Words.{texts, asked_by};
ghost use Rattle.db_words.specs.Wishes as spec;

use crate::words::{command_of, name_in};
use command_line::{Asked, read_words};
use std::alloc::{AllocError, Global};

/// A batch over a database: its path, the words of `gprs` that it is asked for by, and what they ask for.
#[derive(Drop)]
pub struct Batch {
    pub database: String,
    pub words: Vec<String>,
    pub asked: Asked,
}

/// What is to be done: to run a batch and publish it under a name; to read and judge it; or to show what was published in the
/// database of this path under this name.
#[derive(Drop)]
pub enum Wish {
    Run(Batch, String),
    Check(Batch),
    Show(String, String),
}

// The batch that a command of `gprs` asks for by the words of both lists.
fn batch_of(
    alloc: Global,
    database: &str,
    command: &str,
    before: &[String],
    after: &[String],
) -> Result<Option<Batch>, AllocError>
    ensures { IfOk result (λ batch. option_map spec.task_of batch ≡ spec.task_by database.now (command.now ∷ (texts before.now ++ texts after.now))) }
{
    let words = command_of(alloc, command, before, after)?;
    let Some(asked) = read_words(alloc, &words)? else {
        return Ok(None);
    };
    Ok(Some(Batch {
        database: String::from_str(alloc, database)?,
        words,
        asked,
    }))
}

fn run_wish(alloc: Global, words: &[String]) -> Result<Option<Wish>, AllocError>
    ensures { IfOk result (λ wish. option_map spec.deed_of wish ≡ spec.run_by (texts words.now)) }
{
    let Some((database, words)) = words.split_first() else {
        return Ok(None);
    };
    let Some(named) = name_in(words) else {
        return Ok(None);
    };
    let batch = batch_of(alloc, database.as_str(), "run", named.before, named.after)?;
    match batch {
        Some(batch) if !batch.asked.trace => {
            let name = String::from_str(alloc, named.name)?;
            Ok(Some(Wish::Run(batch, name)))
        }
        _ => Ok(None),
    }
}

fn check_wish(alloc: Global, words: &[String]) -> Result<Option<Wish>, AllocError>
    ensures { IfOk result (λ wish. option_map spec.deed_of wish ≡ spec.check_by (texts words.now)) }
{
    let Some((database, words)) = words.split_first() else {
        return Ok(None);
    };
    match batch_of(alloc, database.as_str(), "one", words, &[])? {
        Some(batch) => Ok(Some(Wish::Check(batch))),
        None => Ok(None),
    }
}

fn show_wish(alloc: Global, words: &[String]) -> Result<Option<Wish>, AllocError>
    ensures { IfOk result (λ wish. option_map spec.deed_of wish ≡ spec.show_by (texts words.now)) }
{
    let [database, name] = words else {
        return Ok(None);
    };
    let database = String::from_str(alloc, database.as_str())?;
    let name = String::from_str(alloc, name.as_str())?;
    Ok(Some(Wish::Show(database, name)))
}

/// What the words ask for, or none where they are those of no call over a database: `run DATABASE PROGRAM --name NAME` with the
/// options of `gprs run` but `--trace`, `check DATABASE PROGRAM` with the limits of one, or `show DATABASE NAME`. `words` are
/// those after the program's own name. The error is that memory is out.
pub fn read_wish(alloc: Global, words: &[String]) -> Result<Option<Wish>, AllocError>
    ensures { IfOk result (λ wish. option_map spec.deed_of wish ≡ spec.deed_by (texts words.now)) }
{
    let Some((verb, words)) = words.split_first() else {
        return Ok(None);
    };
    match verb.as_str() {
        "run" => run_wish(alloc, words),
        "check" => check_wish(alloc, words),
        "show" => show_wish(alloc, words),
        _ => Ok(None),
    }
}
