// The names of tables.
ghost use Rattle.std.specs.Prelude.{◌≡◌, ◌==◌, ◌+◌, ◌<◌, ◌≤◌, length, get_or, if◌then◌else◌};
ghost use Rattle.sqlite_trees.specs.Sound.{same_name};
ghost use Rattle.db_names.specs.Tables as spec;

use sqlite_trees::sound::same_name;

/// The table that stands in the place of a file: its name without its folders and without `.csv` at its end.
pub fn table_of(file: &[u8]) -> &[u8]
    ensures { result.now ≡ spec.table_of file.now }
{
    without_ending(without_folders(file))
}

// What stands after the last slash.
fn without_folders(file: &[u8]) -> &[u8]
    ensures { result.now ≡ spec.without_folders file.now }
{
    let mut start = 0usize;
    for at in 0..file.len() {
        start = start_after(file, at, start);
    }
    let (_, last) = file.split_at(start);
    last
}

// Where what stands after the last slash begins, after one more byte.
fn start_after(file: &[u8], at: usize, start: usize) -> usize
    requires { at < length file.now }
    ensures start { result ≡ (if get_or file.now at 0 == 47 then at + 1 else start) }
    ensures within { start ≤ at → result ≤ at + 1 }
{
    if file[at] == b'/' { at + 1 } else { start }
}

// The name without `.csv` at its end.
fn without_ending(name: &[u8]) -> &[u8]
    ensures { result.now ≡ spec.without_ending name.now }
{
    let (front, ending) = name.split_at(name.len().saturating_sub(4));
    if ending == b".csv".as_slice() {
        front
    } else {
        name
    }
}

/// Whether a table's name is kept for the program or for SQLite: it begins with `gprs_` or `sqlite_`, in any case.
pub fn is_reserved(table: &[u8]) -> bool
    ensures { result ≡ spec.is_reserved table.now }
{
    begins(table, b"gprs_") || begins(table, b"sqlite_")
}

// Whether a name begins with a word, in any case.
#[tactic(auto, using(std::proofs::lemmas::List::take_min))]
fn begins(name: &[u8], word: &[u8]) -> bool
    ensures { result ≡ spec.begins word.now name.now }
{
    let (front, _) = name.split_at(word.len().min(name.len()));
    same_name(front, word)
}
