// What an expression is read under.
ghost use Rattle.std.specs.Prelude.{◌≡◌, pos};
ghost use Rattle.std.specs.Option.{option_copied};
ghost use Rattle.task_ast.specs.meaning.Names.{named};
ghost use Rattle.task_ast.specs.meaning.Value.{value_at};

use gp_base::{Feed, Name, Seq, ThreadNo};

/// What an expression is read under: control variables, data variables, the thread's number, and the feeds by name.
#[derive(Drop)]
pub struct Env {
    pub names: Seq<(Name, i64)>,
    pub regs: Seq<(Name, i64)>,
    pub me: ThreadNo,
    pub feeds: Seq<(Name, Feed)>,
}

/// What stands beside a name.
pub fn find_named<'a, T>(pairs: &'a [(Name, T)], name: &Name) -> Option<&'a T>
    ensures { option_copied result ≡ named name.now pairs.now }
{
    for pair in pairs {
        if name.as_slice() == pair.0.as_slice() {
            return Some(&pair.1);
        }
    }
    None
}

/// The value beside a name, or 0 where there is none.
pub fn find_value(pairs: &[(Name, i64)], name: &Name) -> i64
    ensures { result ≡ value_at pairs.now name.now }
{
    find_named(pairs, name).copied().unwrap_or(0)
}
