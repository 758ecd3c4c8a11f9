// Values of expressions worked out by hand, and a large tree.
use gp_base::{Feed, Name, Seq, ThreadNo};
use std::alloc::{AllocError, Global};
use std::test::Fail;
use task_ast::{Env, Expr, Op, eval_c, eval_d};

// A cell of a feed by its row and its field, and its value.
type Cell = (&'static str, i64, i64, Option<i64>);

const CELLS: [Cell; 8] = [
    ("m", 0, 0, Some(10)),
    ("m", 0, 2, Some(12)),
    ("m", 1, 0, Some(20)),
    ("m", 2, 0, None),
    ("m", 0, 3, None),
    ("m", -1, 0, None),
    ("m", 0, -1, None),
    ("x", 0, 0, None),
];

// A name, and the values of the control variable, of the data variable and of the rows of the feed of that name.
type Named = (&'static str, i64, i64, i64);

const NAMES: [Named; 3] = [("x", 5, 0, 0), ("y", 0, -6, 0), ("m", 0, 0, 2)];

fn name(alloc: Global, text: &str) -> Result<Name, AllocError> {
    Seq::from_slice(alloc, text.as_bytes())
}

fn pair<T: Drop>(alloc: Global, text: &str, item: T) -> Result<Seq<(Name, T)>, AllocError> {
    let name = name(alloc, text)?;
    let mut pairs = Seq::new(alloc);
    pairs.push((name, item))?;
    Ok(pairs)
}

// Thread 7, with `x` at 5, `$y` at -6, and the feed `m` of two rows of three fields.
fn env(alloc: Global) -> Result<Env, AllocError> {
    let cells = Seq::from_slice(alloc, [10, 11, 12, 20, 21, 22].as_slice())?;
    let feeds = pair(alloc, "m", Feed::new(3, cells))?;
    let names = pair(alloc, "x", 5)?;
    let regs = pair(alloc, "y", -6)?;
    Ok(Env {
        names,
        regs,
        me: ThreadNo(7),
        feeds,
    })
}

// The value of an expression, where there was memory for it.
fn value_of(env: &Env, e: Result<Expr, AllocError>) -> Result<Option<i64>, AllocError> {
    match e {
        Ok(e) => {
            let value = eval_d(&e, env);
            drop(e);
            Ok(value)
        }
        Err(error) => Err(error),
    }
}

fn cell(alloc: Global, feed: &str, row: i64, field: i64) -> Result<Expr, AllocError> {
    let feed = name(alloc, feed)?;
    let row = Box::new(alloc, Expr::Num(row))?;
    let field = Box::new(alloc, Expr::Num(field))?;
    Ok(Expr::Cell(feed, row, field))
}

// Whether each cell has its value.
fn has_cells(alloc: Global, env: &Env) -> Result<bool, AllocError> {
    for (feed, row, field, want) in &CELLS {
        if value_of(env, cell(alloc, feed, *row, *field))? != *want {
            return Ok(false);
        }
    }
    Ok(true)
}

#[test]
fn cells(rt: HostRuntime) -> Result<(), Fail> {
    let alloc = rt.alloc();
    let env = env(alloc)?;
    let is_told = has_cells(alloc, &env);
    drop(env);
    assert!(rt; is_told?);
    Ok(())
}

fn control(alloc: Global, text: &str) -> Result<Expr, AllocError> {
    Ok(Expr::Ctl(name(alloc, text)?))
}

fn data(alloc: Global, text: &str) -> Result<Expr, AllocError> {
    Ok(Expr::Reg(name(alloc, text)?))
}

fn rows(alloc: Global, text: &str) -> Result<Expr, AllocError> {
    Ok(Expr::Rows(name(alloc, text)?))
}

// Whether a name has these values.
fn has_values(alloc: Global, env: &Env, named: &Named) -> Result<bool, AllocError> {
    let control = value_of(env, control(alloc, named.0))?;
    let data = value_of(env, data(alloc, named.0))?;
    let rows = value_of(env, rows(alloc, named.0))?;
    Ok(control == Some(named.1) && data == Some(named.2) && rows == Some(named.3))
}

// Whether each name has its values.
fn has_names(alloc: Global, env: &Env) -> Result<bool, AllocError> {
    for named in &NAMES {
        if !has_values(alloc, env, named)? {
            return Ok(false);
        }
    }
    Ok(true)
}

#[test]
fn names(rt: HostRuntime) -> Result<(), Fail> {
    let alloc = rt.alloc();
    let env = env(alloc)?;
    let is_told = has_names(alloc, &env);
    drop(env);
    assert!(rt; is_told?);
    Ok(())
}

#[test]
#[tactic(auto, using(task_ast::proofs::Views::view))]
fn thread_number(rt: HostRuntime) -> Result<(), Fail> {
    let env = env(rt.alloc())?;
    let number = eval_c(&Expr::Me, &env);
    drop(env);
    assert!(rt; number == Some(7));
    Ok(())
}

// The members of a chain that are numbers.
fn numbers(alloc: Global, links: &[(Op, i64)]) -> Result<Seq<(Op, Expr)>, AllocError> {
    let mut members = Seq::new(alloc);
    for (op, value) in links {
        members.push((*op, Expr::Num(*value)))?;
    }
    Ok(members)
}

// The chain of a number, these members and the last one.
fn chain(
    alloc: Global,
    first: i64,
    members: Seq<(Op, Expr)>,
    last: (Op, Expr),
) -> Result<Expr, AllocError> {
    let mut members = members;
    members.push(last)?;
    Ok(Expr::Chain(Box::new(alloc, Expr::Num(first))?, members))
}

// 2 - 3 * 4 in one chain goes from left to right.
fn left_to_right(alloc: Global) -> Result<Expr, AllocError> {
    let members = numbers(alloc, &[(Op::Sub, 3)])?;
    chain(alloc, 2, members, (Op::Mul, Expr::Num(4)))
}

// The right side of `or` is evaluated where the left is 1.
fn right_side(alloc: Global) -> Result<Expr, AllocError> {
    let outside = cell(alloc, "m", 2, 0)?;
    chain(alloc, 1, Seq::new(alloc), (Op::Or, outside))
}

#[test]
fn chains(rt: HostRuntime) -> Result<(), Fail> {
    let env = env(rt.alloc())?;
    let order = value_of(&env, left_to_right(rt.alloc()));
    let side = value_of(&env, right_side(rt.alloc()));
    drop(env);
    assert!(rt; order? == Some(-4) && side?.is_none());
    Ok(())
}

// The sum of 1, of so many numbers, and of a tree.
fn added(alloc: Global, links: &[(Op, i64)], tree: Expr) -> Result<Expr, AllocError> {
    let members = match numbers(alloc, links) {
        Ok(members) => members,
        Err(error) => {
            drop(tree);
            return Err(error);
        }
    };
    chain(alloc, 1, members, (Op::Add, tree))
}

// Five levels of operators in each of 64 nestings, three of them with 100,000 members more than the others.
fn deep(alloc: Global) -> Result<Expr, AllocError> {
    let ones = vec![in alloc; (Op::Add, 1); 100000]?;
    let mut tree = Expr::Num(1);
    for level in 0..320 {
        let links = if level % 107 == 0 {
            ones.as_slice()
        } else {
            &[]
        };
        tree = added(alloc, links, tree)?;
    }
    Ok(tree)
}

#[test]
fn deep_and_long(rt: HostRuntime) -> Result<(), Fail> {
    let env = env(rt.alloc())?;
    let value = value_of(&env, deep(rt.alloc()));
    drop(env);
    assert!(rt; value? == Some(1 + 320 + 3 * 100000));
    Ok(())
}
