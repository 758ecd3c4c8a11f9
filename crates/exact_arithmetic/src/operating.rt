// Operators on values, which lower a flag where they are not exact.
ghost use Rattle.std.specs.Prelude.{◌≡◌, ◌&&◌, Some, false, neg_ℤ};
ghost use Rattle.std.specs.Int.{int_wrap, w64};
ghost use Rattle.task_ast.specs.meaning.Value.{operate};
ghost use Rattle.exact_arithmetic.specs.Exact.{is_exact, negates};

use task_ast::{Op, apply, negate};

// An operator on two values on which it is not exact.
fn inexact(op: Op, a: i64, b: i64, exact: &mut bool) -> i64
    ensures value { result ≡ operate op a b }
    ensures flag { exact.new ≡ false }
{
    *exact = false;
    apply(op, a, b)
}

fn sum(a: i64, b: i64, exact: &mut bool) -> i64
    ensures value { result ≡ operate Op.Add a b }
    ensures flag { exact.new ≡ (exact.old && is_exact Op.Add a b) }
{
    match a.checked_add(b) {
        Some(sum) => sum,
        None => inexact(Op::Add, a, b, exact),
    }
}

fn difference(a: i64, b: i64, exact: &mut bool) -> i64
    ensures value { result ≡ operate Op.Sub a b }
    ensures flag { exact.new ≡ (exact.old && is_exact Op.Sub a b) }
{
    match a.checked_sub(b) {
        Some(difference) => difference,
        None => inexact(Op::Sub, a, b, exact),
    }
}

fn product(a: i64, b: i64, exact: &mut bool) -> i64
    ensures value { result ≡ operate Op.Mul a b }
    ensures flag { exact.new ≡ (exact.old && is_exact Op.Mul a b) }
{
    match a.checked_mul(b) {
        Some(product) => product,
        None => inexact(Op::Mul, a, b, exact),
    }
}

fn quotient(a: i64, b: i64, exact: &mut bool) -> i64
    ensures value { result ≡ operate Op.Div a b }
    ensures flag { exact.new ≡ (exact.old && is_exact Op.Div a b) }
{
    match a.checked_div(b) {
        Some(quotient) => quotient,
        None => inexact(Op::Div, a, b, exact),
    }
}

fn remainder(a: i64, b: i64, exact: &mut bool) -> i64
    ensures value { result ≡ operate Op.Rem a b }
    ensures flag { exact.new ≡ (exact.old && is_exact Op.Rem a b) }
{
    if b == 0 {
        inexact(Op::Rem, a, b, exact)
    } else {
        apply(Op::Rem, a, b)
    }
}

/// An operator on two values. The flag falls where it does not give what it gives on all whole numbers.
pub fn operated(op: Op, a: i64, b: i64, exact: &mut bool) -> i64
    ensures value { result ≡ operate op a b }
    ensures flag { exact.new ≡ (exact.old && is_exact op a b) }
{
    match op {
        Op::Add => sum(a, b, exact),
        Op::Sub => difference(a, b, exact),
        Op::Mul => product(a, b, exact),
        Op::Div => quotient(a, b, exact),
        Op::Rem => remainder(a, b, exact),
        Op::Or | Op::And | Op::Eq | Op::Ne | Op::Lt | Op::Le | Op::Gt | Op::Ge => apply(op, a, b),
    }
}

/// The negative of a value, in two's complement. The flag falls where that is not its negative.
pub fn negated(a: i64, exact: &mut bool) -> i64
    ensures value { result ≡ int_wrap w64 (neg_ℤ a) }
    ensures flag { exact.new ≡ (exact.old && negates (Some a)) }
{
    match a.checked_neg() {
        Some(negative) => negative,
        None => {
            *exact = false;
            negate(a)
        }
    }
}
