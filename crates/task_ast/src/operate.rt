// The operators on 64-bit numbers.
ghost use Rattle.std.specs.Prelude.{◌≡◌, neg_ℤ};
ghost use Rattle.std.specs.Int.{int_wrap, w64};
ghost use Rattle.task_ast.specs.meaning.Value.{operate};

use crate::Op;

/// An operator on two values.
pub fn apply(op: Op, a: i64, b: i64) -> i64
    ensures { result ≡ operate op a b }
{
    match op {
        Op::Or => i64::from(a != 0 || b != 0),
        Op::And => i64::from(a != 0 && b != 0),
        Op::Eq => i64::from(a == b),
        Op::Ne => i64::from(a != b),
        Op::Lt => i64::from(a < b),
        Op::Le => i64::from(a <= b),
        Op::Gt => i64::from(a > b),
        Op::Ge => i64::from(a >= b),
        Op::Add => a.wrapping_add(b),
        Op::Sub => a.wrapping_sub(b),
        Op::Mul => a.wrapping_mul(b),
        Op::Div => quotient(a, b),
        Op::Rem => remainder(a, b),
    }
}

fn quotient(a: i64, b: i64) -> i64
    ensures { result ≡ operate Op.Div a b }
{
    if b == 0 { 0 } else { a.wrapping_div(b) }
}

fn remainder(a: i64, b: i64) -> i64
    ensures { result ≡ operate Op.Rem a b }
{
    if b == 0 { 0 } else { a.wrapping_rem(b) }
}

/// The negative of a value, in two's complement.
pub fn negate(a: i64) -> i64
    ensures { result ≡ int_wrap w64 (neg_ℤ a) }
{
    a.wrapping_neg()
}
