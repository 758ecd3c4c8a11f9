// Operators on two values, at the edges.
use std::process::Abort;
use task_ast::{Op, apply, negate};

const LEAST: i64 = -9223372036854775808;

const GREATEST: i64 = 9223372036854775807;

// The left value, the operator, the right value, and the answer.
type Row = (i64, Op, i64, i64);

const ANSWERS: [Row; 26] = [
    (GREATEST, Op::Add, 1, LEAST),
    (LEAST, Op::Sub, 1, GREATEST),
    (GREATEST, Op::Mul, 2, -2),
    (LEAST, Op::Mul, -1, LEAST),
    (7, Op::Div, 0, 0),
    (7, Op::Rem, 0, 0),
    (-7, Op::Div, 2, -3),
    (-7, Op::Rem, 2, -1),
    (7, Op::Div, -2, -3),
    (7, Op::Rem, -2, 1),
    (LEAST, Op::Div, -1, LEAST),
    (LEAST, Op::Rem, -1, 0),
    (-2, Op::Eq, -2, 1),
    (-2, Op::Ne, -2, 0),
    (3, Op::Lt, 3, 0),
    (LEAST, Op::Lt, GREATEST, 1),
    (3, Op::Le, 3, 1),
    (GREATEST, Op::Le, LEAST, 0),
    (3, Op::Gt, 3, 0),
    (GREATEST, Op::Gt, LEAST, 1),
    (3, Op::Ge, 3, 1),
    (LEAST, Op::Ge, GREATEST, 0),
    (2, Op::And, -1, 1),
    (2, Op::And, 0, 0),
    (0, Op::Or, -5, 1),
    (0, Op::Or, 0, 0),
];

fn gives(rt: &impl Abort, row: &Row) {
    let (a, op, b, want) = *row;
    assert_eq!(rt; apply(op, a, b), want, "{a} {op:?} {b}");
}

fn negates(rt: &impl Abort, a: i64, want: i64) {
    assert_eq!(rt; negate(a), want, "{a}");
}

#[test]
fn operators(rt: HostRuntime) {
    for row in &ANSWERS {
        gives(&rt, row);
    }
    negates(&rt, LEAST, LEAST);
    negates(&rt, GREATEST, -GREATEST);
    negates(&rt, 0, 0);
}
