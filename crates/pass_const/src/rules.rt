//! Which name has a line's value by what its operands are. No call takes memory.
ghost use Rattle.std.specs.Prelude.{◌≡◌};
ghost use Rattle.pass_const.specs.Rule.{same_val, right_rule, left_rule, same_rule, bin_rule, one_rule, select_rule, rule, number_in};

use crate::values::{bin, one};
use ssa_form::{BinOp, Line, OneOp, Val};

/// Whether two names are the same.
fn same(a: Val, b: Val) -> bool
    ensures { result ≡ same_val a b }
{
    match (a, b) {
        (Val::Param(x), Val::Param(y)) => x == y,
        (Val::Line(x), Val::Line(y)) => x == y,
        (Val::Num(x), Val::Num(y)) => x == y,
        _ => false,
    }
}

/// What has the value of a name and then a number.
fn right(op: BinOp, x: Val, n: u32) -> Option<Val>
    ensures { result ≡ right_rule op x n }
{
    match op {
        BinOp::Add | BinOp::Sub | BinOp::Or | BinOp::Xor if n == 0 => Some(x),
        BinOp::Mul if n == 1 => Some(x),
        BinOp::And if n == 0xFFFF_FFFF => Some(x),
        BinOp::And if n == 0 => Some(Val::Num(0)),
        BinOp::Shl | BinOp::Shr | BinOp::Sar if n % 32 == 0 => Some(x),
        _ => None,
    }
}

/// What has the value of a number and then a name.
fn left(op: BinOp, n: u32, x: Val) -> Option<Val>
    ensures { result ≡ left_rule op n x }
{
    match op {
        BinOp::Add | BinOp::Or | BinOp::Xor if n == 0 => Some(x),
        _ => None,
    }
}

/// What has the value of a name and then the same name.
fn alike(op: BinOp) -> Option<Val>
    ensures { result ≡ same_rule op }
{
    match op {
        BinOp::Sub | BinOp::Xor | BinOp::Ult => Some(Val::Num(0)),
        BinOp::Eq => Some(Val::Num(1)),
        _ => None,
    }
}

/// What has the value of an operator of two.
fn of_bin(op: BinOp, a: Val, b: Val) -> Option<Val>
    ensures { result ≡ bin_rule op a b }
{
    match b {
        Val::Num(n) => match a {
            Val::Num(m) => Some(Val::Num(bin(op, m, n))),
            _ => right(op, a, n),
        },
        _ => match a {
            Val::Num(m) => left(op, m, b),
            _ => { if same(a, b) { alike(op) } else { None } }
        },
    }
}

/// What has the value of an operator of one.
fn of_one(op: OneOp, a: Val) -> Option<Val>
    ensures { result ≡ one_rule op a }
{
    match a {
        Val::Num(n) => Some(Val::Num(one(op, n))),
        _ => None,
    }
}

/// What has the value of a choice.
fn of_select(c: Val, a: Val, b: Val) -> Option<Val>
    ensures { result ≡ select_rule c a b }
{
    match c {
        Val::Num(n) => Some(if n == 0 { b } else { a }),
        _ => { if same(a, b) { Some(a) } else { None } }
    }
}

/// The name that the first rule that fits puts in a line's place, where one fits: the number that operators of numbers give, and the arm
/// that a number chooses; the operand of `x + 0` and the like; what operands that are the same give. A load, a store and a line that is
/// gone have no rule.
pub fn rule_of(line: &Line) -> Option<Val>
    ensures { result ≡ rule line.now }
{
    match *line {
        Line::Bin { op, a, b } => of_bin(op, a, b),
        Line::One { op, a } => of_one(op, a),
        Line::Select { c, a, b } => of_select(c, a, b),
        Line::Load { .. } | Line::Store { .. } | Line::Gone => None,
    }
}

/// The number that has a line's value, where the first rule that fits gives one.
pub fn number_of(line: &Line) -> Option<u32>
    ensures { result ≡ number_in (rule line.now) }
{
    match rule_of(line) {
        Some(Val::Num(n)) => Some(n),
        _ => None,
    }
}
