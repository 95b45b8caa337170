//! Rules, worked out by hand.

use crate::{Line, Val, number_of, rule_of};
use ssa_form::{BinOp, OneOp};

/// An operator of two.
fn bin(op: BinOp, a: Val, b: Val) -> Line {
    Line::Bin { op, a, b }
}

/// Whether the name that takes the line's place is this parameter.
fn is_param(line: Line, register: u8) -> bool {
    match rule_of(&line) {
        Some(Val::Param(v)) => v == register,
        _ => false,
    }
}

#[test]
fn numbers_give_numbers(rt: HostRuntime) {
    let x = Val::Line(3);
    assert_eq!(rt; number_of(&bin(BinOp::Sub, x, x)), Some(0));
    assert_eq!(rt; number_of(&bin(BinOp::Eq, x, x)), Some(1));
    assert_eq!(rt;
        number_of(&bin(BinOp::Sub, Val::Num(0), Val::Num(1))),
        Some(0xFFFF_FFFF)
    );
    assert_eq!(rt;
        number_of(&bin(BinOp::Sar, Val::Num(0x8000_0000), Val::Num(35))),
        Some(0xF000_0000)
    );
    assert_eq!(rt;
        number_of(&bin(BinOp::MulOver, Val::Num(0x1_0000), Val::Num(0x8000))),
        Some(1)
    );
    let sext = Line::One {
        op: OneOp::Sext8,
        a: Val::Num(0x180),
    };
    assert_eq!(rt; number_of(&sext), Some(0xFFFF_FF80));
}

#[test]
fn names_stand_for_lines(rt: HostRuntime) {
    let eax = Val::Param(0);
    assert!(rt; is_param(bin(BinOp::Add, eax, Val::Num(0)), 0));
    assert!(rt; is_param(bin(BinOp::Shl, eax, Val::Num(64)), 0));
    assert!(rt; is_param(bin(BinOp::And, eax, Val::Num(0xFFFF_FFFF)), 0));
    assert_eq!(rt; number_of(&bin(BinOp::Add, eax, Val::Num(0))), None);
    // only the operand on the right counts
    assert!(rt; rule_of(&bin(BinOp::And, Val::Num(0), eax)).is_none());
    assert!(rt; rule_of(&bin(BinOp::Sub, Val::Num(0), eax)).is_none());
}

#[test]
fn choices_and_loads(rt: HostRuntime) {
    let choice = Line::Select {
        c: Val::Num(0),
        a: Val::Param(0),
        b: Val::Num(7),
    };
    assert_eq!(rt; number_of(&choice), Some(7));
    let same = Line::Select {
        c: Val::Line(2),
        a: Val::Param(5),
        b: Val::Param(5),
    };
    assert!(rt; is_param(same, 5));
    let load = Line::Load {
        w: ssa_form::Width::B32,
        at: Val::Num(4096),
    };
    assert!(rt; rule_of(&load).is_none());
}
