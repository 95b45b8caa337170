//! The code of lines.
ghost use Rattle.std.specs.Prelude.{◌≡◌, ◌++◌, ◌<◌, OnOk, OnErr, map};
ghost use Rattle.ia_encode.specs.declared.item.Item.TheVariants as item;
ghost use Rattle.par_moves.specs.Locations.{InRange, IsFit};
ghost use Rattle.par_moves.specs.Homes.{home_of};
ghost use Rattle.emit_ops.specs.Templates.{alu_code, shift_code, test_code, bin_code, one_code, select_code, load_code, store_code, held_by, line_code};
ghost use Rattle.emit_ops.specs.Placed.{place_at, HasPlace, IsHeld, AreHeld};

use crate::insts::{
    choose, clear, extend_byte, extend_word, load, multiply, operate, read, set, shift, store,
    test_byte, test_word, write,
};
use ia_encode::{Item, Piece};
use ia_inst::{ShiftOp, Width};
use par_moves::{MoveSource, Place};
use reg_place::home;
use ssa_form::{BinOp, Line, OneOp, Val};
use std::alloc::AllocError;

/// An operation on eax.
fn emit_alu(
    p: &mut Piece,
    op: u8,
    a: MoveSource,
    b: MoveSource,
    to: Place,
) -> Result<(), AllocError>
    requires op { op < 8 }
    requires a { IsFit a }
    requires b { IsFit b }
    requires to { InRange to }
    ensures ok { OnOk result (p.new ≡ p.old ++ map item.Inst (alu_code op a b to)) }
    ensures err { OnErr result (p.new ≡ p.old) }
{
    p.append(&[
        Item::Inst(load(0, a)),
        Item::Inst(operate(op, b)),
        Item::Inst(store(to, 0)),
    ])
}

/// A shift of eax by cl.
fn emit_shift(
    p: &mut Piece,
    op: ShiftOp,
    a: MoveSource,
    b: MoveSource,
    to: Place,
) -> Result<(), AllocError>
    requires a { IsFit a }
    requires b { IsFit b }
    requires to { InRange to }
    ensures ok { OnOk result (p.new ≡ p.old ++ map item.Inst (shift_code op a b to)) }
    ensures err { OnErr result (p.new ≡ p.old) }
{
    p.append(&[
        Item::Inst(load(0, a)),
        Item::Inst(load(1, b)),
        Item::Inst(shift(op)),
        Item::Inst(store(to, 0)),
    ])
}

/// A comparison, with its condition as 0 or 1.
fn emit_test(
    p: &mut Piece,
    cond: u8,
    a: MoveSource,
    b: MoveSource,
    to: Place,
) -> Result<(), AllocError>
    requires cond { cond < 16 }
    requires a { IsFit a }
    requires b { IsFit b }
    requires to { InRange to }
    ensures ok { OnOk result (p.new ≡ p.old ++ map item.Inst (test_code cond a b to)) }
    ensures err { OnErr result (p.new ≡ p.old) }
{
    p.append(&[
        Item::Inst(load(0, a)),
        Item::Inst(operate(7, b)),
        Item::Inst(clear()),
        Item::Inst(set(cond)),
        Item::Inst(store(to, 0)),
    ])
}

/// An operator of two.
fn emit_bin(
    p: &mut Piece,
    op: BinOp,
    a: MoveSource,
    b: MoveSource,
    to: Place,
) -> Result<(), AllocError>
    requires a { IsFit a }
    requires b { IsFit b }
    requires to { InRange to }
    ensures ok { OnOk result (p.new ≡ p.old ++ map item.Inst (bin_code op a b to)) }
    ensures err { OnErr result (p.new ≡ p.old) }
{
    match op {
        BinOp::Add => emit_alu(p, 0, a, b, to),
        BinOp::Sub => emit_alu(p, 5, a, b, to),
        BinOp::And => emit_alu(p, 4, a, b, to),
        BinOp::Or => emit_alu(p, 1, a, b, to),
        BinOp::Xor => emit_alu(p, 6, a, b, to),
        BinOp::Mul => p.append(&[
            Item::Inst(load(0, a)),
            Item::Inst(load(1, b)),
            Item::Inst(multiply()),
            Item::Inst(store(to, 0)),
        ]),
        BinOp::MulOver => p.append(&[
            Item::Inst(load(0, a)),
            Item::Inst(load(1, b)),
            Item::Inst(multiply()),
            Item::Inst(clear()),
            Item::Inst(set(0)),
            Item::Inst(store(to, 0)),
        ]),
        BinOp::Shl => emit_shift(p, ShiftOp::Shl, a, b, to),
        BinOp::Shr => emit_shift(p, ShiftOp::Shr, a, b, to),
        BinOp::Sar => emit_shift(p, ShiftOp::Sar, a, b, to),
        BinOp::Eq => emit_test(p, 4, a, b, to),
        BinOp::Ult => emit_test(p, 2, a, b, to),
    }
}

/// An operator of one.
fn emit_one(p: &mut Piece, op: OneOp, a: MoveSource, to: Place) -> Result<(), AllocError>
    requires a { IsFit a }
    requires to { InRange to }
    ensures ok { OnOk result (p.new ≡ p.old ++ map item.Inst (one_code op a to)) }
    ensures err { OnErr result (p.new ≡ p.old) }
{
    match op {
        OneOp::Parity => p.append(&[
            Item::Inst(load(0, a)),
            Item::Inst(test_byte()),
            Item::Inst(clear()),
            Item::Inst(set(10)),
            Item::Inst(store(to, 0)),
        ]),
        OneOp::Sext8 => p.append(&[
            Item::Inst(load(0, a)),
            Item::Inst(extend_byte()),
            Item::Inst(store(to, 0)),
        ]),
        OneOp::Sext16 => p.append(&[
            Item::Inst(load(0, a)),
            Item::Inst(extend_word()),
            Item::Inst(store(to, 0)),
        ]),
    }
}

/// A choice of two.
fn emit_select(
    p: &mut Piece,
    c: MoveSource,
    a: MoveSource,
    b: MoveSource,
    to: Place,
) -> Result<(), AllocError>
    requires c { IsFit c }
    requires a { IsFit a }
    requires b { IsFit b }
    requires to { InRange to }
    ensures ok { OnOk result (p.new ≡ p.old ++ map item.Inst (select_code c a b to)) }
    ensures err { OnErr result (p.new ≡ p.old) }
{
    p.append(&[
        Item::Inst(load(0, c)),
        Item::Inst(test_word()),
        Item::Inst(load(0, b)),
        Item::Inst(load(1, a)),
        Item::Inst(choose()),
        Item::Inst(store(to, 0)),
    ])
}

/// A read of memory.
fn emit_load(p: &mut Piece, w: Width, at: MoveSource, to: Place) -> Result<(), AllocError>
    requires at { IsFit at }
    requires to { InRange to }
    ensures ok { OnOk result (p.new ≡ p.old ++ map item.Inst (load_code w at to)) }
    ensures err { OnErr result (p.new ≡ p.old) }
{
    p.append(&[
        Item::Inst(load(0, at)),
        Item::Inst(read(w)),
        Item::Inst(store(to, 0)),
    ])
}

/// A write of memory.
fn emit_store(p: &mut Piece, w: Width, at: MoveSource, a: MoveSource) -> Result<(), AllocError>
    requires at { IsFit at }
    requires a { IsFit a }
    ensures ok { OnOk result (p.new ≡ p.old ++ map item.Inst (store_code w at a)) }
    ensures err { OnErr result (p.new ≡ p.old) }
{
    p.append(&[
        Item::Inst(load(0, at)),
        Item::Inst(load(1, a)),
        Item::Inst(write(w)),
    ])
}

/// The place of a line.
fn place_of(places: &[Option<Place>], index: u32) -> Place
    requires { HasPlace places.now index }
    ensures value { result ≡ place_at places.now index }
    ensures fits { InRange result }
{
    match places.get(index as usize) {
        Some(Some(place)) => *place,
        _ => unreachable!(),
    }
}

/// Where a value is held.
fn held(places: &[Option<Place>], value: Val) -> MoveSource
    requires { IsHeld places.now value }
    ensures value { result ≡ held_by home_of (place_at places.now) value }
    ensures fits { IsFit result }
{
    match value {
        Val::Param(register) => MoveSource::Place(home(register)),
        Val::Line(index) => MoveSource::Place(place_of(places, index)),
        Val::Num(number) => MoveSource::Num(number),
    }
}

/// Appends the code of a line: its operands are taken from where they are held, parameters from their homes and lines from their
/// places, and its result goes to the place of the line, whose index is `at`. A line that was taken away has no code.
///
/// An error comes for want of memory, and then the piece is as before.
pub fn emit_line(
    p: &mut Piece,
    line: &Line,
    at: u32,
    places: &[Option<Place>],
) -> Result<(), AllocError>
    requires { AreHeld places.now at line.now }
    ensures ok { OnOk result (p.new ≡ p.old ++ map item.Inst (line_code home_of (place_at places.now) at line.now)) }
    ensures err { OnErr result (p.new ≡ p.old) }
{
    match *line {
        Line::Bin { op, a, b } => emit_bin(
            p,
            op,
            held(places, a),
            held(places, b),
            place_of(places, at),
        ),
        Line::One { op, a } => emit_one(p, op, held(places, a), place_of(places, at)),
        Line::Select { c, a, b } => emit_select(
            p,
            held(places, c),
            held(places, a),
            held(places, b),
            place_of(places, at),
        ),
        Line::Load { w, at: address } => emit_load(
            p,
            w,
            held(places, address),
            place_of(places, at),
        ),
        Line::Store { w, at: address, a } => emit_store(
            p,
            w,
            held(places, address),
            held(places, a),
        ),
        Line::Gone => Ok(()),
    }
}
