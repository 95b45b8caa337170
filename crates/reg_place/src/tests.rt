//! Homes and places, worked out by hand.
ghost use Rattle.std.specs.Prelude.{◌≡◌, ◌∷◌, [], ◌≤◌, true, false, IfOk, IsTrue, length};
ghost use Rattle.ssa_form.specs.Checked.{checked};
ghost use Rattle.ssa_form.specs.declared.form.BinOp.TheVariants.{Add};
ghost use Rattle.ssa_form.specs.declared.form.Line.TheVariants.{Bin};
ghost use Rattle.reg_place.specs.Examples.{sum, after, store};
ghost use Rattle.reg_place.specs.Places.{IsSplit};

use crate::{home, place};
use par_moves::Place;
use ssa_form::{BinOp, Block, Exit, Line, Lines, Marks, Split, Val, Width, check_block};
use std::test::Fail;

#[test]
fn homes_in_registers_and_slots(rt: HostRuntime) {
    assert_eq!(rt; home(0), Place::Reg(3));
    assert_eq!(rt; home(1), Place::Slot(1));
    assert_eq!(rt; home(4), Place::Reg(5));
    assert_eq!(rt; home(5), Place::Reg(6));
    assert_eq!(rt; home(13), Place::Slot(13));
}

/// A sum of two.
fn add(a: Val, b: Val) -> Line
    ensures { result ≡ Bin Add a b }
{
    Line::Bin {
        op: BinOp::Add,
        a,
        b,
    }
}

/// A block of these lines whose out of eax is a name.
fn block_of(lines: Lines, eax: Val) -> Block {
    let mut outs = [Val::Num(0); 14];
    outs[0] = eax;
    Block {
        start: 0x0804_8000,
        lines,
        outs,
        exit: Exit::Jump(0x0804_8000),
    }
}

/// Every line in the body.
#[tactic(auto, using(crate::proofs::Splits::all_in_body))]
fn all_in_body(rt: &HostRuntime, b: &Block) -> Result<Split, Fail>
    requires { IsTrue (checked b.now) }
    ensures { IfOk result (λ s. IsSplit b.now s) }
{
    Ok(Split {
        body: Marks::of(vec![in rt.alloc(); true; b.lines.len()]?),
        sunk: Marks::of(vec![in rt.alloc(); false; b.lines.len()]?),
    })
}

/// The places of a block's lines, all of them in the body.
fn places_of(rt: &HostRuntime, b: &Block) -> Result<Vec<Option<Place>>, Fail> {
    if !check_block(b) || b.lines.len() > 2048 {
        return Err("no block".into());
    }
    let split = all_in_body(rt, b)?;
    Ok(place(rt.alloc(), b, &split)?)
}

#[test]
fn a_chain_needs_one_place(rt: HostRuntime) -> Result<(), Fail> {
    let mut lines = Lines::new(rt.alloc());
    lines.push(add(Val::Param(0), Val::Num(1)))?;
    for index in 0..39_u32 {
        lines.push(add(Val::Line(index), Val::Num(1)))?;
    }
    let block = block_of(lines, Val::Line(39));
    let places = places_of(&rt, &block)?;
    let edi = vec![in rt.alloc(); Some(Place::Reg(7)); 40]?;
    assert!(rt; places.as_slice() == edi.as_slice());
    Ok(())
}

#[test]
fn values_are_held_over_others(rt: HostRuntime) -> Result<(), Fail> {
    let mut lines = Lines::new(rt.alloc());
    lines.push(add(Val::Param(0), Val::Num(1)))?;
    lines.push(add(Val::Param(1), Val::Num(1)))?;
    lines.push(add(Val::Param(2), Val::Num(1)))?;
    lines.push(add(Val::Line(0), Val::Line(1)))?;
    lines.push(add(Val::Line(2), Val::Line(3)))?;
    let block = block_of(lines, Val::Line(4));
    let places = places_of(&rt, &block)?;
    // The fourth takes the place of its own operand, and so does the fifth.
    let held = [
        Some(Place::Reg(7)),
        Some(Place::Reg(2)),
        Some(Place::Slot(17)),
        Some(Place::Reg(7)),
        Some(Place::Reg(7)),
    ];
    assert!(rt; places.as_slice() == held.as_slice());
    Ok(())
}

/// A sum that a later line names, one that nothing names, a store, one in neither list, and the line that names the first.
fn some_lines(rt: &HostRuntime) -> Result<Lines, Fail>
    ensures { IfOk result (λ lines. lines ≡ sum ∷ sum ∷ store ∷ sum ∷ after ∷ []) }
{
    let mut lines = Lines::new(rt.alloc());
    lines.push(add(Val::Param(0), Val::Num(1)))?;
    lines.push(add(Val::Param(0), Val::Num(1)))?;
    lines.push(Line::Store {
        w: Width::B32,
        at: Val::Num(4096),
        a: Val::Param(0),
    })?;
    lines.push(add(Val::Param(0), Val::Num(1)))?;
    lines.push(add(Val::Line(0), Val::Num(1)))?;
    Ok(lines)
}

/// Which lines are in the body, and which are sunk: the last one.
fn some_split(rt: &HostRuntime) -> Result<Split, Fail>
    ensures body { IfOk result (λ s. s.body ≡ true ∷ true ∷ true ∷ false ∷ false ∷ []) }
    ensures sunk { IfOk result (λ s. s.sunk ≡ false ∷ false ∷ false ∷ false ∷ true ∷ []) }
{
    Ok(Split {
        body: Marks::of(vec![in rt.alloc(); true, true, true, false, false]?),
        sunk: Marks::of(vec![in rt.alloc(); false, false, false, false, true]?),
    })
}

#[test]
fn sunk_lines_come_last(rt: HostRuntime) -> Result<(), Fail> {
    let mut outs = [Val::Num(0); 14];
    outs[0] = Val::Line(4);
    let block = Block {
        start: 0x0804_8000,
        lines: some_lines(&rt)?,
        outs,
        exit: Exit::Jump(0x0804_8000),
    };
    let split = some_split(&rt)?;
    assert!(rt; check_block(&block));
    let places = place(rt.alloc(), &block, &split)?;
    // The first is held over all of the body, and the sunk line takes its place.
    let held = [
        Some(Place::Reg(7)),
        Some(Place::Reg(2)),
        None,
        None,
        Some(Place::Reg(7)),
    ];
    assert!(rt; places.as_slice() == held.as_slice());
    Ok(())
}
