//! What a block reads, and what it hands on as it is.
ghost use Rattle.std.specs.Prelude.{◌≡◌, IfOk, if◌then◌else◌};
ghost use Rattle.pass_dead.specs.Names.{vals_of, exit_vals};
ghost use Rattle.live_flow.specs.Rows.{one_of, val_set, vals_set, lines_set, is_own, moved_set, own_set, uses_of, row_of};

use ssa_form::{Block, Exit, Line, Lines, REGISTERS, Val};
use std::alloc::{AllocError, Global};
use std::marker::Model;
use stub_sink::has_fallback;

/// Starts of blocks, seen as their list.
#[derive(Drop)]
pub struct Starts {
    list: Vec<u32>,
}

impl Model for Starts {
    ghost use Rattle.std.specs.Prelude.{ℕ, List};

    ghost Value = { List ℕ };

    ghost view = { λ s. s.list.items };
}

impl Starts {
    ghost use Rattle.std.specs.Prelude.{◌≡◌};

    /// These starts. It takes no memory.
    pub fn of(list: Vec<u32>) -> Self
        ensures { result ≡ list.items }
    {
        Starts { list }
    }

    /// The starts as a slice. It takes no memory.
    pub fn as_slice(&self) -> &[u32]
        ensures { result.now ≡ self.now }
    {
        self.list.as_slice()
    }
}

/// A block, as far as live sets go. A set of virtual registers is a number: bit v of it is virtual register v.
#[derive(Drop)]
pub struct LiveRow {
    /// The start of the block.
    pub start: u32,
    /// The registers that it reads.
    pub uses: u16,
    /// The registers that it hands on as they are.
    pub passes: u16,
    /// Whether some way out leads to the original program.
    pub fallback: bool,
    /// The starts of its known exits.
    pub next: Starts,
}

/// The set of one register.
fn one_of(register: u8) -> u16
    ensures { result ≡ one_of register }
{
    if (register as usize) < REGISTERS {
        1u16 << register
    } else {
        0
    }
}

/// The register that a name is of.
fn val_set(val: Val) -> u16
    ensures { result ≡ val_set val }
{
    match val {
        Val::Param(register) => one_of(register),
        Val::Line(_) | Val::Num(_) => 0,
    }
}

/// The registers that a line names.
#[tactic(auto, using(crate::proofs::Bits::or_none_right))]
fn line_set(line: Line) -> u16
    ensures { result ≡ vals_set (vals_of line) }
{
    match line {
        Line::Bin { a, b, .. } => val_set(a) | val_set(b),
        Line::One { a, .. } => val_set(a),
        Line::Select { c, a, b } => val_set(c) | (val_set(a) | val_set(b)),
        Line::Load { at, .. } => val_set(at),
        Line::Store { at, a, .. } => val_set(at) | val_set(a),
        Line::Gone => 0,
    }
}

/// The registers that an exit names.
#[tactic(auto, using(crate::proofs::Bits::or_none_right))]
fn exit_set(exit: Exit) -> u16
    ensures { result ≡ vals_set (exit_vals exit) }
{
    match exit {
        Exit::Cond { test, .. } => val_set(test),
        Exit::Way(target) => val_set(target),
        Exit::Jump(_) | Exit::Island { .. } => 0,
    }
}

/// The registers that lines name.
fn lines_set(lines: &Lines) -> u16
    ensures { result ≡ lines_set lines.now }
{
    let mut set = 0;
    for index in (0..lines.len()).rev() {
        set = line_set(lines.line(index)) | set;
    }
    set
}

/// Whether the out of a register is what that register holds before the block.
fn is_own(register: usize, out: Val) -> bool
    ensures { result ≡ is_own register out }
{
    match out {
        Val::Param(own) => own as usize == register,
        Val::Line(_) | Val::Num(_) => false,
    }
}

/// What the out of another register adds.
fn moved(register: usize, out: Val) -> u16
    ensures { result ≡ (if is_own register out then 0 else val_set out) }
{
    if is_own(register, out) {
        0
    } else {
        val_set(out)
    }
}

/// What the out of its own register adds.
fn own(register: u8, out: Val) -> u16
    ensures { result ≡ (if is_own register out then one_of register else 0) }
{
    if is_own(register as usize, out) {
        one_of(register)
    } else {
        0
    }
}

/// The registers that are outs of others.
fn moved_set(outs: &[Val; REGISTERS]) -> u16
    ensures { result ≡ moved_set 0 outs.now }
{
    let mut set = 0;
    for register in (0..REGISTERS).rev() {
        set = moved(register, outs[register]) | set;
    }
    set
}

/// The registers that are outs of their own.
fn own_set(outs: &[Val; REGISTERS]) -> u16
    ensures { result ≡ own_set 0 outs.now }
{
    let mut set = 0;
    for register in (0..REGISTERS).rev() {
        set = own(register as u8, outs[register]) | set;
    }
    set
}

/// The registers that a block reads.
fn uses_of(b: &Block) -> u16
    ensures { result ≡ uses_of b.now.exit b.now }
{
    let read = lines_set(&b.lines) | (exit_set(b.exit) | moved_set(&b.outs));
    match b.exit {
        Exit::Island { .. } => 0x3FFF,
        _ => read,
    }
}

/// The row of a block, where these are its known exits: it uses the registers that a line, the exit or the out of another register
/// names, a native instruction all; it passes those that are outs of their own. The work is linear in the lines and the known exits.
///
/// An error comes for want of memory.
pub fn row_of(alloc: Global, b: &Block, known: &[u32]) -> Result<LiveRow, AllocError>
    ensures { IfOk result (λ row. row ≡ row_of b.now known.now) }
{
    let next = Vec::from_slice(alloc, known)?;
    Ok(LiveRow {
        start: b.start,
        uses: uses_of(b),
        passes: own_set(&b.outs),
        fallback: has_fallback(b.exit, known),
        next: Starts::of(next),
    })
}
