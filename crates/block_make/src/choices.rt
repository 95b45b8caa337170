//! The block of a start as it becomes code.
ghost use Rattle.std.specs.Prelude.{◌≡◌, ◌≤◌, IsTrue, IfOk, length};
ghost use Rattle.elf_read.specs.Elf.{IsGuest, is_exec};
ghost use Rattle.ssa_form.specs.Checked.{checked};
ghost use Rattle.ssa_form.specs.Same.{IsWord, SpellsWords};
ghost use Rattle.block_make.specs.Choices.{ready};
ghost use Rattle.block_make.specs.Prepared.{SpellsFew};

use elf_read::Exe;
use lift_flow::lift_block;
use pass_const::rules_hold;
use pass_copy::{fold, fold_keeps};
use pass_dead::{prune, prune_keeps};
use ssa_form::{Block, Exit, Val};
use std::alloc::{AllocError, Global};

/// The block of a start, an executable address, as it becomes code: lifted, folded and pruned. Its work is linear in the lines that are
/// lifted. An error comes for want of memory.
pub fn ready(alloc: Global, exe: &Exe, start: u32) -> Result<Block, AllocError>
    requires guest { IsGuest exe.now }
    requires code { IsTrue (is_exec start exe.now.segments) }
    ensures block { IfOk result (λ b. b ≡ ready exe.now start) }
    ensures whole { IfOk result (λ b. IsTrue (checked b)) }
    ensures words { IfOk result SpellsWords }
    ensures few { IfOk result (λ b. length b.lines ≤ 2048) }
    ensures exit { IfOk result (λ b. SpellsFew b.exit) }
{
    rules_hold();
    fold_keeps();
    prune_keeps();
    let lifted = lift_block(alloc, exe, start)?;
    let folded = fold(alloc, &lifted)?;
    let block = prune(alloc, &folded)?;
    note_exit(block.exit);
    Ok(block)
}

/// What a name spells out has 32 bits.
fn note_word(value: Val)
    ensures { IsWord value }
{
    match value {
        Val::Param(_) | Val::Line(_) | Val::Num(_) => {}
    }
}

/// What an exit spells out fits.
fn note_exit(exit: Exit)
    ensures { SpellsFew exit }
{
    match exit {
        Exit::Cond { test, .. } => note_word(test),
        Exit::Way(target) => note_word(target),
        Exit::Jump(_) | Exit::Island { .. } => {}
    }
}
