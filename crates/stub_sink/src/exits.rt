//! What the known exits of a block say.
ghost use Rattle.std.specs.Prelude.{◌≡◌, ℕ, IfOk};
ghost use Rattle.pass_dead.specs.Names.{has};
ghost use Rattle.stub_sink.specs.Splits.{is_known, has_fallback, starts_of, live_at};

use ssa_form::Exit;
use std::alloc::{AllocError, Global};

/// Whether an address is known.
fn is_known(known: &[u32], address: u32) -> bool
    ensures { result ≡ is_known known.now address }
{
    known.iter().any(|start| *start == address)
}

/// Whether some way out of a block with this exit leads to the original program, where these addresses are known: a jump to another one, a
/// branch either of whose ways does, and any indirect transfer. A native instruction has none.
pub fn has_fallback(exit: Exit, known: &[u32]) -> bool
    ensures { result ≡ has_fallback exit known.now }
{
    match exit {
        Exit::Jump(to) => !is_known(known, to),
        Exit::Cond { taken, next, .. } => !is_known(known, taken) || !is_known(known, next),
        Exit::Way(_) => true,
        Exit::Island { .. } => false,
    }
}

/// The addresses of known exits.
///
/// An error comes for want of memory.
pub fn starts_of(alloc: Global, exits: &[(u32, u16)]) -> Result<Vec<u32>, AllocError>
    ensures { IfOk result (λ starts. starts.items ≡ starts_of exits.now) }
{
    let mut starts = Vec::new(alloc);
    for exit in exits {
        starts.push(exit.0)?;
    }
    Ok(starts)
}

/// The set of the registers that are live at a known exit.
pub fn live_at(exits: &[(u32, u16)]) -> u16
    ensures { (v : ℕ) → has result v ≡ live_at exits.now v }
{
    let mut live = 0;
    for exit in exits {
        live |= exit.1;
    }
    live
}
