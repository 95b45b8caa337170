//! Fragments that several lists hold.
use block_make::Fragment;
use std::alloc::{AllocError, Global};
use std::marker::Model;
use std::rc::Rc;

/// A fragment that is kept, seen as its code. Sharing it takes no memory and copies no code.
#[derive(Drop)]
pub struct Kept<L> {
    fragment: Rc<Fragment<L>>,
}

impl<L> Model for Kept<L> {
    ghost use Rattle.block_make.specs.FragmentCode.{OpenCode};

    ghost Value = { OpenCode };

    ghost view = { λ k. k.fragment.value };
}

impl<L> Kept<L> {
    ghost use Rattle.std.specs.Prelude.{◌≡◌, IfOk};

    /// Keeps a fragment. An error comes for want of memory.
    pub fn of(alloc: Global, fragment: Fragment<L>) -> Result<Kept<L>, AllocError>
        ensures { IfOk result (λ k. k ≡ fragment) }
    {
        match Rc::new(alloc, fragment) {
            Ok(fragment) => Ok(Kept { fragment }),
            Err(_) => Err(AllocError),
        }
    }

    /// The same fragment once more. An error comes only where it is held more often than can be counted.
    pub fn share(&self) -> Result<Kept<L>, AllocError>
        ensures { IfOk result (λ k. k ≡ self.now) }
    {
        Ok(Kept {
            fragment: self.fragment.clone()?,
        })
    }

    /// The fragment.
    pub fn fragment(&self) -> &Fragment<L>
        ensures { result.now ≡ self.now }
    {
        self.fragment.as_ref()
    }
}
