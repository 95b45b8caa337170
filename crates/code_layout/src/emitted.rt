//! Files that were written of layouts.
use crate::built::Built;
use std::marker::{Model, PhantomData};

/// A file that was written of a layout, for a ledger type. It is seen as what was built, and cannot be cloned; only
/// [`Layout::image`](crate::Layout::image) makes one.
#[derive(Drop)]
pub struct Emitted<L> {
    built: Built,
    ledger: PhantomData<L>,
}

impl<L> Model for Emitted<L> {
    ghost use Rattle.code_layout.specs.declared.built.Built.{Built};

    ghost Value = { Built };

    ghost view = { λ e. e.built };
}

impl<L> Emitted<L> {
    ghost use Rattle.std.specs.Prelude.{◌≡◌};

    /// What was built, emitted.
    pub(crate) fn of(built: Built) -> Emitted<L>
        ensures { result ≡ built }
    {
        Emitted {
            built,
            ledger: PhantomData,
        }
    }

    /// What was built. It takes no memory.
    pub fn built(&self) -> &Built
        ensures { result.now ≡ self.now }
    {
        &self.built
    }

    /// What was built, without its ledger type. It takes no memory.
    pub fn into_built(self) -> Built
        ensures { result ≡ self }
    {
        self.built
    }
}
