//! The lines of a block.

use crate::form::Line;
use std::alloc::{AllocError, Global};
use std::marker::Model;

/// Lines, one after another, seen as their list.
#[derive(Drop)]
pub struct Lines {
    list: Vec<Line>,
}

impl Model for Lines {
    ghost use Rattle.std.specs.Prelude.{List};
    ghost use Rattle.ssa_form.specs.declared.form.Line.{Line};

    ghost Value = { List Line };

    ghost view = { λ l. l.list.items };
}

impl Lines {
    ghost use Rattle.std.specs.Prelude.{◌≡◌, ◌<◌, [], ◌∷◌, ◌++◌, length, get_or, MatchResult};
    ghost use Rattle.ssa_form.specs.declared.form.Line.TheVariants.{Gone};

    /// No lines. It takes no memory.
    pub fn new(alloc: Global) -> Self
        ensures { result ≡ [] }
    {
        Lines {
            list: Vec::new(alloc),
        }
    }

    /// The lines of a list. It takes no memory.
    pub fn from_list(list: Vec<Line>) -> Self
        ensures { result ≡ list.items }
    {
        Lines { list }
    }

    /// The lines as a list. It takes no memory.
    pub fn into_list(self) -> Vec<Line>
        ensures { result.items ≡ self }
    {
        self.list
    }

    /// How many there are.
    pub fn len(&self) -> usize
        ensures { result ≡ length self.now }
    {
        self.list.len()
    }

    /// The line with this index, from 0.
    pub fn line(&self, index: usize) -> Line
        requires { index < length self.now }
        ensures { result ≡ get_or self.now index Gone }
    {
        self.list[index]
    }

    /// Puts a line behind them.
    ///
    /// An error comes where memory is short, and then they stay as they are.
    pub fn push(&mut self, line: Line) -> Result<(), AllocError>
        ensures { MatchResult result (λ done. self.new ≡ self.old ++ line ∷ []) (λ short. self.new ≡ self.old) }
    {
        self.list.push(line)?;
        Ok(())
    }
}
