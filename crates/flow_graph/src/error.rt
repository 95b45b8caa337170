//! Why there is no graph.
use std::alloc::AllocError;
use thiserror::Error;

/// The most blocks that a graph has. A set of edges that gives more is refused.
pub const MAX_BLOCKS: u32 = 65536;

/// Why [`Graph::of`](crate::Graph::of) gives no graph.
#[derive(Debug, PartialEq, Eq, Drop, Error)]
pub enum GraphError {
    /// It has more than [`MAX_BLOCKS`] blocks.
    #[error("limit blocks 65536")]
    Blocks,
    /// Want of memory.
    #[error("out of memory")]
    Memory,
}

impl From<AllocError> for GraphError {
    ghost use Rattle.std.specs.Prelude.{◌≡◌};
    ghost use Rattle.flow_graph.specs.declared.error.GraphError.TheVariants.{Memory};

    ghost from_gives = { λ _ e. e ≡ Memory };

    fn from(_: AllocError) -> Self {
        GraphError::Memory
    }
}
