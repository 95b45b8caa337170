//! Doubly linked lists by index: nodes that hang in a row and in a column each.
#![tactic(auto)]

mod chains;
mod links;
mod room;
mod slots;
mod walk;

pub use links::{LIMIT, LinkError, Links};
pub use walk::{ColumnWalk, RowWalk};

#[cfg(test)]
mod tests;
