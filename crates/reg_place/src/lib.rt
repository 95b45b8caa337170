//! Where the values of a block are kept: the homes of virtual registers, and the places of lines. specs/Places has the places, and
//! `lines_placed` and `places_lie` say what they are worth.
#![tactic(auto)]

mod homes;
mod laws;
mod placing;
mod uses;

pub use homes::home;
pub use laws::{lines_placed, places_lie};
pub use placing::place;

#[cfg(test)]
mod tests;
