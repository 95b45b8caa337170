//! Laws of the simulation of a written file: what its parts promise makes its runs show what the original's
//! runs show.
#![tactic(auto)]

mod fragments;
mod law;

pub use fragments::{all_lines_serve, coding_gives, fragments_run, places_serve};
pub use law::{fragment_step, laws_preserve};
