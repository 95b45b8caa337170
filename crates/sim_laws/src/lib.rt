//! Laws of runs of guests, of the code that they run through, and of the files that stand for them.
#![tactic(auto)]

mod choices;
mod marks;
mod states;

pub use choices::{choices_agree, runs_wider};
pub use marks::fewer_marks;
pub use states::{edges_count, goes_by_kind, leaves_by_known, runs_through, stays_in_code};
