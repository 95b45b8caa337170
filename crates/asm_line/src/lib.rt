//! One line of a source: what it is, and the bytes that it gives.
#![tactic(auto)]

mod digits;
mod labels;
mod laws;
mod lines;
mod places;
mod transfers;

pub use digits::BYTE_LIMIT;
pub use labels::{LABEL_LIMIT, is_label};
pub use laws::{forms_give_bytes, lines_give_forms, transfers_are_valid};
pub use lines::{Form, form_of};
pub use places::{put_form, size_of_form};
pub use transfers::Transfer;

#[cfg(test)]
mod tests;
