//! The file that is written for an original and edges, and that it does what the original does.
#![tactic(auto)]

mod image;
mod law;

pub use image::build;
pub use law::image_law;

#[cfg(test)]
mod tests;
