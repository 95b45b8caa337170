//! The recovered code as a whole, and the file that is written with it.
#![tactic(auto)]

mod built;
mod emitted;
mod entry;
mod error;
mod fixing;
mod growth;
mod image;
mod keys;
mod laid;
mod laws;
mod layout;
mod live;
mod parts;
mod place;
mod places;
mod rows;
mod short;

pub use built::{BuildError, Built};
pub use emitted::Emitted;
pub use entry::is_entry_known;
pub use error::LayoutError;
pub use fixing::put_word;
pub use growth::{layouts_build, layouts_grow};
pub use image::written;
pub use keys::{keys_from, keys_of};
pub use laid::laid_out;
pub use laws::{empty_image, keys_are_keys, layout_links};
pub use layout::Layout;
pub use live::rows_after;
pub use place::{CODE_START, MAX_CODE, PRIVATE_SIZE, PRIVATE_START};
pub use places::Places;
pub use short::code_short;

#[cfg(test)]
mod tests;
