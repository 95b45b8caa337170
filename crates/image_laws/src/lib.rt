//! Laws of written files: the file of an original and edges has what the simulation of a written file asks for.
#![tactic(auto)]

mod exchanged;
mod laid;
mod law;
mod made;
mod quick;
mod serves;
mod stands;
mod valid;

pub use exchanged::states_exchanged;
pub use laid::{images_hold, images_laid};
pub use law::images_meet;
pub use made::{each_is_made, fragments_made};
pub use quick::{fragments_quick, images_quick, linked_run};
pub use serves::{codings_serve, lifted_blocks};
pub use stands::code_stands;
pub use valid::{code_is_bytes, items_valid};
