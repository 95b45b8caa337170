//! The items of fragments as encodings, and the bytes of the code.
ghost use Rattle.image_laws.specs.Valid.{CodeIsBytes, ItemsValid};

use crate::serves::lifted_blocks;
use crate::stands::code_stands;
use block_make::{fragments_valid, ready_keeps};

/// The items of each start have encodings.
pub fn items_valid()
    ensures { ItemsValid }
{
    lifted_blocks();
    ready_keeps();
    fragments_valid();
}

/// Where the segments of an executable are of bytes, so is the recovered code.
pub fn code_is_bytes()
    ensures { CodeIsBytes }
{
    items_valid();
    code_stands();
}
