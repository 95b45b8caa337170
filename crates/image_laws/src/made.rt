//! Fragments as their pieces.
ghost use Rattle.image_laws.specs.Made.{EachIsMade, FragmentsAreMade};

use crate::serves::{codings_serve, lifted_blocks};
use crate::stands::code_stands;
use crate::valid::items_valid;
use block_make::{fragments_valid, ready_keeps};
use code_layout::keys_are_keys;
use ia_encode::direct_lengths;
use piece_laws::{items_are_pieces, pieces_do, suits_hold};

/// The fragment of each start has what it asks for: items with encodings, each label and each known exit once, and fixed addresses of
/// 32 bits.
pub fn each_is_made()
    ensures { EachIsMade }
{
    items_valid();
    fragments_valid();
    keys_are_keys();
}

/// In code of bytes into which fragments were linked, with addresses of the original wherever a map says, they are made of pieces that do what
/// they have to: a direct exit that is not known leads where the map says, an indirect one to the address itself.
pub fn fragments_made()
    ensures { FragmentsAreMade }
{
    direct_lengths();
    code_stands();
    codings_serve();
    lifted_blocks();
    ready_keeps();
    items_are_pieces();
    pieces_do();
    suits_hold();
}
