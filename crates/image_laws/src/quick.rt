//! How many steps the file of an original and edges takes.
ghost use Rattle.image_laws.specs.Quick.{FragmentsLinkedRun, FragmentsQuick, ImagesQuick};

use crate::exchanged::states_exchanged;
use crate::laid::{images_hold, images_laid};
use crate::made::{each_is_made, fragments_made};
use crate::serves::{codings_serve, lifted_blocks};
use crate::stands::code_stands;
use crate::valid::code_is_bytes;
use block_make::{codes_short, ready_keeps};
use ia_encode::direct_lengths;
use piece_laws::{items_are_pieces, pieces_do, suits_hold};
use sim_runs::fragments_run;

/// Where no block of the graph has more than k known exits, each way through a fragment has at most 16000 + 2 k instructions.
pub fn fragments_quick()
    ensures { FragmentsQuick }
{
    direct_lengths();
    code_stands();
    codings_serve();
    lifted_blocks();
    items_are_pieces();
    pieces_do();
    suits_hold();
    ready_keeps();
    codes_short();
}

/// So each fragment runs within as many steps, and within as many as the code has bytes: to the block of a known exit, or with the state
/// in its registers, and a private segment that is ready for a capture, to where the code goes on for an exit that is not known.
pub fn linked_run()
    ensures { FragmentsLinkedRun }
{
    fragments_made();
    fragments_quick();
    each_is_made();
    code_is_bytes();
    fragments_run();
}

/// In the file of an original and edges, each fragment runs within as many steps, and the code at the entry within 64.
pub fn images_quick()
    ensures { ImagesQuick }
{
    linked_run();
    code_stands();
    codings_serve();
    states_exchanged();
    images_laid();
    images_hold();
}
