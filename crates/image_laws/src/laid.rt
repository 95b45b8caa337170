//! How the file of an original and edges is laid out.
ghost use Rattle.image_laws.specs.Laid.{ImagesHold, ImagesLaid};

use block_cut::one_block;
use elf_write::read_back;
use ia_decode::{encoding_decides, encoding_length};
use ia_encode::direct_lengths;
use live_flow::sets_are_narrow;

/// Where the recovered code has room, the file is read as the code, the private segment and the original's segments, and the own
/// bytes of each native instruction stand in the code, where the way into it leads.
pub fn images_laid()
    ensures { ImagesLaid }
{
    direct_lengths();
    one_block();
    encoding_decides();
    encoding_length();
    read_back();
    sets_are_narrow();
}

/// The file has a header of 52 bytes, one of 32 for each segment, and the code.
pub fn images_hold()
    ensures { ImagesHold }
{}
