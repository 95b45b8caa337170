//! The exchange of state in the file of an original and edges.
ghost use Rattle.image_laws.specs.Exchanged.{StatesExchanged};

use block_cut::one_block;
use code_laws::{code_valid, jumps_lead};
use ia_decode::{encoding_decides, encoding_length};
use ia_encode::{direct_lengths, items_stand};
use piece_laws::{captures_joined, opens_joined};

/// Where the recovered code has room, state is exchanged round each native instruction and at the entry.
pub fn states_exchanged()
    ensures { StatesExchanged }
{
    direct_lengths();
    one_block();
    encoding_decides();
    encoding_length();
    items_stand();
    code_valid();
    jumps_lead();
    opens_joined();
    captures_joined();
}
