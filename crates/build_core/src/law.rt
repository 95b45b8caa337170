//! What the written file does.
ghost use Rattle.build_core.specs.ImageLaw.{ImageLaw};
ghost use Rattle.build_core.specs.ImageQuick.{ImageQuick};

use image_laws::{
    code_is_bytes, code_stands, each_is_made, fragments_made, images_laid, images_meet,
    images_quick,
};
use sim_runs::laws_preserve;

/// Behaviour preservation and coverage, for every file that is accepted as an original, and edges. `within` says how many steps the
/// written file takes for n of the original: at most (16384 + 2 k) n, where no block has more than k known exits.
pub fn image_law()
    ensures preserves { ImageLaw }
    ensures within { ImageQuick }
{
    images_laid();
    images_meet();
    fragments_made();
    each_is_made();
    code_is_bytes();
    code_stands();
    images_quick();
    laws_preserve();
}
