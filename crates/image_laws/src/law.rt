//! What the simulation of a written file asks for, of the file of an original and edges.
ghost use Rattle.image_laws.specs.Law.{ImagesMade, ImagesMeet};

use crate::exchanged::states_exchanged;
use crate::laid::{images_hold, images_laid};
use crate::serves::codings_serve;
use crate::stands::code_stands;
use sim_runs::fragments_run;

/// Where the recovered code has room and its fragments run, the file of an original and edges has what the simulation asks for. `made`
/// says it where each fragment is made of pieces that do what they have to.
pub fn images_meet()
    ensures run { ImagesMeet }
    ensures made { ImagesMade }
{
    code_stands();
    codings_serve();
    images_laid();
    images_hold();
    states_exchanged();
    fragments_run();
}
