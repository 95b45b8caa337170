//! Where the parts of recovered code stand.
ghost use Rattle.image_laws.specs.Stands.{CodeStands};

use code_laws::code_valid;
use ia_encode::direct_lengths;

/// The code at the entry stands first in the recovered code, and the fragment of each start at its address.
pub fn code_stands()
    ensures { CodeStands }
{
    direct_lengths();
    code_valid();
}
