//! How long recovered code is.
ghost use Rattle.code_layout.specs.CodeShort.{CodeShort};

use block_make::codes_short;

/// Where each block of the graph of an executable and edges has at most so many instructions and known exits, the code has at most the
/// bytes of a longest fragment of such a block for each of them, and 300 for the code at the entry. The call does nothing: its contract
/// is the law.
pub fn code_short()
    ensures { CodeShort }
{
    codes_short();
}
