//! Which numbers are those of live traces.
ghost use Rattle.std.specs.Prelude.{◌≡◌};
ghost use Rattle.trace_set.specs.Traces.{flag_of};

/// Whether the flag of the number is set: that of number 1 is the first.
pub fn is_set(flags: &[bool], number: u32) -> bool
    ensures { result ≡ flag_of flags.now number }
{
    if number == 0 || number as usize > flags.len() {
        return false;
    }
    flags[number as usize - 1]
}
