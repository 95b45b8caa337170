//! What a guest can be given.
ghost use Rattle.std.specs.Prelude.{IsTrue, ◌↔◌, map, string_bytes};
ghost use Rattle.run_model.specs.Opening.{FitArguments};

/// How many words a guest can be given.
pub const WORD_LIMIT: usize = 256;

/// How many bytes the arguments of a guest can have, with a zero byte behind each.
pub const ARGUMENT_LIMIT: usize = 65536;

/// How many of them the first argument takes: `guest` and its zero byte.
const OWN_SIZE: usize = 6;

/// Whether a guest can be given these words: at most [`WORD_LIMIT`], and at most [`ARGUMENT_LIMIT`] bytes with
/// the argument `guest` before them and a zero byte behind each.
pub fn args_fit(args: &[String]) -> bool
    ensures { IsTrue result ↔ FitArguments (map string_bytes args.now) }
{
    let mut total: usize = OWN_SIZE;
    if args.len() > WORD_LIMIT {
        return false;
    }
    for arg in args {
        total = total.saturating_add(arg.len()).saturating_add(1);
    }
    total <= ARGUMENT_LIMIT
}
