//! What stands before an opcode (SDM volume 2, 2.1.1).

ghost use Rattle.std.specs.Prelude.{◌≡◌, Option};
ghost use Rattle.ia_inst.specs.Prefixes.{prefix_of, with, prefixes_at, pair_of, is_bare, padding_of, width_of, string_of, is_near, is_return, is_nop};

use ia_inst::{Prefix, Prefixes, Width};

/// The prefix that a byte is.
fn prefix_from(byte: u8) -> Option<Prefix>
    ensures { result ≡ prefix_of byte }
{
    match byte {
        0x66 => Some(Prefix::Size),
        0xf3 => Some(Prefix::Repeat),
        0x2e => Some(Prefix::Code),
        0x3e => Some(Prefix::Branch),
        _ => None,
    }
}

/// These, and one more behind them.
fn with_one(prefixes: Prefixes, prefix: Prefix) -> Prefixes
    ensures { result ≡ with prefixes prefix }
{
    match (prefixes, prefix) {
        (Prefixes::Bare, Prefix::Size) => Prefixes::Size,
        (Prefixes::Bare, Prefix::Repeat) => Prefixes::Repeat,
        (Prefixes::Bare, Prefix::Code) => Prefixes::Padding { wide: false },
        (Prefixes::Bare, Prefix::Branch) => Prefixes::Branch,
        (Prefixes::Size, Prefix::Size | Prefix::Code) => Prefixes::Padding { wide: true },
        (Prefixes::Size, Prefix::Repeat) => Prefixes::SizeRepeat,
        (Prefixes::Repeat, Prefix::Size) => Prefixes::SizeRepeat,
        (Prefixes::Padding { .. }, Prefix::Size) => Prefixes::Padding { wide: true },
        (Prefixes::Padding { wide }, Prefix::Code) => Prefixes::Padding { wide },
        _ => Prefixes::Other,
    }
}

/// No prefix.
pub fn is_bare(prefixes: Prefixes) -> bool
    ensures { result ≡ is_bare prefixes }
{
    match prefixes {
        Prefixes::Bare => true,
        _ => false,
    }
}

/// At most one 3E.
pub fn is_near(prefixes: Prefixes) -> bool
    ensures { result ≡ is_near prefixes }
{
    match prefixes {
        Prefixes::Bare | Prefixes::Branch => true,
        _ => false,
    }
}

/// At most one F3.
pub fn is_return(prefixes: Prefixes) -> bool
    ensures { result ≡ is_return prefixes }
{
    match prefixes {
        Prefixes::Bare | Prefixes::Repeat => true,
        _ => false,
    }
}

/// At most one, 66 or F3.
pub fn is_nop(prefixes: Prefixes) -> bool
    ensures { result ≡ is_nop prefixes }
{
    match prefixes {
        Prefixes::Bare | Prefixes::Size | Prefixes::Repeat => true,
        _ => false,
    }
}

/// Whether there is a 66, where these are 66 and 2E alone.
pub fn padding(prefixes: Prefixes) -> Option<bool>
    ensures { result ≡ padding_of prefixes }
{
    match prefixes {
        Prefixes::Bare => Some(false),
        Prefixes::Size => Some(true),
        Prefixes::Padding { wide } => Some(wide),
        _ => None,
    }
}

/// The width of the first or the second of a pair of opcodes.
pub fn width(prefixes: Prefixes, byte: bool) -> Option<Width>
    ensures { result ≡ width_of prefixes byte }
{
    match (prefixes, byte) {
        (Prefixes::Bare, true) => Some(Width::B8),
        (Prefixes::Bare, false) => Some(Width::B32),
        (Prefixes::Size, false) => Some(Width::B16),
        _ => None,
    }
}

/// The width of a string instruction, and whether it repeats.
pub fn string(prefixes: Prefixes, byte: bool) -> Option<(Width, bool)>
    ensures { result ≡ string_of prefixes byte }
{
    match (prefixes, byte) {
        (Prefixes::Bare, true) => Some((Width::B8, false)),
        (Prefixes::Repeat, true) => Some((Width::B8, true)),
        (Prefixes::Bare, false) => Some((Width::B32, false)),
        (Prefixes::Size, false) => Some((Width::B16, false)),
        (Prefixes::Repeat, false) => Some((Width::B32, true)),
        (Prefixes::SizeRepeat, false) => Some((Width::B16, true)),
        _ => None,
    }
}

/// Reads prefixes as far as there are any.
#[tactic(auto, unfolding(ia_inst::specs::Prefixes::prefixes_at))]
pub fn read_prefixes(bytes: &[u8]) -> (Prefixes, &[u8])
    ensures { prefixes_at Prefixes.Bare bytes.now ≡ pair_of result.0 result.1.now }
{
    let mut found = Prefixes::Bare;
    let mut rest = bytes;
    while let [first, others @ ..] = rest {
        match prefix_from(*first) {
            Some(one) => found = with_one(found, one),
            None => break,
        }
        rest = others;
    }
    (found, rest)
}
