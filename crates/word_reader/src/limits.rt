//! The limits of words (docs/COMMANDS.md).

/// The most bytes of a name.
pub const NAME_LIMIT: usize = 4096;

/// The most trace words of a command.
pub const TRACE_LIMIT: usize = 4096;

/// The most words that a guest is given.
pub const ARGUMENT_LIMIT: usize = 256;

/// The most bytes of a guest's arguments, its own name among them, each with a zero byte.
pub const ARGUMENT_BYTES_LIMIT: usize = 65536;

/// The bytes of the guest's first argument, `guest`, with its zero byte.
pub const GUEST_BYTES: usize = 6;

/// The most digits of a number.
pub const DIGIT_LIMIT: usize = 18;

/// How many steps are done where no number is given.
pub const DEFAULT_STEPS: u64 = 100000000;

/// The greatest number of `demo`.
pub const DEMO_LIMIT: u64 = 1000;

/// The position of the first name of `trace` and `run` where no number of steps is given.
pub const FIRST_NAME: u32 = 1;

/// The position of the first name of `trace` and `run` behind `--steps` and its number.
pub const FIRST_NAME_BEHIND_STEPS: u32 = 3;
