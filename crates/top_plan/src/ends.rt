//! How the work of a command ends.

use std::alloc::AllocError;

/// An object of the outside.
#[derive(Clone, Copy, Debug, PartialEq, Eq)]
pub enum Object {
    /// The files under names.
    Shelf,
    /// The bytes that come.
    Input,
    /// The bytes that the command prints.
    Output,
    /// The bytes that the command reports.
    Report,
}

/// A limit of the program, with its number.
#[derive(Clone, Copy, Debug, PartialEq, Eq)]
pub enum Limit {
    /// The most bytes of a file that is fetched.
    File(u32),
    /// The most edges of all traces that are given.
    Edges(u32),
    /// The most edges that are stored as one trace.
    Union(u32),
    /// The most blocks of a graph.
    Blocks(u32),
    /// The most bytes of recovered code.
    Code(u32),
    /// The most traces that a session holds at once.
    Traces(u32),
    /// The most lines of a script.
    Lines(u32),
}

/// What a file or a line of a script is refused for, or the limit that is passed.
#[derive(Clone, Copy, Debug, PartialEq, Eq)]
pub enum Cause {
    /// A fetched file is refused.
    RefusedWord {
        /// The position of the file's word, from 0.
        word: u32,
        /// The number of the refusal.
        number: u32,
        /// The place in the file.
        place: u32,
    },
    /// A line of a script is refused.
    RefusedLine {
        /// The number of the line, from 1.
        line: u32,
        /// The number of the refusal.
        number: u32,
        /// The place in the line.
        place: u32,
    },
    /// A limit is passed.
    Limited(Limit),
}

/// Why the work of a command is not done.
#[derive(Clone, Copy, Debug, PartialEq, Eq)]
pub enum Halt {
    /// A refusal, or a limit.
    Because(Cause),
    /// A call of this object failed.
    Outside(Object),
    /// Want of memory.
    Memory,
}

impl From<AllocError> for Halt {
    ghost use Rattle.std.specs.Prelude.{◌≡◌};
    ghost use Rattle.top_plan.specs.declared.ends.Halt.TheVariants.{Memory};

    ghost from_gives = { λ _ error. error ≡ Memory };

    fn from(_error: AllocError) -> Halt {
        Halt::Memory
    }
}

/// How work that is done ends.
#[derive(Clone, Copy, Debug, PartialEq, Eq)]
pub enum Finish {
    /// All was done; a guest has exited.
    Done,
    /// The guest faulted.
    Fault,
    /// The guest took all its steps.
    Budget,
}

/// Work that is done.
#[derive(Debug, Drop)]
pub struct Outcome {
    /// How it ended.
    pub finish: Finish,
    /// The line to report, LF included; `None` where nothing is reported.
    pub line: Option<String>,
}
