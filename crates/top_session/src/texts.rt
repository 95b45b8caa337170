//! The lines that a session prints and reports.
ghost use Rattle.std.specs.Prelude.{Ok, string_bytes};
ghost use Rattle.top_plan.specs.Parts.{Checks};
ghost use Rattle.top_session.specs.Lines.{added_line, removed_line, emitted_line, lines_line};

use code_layout::Built;
use std::alloc::Global;
use top_plan::Halt;

/// The line of a trace that was added. The error is want of memory.
pub fn added_text(alloc: Global, number: u32) -> Result<String, Halt>
    ensures { Checks string_bytes result (Ok (added_line number)) }
{
    match format!(in alloc; "added {number}\n") {
        Ok(line) => Ok(line),
        Err(_) => Err(Halt::Memory),
    }
}

/// The line of a trace that was taken away. The error is want of memory.
pub fn removed_text(alloc: Global, number: u32) -> Result<String, Halt>
    ensures { Checks string_bytes result (Ok (removed_line number)) }
{
    match format!(in alloc; "removed {number}\n") {
        Ok(line) => Ok(line),
        Err(_) => Err(Halt::Memory),
    }
}

/// The line of a file that was stored, of which so many blocks were made for it. The error is want of memory.
pub fn emitted_text(alloc: Global, built: &Built, made: u32) -> Result<String, Halt>
    ensures { Checks string_bytes result (Ok (emitted_line built.now made)) }
{
    let blocks = built.blocks;
    let code = built.code;
    let length = built.bytes.as_slice().len();
    match format!(in alloc; "emitted {blocks} {code} {length} made {made}\n") {
        Ok(line) => Ok(line),
        Err(_) => Err(Halt::Memory),
    }
}

/// The report line of a script with so many lines. The error is want of memory.
pub fn lines_text(alloc: Global, count: u32) -> Result<String, Halt>
    ensures { Checks string_bytes result (Ok (lines_line count)) }
{
    match format!(in alloc; "lines {count}\n") {
        Ok(line) => Ok(line),
        Err(_) => Err(Halt::Memory),
    }
}
