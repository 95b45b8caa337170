//! The file that is written with recovered code.
ghost use Rattle.std.specs.Prelude.{◌≡◌, ◌<◌, ◌≤◌, IfOk, vec_len};
ghost use Rattle.elf_read.specs.Elf.{IsOriginal};
ghost use Rattle.code_layout.specs.Image.{code_segment, private_segment, image_with};

use crate::built::Built;
use crate::place::{CODE_START, MAX_CODE, PRIVATE_SIZE, PRIVATE_START};
use br_word::Perms;
use elf_read::{Bytes, Exe, Segment};
use elf_write::write_joined;
use std::alloc::{AllocError, Global};

/// The segment of recovered code.
fn code_segment(code: Vec<u8>) -> Segment
    requires { vec_len code ≤ MAX_CODE }
    ensures { result ≡ code_segment code.items }
{
    Segment {
        start: CODE_START,
        size: code.len() as u32,
        perms: Perms {
            read: true,
            write: false,
            exec: true,
        },
        bytes: Bytes::of(code),
    }
}

/// The private segment.
fn private_segment(alloc: Global) -> Segment
    ensures { result ≡ private_segment }
{
    Segment {
        start: PRIVATE_START,
        size: PRIVATE_SIZE,
        perms: Perms {
            read: true,
            write: true,
            exec: false,
        },
        bytes: Bytes::of(Vec::new(alloc)),
    }
}

/// Writes the file of an original and recovered code of 1 to [`MAX_CODE`] bytes, of so many blocks.
///
/// An error comes only for want of memory.
#[tactic(auto, unfolding(crate::specs::Image::image_with))]
pub fn written(alloc: Global, exe: &Exe, code: Vec<u8>, blocks: u32) -> Result<Built, AllocError>
    requires original { IsOriginal exe.now }
    requires some { 0 < vec_len code }
    requires short { vec_len code ≤ MAX_CODE }
    ensures { IfOk result (λ b. b ≡ record { bytes = image_with exe.now code.items; blocks = blocks; code = vec_len code }) }
{
    let len = code.len() as u32;
    let added = [code_segment(code), private_segment(alloc)];
    let bytes = write_joined(alloc, &added, exe.segments.as_slice(), CODE_START)?;
    Ok(Built {
        bytes: Bytes::of(bytes),
        blocks,
        code: len,
    })
}
