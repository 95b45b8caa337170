//! The files of the file system.
ghost use Rattle.std.specs.Prelude.{◌≡◌, None, false};

use crate::copying::{read_whole, write_whole};
use br_outside::{Shelf, ShelfError, StoreError};
use std::alloc::{AllocError, Global};
use std::fs;
use std::fs::{File, Metadata, OpenFile, Permissions};
use std::io::{ErrorKind, Write};
use std::os::unix::fs::{MetadataExt, PermissionsExt};
use std::rt::Files;

/// A shelf over the file system. A name is a path.
#[derive(Drop)]
pub struct FileShelf<'a, R> {
    alloc: Global,
    files: &'a R,
    process: u32,
    faults: u64,
}

impl<'a, R: Files> FileShelf<'a, R> {
    /// A shelf with the count 0. What a store needs is taken from `alloc`; `process` is the number of the process, which the
    /// names of parts have.
    pub fn new(alloc: Global, files: &'a R, process: u32) -> FileShelf<'a, R>
        ensures { ⟦<FileShelf<'a, R> as Shelf>⟧.seen result ≡ record { files = None; faults = 0; calm = false } }
    {
        FileShelf {
            alloc,
            files,
            process,
            faults: 0,
        }
    }
}

impl<'a, R: Files> Shelf for FileShelf<'a, R> {
    ghost use Rattle.std.specs.Prelude.{None, false};

    ghost seen = { λ s. record { files = None; faults = s.faults; calm = false } };

    fn fetch(&mut self, alloc: Global, name: &str, limit: u32) -> Result<Vec<u8>, ShelfError> {
        let answer = match File::open(self.files, name) {
            Ok(mut file) => read_whole(alloc, &mut file, limit),
            Err(_) => Err(ShelfError::Failed),
        };
        let failed = matches!(answer, Err(ShelfError::Failed));
        self.faults = self.faults.saturating_add(u64::from(failed));
        answer
    }

    /// The bytes go to a new file beside the name, its part: `NAME.part-PROCESS-K` with the number of the process and the first
    /// K from 0 to 99 that is free. It then gets the name, so that a store that fails, also on a full disk, leaves the old
    /// content. It has the permissions that the name had, the nine bits of them, unless the owner changes, who is the caller.
    /// A store fails as well where each of these names is taken.
    ///
    /// The bytes are written in place where the name is a link, a device or the like, and where the folder or the
    /// file system does not allow a part, its permissions or the new name (`is_refusal`). A store in place that fails may
    /// leave a front part of them.
    fn store(&mut self, name: &str, bytes: &[u8]) -> Result<(), StoreError> {
        // A field that the body reads is known to be in the range of its type.
        let _faults = self.faults;
        if write_file(self.alloc, self.files, self.process, name, bytes)? {
            return Ok(());
        }
        self.faults = self.faults.saturating_add(1);
        Err(StoreError::Failed)
    }
}

/// How many names of parts are tried. A process leaves one behind only where it was killed, and a later process has its number
/// only by chance.
const PARTS: u32 = 100;

/// How a way to store ended.
#[derive(Clone, Copy, PartialEq, Eq)]
enum Ending {
    Written,
    Failed,
    /// Nothing was changed, and the system does not allow this way.
    Refused,
}

/// What became of the search for a part.
enum Part<F> {
    /// A new file, and its name.
    Made(String, F),
    /// Each name was taken, or the system failed.
    Failed,
    /// The folder or the file system does not allow it.
    Refused,
}

/// Whether an error is the answer of a folder or a file system that does not allow the call, which another way may do without.
/// Any other error, as of a full disk, speaks against each way.
fn is_refusal(kind: ErrorKind) -> bool {
    matches!(
        kind,
        ErrorKind::PermissionDenied
            | ErrorKind::ReadOnlyFilesystem
            | ErrorKind::InvalidFilename
            | ErrorKind::ResourceBusy
            | ErrorKind::Unsupported
    )
}

/// Makes the bytes the content of a file, and says whether that succeeded.
fn write_file<R: Files>(
    alloc: Global,
    files: &R,
    process: u32,
    name: &str,
    bytes: &[u8],
) -> Result<bool, AllocError> {
    let old = match fs::symlink_metadata(files, name) {
        Ok(old) if old.is_file() => Some(old),
        Ok(_) => return Ok(write_in_place(files, name, bytes)),
        Err(_) => None,
    };
    let ending = match new_part(alloc, files, process, name)? {
        Part::Made(part, file) => replace(files, name, &part, file, old.as_ref(), bytes),
        Part::Failed => Ending::Failed,
        Part::Refused => Ending::Refused,
    };
    Ok(match ending {
        Ending::Written => true,
        Ending::Failed => false,
        Ending::Refused => write_in_place(files, name, bytes),
    })
}

/// A file beside the name that nobody else made.
fn new_part<R: Files>(
    alloc: Global,
    files: &R,
    process: u32,
    name: &str,
) -> Result<Part<R::File>, AllocError> {
    for k in 0..PARTS {
        let part = format!(in alloc; "{name}.part-{process}-{k}")?;
        match File::create_new(files, part.as_str()) {
            Ok(file) => return Ok(Part::Made(part, file)),
            Err(error) if error.kind() == ErrorKind::AlreadyExists => {}
            Err(error) if is_refusal(error.kind()) => return Ok(Part::Refused),
            Err(_) => return Ok(Part::Failed),
        }
    }
    Ok(Part::Failed)
}

/// Writes the bytes to the new file `part` and gives it the name. Where that does not come to its end, `part` is removed.
fn replace<R: Files>(
    files: &R,
    name: &str,
    part: &str,
    file: R::File,
    old: Option<&Metadata>,
    bytes: &[u8],
) -> Ending {
    let mut ending = Ending::Refused;
    if keep_permissions(&file, old) {
        ending = write_through(file, bytes);
    }
    if ending == Ending::Written {
        ending = rename(files, part, name);
    }
    if ending != Ending::Written {
        let _left = fs::remove_file(files, part);
    }
    ending
}

/// Gives the part its name.
fn rename<R: Files>(files: &R, part: &str, name: &str) -> Ending {
    match fs::rename(files, part, name) {
        Ok(()) => Ending::Written,
        Err(error) if is_refusal(error.kind()) => Ending::Refused,
        Err(_) => Ending::Failed,
    }
}

/// Writes the bytes to the device itself, where the file lies on one.
fn write_through<F: Write + OpenFile + Drop>(mut file: F, bytes: &[u8]) -> Ending {
    if write_whole(&mut file, bytes) && file.sync_all().is_ok() {
        Ending::Written
    } else {
        Ending::Failed
    }
}

/// Gives a new file the nine bits of permissions of the old one where both have one owner. Says whether the system allowed it.
fn keep_permissions<F: OpenFile>(file: &F, old: Option<&Metadata>) -> bool {
    let Some(old) = old else {
        return true;
    };
    let Ok(new) = file.metadata() else {
        return false;
    };
    if new.uid() != old.uid() {
        return true;
    }
    let kept = Permissions::from_mode(old.mode() & 0o777);
    file.set_permissions(kept).is_ok()
}

/// Writes the bytes over what the name holds.
fn write_in_place<R: Files>(files: &R, name: &str, bytes: &[u8]) -> bool {
    let Ok(mut file) = File::create(files, name) else {
        return false;
    };
    // A device or a pipe has nothing to sync.
    let is_kept = file.metadata().is_ok_and(|m| m.is_file());
    write_whole(&mut file, bytes) && (!is_kept || file.sync_all().is_ok())
}

#[cfg(test)]
mod tests {
    use super::*;

    #[test]
    fn keeps_real_files(rt: HostRuntime) -> Result<(), StoreError> {
        let alloc = rt.alloc();
        let mut shelf = FileShelf::new(alloc, &rt, 7);
        let name = "kept_by_br_real";
        assert_eq!(rt; shelf.store(name, b"old"), Ok(()));
        let long = vec![in alloc; 5u8; 10000].map_err(|_| StoreError::Memory)?;
        assert_eq!(rt; shelf.store(name, &long), Ok(()));
        let whole = shelf.fetch(alloc, name, 10000);
        assert!(rt; whole.is_ok_and(|bytes| bytes == long));
        assert!(rt; matches!(shelf.fetch(alloc, name, 9999), Err(ShelfError::TooLong)));
        assert_eq!(rt; shelf.faults, 0);

        // No part of a store is left under another name, and a file that is not there is a fault.
        assert!(rt;
            matches!(
                shelf.fetch(alloc, "kept_by_br_real.part-7-0", 9),
                Err(ShelfError::Failed)
            )
        );
        assert!(rt; matches!(shelf.fetch(alloc, ".", 9), Err(ShelfError::Failed)));
        assert_eq!(rt; shelf.faults, 2);
        assert_eq!(rt;
            shelf.store("not_there/file", b"x"),
            Err(StoreError::Failed)
        );
        assert_eq!(rt; shelf.store("/dev/full", b"x"), Err(StoreError::Failed));
        assert_eq!(rt; shelf.store(".", b"x"), Err(StoreError::Failed));
        assert_eq!(rt; shelf.faults, 5);
        assert!(rt; fs::remove_file(&rt, name).is_ok());
        Ok(())
    }

    /// The content of a file, as text, for a comparison.
    fn holds(rt: &HostRuntime, name: &str, text: &str) -> bool {
        fs::read_to_string(rt, name).is_ok_and(|content| content.as_str() == text)
    }

    #[test]
    fn stores_beside_parts_that_were_left(rt: HostRuntime) -> std::io::Result<()> {
        let mut shelf = FileShelf::new(rt.alloc(), &rt, 7);
        let name = "beside_by_br_real";
        fs::write(&rt, "beside_by_br_real.part-7-0", "left")?;
        fs::write(&rt, name, "old")?;
        fs::set_permissions(&rt, name, Permissions::from_mode(0o4641))?;
        assert_eq!(rt; shelf.store(name, b"new"), Ok(()));
        assert!(rt; holds(&rt, name, "new"));
        assert!(rt; holds(&rt, "beside_by_br_real.part-7-0", "left"));
        assert!(rt; fs::symlink_metadata(&rt, "beside_by_br_real.part-7-1").is_err());
        assert_eq!(rt; fs::metadata(&rt, name)?.mode() & 0o7777, 0o641);

        // A link stays a link, and the file that it leads to is written in place.
        let link = "link_by_br_real";
        std::os::unix::fs::symlink(&rt, name, link)?;
        assert_eq!(rt; shelf.store(link, b"by link"), Ok(()));
        assert!(rt; fs::symlink_metadata(&rt, link)?.is_symlink());
        assert!(rt; holds(&rt, name, "by link"));
        assert_eq!(rt; shelf.faults, 0);
        fs::remove_file(&rt, link)?;
        fs::remove_file(&rt, "beside_by_br_real.part-7-0")?;
        fs::remove_file(&rt, name)
    }

    #[test]
    fn fails_where_each_part_is_taken(rt: HostRuntime) -> std::io::Result<()> {
        let mut shelf = FileShelf::new(rt.alloc(), &rt, 7);
        let name = "taken_by_br_real";
        fs::write(&rt, name, "old")?;
        for k in 0..100u32 {
            fs::write(
                &rt,
                format!(in rt.alloc(); "{name}.part-7-{k}")?.as_str(),
                "left",
            )?;
        }
        assert_eq!(rt; shelf.store(name, b"new"), Err(StoreError::Failed));
        assert!(rt; holds(&rt, name, "old"));
        assert_eq!(rt; shelf.faults, 1);

        // The last name is as good as the first.
        fs::remove_file(&rt, "taken_by_br_real.part-7-99")?;
        assert_eq!(rt; shelf.store(name, b"new"), Ok(()));
        assert!(rt; holds(&rt, name, "new"));
        for k in 0..99u32 {
            fs::remove_file(&rt, format!(in rt.alloc(); "{name}.part-7-{k}")?.as_str())?;
        }
        fs::remove_file(&rt, name)
    }
}
