//! The files of the system.
ghost use Rattle.std.specs.Prelude.{◌≡◌, ◌≢◌, ◌<◌, ◌≤◌, None, length, IfOk, IfSome};

use crate::{Shelf, ShelfRefusal};
use std::alloc::Global;
use std::fs::{File, OpenFile};
use std::io;
use std::io::{ErrorKind, Read};
use std::rt::Files;

/// The files of the system. A name is a path, taken from the working folder. It tells no content.
#[derive(Drop)]
pub struct DirShelf<'a, R: Files> {
    rt: &'a R,
    faults: u64,
}

impl<'a, R: Files> DirShelf<'a, R> {
    /// The files of this runtime.
    pub fn new(rt: &'a R) -> Self {
        DirShelf { rt, faults: 0 }
    }
}

// Whether a read failed for want of memory.
fn refusal_of(error: &io::Error) -> ShelfRefusal
    ensures { result ≢ ShelfRefusal.TooLong }
{
    match error.kind() {
        ErrorKind::OutOfMemory => ShelfRefusal::Memory,
        _ => ShelfRefusal::Failed,
    }
}

// The octets of a file that should have `len` of them. Of a file past the limit only the first `limit + 1` are read.
fn read_whole<T: Read + Drop>(
    alloc: Global,
    file: T,
    len: u64,
    limit: u64,
) -> Result<Vec<u8>, ShelfRefusal>
    ensures short { IfOk result (λ octets. length octets.items ≤ limit) }
    ensures whole { IfSome (T.remaining file) (λ rest. IfOk result (λ octets. octets.items ≡ rest)) }
    ensures too_long { IfSome (T.remaining file) (λ rest. result ≡ Err ShelfRefusal.TooLong → limit < length rest) }
{
    let room = usize::try_from(len.min(limit)).unwrap_or(usize::MAX);
    let Ok(mut octets) = Vec::with_capacity(alloc, room.saturating_add(1)) else {
        return Err(ShelfRefusal::Memory);
    };
    match file.take(limit.saturating_add(1)).read_to_end(&mut octets) {
        Ok(_) if octets.len() as u64 > limit => Err(ShelfRefusal::TooLong),
        Ok(_) => Ok(octets),
        Err(error) => Err(refusal_of(&error)),
    }
}

impl<R: Files> Shelf for DirShelf<'_, R> {
    ghost files = { λ _. None };

    ghost faults = { λ s. s.faults };

    fn read(&mut self, alloc: Global, name: &str, limit: u64) -> Result<Vec<u8>, ShelfRefusal> {
        let result = match File::open(self.rt, name) {
            Ok(file) => match file.metadata() {
                Ok(metadata) => read_whole(alloc, file, metadata.len(), limit),
                Err(_) => Err(ShelfRefusal::Failed),
            },
            Err(_) => Err(ShelfRefusal::Failed),
        };
        if let Err(ShelfRefusal::Failed) = result {
            self.faults = self.faults.saturating_add(1);
        }
        result
    }
}

#[cfg(test)]
mod tests {
    use super::*;
    use std::test::Fail;
    use std::{env, fs, process};

    #[test]
    fn reads_files_within_the_limit(rt: HostRuntime) -> Result<(), Fail> {
        let alloc = rt.alloc();
        let folder = env::temp_dir(&rt)?;
        let id = process::id(rt.process());
        let path = folder.join(alloc, format!(in alloc; "dv_outside-shelf-{id}")?)?;
        let missing = folder.join(alloc, format!(in alloc; "dv_outside-none-{id}")?)?;
        fs::write(&rt, path.as_path(), b"abc")?;
        let mut shelf = DirShelf::new(&rt);
        let rows = [
            (path.as_str(), 3, None, 0),
            (path.as_str(), 2, Some(ShelfRefusal::TooLong), 0),
            (missing.as_str(), 3, Some(ShelfRefusal::Failed), 1),
            (folder.as_str(), 3, Some(ShelfRefusal::Failed), 2),
        ];
        for (name, limit, refusal, faults) in rows {
            let answer = shelf.read(alloc, name, limit);
            assert_eq!(rt; shelf.faults, faults, "at {name} {limit}");
            assert_eq!(rt;
                answer.as_ref().err().copied(),
                refusal,
                "at {name} {limit}"
            );
            if let Ok(octets) = answer {
                assert_eq!(rt; octets.as_slice(), b"abc".as_slice());
            }
        }
        fs::remove_file(&rt, path.as_path())?;
        Ok(())
    }
}
