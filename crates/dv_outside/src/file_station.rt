//! A real file and the standard output.
ghost use Rattle.std.specs.Prelude.{◌≡◌, ◌+◌, ◌≤◌, false, None, OnOk};
ghost use Rattle.std.specs.Io.KnownBytes.{Appends};
ghost use Rattle.dv_outside.specs.Causes.{HasCause};
ghost use Rattle.dv_outside.specs.Station.{untold};

use crate::{Failed, Station};
use std::fs::{File, OpenFile, OpenOptions};
use std::io;
use std::io::{ErrorKind, Read, Seek, SeekFrom, Write};
use std::path::Path;
use std::rt::Files;

/// The file of a register at a path, and the standard output. It tells neither content nor what was used.
///
/// Nothing is opened before the first call on the register, so a command that makes none leaves no file behind.
#[derive(Drop)]
pub struct FileStation<'a, R: Files + Print> {
    rt: &'a R,
    path: &'a str,
    file: Register<R::File>,
    faults: u64,
    put_faults: u64,
}

// The file of a register.
#[derive(Drop)]
enum Register<F> {
    Unopened,
    Open(F),
    // A sync failed. What the system then still holds of the file may never reach the disk, though a later sync says so:
    // from here on each call is a fault.
    Lost,
}

impl<'a, R: Files + Print> FileStation<'a, R> {
    /// The station of this runtime whose register is the file at this path.
    pub fn new(rt: &'a R, path: &'a str) -> Self {
        FileStation {
            rt,
            path,
            file: Register::Unopened,
            faults: 0,
            put_faults: 0,
        }
    }

    // Does a job on the file, which is opened for the first one, and counts the fault of one that fails.
    fn on_file<T, J: FnOnce(&mut R::File) -> io::Result<T>>(&mut self, job: J) -> Result<T, Failed>
        requires { J.IsAlwaysCallable job }
        ensures cause { HasCause self.old.faults self.new.faults result }
        ensures puts { self.new.put_faults ≡ self.old.put_faults }
    {
        if let Register::Unopened = self.file {
            self.file = open_or_make(self.rt, self.path).map_or(Register::Lost, Register::Open);
        }
        let done = match &mut self.file {
            Register::Open(file) => job(file),
            _ => Err(io::Error::from(ErrorKind::NotFound)),
        };
        match done {
            Ok(value) => Ok(value),
            Err(_) => {
                self.faults = self.faults.saturating_add(1);
                Err(Failed)
            }
        }
    }
}

// Opens the file at a path. One that isn't there is made, and the entry in its folder is made sure of.
fn open_or_make<R: Files>(rt: &R, path: &str) -> io::Result<R::File> {
    match OpenOptions::new().read(true).write(true).open(rt, path) {
        Err(error) if error.kind() == ErrorKind::NotFound => {
            let file = File::create_new(rt, path)?;
            sync_folder(rt, path)?;
            Ok(file)
        }
        result => result,
    }
}

// Makes sure of the entries of the folder that holds a path.
fn sync_folder<R: Files>(rt: &R, path: &str) -> io::Result<()> {
    let folder = match Path::new(path).parent() {
        Some(folder) if !folder.as_os_str().is_empty() => folder,
        _ => Path::new("."),
    };
    File::open(rt, folder)?.sync_all()
}

// Writes all the octets. A write that takes only some of them goes on with the rest, and one that a signal interrupts is
// made again.
fn write_whole<W: Write>(out: &mut W, bytes: &[u8]) -> io::Result<()>
    ensures { OnOk result (Appends (W.contents out.old) (W.contents out.new) bytes.now) }
{
    let mut done = 0;
    for _ in 0..u64::MAX {
        if done == bytes.len() {
            return Ok(());
        }
        match out.write(&bytes[done..]) {
            Ok(0) => return Err(io::Error::from(ErrorKind::WriteZero)),
            Ok(n) => done += n,
            Err(error) if error.kind() == ErrorKind::Interrupted => {}
            Err(error) => return Err(error),
        }
    }
    Err(io::Error::from(ErrorKind::TimedOut))
}

impl<R: Files + Print> Station for FileStation<'_, R> {
    ghost tells = { λ _. false };

    ghost content = { λ _. untold };

    ghost counts = { λ s. record { faults = s.faults; put_faults = s.put_faults; used = None; sure = None } };

    ghost reads_is_image = { λ _ told. Prim.cc };

    fn len(&mut self) -> Result<u64, Failed> {
        self.on_file(|file| Ok(file.metadata()?.len()))
    }

    fn read_at(&mut self, place: u64, into: &mut [u8]) -> Result<(), Failed> {
        self.on_file(|file| {
            file.seek(SeekFrom::Start(place))?;
            file.read_exact(into)
        })
    }

    fn write_at(&mut self, place: u64, bytes: &[u8]) -> Result<(), Failed> {
        self.on_file(|file| {
            file.seek(SeekFrom::Start(place))?;
            write_whole(file, bytes)
        })
    }

    fn sync(&mut self) -> Result<(), Failed> {
        let result = self.on_file(|file| file.sync_all());
        if result.is_err() {
            self.file = Register::Lost;
        }
        result
    }

    fn put(&mut self, bytes: &[u8]) -> Result<(), Failed> {
        match write_whole(&mut io::writer(self.rt), bytes) {
            Ok(()) => Ok(()),
            Err(_) => {
                self.put_faults = self.put_faults.saturating_add(1);
                Err(Failed)
            }
        }
    }
}

#[cfg(test)]
mod tests {
    use super::*;
    use std::test::Fail;
    use std::{env, fs, process};

    // Takes at most two octets at a time, after a signal, and none once it is full.
    #[derive(Drop)]
    struct Narrow {
        taken: Vec<u8>,
        turn: u8,
        room: usize,
    }

    impl Write for Narrow {
        fn write(&mut self, buf: &[u8]) -> io::Result<usize> {
            self.turn = self.turn.saturating_add(1);
            if self.turn % 2 == 1 {
                return Err(io::Error::from(ErrorKind::Interrupted));
            }
            let n = buf
                .len()
                .min(2)
                .min(self.room.saturating_sub(self.taken.len()));
            self.taken.extend_from_slice(&buf[..n])?;
            Ok(n)
        }

        fn flush(&mut self) -> io::Result<()> {
            Ok(())
        }
    }

    #[test]
    fn a_short_write_loses_nothing(rt: HostRuntime) -> Result<(), Fail> {
        let alloc = rt.alloc();
        for (room, whole) in [(5, true), (4, false)] {
            let mut out = Narrow {
                taken: Vec::new(alloc),
                turn: 0,
                room,
            };
            assert_eq!(rt; write_whole(&mut out, b"abcde").is_ok(), whole);
            assert_eq!(rt; out.taken.as_slice(), &b"abcde"[..room]);
        }
        let mut station = FileStation::new(&rt, "");
        assert_eq!(rt; station.put(b"standard output"), Ok(()));
        assert_eq!(rt; station.put_faults, 0);
        Ok(())
    }

    #[test]
    fn keeps_a_register_in_a_file(rt: HostRuntime) -> Result<(), Fail> {
        let alloc = rt.alloc();
        let id = process::id(rt.process());
        let path = env::temp_dir(&rt)?.join(alloc, format!(in alloc; "dv_outside-station-{id}")?)?;
        let mut station = FileStation::new(&rt, path.as_str());
        assert!(rt; !path.exists(&rt));
        assert_eq!(rt; station.len(), Ok(0));
        assert!(rt; path.exists(&rt));
        assert_eq!(rt; station.write_at(0, b"abcd"), Ok(()));
        assert_eq!(rt; station.write_at(2, b"CDEF"), Ok(()));
        assert_eq!(rt; station.sync(), Ok(()));

        let mut station = FileStation::new(&rt, path.as_str());
        let mut into = [0; 4];
        assert_eq!(rt; station.len(), Ok(6));
        assert_eq!(rt; station.read_at(1, &mut into), Ok(()));
        assert_eq!(rt; into, *b"bCDE");
        assert_eq!(rt; station.read_at(3, &mut into), Err(Failed), "past the end");
        assert_eq!(rt; (station.faults, station.put_faults), (1, 0));
        fs::remove_file(&rt, path.as_path())?;
        Ok(())
    }

    #[test]
    fn a_fault_is_counted(rt: HostRuntime) {
        // A folder isn't written as a file. On the full device a write fails, then the sync, and from there on all.
        let mut station = FileStation::new(&rt, ".");
        assert_eq!(rt; (station.len(), station.sync()), (Err(Failed), Err(Failed)));
        assert_eq!(rt; station.faults, 2);
        if fs::exists(&rt, "/dev/full").unwrap_or(false) {
            let mut station = FileStation::new(&rt, "/dev/full");
            assert_eq!(rt; station.write_at(0, b"a"), Err(Failed));
            assert_eq!(rt; station.len(), Ok(0));
            assert_eq!(rt; (station.sync(), station.len()), (Err(Failed), Err(Failed)));
            assert_eq!(rt; station.faults, 3);
        }
    }
}
