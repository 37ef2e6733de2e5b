//! A register in a real file.

use super::{Nothing, key};
use crate::{Create, Register};
use dv_outside::FileStation;
use std::alloc::{AllocError, Global};
use std::rt::Files;
use std::test::Fail;
use std::{env, fs, process};

type Filed<'a, R> = Register<FileStation<'a, R>, Nothing>;

/// Makes a register at a path with the first serial 41, adds a record, and tells its serial, or why it isn't made.
fn make<R: Files + Print>(
    rt: &R,
    alloc: Global,
    path: &str,
) -> Result<Result<Option<u64>, Create>, AllocError> {
    let key = key(alloc)?;
    match Filed::create(alloc, FileStation::new(rt, path), &key, 41) {
        Ok(register) => {
            let mut register = register;
            register.prepare(3)?;
            match register.reserve(2, b"abc") {
                Ok(slot) => Ok(Ok(Some(slot.serial()))),
                Err(_) => Ok(Ok(None)),
            }
        }
        Err((_station, refusal)) => Ok(Err(refusal)),
    }
}

/// Opens the register at a path, and gives the contents of its first record.
fn read<R: Files + Print>(
    rt: &R,
    alloc: Global,
    path: &str,
) -> Result<Option<Vec<u8>>, AllocError> {
    let key = key(alloc)?;
    match Filed::open(alloc, FileStation::new(rt, path), &key) {
        Ok(register) => {
            let mut register = register;
            if register.len() == 0 {
                return Ok(None);
            }
            match register.contents(alloc, 0) {
                Ok((_kind, contents)) => Ok(Some(contents)),
                Err(_) => Ok(None),
            }
        }
        Err((_station, _refusal)) => Ok(None),
    }
}

#[test]
fn is_read_back(rt: HostRuntime) -> Result<(), Fail> {
    let alloc = rt.alloc();
    let id = process::id(rt.process());
    let path = env::temp_dir(&rt)?.join(alloc, format!(in alloc; "dv_register-{id}")?)?;
    assert_eq!(rt; make(&rt, alloc, path.as_str())?, Ok(Some(41)));
    let contents = read(&rt, alloc, path.as_str())?.expect(&rt, "it opens");
    assert_eq!(rt; contents.as_slice(), b"abc".as_slice());
    assert_eq!(rt; make(&rt, alloc, path.as_str())?, Err(Create::NotEmpty));
    fs::remove_file(&rt, path.as_path())?;
    Ok(())
}

#[test]
fn a_fault_of_the_file(rt: HostRuntime) -> Result<(), Fail> {
    // A folder isn't written as a file, and the full device takes no octets.
    for path in [".", "/dev/full"] {
        if fs::exists(&rt, path).unwrap_or(false) {
            assert_eq!(rt; make(&rt, rt.alloc(), path)?, Err(Create::Fault), "{path}");
        }
    }
    Ok(())
}
