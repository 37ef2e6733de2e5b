//! Times reservations and openings over a real file, for `bench/register`. It is no part of the product.
//!
//! With a path and a number of octets as its arguments it makes a register in that file, reserves a record of so many octets for
//! each leaf of its key, and opens the register again; it prints a line for each work: its name, how often it was done, and the
//! nanoseconds of all of them. Without arguments it does nothing.
#![tactic(auto)]

ghost use Rattle.std.specs.Prelude.{◌≤◌, length};

use dv_lms::{Height, Key};
use dv_outside::{FileStation, Releases, Station};
use dv_register::{Register, SigningKey};
use std::alloc::Global;
use std::rt::Env;
use std::time::{Duration, Instant};
use std::{env, io};

/// How often the register is opened.
const OPENINGS: u32 = 20;

/// The leaves of the key.
const LEAVES: u32 = 32;

/// The most octets of a record.
const LONGEST: usize = 1_048_576;

/// The rule under which nothing may be put.
struct Nothing;

impl Releases for Nothing {
    ghost allows = { λ key first list octets. ⊥ };

    ghost grows = { λ key first list more octets none. none };
}

fn nanoseconds(time: Duration) -> u64 {
    time.as_nanos().min(u64::MAX as u128) as u64
}

/// Reserves records with these contents until a reservation is refused, and tells how many were reserved.
fn fill<V: Station>(register: &mut Register<V, Nothing>, contents: &[u8]) -> u32
    requires { length contents.now ≤ 1048576 }
{
    for count in 0..LEAVES {
        if register.prepare(contents.len()).is_err() || register.reserve(2, contents).is_err() {
            return count;
        }
    }
    LEAVES
}

/// The path and the number that the arguments say, if they say them.
fn asked(rt: &(impl Env + AllocGlobal)) -> io::Result<Option<(String, usize)>> {
    let mut words = env::args(rt)?.skip(1);
    let (Some(path), Some(number)) = (words.next(), words.next()) else {
        return Ok(None);
    };
    match number.as_str().parse::<usize>() {
        Ok(number) if number <= LONGEST => Ok(Some((path, number))),
        _ => Ok(None),
    }
}

fn main(rt: HostRuntime) -> io::Result<()> {
    let Some((path, len)) = asked(&rt)? else {
        println!(rt; "register_bench PATH OCTETS")?;
        return Ok(());
    };
    let alloc = rt.alloc();
    let contents = vec![in alloc; 7u8; len.min(LONGEST)]?;
    let key = SigningKey::new(Key::from_seed(alloc, Height::H5, [3; 16], [5; 32])?);
    let station = FileStation::new(&rt, path.as_str());
    let made: Result<Register<_, Nothing>, _> = Register::create(alloc, station, &key, 1);
    let Ok(mut register) = made else {
        println!(rt; "{path}: no register can be made there")?;
        return Ok(());
    };
    let start = Instant::now(&rt)?;
    let count = fill(&mut register, &contents);
    let time = nanoseconds(start.elapsed(&rt)?);
    println!(rt; "reserve {count} {time}")?;
    let start = Instant::now(&rt)?;
    for _ in 0..OPENINGS {
        let station = FileStation::new(&rt, path.as_str());
        let opened: Result<Register<_, Nothing>, _> = Register::open(alloc, station, &key);
        if opened.is_err() {
            println!(rt; "{path}: the register can't be opened")?;
        }
    }
    let time = nanoseconds(start.elapsed(&rt)?);
    println!(rt; "open {OPENINGS} {time}")?;
    Ok(())
}
