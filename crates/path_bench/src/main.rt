//! Times the search for a path, for `bench/paths`. It is no part of the product.
//!
//! With a number of rounds, the name of a trust file and those of certificates in DER as its arguments it searches a path so
//! often from the first certificate to an anchor, and verifies the first certificate's signature as often under its own key. It prints a line for
//! each: its name, what came (`path`, `none`, `good` or `bad`), and the nanoseconds of its best round. Without arguments it does nothing.
#![tactic(auto)]

mod work;

use dv_outside::DirShelf;
use std::rt::Env;
use std::time::{Duration, Instant};
use std::{env, io};
use work::{Mesh, read_mesh};

fn nanoseconds(time: Duration) -> u64 {
    time.as_nanos().min(u64::MAX as u128) as u64
}

/// The words after the program's name.
fn words_of(rt: &(impl Env + AllocGlobal)) -> io::Result<Vec<String>> {
    Ok(env::args(rt)?.skip(1).collect(rt.alloc())?)
}

fn main(rt: HostRuntime) -> io::Result<()> {
    let words = words_of(&rt)?;
    let [rounds, trust, names @ ..] = words.as_slice() else {
        println!(rt; "path_bench ROUNDS TRUST CERTIFICATE..")?;
        return Ok(());
    };
    let rounds = rounds.as_str().parse::<u32>().unwrap_or(1);
    let mut shelf = DirShelf::new(&rt);
    let Some(mesh) = read_mesh(rt.alloc(), &mut shelf, trust.as_str(), names) else {
        println!(rt; "a file can't be read or isn't what it should be")?;
        return Ok(());
    };
    let mut search = u64::MAX;
    let mut verification = u64::MAX;
    let mut is_found = false;
    let mut is_good = false;
    for _ in 0..rounds {
        let start = Instant::now(&rt)?;
        is_found = mesh.has_path(rt.alloc())?;
        search = search.min(nanoseconds(start.elapsed(&rt)?));
        let start = Instant::now(&rt)?;
        is_good = mesh.is_signed();
        verification = verification.min(nanoseconds(start.elapsed(&rt)?));
    }
    let found = if is_found { "path" } else { "none" };
    println!(rt; "search {found} {search}")?;
    let good = if is_good { "good" } else { "bad" };
    println!(rt; "verification {good} {verification}")?;
    Ok(())
}
