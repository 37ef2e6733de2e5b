//! Times signing and verifying, for `bench/signatures`. It is no part of the product.
//!
//! With a number of rounds as its argument it does each work so often, in turn, and prints a line for
//! each: its name, how many compressions of SHA-256 the formulas of RFC 8554 need for it, and the
//! nanoseconds of its best round. Without an argument it does each work once and prints no times.
#![tactic(auto)]

use std::rt::Env;
use std::time::{Duration, Instant};
use std::{env, io};
use work::{Bench, WORKS};

mod work;

// How many rounds the first argument asks for, if it is a number.
fn rounds_asked(rt: &(impl Env + Alloc)) -> io::Result<Option<u32>> {
    match env::args(rt)?.nth(1) {
        Some(word) => Ok(word.as_str().parse::<u32>().ok()),
        None => Ok(None),
    }
}

fn nanoseconds(time: Duration) -> u64 {
    time.as_nanos().min(u64::MAX as u128) as u64
}

fn main(rt: HostRuntime) -> io::Result<()> {
    let asked = rounds_asked(&rt)?;
    let bench = Bench::new(rt.alloc())?;
    let mut best = [u64::MAX; WORKS.len()];
    let mut sum = 0;
    for _ in 0..asked.unwrap_or(1) {
        for i in 0..WORKS.len() {
            let start = Instant::now(&rt)?;
            sum ^= bench.run(WORKS[i]);
            best[i] = best[i].min(nanoseconds(start.elapsed(&rt)?));
        }
    }
    for i in 0..WORKS.len() {
        let name = WORKS[i].name();
        let compressions = bench.compressions(WORKS[i]);
        match asked {
            Some(_) => {
                let time = best[i];
                println!(rt; "{name} {compressions} {time}")?;
            }
            None => println!(rt; "{name} {compressions}")?,
        }
    }
    // Printed, so that no work is left out.
    if asked.is_some() {
        println!(rt; "sum {sum}")?;
    }
    Ok(())
}
