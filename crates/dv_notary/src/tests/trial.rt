//! Runs of the program over the outside in memory, for tests.

ghost use Rattle.std.specs.Prelude.{◌<◌};

use dv_outside_mem::{MemClock, MemDiag, MemShelf, MemSource, MemStation};
use dv_server::run_serve;
use dv_tool::run_tool;
use std::alloc::Global;
use std::collections::BTreeMap;
use std::test::Fail;

/// 2025-01-01T00:00:00Z, in seconds since 1970.
pub(crate) const NEW_YEAR: u64 = 1_735_689_600;

/// The seed file of a key with the identifier 01, 01, .. and the seed 02, 02, ..
const SEED: [u8; 60] = [
    0x44, 0x56, 0x53, 0x45, 0x45, 0x44, 0x30, 0x31, 0x00, 0x00, 0x00, 0x05, 1, 1, 1, 1, 1, 1, 1, 1,
    1, 1, 1, 1, 1, 1, 1, 1, 2, 2, 2, 2, 2, 2, 2, 2, 2, 2, 2, 2, 2, 2, 2, 2, 2, 2, 2, 2, 2, 2, 2, 2,
    2, 2, 2, 2, 2, 2, 2, 2,
];

/// Which calls of the outside fail, by their numbers.
#[derive(Clone, Copy)]
pub(crate) struct Faults {
    pub station: Option<u64>,
    pub source: Option<u64>,
    pub clock: Option<u64>,
    pub shelf: Option<u64>,
}

/// None of them.
pub(crate) const NO_FAULTS: Faults = Faults {
    station: None,
    source: None,
    clock: None,
    shelf: None,
};

/// What a run left: its status, the register's file, what was put, and what was said.
#[derive(Drop)]
pub(crate) struct Left {
    pub status: u8,
    pub file: Vec<u8>,
    pub sent: Vec<u8>,
    pub said: MemDiag,
}

/// The number of the call that fails, where one does.
fn failing(alloc: Global, call: Option<u64>) -> Result<Vec<u64>, Fail> {
    let mut calls = Vec::new(alloc);
    if let Some(call) = call {
        calls.push(call)?;
    }
    Ok(calls)
}

/// The words as the program has them.
fn owned(alloc: Global, words: &[&str]) -> Result<Vec<String>, Fail> {
    let mut owned = Vec::new(alloc);
    for word in words {
        owned.push(word.to_string(alloc)?)?;
    }
    Ok(owned)
}

/// A shelf with the files `seed`, `other` (the seed file of another key), `own` (these octets), `trust`, `short` (a seed file without its last octet) and
/// `long` (131,073 octets).
fn shelf(alloc: Global, own: &[u8], faults: Faults) -> Result<MemShelf, Fail> {
    let mut files = BTreeMap::new(alloc);
    files.insert("seed".to_string(alloc)?, SEED.to_vec(alloc)?)?;
    let mut other = SEED.to_vec(alloc)?;
    other[59] = 3;
    files.insert("other".to_string(alloc)?, other)?;
    files.insert("short".to_string(alloc)?, SEED[..59].to_vec(alloc)?)?;
    files.insert("own".to_string(alloc)?, own.to_vec(alloc)?)?;
    files.insert("trust".to_string(alloc)?, own.to_vec(alloc)?)?;
    files.insert("long".to_string(alloc)?, vec![in alloc; 0u8; 131_073]?)?;
    Ok(MemShelf::new(files, failing(alloc, faults.shelf)?))
}

/// The objects that a run is lent, but for its words and its station.
#[derive(Drop)]
struct World {
    shelf: MemShelf,
    source: MemSource,
    clock: MemClock,
}

/// Runs a command that ends by itself.
pub(crate) fn run_command(
    rt: &HostRuntime,
    words: &[&str],
    register: &[u8],
    own: &[u8],
    faults: Faults,
) -> Result<Left, Fail> {
    let alloc = rt.alloc();
    let station = MemStation::new(
        alloc,
        register.to_vec(alloc)?,
        failing(alloc, faults.station)?,
        1_000,
        10_000_000,
    )?;
    let mut said = MemDiag::new(alloc);
    let (status, station) = run_tool(
        rt,
        owned(alloc, words)?.as_slice(),
        &mut shelf(alloc, own, faults)?,
        &mut MemSource::new(Vec::new(alloc), Vec::new(alloc), Vec::new(alloc)),
        &mut MemClock::new(vec![in alloc; NEW_YEAR]?, Vec::new(alloc)),
        &mut said,
        station,
    );
    Ok(Left {
        status,
        file: station.file().to_vec(alloc)?,
        sent: station.sent().to_vec(alloc)?,
        said,
    })
}

/// A register of the key of `seed` with its first record, and the certificate that stands for it. It holds from 2020 on.
pub(crate) fn new_register(rt: &HostRuntime) -> Result<Left, Fail> {
    let words = [
        "init",
        "register",
        "seed",
        "Trial",
        "--from",
        "20200101000000Z",
        "--days",
        "3653",
    ];
    run_command(rt, &words, &[], &[], NO_FAULTS)
}

/// What the server is given: the words, its input and the size of its first read, and the second that its clock tells.
#[derive(Clone, Copy)]
pub(crate) struct Given<'a> {
    pub words: &'a [&'a str],
    pub input: &'a [u8],
    pub cut: usize,
    pub clock: u64,
}

/// The words of the server over the files of a trial.
pub(crate) const SERVE: [&str; 5] = ["serve", "register", "seed", "own", "trust"];

/// Serves over a register and the certificate of its key.
pub(crate) fn run_server(
    rt: &HostRuntime,
    given: &Given<'_>,
    register: &[u8],
    own: &[u8],
    faults: Faults,
) -> Result<Left, Fail>
    requires { 0 < given.now.cut }
{
    let alloc = rt.alloc();
    let station = MemStation::new(
        alloc,
        register.to_vec(alloc)?,
        failing(alloc, faults.station)?,
        1_000,
        10_000_000,
    )?;
    let mut said = MemDiag::new(alloc);
    let mut world = World {
        shelf: shelf(alloc, own, faults)?,
        source: MemSource::new(
            given.input.to_vec(alloc)?,
            vec![in alloc; given.cut]?,
            failing(alloc, faults.source)?,
        ),
        clock: MemClock::new(vec![in alloc; given.clock]?, failing(alloc, faults.clock)?),
    };
    let (status, station) = run_serve(
        rt,
        owned(alloc, given.words)?.as_slice(),
        &mut world.shelf,
        &mut world.source,
        &mut world.clock,
        &mut said,
        station,
    );
    Ok(Left {
        status,
        file: station.file().to_vec(alloc)?,
        sent: station.sent().to_vec(alloc)?,
        said,
    })
}

/// Whether these octets stand somewhere among others.
pub(crate) fn holds(octets: &[u8], part: &[u8]) -> bool {
    (0..octets.len()).any(|place| octets[place..].starts_with(part))
}
