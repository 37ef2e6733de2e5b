//! Lines for people.
ghost use Rattle.std.specs.Prelude.{◌≡◌, ◌⊎◌, ◌↔◌};
ghost use Rattle.dv_exit.specs.Files.{IsFileStatus};
ghost use Rattle.dv_exit.specs.Status.{number_of, status_of_open};

use crate::status::Status;
use dv_outside::{Diag, ShelfRefusal};
use dv_register::Open;
use std::alloc::Global;

/// Writes `name: text` on the diagnostics, or the text alone where there is no memory for both.
pub fn say<E: Diag>(alloc: Global, diag: &mut E, name: &str, text: &str) {
    match format!(in alloc; "{name}: {text}") {
        Ok(line) => diag.line(line.as_str()),
        Err(_) => diag.line(text),
    }
}

/// Says that a file is refused from this place in it on.
pub fn say_place<E: Diag>(alloc: Global, diag: &mut E, file: &str, place: u64) {
    match format!(in alloc; "refused at {place}") {
        Ok(text) => say(alloc, diag, file, text.as_str()),
        Err(_) => say(alloc, diag, file, "refused"),
    }
}

/// Says that a file has more octets than this.
fn say_too_long<E: Diag>(alloc: Global, diag: &mut E, file: &str, limit: u64) {
    match format!(in alloc; "the file is longer than {limit} octets") {
        Ok(text) => say(alloc, diag, file, text.as_str()),
        Err(_) => say(alloc, diag, file, "the file is too long"),
    }
}

/// Says on the diagnostics why a file of at most so many octets wasn't given, and gives the status for it.
pub fn refused<E: Diag>(
    alloc: Global,
    diag: &mut E,
    file: &str,
    limit: u64,
    refusal: ShelfRefusal,
) -> Status
    ensures too_long { (result ≡ Status.File) ↔ (refusal ≡ ShelfRefusal.TooLong) }
    ensures failed { (result ≡ Status.Shelf) ↔ (refusal ≡ ShelfRefusal.Failed) }
    ensures memory { (result ≡ Status.Memory) ↔ (refusal ≡ ShelfRefusal.Memory) }
    ensures status { IsFileStatus result }
{
    match refusal {
        ShelfRefusal::Failed => {
            say(alloc, diag, file, "the file can't be read");
            Status::Shelf
        }
        ShelfRefusal::TooLong => {
            say_too_long(alloc, diag, file, limit);
            Status::File
        }
        ShelfRefusal::Memory => {
            say(alloc, diag, file, "there is not enough memory for the file");
            Status::Memory
        }
    }
}

/// The status where a register isn't opened.
pub fn open_status(refusal: Open) -> Status
    ensures { number_of result ≡ status_of_open refusal }
{
    match refusal {
        Open::NotRegister { .. } | Open::OtherKey => Status::File,
        Open::Fault => Status::Station,
        Open::Memory => Status::Memory,
    }
}
