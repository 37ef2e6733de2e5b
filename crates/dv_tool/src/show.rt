//! The command `show`.
ghost use Rattle.std.specs.Prelude.{◌≡◌, ◌≢◌, ◌⊎◌, ◌≤◌, IfSome};
ghost use Rattle.dv_outside.specs.Causes.{Rose};
ghost use Rattle.dv_outside.specs.Station.{Spends};
ghost use Rattle.dv_show.specs.Show.{IsNotShown};
ghost use Rattle.dv_exit.specs.Status.{number_of};
ghost use Rattle.dv_tool.specs.Tool.{IsPutStatus, PutsShown};

use dv_exit::{Status, refused, say_place};
use dv_outside::{Diag, Shelf, ShelfRefusal, Station};
use dv_show::{ShowFault, show_values};
use std::alloc::Global;

/// The most octets of a file that is shown.
const FILE_LIMIT: u64 = 16_777_216;

/// Reads the file, and puts a line for each of its values.
pub(crate) fn put_shown<V: Station, F: Shelf, E: Diag>(
    alloc: Global,
    file: &str,
    shelf: &mut F,
    diag: &mut E,
    station: &mut V,
) -> Status
    ensures status { IsPutStatus (number_of result) }
    ensures words { result ≢ Status.Words }
    ensures put { (result ≡ Status.Done) ⊎ (result ≡ Status.Put)
        → PutsShown (F.files shelf.old) file.now (number_of result) (V.tells station.old) (V.content station.old) (V.content station.new) }
    ensures quiet { result ≢ Status.Done → result ≢ Status.Put → station.new ≡ station.old }
    ensures not_shown { result ≡ Status.File → IfSome (F.files shelf.old) (λ files. IsNotShown (files file.now)) }
    ensures put_fault { result ≡ Status.Put → Rose (V.counts station.old).put_faults (V.counts station.new).put_faults }
    ensures shelf_fault { result ≡ Status.Shelf → Rose (F.faults shelf.old) (F.faults shelf.new) }
    ensures shelf_later { F.faults shelf.old ≤ F.faults shelf.new }
    ensures shelf_files { F.files shelf.new ≡ F.files shelf.old }
    ensures spends { Spends 1 67108864 (V.counts station.old) (V.counts station.new) }
    ensures tells { V.tells station.new ≡ V.tells station.old }
{
    let octets = match shelf.read(alloc, file, FILE_LIMIT) {
        Ok(octets) => octets,
        Err(refusal) => return refused(alloc, diag, file, FILE_LIMIT, refusal),
    };
    let text = match show_values(alloc, &octets) {
        Ok(text) => text,
        Err(ShowFault::Refused(refusal)) => {
            say_place(alloc, diag, file, refusal.place);
            return Status::File;
        }
        Err(ShowFault::Memory) => {
            return refused(alloc, diag, file, FILE_LIMIT, ShelfRefusal::Memory);
        }
    };
    match station.put(text.as_bytes()) {
        Ok(()) => Status::Done,
        Err(_) => {
            diag.line("the lines can't be written to the output");
            Status::Put
        }
    }
}
