//! The command `reissue`.
ghost use Rattle.std.specs.Prelude.{◌≡◌, ◌≢◌, ◌≤◌};
ghost use Rattle.dv_outside.specs.Causes.{Rose};
ghost use Rattle.dv_exit.specs.Status.{number_of};
ghost use Rattle.dv_tool.specs.Tool.{IsToolStatus, ReissueEnds, status_of_reissue};

use dv_commands::{Reissue, reissue};
use dv_exit::{Status, open_status, read_key, say};
use dv_outside::{Diag, Shelf, Station};
use std::alloc::Global;

/// The words of `reissue` and their values.
#[derive(Clone, Copy)]
pub(crate) struct Again<'a> {
    pub(crate) register: &'a str,
    pub(crate) seed: &'a str,
    pub(crate) serial: u64,
}

/// Reads the seed, and puts the certificate of a record of the register of its key.
pub(crate) fn put_again<V: Station, F: Shelf, E: Diag>(
    alloc: Global,
    line: &Again<'_>,
    shelf: &mut F,
    diag: &mut E,
    station: V,
) -> (Status, V)
    ensures ends { ReissueEnds V.tells V.content V.counts (F.files shelf.old) line.now.seed.now line.now.serial (number_of result.0) station result.1 }
    ensures status { IsToolStatus (number_of result.0) }
    ensures words { result.0 ≢ Status.Words }
    ensures put_fault { result.0 ≡ Status.Put → Rose (V.counts station).put_faults (V.counts result.1).put_faults }
    ensures fault { result.0 ≡ Status.Station → Rose (V.counts station).faults (V.counts result.1).faults }
    ensures shelf_fault { result.0 ≡ Status.Shelf → Rose (F.faults shelf.old) (F.faults shelf.new) }
    ensures shelf_later { F.faults shelf.old ≤ F.faults shelf.new }
    ensures shelf_files { F.files shelf.new ≡ F.files shelf.old }
    ensures tells { V.tells result.1 ≡ V.tells station }
{
    let key = match read_key(alloc, line.seed, shelf, diag) {
        Ok(key) => key,
        Err(status) => return (status, station),
    };
    let (answer, station) = reissue(alloc, station, &key, line.serial);
    (reissue_status(alloc, diag, line.register, answer), station)
}

/// The status of what `reissue` answers, and a word on the diagnostics where it didn't do its work.
fn reissue_status<E: Diag>(
    alloc: Global,
    diag: &mut E,
    register: &str,
    answer: Result<(), Reissue>,
) -> Status
    ensures { number_of result ≡ status_of_reissue answer }
{
    let Err(refusal) = answer else {
        return Status::Done;
    };
    match format!(in alloc; "{refusal}") {
        Ok(text) => say(alloc, diag, register, text.as_str()),
        Err(_) => say(alloc, diag, register, "the certificate was not given"),
    }
    match refusal {
        Reissue::Open(refusal) => open_status(refusal),
        Reissue::Absent => Status::Absent,
        Reissue::Record(_) => Status::File,
        Reissue::Fault => Status::Station,
        Reissue::Put => Status::Put,
        Reissue::Memory => Status::Memory,
    }
}
