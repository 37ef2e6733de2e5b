//! The command `init`.
ghost use Rattle.std.specs.Prelude.{◌≡◌, ◌≢◌, ◌≤◌, length};
ghost use Rattle.dv_outside.specs.Causes.{Rose};
ghost use Rattle.dv_exit.specs.Status.{number_of};
ghost use Rattle.dv_tool.specs.Tool.{InitEnds, IsToolStatus, status_of_init};

use dv_commands::{Init, init};
use dv_exit::{Status, read_key, say};
use dv_outside::{Diag, Shelf, Station};
use dv_register::Create;
use dv_time::Moment;
use dv_x509::OwnParts;
use std::alloc::Global;

/// The words of `init` and their values.
#[derive(Clone, Copy)]
pub(crate) struct NewRegister<'a> {
    pub(crate) register: &'a str,
    pub(crate) seed: &'a str,
    pub(crate) name: &'a str,
    pub(crate) from: Moment,
    pub(crate) until: Moment,
    pub(crate) first: u64,
}

/// Reads the seed, makes the register of its key, and puts the certificate that the key's holder issues to itself.
pub(crate) fn make_register<V: Station, F: Shelf, E: Diag>(
    alloc: Global,
    line: &NewRegister<'_>,
    shelf: &mut F,
    diag: &mut E,
    station: V,
) -> (Status, V)
    requires some { 1 ≤ length line.now.name.now }
    requires few { length line.now.name.now ≤ 64 }
    requires first { 1 ≤ line.now.first }
    requires last { line.now.first ≤ 4_611_686_018_427_387_904 }
    ensures ends { InitEnds V.tells V.content V.counts (F.files shelf.old) line.now.seed.now line.now.name.now line.now.from line.now.until line.now.first
        (number_of result.0) station result.1 }
    ensures status { IsToolStatus (number_of result.0) }
    ensures words { result.0 ≢ Status.Words }
    ensures put_fault { result.0 ≡ Status.Put → Rose (V.counts station).put_faults (V.counts result.1).put_faults }
    ensures fault { result.0 ≡ Status.Station → Rose (V.counts station).faults (V.counts result.1).faults }
    ensures shelf_fault { result.0 ≡ Status.Shelf → Rose (F.faults shelf.old) (F.faults shelf.new) }
    ensures shelf_later { F.faults shelf.old ≤ F.faults shelf.new }
    ensures shelf_files { F.files shelf.new ≡ F.files shelf.old }
    ensures tells { V.tells result.1 ≡ V.tells station }
{
    let key = match read_key(alloc, line.seed, shelf, diag) {
        Ok(key) => key,
        Err(status) => return (status, station),
    };
    let parts = OwnParts {
        name: line.name.as_bytes(),
        from: line.from,
        until: line.until,
    };
    let (answer, station) = init(alloc, station, &key, &parts, line.first);
    (init_status(alloc, diag, line.register, answer), station)
}

/// The status of what `init` answers, and a word on the diagnostics where it didn't do its work.
fn init_status<E: Diag>(
    alloc: Global,
    diag: &mut E,
    register: &str,
    answer: Result<(), Init>,
) -> Status
    ensures { number_of result ≡ status_of_init answer }
{
    let Err(refusal) = answer else {
        return Status::Done;
    };
    match format!(in alloc; "{refusal}") {
        Ok(text) => say(alloc, diag, register, text.as_str()),
        Err(_) => say(alloc, diag, register, "the register was not made"),
    }
    match refusal {
        Init::Create(Create::NotEmpty) => Status::Absent,
        Init::Create(Create::Fault) | Init::Fault => Status::Station,
        Init::Put => Status::Put,
        Init::Memory => Status::Memory,
    }
}
