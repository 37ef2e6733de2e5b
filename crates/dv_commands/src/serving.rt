//! The server on its register.
ghost use Rattle.std.specs.Prelude.{◌≡◌, ◌⊎◌, ◌↔◌, ◌≤◌, ◌<◌, false, IfErr, IfOk, IsErr, IsTrue, OnOk, slice_get, Some, [], length};
ghost use Rattle.dv_outside.specs.Causes.{Rose};
ghost use Rattle.dv_outside.specs.Station.{Looks};
ghost use Rattle.dv_cert.specs.Certificates.{MayLeave};
ghost use Rattle.dv_register.specs.State.{IsKept, IsSameRegister};
ghost use Rattle.dv_commands.specs.Serving.{HasOwn, ServesFrom, ServesRegister};

use dv_cert::NotaryRule;
use dv_outside::{Clock, Source, Station};
use dv_register::{Contents, Open, Register};
use dv_session::{Desk, End, serve};
use std::alloc::Global;
use thiserror::Error;

/// The kind of a record that stands for an own certificate.
const OWN: u8 = 1;

/// Why no request was served.
#[derive(Clone, Copy, Debug, PartialEq, Eq, Error)]
pub enum NotServed {
    /// The register wasn't opened.
    #[error("{0}")]
    Open(Open),
    /// Its first record doesn't stand for an own certificate.
    #[error("the register's first record is not that of its own certificate")]
    NoOwn,
    /// The station failed.
    #[error("the register's file can't be read")]
    Fault,
    /// Want of memory.
    #[error("there is not enough memory for the register's first record")]
    Memory,
}

/// Whether the register's first record stands for an own certificate.
fn has_own<V: Station>(
    alloc: Global,
    register: &mut Register<V, NotaryRule>,
) -> Result<bool, Contents>
    ensures own { IfOk result (λ b. IsTrue b ↔ HasOwn register.old.list) }
    ensures fault { result ≡ Err Contents.Fault → Rose (V.counts register.old.station).faults (V.counts register.new.station).faults }
    ensures list { register.new.list ≡ register.old.list }
    ensures shut { register.new.shut ≡ register.old.shut }
    ensures kept { IsKept V.tells V.content V.counts MayLeave register.new }
    ensures same { IsSameRegister register.old register.new }
    ensures looks { IsTrue (V.tells register.old.station) → Looks (V.content register.old.station) (V.content register.new.station) }
    ensures tells { V.tells register.new.station ≡ V.tells register.old.station }
    ensures later { (V.counts register.old.station).faults ≤ (V.counts register.new.station).faults }
    ensures puts { (V.counts register.new.station).put_faults ≡ (V.counts register.old.station).put_faults }
{
    if register.len() == 0 {
        return Ok(false);
    }
    let (kind, _) = register.contents(alloc, 0)?;
    Ok(kind == OWN)
}

/// Serves the requests that the source gives from a register, where its first record stands for an own certificate.
fn serve_own<S: Source, V: Station, C: Clock>(
    alloc: Global,
    source: &mut S,
    clock: &mut C,
    register: &mut Register<V, NotaryRule>,
    desk: &Desk,
) -> Result<End, NotServed>
    requires key { register.old.identity ≡ desk.now.key }
    requires open { register.old.shut ≡ false }
    ensures serves { ServesFrom V.tells V.content V.counts desk.now.server desk.now.trust (S.left source.old) (S.left source.new) (C.told clock.old) (C.told clock.new)
        (S.ended source.new) register.old register.new result }
    ensures kept { IsKept V.tells V.content V.counts MayLeave register.new }
    ensures same { IsSameRegister register.old register.new }
    ensures tells { V.tells register.new.station ≡ V.tells register.old.station }
    ensures source { IsErr result → source.new ≡ source.old }
    ensures clock { IsErr result → clock.new ≡ clock.old }
    ensures read_fault { result ≡ Ok End.Read → Rose (S.faults source.old) (S.faults source.new) }
    ensures clock_fault { result ≡ Ok End.Clock → Rose (C.faults clock.old) (C.faults clock.new) }
    ensures put_fault { result ≡ Ok End.Put → Rose (V.counts register.old.station).put_faults (V.counts register.new.station).put_faults }
    ensures fault { result ≡ Ok End.Fault → Rose (V.counts register.old.station).faults (V.counts register.new.station).faults }
    ensures source_later { S.faults source.old ≤ S.faults source.new }
    ensures clock_later { C.faults clock.old ≤ C.faults clock.new }
    ensures put_later { (V.counts register.old.station).put_faults ≤ (V.counts register.new.station).put_faults }
    ensures later { (V.counts register.old.station).faults ≤ (V.counts register.new.station).faults }
{
    match has_own(alloc, register) {
        Ok(true) => Ok(serve(alloc, source, clock, register, desk)),
        Ok(false) => Err(NotServed::NoOwn),
        Err(Contents::Fault) => Err(NotServed::Fault),
        Err(Contents::Memory) => Err(NotServed::Memory),
    }
}

/// Opens the register in the file of a station, and serves the requests that the source gives from it, as [`serve`] does. The station is handed
/// back.
///
/// The register's first record is that of an own certificate; otherwise nothing is served. The source and the clock are asked for
/// nothing before that is known.
pub fn serve_register<S: Source, V: Station, C: Clock>(
    alloc: Global,
    source: &mut S,
    clock: &mut C,
    station: V,
    desk: &Desk,
) -> (Result<End, NotServed>, V)
    // A run on the register that was opened, and what it took, answered and sent; or why there was none.
    ensures answer { ServesRegister V.tells V.content V.counts desk.now.server desk.now.trust desk.now.key (S.left source.old) (S.left source.new) (C.told clock.old) (C.told clock.new)
        (S.ended source.new) station result.1 result.0 }
    ensures source { IsErr result.0 → source.new ≡ source.old }
    ensures clock { IsErr result.0 → clock.new ≡ clock.old }

    // What stands behind a fault.
    ensures read_fault { result.0 ≡ Ok End.Read → Rose (S.faults source.old) (S.faults source.new) }
    ensures clock_fault { result.0 ≡ Ok End.Clock → Rose (C.faults clock.old) (C.faults clock.new) }
    ensures put_fault { result.0 ≡ Ok End.Put → Rose (V.counts station).put_faults (V.counts result.1).put_faults }
    ensures fault { result.0 ≡ Ok End.Fault → Rose (V.counts station).faults (V.counts result.1).faults }
    ensures source_later { S.faults source.old ≤ S.faults source.new }
    ensures clock_later { C.faults clock.old ≤ C.faults clock.new }
    ensures put_later { (V.counts station).put_faults ≤ (V.counts result.1).put_faults }
    ensures later { (V.counts station).faults ≤ (V.counts result.1).faults }
    ensures tells { V.tells result.1 ≡ V.tells station }
{
    match Register::<V, NotaryRule>::open(alloc, station, &desk.key) {
        Err((station, refusal)) => (Err(NotServed::Open(refusal)), station),
        Ok(register) => {
            let mut register = register;
            let answer = serve_own(alloc, source, clock, &mut register, desk);
            (answer, register.into_station())
        }
    }
}
