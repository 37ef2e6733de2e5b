//! A shared register over a file in memory. What is expected was written by hand from the layout.
ghost use Rattle.std.specs.Prelude.{◌≡◌, ◌≤◌, ◌∷◌, [], length};
ghost use Rattle.dv_shared.specs.Calls.{Reserves};
ghost use Rattle.dv_shared.specs.Events.{first_events};

use super::*;
use dv_lms::{Height, Key};
use dv_outside::{Releases, Station};
use dv_outside_mem::MemStation;
use dv_passes::Pass;
use dv_register::{Register, SigningKey};
use std::alloc::Global;
use std::marker::Brand;
use std::process::Abort;
use std::sync::Wait;
use std::test::*;
use std::thread::{Threads, join};

/// A rule under which anything may be put.
pub struct Anything;

impl Releases for Anything {
    ghost allows = { λ key first list octets. Unit {0} };

    ghost grows = { λ key first list more octets may. tt };
}

/// A register in memory.
type Whole = Unshared<MemStation, Anything>;

// A register whose first serial is 7, that is about to be shared. Of its station the calls of these numbers fail.
fn unshared(alloc: Global, failing: Vec<u64>) -> Result<Whole, Fail> {
    let key = SigningKey::new(Key::from_seed(alloc, Height::H5, [7; 16], [9; 32])?);
    let station = MemStation::new(alloc, Vec::new(alloc), failing, 1000, 100_000)?;
    let register = Register::create(alloc, station, &key, 7)
        .ok()
        .ok_or("a register")?;
    Ok(Unshared::new(alloc, register).ok().ok_or("memory")?)
}

// Two passes reserve a record each, and one of them puts three octets.
fn two_records<J: NamesRegister<MemStation> + Send + Sync, R: Wait + Abort>(
    rt: &R,
    unshared: Whole,
) -> MemStation
    requires table { unshared.table ≡ J.table }
    requires start { first_events unshared.about.list unshared.about.shut ≡ J.start }
    requires origin { J.origin ≡ unshared.about ∷ [] }
{
    let (shared, pass) = unshared.named::<J>();
    let (one, other) = shared.split(pass);
    let (one, first) = shared.reserve(rt, one, 1, b"one");
    let (other, second) = shared.reserve(rt, other, 2, b"two");
    let first = first.ok().expect(rt, "a receipt");
    let second = second.ok().expect(rt, "a receipt");
    assert_eq!(rt; first.front(), 1);
    assert_eq!(rt; second.front(), 2);
    assert_eq!(rt; second.into_slot().serial(), 8);
    assert_eq!(rt; first.serial(), 7);
    let pass = shared.join(one, other);
    let (pass, put) = shared.emit(rt, pass, b"out");
    assert!(rt; put.is_ok());
    shared.close(pass).into_station()
}

#[test]
fn one_worker(rt: HostRuntime) -> Result<(), Fail> {
    let alloc: Global = rt.alloc();
    let station = two_records::<Brand, _>(&rt, unshared(alloc, Vec::new(alloc))?);
    assert_eq!(rt; station.sent(), b"out".as_slice());
    let behind = station.file().get(76..).ok_or("a head")?;
    assert_eq!(rt;
        behind,
        b"\xA5\x01\0\0\0\x03one\xA5\x02\0\0\0\x03two\0".as_slice()
    );
    Ok(())
}

// A reservation meets a fault, so the next one is refused.
fn shut_by_a_fault<J: NamesRegister<MemStation> + Send + Sync, R: Wait + Abort>(
    rt: &R,
    unshared: Whole,
) -> MemStation
    requires table { unshared.table ≡ J.table }
    requires start { first_events unshared.about.list unshared.about.shut ≡ J.start }
    requires origin { J.origin ≡ unshared.about ∷ [] }
{
    let (shared, pass) = unshared.named::<J>();
    let (pass, first) = shared.reserve(rt, pass, 2, b"one");
    assert_eq!(rt; first.err(), Some(SharedReserve::Fault));
    let (pass, second) = shared.reserve(rt, pass, 2, b"two");
    assert_eq!(rt; second.err(), Some(SharedReserve::Shut));
    let (pass, put) = shared.emit(rt, pass, b"four");
    assert_eq!(rt; put, Err(SharedEmit::Failed));
    let register = shared.close(pass);
    assert!(rt; register.is_shut());
    register.into_station()
}

#[test]
fn a_station_that_fails(rt: HostRuntime) -> Result<(), Fail> {
    let alloc: Global = rt.alloc();
    // Making the register takes the calls 0 to 2.
    let failing = [4, 5].to_vec(alloc)?;
    let station = shut_by_a_fault::<Brand, _>(&rt, unshared(alloc, failing)?);
    assert_eq!(rt; station.sent(), b"fo".as_slice());
    Ok(())
}

// Two workers reserve a record each, side by side.
fn reserve_both<
    J: NamesRegister<V> + Send + Sync,
    V: Station + Send,
    P: Releases + Send,
    R: Threads + Wait + Sync,
>(
    rt: &R,
    shared: &SharedRegister<J, V, P>,
    left: Pass<J>,
    right: Pass<J>,
    one: &[u8],
    two: &[u8],
) -> (
    (Pass<J>, Result<Receipt, SharedReserve>),
    (Pass<J>, Result<Receipt, SharedReserve>),
)
    requires one { length one.now ≤ 1048576 }
    requires two { length two.now ≤ 1048576 }
    ensures left { Reserves J.start shared.now 2 one.now left result.0.0 result.0.1 }
    ensures right { Reserves J.start shared.now 2 two.now right result.1.0 result.1.1 }
{
    join(
        rt,
        move || -> (Pass<J>, Result<Receipt, SharedReserve>)
            requires { length one.now ≤ 1048576 }
            ensures { Reserves J.start shared.entry.now 2 one.entry.now left result.0 result.1 }
        { shared.reserve(rt, left, 2, one) },
        move || -> (Pass<J>, Result<Receipt, SharedReserve>)
            requires { length two.now ≤ 1048576 }
            ensures { Reserves J.start shared.entry.now 2 two.entry.now right result.0 result.1 }
        { shared.reserve(rt, right, 2, two) },
    )
}

// Whatever comes first, each record has a number of its own.
fn two_at_once<J: NamesRegister<MemStation> + Send + Sync, R: Threads + Wait + Abort + Sync>(
    rt: &R,
    unshared: Whole,
) -> MemStation
    requires table { unshared.table ≡ J.table }
    requires start { first_events unshared.about.list unshared.about.shut ≡ J.start }
    requires origin { J.origin ≡ unshared.about ∷ [] }
{
    let (shared, pass) = unshared.named::<J>();
    let (left, right) = shared.split(pass);
    let ((left, first), (right, second)) = reserve_both(rt, &shared, left, right, b"one", b"two");
    let first = first.ok().expect(rt, "a receipt");
    let second = second.ok().expect(rt, "a receipt");
    match first.front() {
        1 => assert_eq!(rt; second.front(), 2),
        front => {
            assert_eq!(rt; front, 2);
            assert_eq!(rt; second.front(), 1);
        }
    }
    let pass = shared.join(left, right);
    shared.close(pass).into_station()
}

#[test]
fn two_workers(rt: HostRuntime) -> Result<(), Fail> {
    let alloc: Global = rt.alloc();
    let station = two_at_once::<Brand, _>(&rt, unshared(alloc, Vec::new(alloc))?);
    // The head, two records of nine octets, and a closed gate.
    assert_eq!(rt; station.file().len(), 95);
    Ok(())
}
