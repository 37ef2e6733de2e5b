//! Runs over inputs in memory. Each notice was worked out by hand from RFC 3029 9 and RFC 4210 5.2.3.

use super::*;
use crate::issuing::tests::{CPD, FROM, desk};
use dv_outside_mem::{MemClock, MemSource, MemStation};
use std::alloc::AllocError;
use std::test::Fail;

/// The first second of the year 10000.
const PAST: u64 = 253_402_300_800;

/// A request of version 2, with the transactionIdentifier a, a dNSName.
const OF_VERSION_2: [u8; 35] = [
    0x30, 0x21, 0x06, 0x0B, 0x2A, 0x86, 0x48, 0x86, 0xF7, 0x0D, 0x01, 0x09, 0x10, 0x01, 0x07, 0xA0,
    0x12, 0x30, 0x10, 0x30, 0x06, 0x02, 0x01, 0x02, 0x0A, 0x01, 0x01, 0x04, 0x03, 0x61, 0x62, 0x63,
    0x82, 0x01, 0x61,
];

/// A signed message with an empty content.
const SIGNED: [u8; 17] = [
    0x30, 0x0F, 0x06, 0x09, 0x2A, 0x86, 0x48, 0x86, 0xF7, 0x0D, 0x01, 0x07, 0x02, 0xA0, 0x02, 0x30,
    0x00,
];

/// The notice to the signed message: badDataFormat.
const SIGNED_NOTICE: [u8; 28] = [
    0x30, 0x1A, 0x06, 0x0B, 0x2A, 0x86, 0x48, 0x86, 0xF7, 0x0D, 0x01, 0x09, 0x10, 0x01, 0x08, 0xA0,
    0x0B, 0xA0, 0x09, 0x30, 0x07, 0x02, 0x01, 0x02, 0x03, 0x02, 0x02, 0x04,
];

/// The notice to the request of version 2: badRequest, with its transactionIdentifier.
const VERSION_NOTICE: [u8; 31] = [
    0x30, 0x1D, 0x06, 0x0B, 0x2A, 0x86, 0x48, 0x86, 0xF7, 0x0D, 0x01, 0x09, 0x10, 0x01, 0x08, 0xA0,
    0x0E, 0xA0, 0x0C, 0x30, 0x07, 0x02, 0x01, 0x02, 0x03, 0x02, 0x05, 0x20, 0x82, 0x01, 0x61,
];

/// Which calls of the source, the clock and the station fail, by their numbers. Making the register takes the first three calls of
/// the station.
#[derive(Clone, Copy)]
struct Failing<'a> {
    reads: &'a [u64],
    clock: &'a [u64],
    station: &'a [u64],
}

const NONE: Failing<'static> = Failing {
    reads: &[],
    clock: &[],
    station: &[],
};

/// How a run over these octets with a new register ends, and what it sends, where the clock tells this second.
fn run(
    alloc: Global,
    octets: &[u8],
    second: u64,
    failing: &Failing<'_>,
) -> Result<(End, Vec<u8>), AllocError> {
    let desk = desk(alloc)?;
    let mut source = MemSource::new(
        octets.to_vec(alloc)?,
        Vec::new(alloc),
        failing.reads.to_vec(alloc)?,
    );
    let mut clock = MemClock::new(vec![in alloc; second]?, failing.clock.to_vec(alloc)?);
    let station = MemStation::new(
        alloc,
        Vec::new(alloc),
        failing.station.to_vec(alloc)?,
        1000,
        100_000,
    )?;
    match Register::create(alloc, station, &desk.key, 1) {
        Err((_station, _refusal)) => Err(AllocError),
        Ok(register) => {
            let mut register = register;
            let end = serve(alloc, &mut source, &mut clock, &mut register, &desk);
            let station = register.into_station();
            Ok((end, station.sent().to_vec(alloc)?))
        }
    }
}

/// These octets, one after another.
fn joined(alloc: Global, first: &[u8], second: &[u8]) -> Result<Vec<u8>, AllocError> {
    let mut octets = first.to_vec(alloc)?;
    octets.extend_from_slice(second)?;
    Ok(octets)
}

#[test]
fn no_input(rt: HostRuntime) -> Result<(), Fail> {
    let (end, sent) = run(rt.alloc(), &[], FROM, &NONE)?;
    assert_eq!(rt; end, End::Input);
    assert!(rt; sent.is_empty());
    Ok(())
}

#[test]
fn no_request(rt: HostRuntime) -> Result<(), Fail> {
    for octets in [b"abc".as_slice(), &[0x30, 0x80], &CPD[..28], &CPD[..1]] {
        let (end, sent) = run(rt.alloc(), octets, FROM, &NONE)?;
        assert_eq!(rt; end, End::Refused);
        assert!(rt; sent.is_empty());
    }
    Ok(())
}

#[test]
fn faults_before_an_answer(rt: HostRuntime) -> Result<(), Fail> {
    let read = Failing {
        reads: &[0],
        ..NONE
    };
    let (end, sent) = run(rt.alloc(), &CPD, FROM, &read)?;
    assert_eq!(rt; end, End::Read);
    assert!(rt; sent.is_empty());
    let clock = Failing {
        clock: &[0],
        ..NONE
    };
    let (end, sent) = run(rt.alloc(), &CPD, FROM, &clock)?;
    assert_eq!(rt; end, End::Clock);
    assert!(rt; sent.is_empty());
    Ok(())
}

#[test]
fn past_the_last_year(rt: HostRuntime) -> Result<(), Fail> {
    let (end, sent) = run(rt.alloc(), &CPD, PAST, &NONE)?;
    assert_eq!(rt; end, End::Range);
    assert!(rt; sent.is_empty());
    Ok(())
}

#[test]
fn notices_in_order(rt: HostRuntime) -> Result<(), Fail> {
    let alloc = rt.alloc();
    let both = joined(alloc, &OF_VERSION_2, &SIGNED)?;
    let notices = joined(alloc, &VERSION_NOTICE, &SIGNED_NOTICE)?;
    let (end, sent) = run(alloc, &both, FROM, &NONE)?;
    assert_eq!(rt; end, End::Input);
    assert_eq!(rt; sent.as_slice(), notices.as_slice());
    let cut = joined(alloc, &both, &CPD[..28])?;
    let (end, sent) = run(alloc, &cut, FROM, &NONE)?;
    assert_eq!(rt; end, End::Refused);
    assert_eq!(rt; sent.as_slice(), notices.as_slice());
    Ok(())
}

#[test]
fn a_fault_behind_an_answer(rt: HostRuntime) -> Result<(), Fail> {
    let alloc = rt.alloc();
    let both = joined(alloc, &OF_VERSION_2, &SIGNED)?;
    let clock = Failing {
        clock: &[1],
        ..NONE
    };
    let (end, sent) = run(alloc, &both, FROM, &clock)?;
    assert_eq!(rt; end, End::Clock);
    assert_eq!(rt; sent.as_slice(), VERSION_NOTICE.as_slice());
    let put = Failing {
        station: &[4],
        ..NONE
    };
    let (end, sent) = run(alloc, &both, FROM, &put)?;
    assert_eq!(rt; end, End::Put);
    let half = joined(alloc, &VERSION_NOTICE, &SIGNED_NOTICE[..14])?;
    assert_eq!(rt; sent.as_slice(), half.as_slice());
    Ok(())
}
