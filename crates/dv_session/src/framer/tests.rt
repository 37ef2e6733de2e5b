//! Two requests after RFC 3029 in every cut, a request of the most octets, and streams that stop.

ghost use Rattle.std.specs.Prelude.{◌≡◌, ◌+◌, ◌^◌, ◌≤◌, OnOk, length};

use super::*;
use std::process::Abort;
use std::test::Fail;

/// The request for possession of the octets `abc`, and behind it that for possession of none.
#[rattlefmt::skip]
const STREAM: [u8; 55] = [
    0x30, 0x1B, 0x06, 0x0B, 0x2A, 0x86, 0x48, 0x86, 0xF7, 0x0D, 0x01, 0x09, 0x10, 0x01, 0x07, 0xA0, 0x0C,
    0x30, 0x0A, 0x30, 0x03, 0x0A, 0x01, 0x01, 0x04, 0x03, 0x61, 0x62, 0x63,
    0x30, 0x18, 0x06, 0x0B, 0x2A, 0x86, 0x48, 0x86, 0xF7, 0x0D, 0x01, 0x09, 0x10, 0x01, 0x07, 0xA0, 0x09,
    0x30, 0x07, 0x30, 0x03, 0x0A, 0x01, 0x01, 0x04, 0x00,
];

// Feeds a piece, and adds the requests that it gives.
fn feed_more(
    framer: &mut Framer,
    piece: &[u8],
    requests: &mut Vec<Vec<u8>>,
) -> Result<(), AllocError>
    requires { framer.old.before + framer.old.behind + length piece.now ≤ 2 ^ 62 }
    ensures { OnOk result (framer.new.before + framer.new.behind
        ≡ framer.old.before + framer.old.behind + length piece.now) }
{
    for request in framer.feed(piece)?.requests.into_vec() {
        requests.push(request)?;
    }
    Ok(())
}

// Fails unless the stream's two requests were given, and all of it was read.
fn assert_both(rt: &impl Abort, framer: &Framer, requests: &Vec<Vec<u8>>, cut: usize) {
    assert_eq!(rt; requests.len(), 2, "cut at {cut}");
    assert!(rt; requests[0].as_slice() == &STREAM[..29], "cut at {cut}");
    assert!(rt; requests[1].as_slice() == &STREAM[29..], "cut at {cut}");
    assert_eq!(rt; framer.rest(), 0, "cut at {cut}");
    assert_eq!(rt; framer.stop(), None, "cut at {cut}");
}

#[test]
fn each_cut(rt: HostRuntime) -> Result<(), Fail> {
    for cut in 0..=STREAM.len() {
        let mut framer = Framer::new(rt.alloc());
        let mut requests = Vec::new(rt.alloc());
        feed_more(&mut framer, &STREAM[..cut], &mut requests)?;
        feed_more(&mut framer, &STREAM[cut..], &mut requests)?;
        assert_both(&rt, &framer, &requests, cut);
    }
    Ok(())
}

#[test]
fn octet_by_octet(rt: HostRuntime) -> Result<(), Fail> {
    let mut framer = Framer::new(rt.alloc());
    let mut requests = Vec::new(rt.alloc());
    for octet in STREAM {
        feed_more(&mut framer, &[octet], &mut requests)?;
    }
    assert_both(&rt, &framer, &requests, 1);
    Ok(())
}

#[test]
fn most_octets(rt: HostRuntime) -> Result<(), Fail> {
    let mut request = [0x30, 0x83, 0x03, 0xFF, 0xFB].to_vec(rt.alloc())?;
    request.resize(262_144, 0x61)?;
    let mut framer = Framer::new(rt.alloc());
    let fed = framer.feed(&request)?;
    assert_eq!(rt; fed.requests.as_slice().len(), 1);
    assert!(rt; fed.requests.as_slice()[0] == request);
    assert_eq!(rt; fed.stop, None);
    assert_eq!(rt; framer.rest(), 0);
    Ok(())
}

#[test]
fn stops(rt: HostRuntime) -> Result<(), Fail> {
    let rows = [
        [0x30, 0x83, 0x03, 0xFF, 0xFC],
        [0x30, 0x81, 0x7F, 0x30, 0x00],
        [0x30, 0x80, 0x30, 0x00, 0x30],
        [0x30, 0x84, 0x00, 0x00, 0x00],
        [0x04, 0x03, 0x61, 0x62, 0x63],
    ];
    for row in rows {
        let mut framer = Framer::new(rt.alloc());
        assert_eq!(rt;
            framer.feed(&STREAM)?.requests.as_slice().len(),
            2,
            "{row:?}"
        );
        let fed = framer.feed(&row)?;
        assert_eq!(rt;
            (fed.requests.as_slice().len(), fed.stop),
            (0, Some(55)),
            "{row:?}"
        );
        assert_eq!(rt; framer.rest(), 5, "{row:?}");
        let fed = framer.feed(&STREAM)?;
        assert_eq!(rt;
            (fed.requests.as_slice().len(), fed.stop),
            (0, Some(55)),
            "{row:?}"
        );
        assert_eq!(rt; framer.rest(), 60, "{row:?}");
    }
    Ok(())
}
