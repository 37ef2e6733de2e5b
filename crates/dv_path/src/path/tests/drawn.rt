//! Searches in bags that are drawn, beside a plain program that tries all lists; and in a mesh.

ghost use Rattle.std.specs.Prelude.{◌<◌};

use super::*;

/// A certificate that is drawn: the letters of its issuer and its subject, and what it may do.
#[derive(Clone, Copy)]
struct Drawn {
    issuer: u8,
    subject: u8,
    kind: Kind,
}

/// What the holder of a certificate may do: issue others, issue the target's alone, or issue none.
#[derive(Clone, Copy)]
enum Kind {
    Authority,
    Last,
    Subscriber,
}

impl Kind {
    fn extension(self) -> &'static [u8] {
        match self {
            Kind::Authority => CA,
            Kind::Last => CA_0,
            Kind::Subscriber => SIGN,
        }
    }
}

/// The next of the numbers that are drawn, below a bound.
fn next(seed: &mut u32, bound: u32) -> u32
    requires { 0 < bound }
    ensures { result < bound }
{
    *seed = seed.wrapping_mul(1_103_515_245).wrapping_add(12_345);
    *seed / 65_536 % bound
}

/// One of three letters.
fn letter(seed: &mut u32) -> u8 {
    match next(seed, 3) {
        0 => b'A',
        1 => b'B',
        _ => b'C',
    }
}

fn draw(seed: &mut u32) -> Drawn {
    let kind = match next(seed, 4) {
        0 => Kind::Subscriber,
        1 => Kind::Last,
        _ => Kind::Authority,
    };
    Drawn {
        issuer: letter(seed),
        subject: letter(seed),
        kind,
    }
}

/// Whether the holder of the first, at this place of a path, issued the second: all of them have one key.
fn has_issued(by: Drawn, of: Drawn, place: usize) -> bool {
    by.subject == of.issuer
        && match by.kind {
            Kind::Authority => true,
            Kind::Last => place < 2,
            Kind::Subscriber => false,
        }
}

/// Whether the list of positions is a path to the anchor, whose letter is A.
fn is_path(drawn: &[Drawn], list: &[u32]) -> bool {
    let mut before = None;
    for (place, position) in list.iter().enumerate() {
        let Some(member) = drawn.get(*position as usize) else {
            return false;
        };
        if let Some(issued) = before {
            if !has_issued(*member, issued, place) {
                return false;
            }
        }
        before = Some(*member);
    }
    match before {
        None => false,
        Some(last) => last.issuer == b'A',
    }
}

/// The list of this length with this number among those of four positions that begin with the target, in the order of lists.
fn list_of(alloc: Global, len: u32, number: u32) -> Result<Vec<u32>, AllocError> {
    let digits = [number / 16 % 4, number / 4 % 4, number % 4];
    let mut list = vec![in alloc; 0u32; 1]?;
    match len {
        1 => {}
        2 => list.extend_from_slice(&digits[2..])?,
        3 => list.extend_from_slice(&digits[1..])?,
        _ => list.extend_from_slice(&digits)?,
    }
    Ok(list)
}

/// The first of all lists that is a path, with the anchor behind it; nothing where there is none. A path over one position twice isn't the
/// shortest, so that lists of four suffice for four certificates.
fn first_path(alloc: Global, drawn: &[Drawn]) -> Result<Vec<u32>, AllocError> {
    for (len, count) in [(1u32, 1u32), (2, 4), (3, 16), (4, 64)] {
        for number in 0..count {
            let mut list = list_of(alloc, len, number)?;
            if is_path(drawn, &list) {
                list.push(0)?;
                return Ok(list);
            }
        }
    }
    Ok(Vec::new(alloc))
}

/// A bag of these, each signed with this key.
fn drawn_bag(alloc: Global, drawn: &[Drawn], key: &Signer) -> Result<Bag, AllocError> {
    let mut bag = Bag::new(alloc);
    for one in drawn {
        let octets = certificate(
            alloc,
            (one.subject, key),
            (one.issuer, key),
            &[one.kind.extension()],
        )?;
        if bag.add(&octets, 0x30).is_err() {
            return Err(AllocError);
        }
    }
    Ok(bag)
}

#[test]
fn drawn_bags(rt: HostRuntime) -> Result<(), Fail> {
    let alloc = rt.alloc();
    let key = make_signer(alloc, 1)?;
    let anchor = certificate(alloc, (b'A', &key), (b'A', &key), &[CA])?;
    let trust = trust_of(alloc, &[&anchor])?;
    let mut seed = 7;
    for round in 0u32..16 {
        let drawn = [
            draw(&mut seed),
            draw(&mut seed),
            draw(&mut seed),
            draw(&mut seed),
        ];
        let bag = drawn_bag(alloc, &drawn, &key)?;
        assert_eq!(rt;
            found(alloc, &trust, &bag, END)?.as_slice(),
            first_path(alloc, &drawn)?.as_slice(),
            "round {round}"
        );
    }
    Ok(())
}

// 16 certificates, each of which issued each, and an anchor of another name.
#[test]
fn a_mesh(rt: HostRuntime) -> Result<(), Fail> {
    let alloc = rt.alloc();
    let key = make_signer(alloc, 1)?;
    let anchor = certificate(alloc, (b'A', &key), (b'A', &key), &[CA])?;
    let trust = trust_of(alloc, &[&anchor])?;
    let every = certificate(alloc, (b'M', &key), (b'M', &key), &[CA])?;
    let mut bag = Bag::new(alloc);
    for _ in 0..16 {
        assert!(rt; bag.add(&every, 0x30).is_ok());
    }
    assert_eq!(rt; found(alloc, &trust, &bag, END)?.len(), 0);
    Ok(())
}
