//! A register's file and the output in memory.
ghost use Rattle.std.specs.Prelude.{◌≡◌, ◌↔◌, ◌⊎◌, ◌+◌, ◌-◌, ◌/◌, ◌^◌, ◌<◌, ◌≤◌, ◌++◌, [], ℕ, true, IsTrue, length, take, slice_range, Contains, IfOk, OnOk, OnErr, IsErr};
ghost use Rattle.dv_outside.specs.Causes.{HasCause};
ghost use Rattle.dv_outside.specs.Station.{Within, Looks, Syncs, Writes, Puts, Spends};
ghost use Rattle.dv_outside_mem.specs.Plan.{counted};
ghost use Rattle.dv_outside_mem.specs.Over.{over};
ghost use Rattle.dv_outside_mem.specs.Journal.{Fits};

use crate::image::Pick;
use crate::journal::Journal;
use crate::meter::{Meter, Turn};
use dv_outside::{Failed, Station};
use std::alloc::{AllocError, Global};

/// A file and an output in memory. It takes all the memory of its calls when it is made, keeps each call, and can say what a
/// crash during any of them may leave.
///
/// A call takes one moment. It fails exactly where its number is listed or it goes past the room. A write or a put that is
/// listed does the first half of its octets, rounded down; a call past the room does nothing but count its fault.
#[derive(Drop)]
pub struct MemStation {
    journal: Journal,
    meter: Meter,
    faults: u64,
    put_faults: u64,
    ghost fits: { Fits meter.used meter.room journal },
}

impl MemStation {
    ghost use Rattle.dv_outside_mem.specs.MemStation.{content, sent_now, moment_in, image_in, counts, used_of, room_of, failing_of, IsFresh};

    /// A station whose file holds these octets, with room for so many calls and for so many octets that are handed to
    /// `write_at` and `put`.
    pub fn new(
        alloc: Global,
        octets: Vec<u8>,
        failing: Vec<u64>,
        calls: u64,
        written: u64,
    ) -> Result<MemStation, AllocError>
        requires few { calls ≤ 2 ^ 32 }
        requires short { written ≤ 2 ^ 32 }
        ensures fresh { IfOk result (IsFresh octets.items) }
        ensures counts { IfOk result (λ s. ((counts s).faults ≡ 0) × ((counts s).put_faults ≡ 0)) }
        ensures used { IfOk result (λ s. used_of s ≡ record { calls = 0; octets = 0 }) }
        ensures room { IfOk result (λ s. room_of s ≡ record { calls = calls; octets = written }) }
        ensures failing { IfOk result (λ s. failing_of s ≡ failing.items) }
    {
        Ok(MemStation {
            journal: Journal::new(alloc, octets, calls as usize, written as usize)?,
            meter: Meter::new(failing, calls, written),
            faults: 0,
            put_faults: 0,
        })
    }

    /// How many calls were made within the room.
    pub fn calls(&self) -> u64
        ensures moment { result ≡ (content self.now).moment }
        ensures used { Within (used_of self.now) (room_of self.now) → result ≡ (used_of self.now).calls }
    {
        self.journal.calls() as u64
    }

    /// What the file holds.
    pub fn file(&self) -> &[u8]
        ensures { result.now ≡ (content self.now).reads }
    {
        self.journal.file()
    }

    /// What was sent.
    pub fn sent(&self) -> &[u8]
        ensures { result.now ≡ sent_now self.now }
    {
        self.journal.sent()
    }

    /// What a crash during the call of this number may leave of the file. A write of that number counts as made, and a sync
    /// of that number as not yet made; with `calls()` as the number it is the moment after all calls.
    pub fn image(&self, alloc: Global, call: u64, pick: Pick) -> Result<Vec<u8>, AllocError>
        requires { call ≤ (content self.now).moment }
        ensures picked { IfOk result (λ octets. octets.items ≡ image_in self.now call pick) }
        ensures may { IfOk result (λ octets. (content self.now).image (moment_in self.now call) octets.items) }
    {
        self.journal.image(alloc, call as usize, pick)
    }
}

// Counts a fault.
fn fault(faults: &mut u64) -> Failed
    ensures count { faults.new ≡ counted faults.old }
    ensures later { faults.old ≤ faults.new }
{
    *faults = faults.saturating_add(1);
    Failed
}

impl Station for MemStation {
    ghost use Rattle.dv_outside_mem.specs.MemStation.{content, sent_now, counts, used_of, room_of, failing_of, Fails, Serves};
    ghost use Rattle.dv_outside_mem.specs.Reads.{reads_now};

    ghost tells = { λ _. true };

    ghost content = { content };

    ghost counts = { counts };

    ghost reads_is_image = { λ s told. let j = s.journal in reads_now j.base.items j.file.items j.tape.items j.log.items j.stands.reads };

    fn len(&mut self) -> Result<u64, Failed>
        // The trait's.
        ensures length { IfOk result (λ n. n ≡ length (content self.old).reads) }
        ensures content { Looks (content self.old) (content self.new) }
        ensures cause { HasCause (counts self.old).faults (counts self.new).faults result }
        ensures puts { (counts self.new).put_faults ≡ (counts self.old).put_faults }
        ensures spends { Spends 1 0 (counts self.old) (counts self.new) }

        // When it fails, and what it counts.
        ensures fails { IsErr result ↔ Fails self.old self.new }
        ensures serves { Serves 0 self.old self.new }
    {
        match self.meter.enter(0) {
            Turn::Works => {
                self.journal.look();
                Ok(self.journal.file().len() as u64)
            }
            Turn::Fails => {
                self.journal.look();
                Err(fault(&mut self.faults))
            }
            Turn::Past => Err(fault(&mut self.faults)),
        }
    }

    fn read_at(&mut self, place: u64, into: &mut [u8]) -> Result<(), Failed>
        // The trait's.
        requires { place + length into.old ≤ length (content self.old).reads }
        ensures octets { OnOk result
            (into.new ≡ slice_range (content self.old).reads place (place + length into.old)) }
        ensures content { Looks (content self.old) (content self.new) }
        ensures cause { HasCause (counts self.old).faults (counts self.new).faults result }
        ensures puts { (counts self.new).put_faults ≡ (counts self.old).put_faults }
        ensures spends { Spends 1 0 (counts self.old) (counts self.new) }

        // When it fails, and what it counts.
        ensures fails { IsErr result ↔ Fails self.old self.new }
        ensures serves { Serves 0 self.old self.new }
    {
        match self.meter.enter(0) {
            Turn::Works => {
                self.journal.look();
                let place = place as usize;
                into.copy_from_slice(&self.journal.file()[place..place + into.len()]);
                Ok(())
            }
            Turn::Fails => {
                self.journal.look();
                Err(fault(&mut self.faults))
            }
            Turn::Past => Err(fault(&mut self.faults)),
        }
    }

    fn write_at(&mut self, place: u64, bytes: &[u8]) -> Result<(), Failed>
        // The trait's.
        requires end { place + length bytes.now ≤ 2 ^ 40 }
        requires place { place ≤ length (content self.old).reads }
        ensures content { Writes place bytes.now result (content self.old) (content self.new) }
        ensures cause { HasCause (counts self.old).faults (counts self.new).faults result }
        ensures puts { (counts self.new).put_faults ≡ (counts self.old).put_faults }
        ensures spends { Spends 1 (length bytes.now) (counts self.old) (counts self.new) }

        // When it fails, what it does then, and what it counts.
        ensures fails { IsErr result ↔ Fails self.old self.new }
        ensures half { OnErr result (Within (used_of self.new) (room_of self.old) → (content self.new).reads
            ≡ over (content self.old).reads place (take (length bytes.now / 2) bytes.now)) }
        ensures serves { Serves (length bytes.now) self.old self.new }
    {
        match self.meter.enter(bytes.len()) {
            Turn::Works => {
                self.journal.write(place as usize, bytes, bytes.len());
                Ok(())
            }
            Turn::Fails => {
                self.journal.write(place as usize, bytes, bytes.len() / 2);
                Err(fault(&mut self.faults))
            }
            Turn::Past => Err(fault(&mut self.faults)),
        }
    }

    fn sync(&mut self) -> Result<(), Failed>
        // The trait's.
        ensures content { Syncs result (content self.old) (content self.new) }
        ensures cause { HasCause (counts self.old).faults (counts self.new).faults result }
        ensures puts { (counts self.new).put_faults ≡ (counts self.old).put_faults }
        ensures spends { Spends 1 0 (counts self.old) (counts self.new) }

        // When it fails, and what it counts.
        ensures fails { IsErr result ↔ Fails self.old self.new }
        ensures serves { Serves 0 self.old self.new }
    {
        match self.meter.enter(0) {
            Turn::Works => {
                self.journal.sync();
                Ok(())
            }
            Turn::Fails => {
                self.journal.look();
                Err(fault(&mut self.faults))
            }
            Turn::Past => Err(fault(&mut self.faults)),
        }
    }

    fn put(&mut self, bytes: &[u8]) -> Result<(), Failed>
        // The trait's.
        ensures content { Puts bytes.now result (content self.old) (content self.new) }
        ensures cause { HasCause (counts self.old).put_faults (counts self.new).put_faults result }
        ensures faults { (counts self.new).faults ≡ (counts self.old).faults }
        ensures spends { Spends 1 (length bytes.now) (counts self.old) (counts self.new) }

        // When it fails, what it does then, and what it counts.
        ensures fails { IsErr result ↔ Fails self.old self.new }
        ensures half { OnErr result (Within (used_of self.new) (room_of self.old) →
            sent_now self.new ≡ sent_now self.old ++ take (length bytes.now / 2) bytes.now) }
        ensures serves { Serves (length bytes.now) self.old self.new }
    {
        match self.meter.enter(bytes.len()) {
            Turn::Works => {
                self.journal.put(bytes, bytes.len());
                Ok(())
            }
            Turn::Fails => {
                self.journal.put(bytes, bytes.len() / 2);
                Err(fault(&mut self.put_faults))
            }
            Turn::Past => Err(fault(&mut self.put_faults)),
        }
    }
}

#[cfg(test)]
mod tests {
    use super::*;
    use std::test::Fail;

    #[test]
    fn keeps_what_is_put_within_its_room(rt: HostRuntime) -> Result<(), Fail> {
        let alloc = rt.alloc();
        let mut station = MemStation::new(alloc, Vec::new(alloc), vec![in alloc; 1]?, 3, 9)?;
        let rows: [(&[u8], Result<(), Failed>, &[u8], u64); 5] = [
            (b"ab", Ok(()), b"ab", 1),
            (b"cdefg", Err(Failed), b"abcd", 2),
            (b"hi", Ok(()), b"abcdhi", 3),
            (b"", Err(Failed), b"abcdhi", 3),
            (b"", Err(Failed), b"abcdhi", 3),
        ];
        for (piece, answer, sent, calls) in rows {
            assert_eq!(rt; station.put(piece), answer);
            assert_eq!(rt; station.sent(), sent);
            assert_eq!(rt; station.calls(), calls);
        }
        Ok(())
    }

    #[test]
    fn serves_a_file(rt: HostRuntime) -> Result<(), Fail> {
        let alloc = rt.alloc();
        let octets = b"abc".to_vec(alloc)?;
        let mut station = MemStation::new(alloc, octets, vec![in alloc; 2, 4]?, 9, 9)?;
        let mut into = [0; 2];
        assert_eq!(rt; station.len(), Ok(3));
        assert_eq!(rt; station.write_at(2, b"de"), Ok(()));
        assert_eq!(rt; station.sync(), Err(Failed));
        assert_eq!(rt; station.read_at(1, &mut into), Ok(()));
        assert_eq!(rt; into, *b"bd");
        assert_eq!(rt; station.write_at(0, b"ABC"), Err(Failed));
        assert_eq!(rt; station.file(), b"Abde".as_slice());
        assert_eq!(rt; (station.faults, station.put_faults), (2, 0));
        Ok(())
    }

    #[test]
    fn tells_what_a_crash_leaves(rt: HostRuntime) -> Result<(), Fail> {
        let alloc = rt.alloc();
        let octets = b"abcdef".to_vec(alloc)?;
        let mut station = MemStation::new(alloc, octets, vec![in alloc; 4]?, 9, 99)?;
        let _ = station.write_at(2, b"XY");
        let _ = station.sync();
        let _ = station.write_at(5, b"123");
        let _ = station.put(b"out");
        let _ = station.write_at(0, b"QRST");
        let rows: [(u64, [&[u8]; 3]); 6] = [
            (0, [b"abcdef", b"abXYef", b"ab..ef"]),
            (1, [b"abcdef", b"abXYef", b"ab..ef"]),
            (2, [b"abXYef", b"abXYe123", b"abXYe..."]),
            (3, [b"abXYef", b"abXYe123", b"abXYe..."]),
            (4, [b"abXYef", b"QRXYe123", b"..XYe..."]),
            (5, [b"abXYef", b"QRXYe123", b"..XYe..."]),
        ];
        for (call, left) in rows {
            assert!(rt; call <= station.calls());
            for (pick, octets) in [Pick::Old, Pick::New, Pick::Torn(b'.')].iter().zip(left) {
                let image = station.image(alloc, call, *pick)?;
                assert_eq!(rt; image.as_slice(), octets, "{pick:?} at {call}");
            }
        }
        Ok(())
    }
}
