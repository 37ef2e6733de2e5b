//! The reading of a register from its file.
ghost use Rattle.std.specs.Prelude.{◌≡◌, ◌≢◌, ◌+◌, ◌-◌, ◌*◌, ◌^◌, ◌<◌, ◌≤◌, [], min, length, take, drop, OnOk, IfOk, IfErr, IsTrue, List, ℕ};
ghost use Rattle.dv_outside.specs.Causes.{HasCause};
ghost use Rattle.dv_outside.specs.Station.{Looks, Leaves, Spends};
ghost use Rattle.dv_register.specs.Layout.{head_of};
ghost use Rattle.dv_register.specs.Refusals.{BreaksOff, HasMagic, IsFirstSerial, IsNoRecord, IsNoRegister, IsOtherKey};
ghost use Rattle.dv_register.specs.Steps.{IsQuiet, GateOnly, IsGateSet};
ghost use Rattle.dv_register.specs.Opening.{HasAt, IsWhole, BeginsRecord, BreaksAt, IsCause, ReadsOn, IsRead, IsFound, KeepsSound};

use crate::place::Place;
use crate::refusals::Open;
use crate::steps::{CLOSED, OPEN, set_gate};
use dv_outside::{Failed, Station};
use std::alloc::Global;

/// The records of a register in memory, and the place of the gate behind them.
#[derive(Drop)]
pub struct Records {
    pub places: Vec<Place>,
    pub octets: Vec<u8>,
    pub gate: u64,
}

// The kind and the length of a record, by the first five of the octets behind its open gate, or by all of them where they
// are fewer. A refusal is the number of the octet that breaks the layout, counted from the gate.
fn record_head(head: &[u8], behind: u64) -> Result<(u8, u32), u64>
    requires { length head.now ≡ min 5 behind }
    ensures whole { IfOk result (λ found. IsWhole found.0 found.1 behind) }
    ensures begins { IfOk result (λ found. BeginsRecord head.now found.0 found.1) }
    ensures refused { (octets : List ℕ) → length octets ≡ behind → take 5 octets ≡ head.now
        → IfErr result (IsNoRecord octets) }
    ensures near { IfErr result (λ offset. offset ≤ 2) }
{
    if head.is_empty() {
        return Err(0);
    }
    let kind = head[0];
    if kind != 1 && kind != 2 {
        return Err(1);
    }
    if head.len() < 5 {
        return Err(0);
    }
    let len = u32::from_be_bytes([head[1], head[2], head[3], head[4]]);
    if len > 1_048_576 {
        return Err(2);
    }
    if behind <= 5 + len as u64 {
        return Err(0);
    }
    Ok((kind, len))
}

// The octet of the gate at this place.
fn gate_at<V: Station>(station: &mut V, gate: u64) -> Result<u8, Failed>
    requires { IsTrue (V.tells station.old) → gate < length (V.content station.old).reads }
    ensures octet { IsTrue (V.tells station.old) → IfOk result (HasAt (V.content station.old).reads gate) }
    ensures looks { IsTrue (V.tells station.old) → Looks (V.content station.old) (V.content station.new) }
    ensures tells { V.tells station.new ≡ V.tells station.old }
    ensures cause { HasCause (V.counts station.old).faults (V.counts station.new).faults result }
    ensures puts { (V.counts station.new).put_faults ≡ (V.counts station.old).put_faults }
    ensures spends { Spends 1 0 (V.counts station.old) (V.counts station.new) }
{
    let mut octet = [0];
    station.read_at(gate, &mut octet)?;
    Ok(octet[0])
}

// The kind and the length of the record behind the open gate at this place, in a file of this size.
fn record_at<V: Station>(station: &mut V, gate: u64, size: u64) -> Result<(u8, u32), Open>
    requires gate { gate < size }
    requires size { IsTrue (V.tells station.old) → size ≡ length (V.content station.old).reads }
    ensures whole { IfOk result (λ found. IsWhole found.0 found.1 (size - (gate + 1))) }
    ensures begins { IsTrue (V.tells station.old) → IfOk result
        (λ found. BeginsRecord (drop (gate + 1) (V.content station.old).reads) found.0 found.1) }
    ensures refused { IfErr result (IsCause (λ place. IsTrue (V.tells station.old)
        → BreaksAt (V.content station.old).reads gate place) ⊥
        (V.counts station.old).faults (V.counts station.new).faults) }
    ensures looks { IsTrue (V.tells station.old) → Looks (V.content station.old) (V.content station.new) }
    ensures tells { V.tells station.new ≡ V.tells station.old }
    ensures puts { (V.counts station.new).put_faults ≡ (V.counts station.old).put_faults }
    ensures spends { Spends 1 0 (V.counts station.old) (V.counts station.new) }
{
    let behind = size - (gate + 1);
    let mut octets = [0; 5];
    let head = &mut octets[..behind.min(5) as usize];
    station.read_at(gate + 1, head)?;
    match record_head(head, behind) {
        Ok(found) => Ok(found),
        Err(offset) => Err(Open::NotRegister {
            place: gate + offset,
        }),
    }
}

// Adds the octets of the file from this place on to others.
fn read_on<V: Station>(
    station: &mut V,
    place: u64,
    len: usize,
    octets: &mut Vec<u8>,
) -> Result<(), Open>
    requires short { len ≤ 1048576 }
    requires within { IsTrue (V.tells station.old) → place + len ≤ length (V.content station.old).reads }
    ensures read { OnOk result (ReadsOn (IsTrue (V.tells station.old))
        (V.content station.old).reads place len octets.old.items octets.new.items) }
    ensures refused { IfErr result (IsCause (λ _. ⊥) ⊥ (V.counts station.old).faults (V.counts station.new).faults) }
    ensures looks { IsTrue (V.tells station.old) → Looks (V.content station.old) (V.content station.new) }
    ensures tells { V.tells station.new ≡ V.tells station.old }
    ensures puts { (V.counts station.new).put_faults ≡ (V.counts station.old).put_faults }
    ensures spends { Spends 1 0 (V.counts station.old) (V.counts station.new) }
{
    let from = octets.len();
    if octets.resize(from + len, 0).is_err() {
        return Err(Open::Memory);
    }
    station.read_at(place, &mut octets[from..])?;
    Ok(())
}

// Reads the record behind the open gate at the end of these, in a file of this size.
fn read_record<V: Station>(
    station: &mut V,
    size: u64,
    limit: u32,
    records: &mut Records,
) -> Result<(), Open>
    requires gate { records.old.gate < size }
    requires size { IsTrue (V.tells station.old) → size ≡ length (V.content station.old).reads }
    requires open { IsTrue (V.tells station.old) → HasAt (V.content station.old).reads records.old.gate OPEN }
    ensures count { OnOk result (length records.new.places.items ≡ length records.old.places.items + 1) }
    ensures room { OnOk result (length records.new.places.items ≤ limit) }
    ensures gate { OnOk result (records.new.gate < size) }
    ensures read { (head : List ℕ) → IsRead (IsTrue (V.tells station.old))
        (V.content station.old).reads head limit records.old.gate records.old.places.items records.old.octets.items
        → OnOk result (IsRead (IsTrue (V.tells station.old))
        (V.content station.old).reads head limit records.new.gate records.new.places.items records.new.octets.items) }
    ensures refused { (head : List ℕ) → IsRead (IsTrue (V.tells station.old))
        (V.content station.old).reads head limit records.old.gate records.old.places.items records.old.octets.items
        → IfErr result (IsCause (λ place. IsTrue (V.tells station.old)
        → BreaksOff (V.content station.old).reads head limit place) ⊥
        (V.counts station.old).faults (V.counts station.new).faults) }
    ensures looks { IsTrue (V.tells station.old) → Looks (V.content station.old) (V.content station.new) }
    ensures tells { V.tells station.new ≡ V.tells station.old }
    ensures puts { (V.counts station.new).put_faults ≡ (V.counts station.old).put_faults }
    ensures spends { Spends 2 0 (V.counts station.old) (V.counts station.new) }
{
    let (kind, len) = record_at(station, records.gate, size)?;
    if records.places.len() >= limit as usize {
        return Err(Open::NotRegister {
            place: records.gate,
        });
    }
    let place = Place {
        kind,
        from: records.octets.len(),
        len: len as usize,
    };
    read_on(station, records.gate + 6, len as usize, &mut records.octets)?;
    if records.places.push(place).is_err() {
        return Err(Open::Memory);
    }
    records.gate += 6 + len as u64;
    Ok(())
}

// Reads the records of a file of this size from the gate behind the head on. The octet is that of the last gate.
fn read_records<V: Station>(
    alloc: Global,
    station: &mut V,
    size: u64,
    limit: u32,
) -> Result<(Records, u8), Open>
    requires head { 77 ≤ size }
    requires size { IsTrue (V.tells station.old) → size ≡ length (V.content station.old).reads }
    ensures read { (head : List ℕ) → length head ≡ 76 → (IsTrue (V.tells station.old)
        → take 76 (V.content station.old).reads ≡ head)
        → IfOk result (λ r. IsRead (IsTrue (V.tells station.old))
        (V.content station.old).reads head limit r.0.gate r.0.places.items r.0.octets.items) }
    ensures within { IfOk result (λ r. r.0.gate < size) }
    ensures closed { IfOk result (λ r. r.1 ≢ OPEN) }
    ensures gate { IsTrue (V.tells station.old) → IfOk result (λ r. HasAt (V.content station.old).reads r.0.gate r.1) }
    ensures refused { (head : List ℕ) → length head ≡ 76 →
        (IsTrue (V.tells station.old) → take 76 (V.content station.old).reads ≡ head)
        → IfErr result (IsCause (λ place. IsTrue (V.tells station.old)
        → BreaksOff (V.content station.old).reads head limit place) ⊥
        (V.counts station.old).faults (V.counts station.new).faults) }
    ensures looks { IsTrue (V.tells station.old) → Looks (V.content station.old) (V.content station.new) }
    ensures tells { V.tells station.new ≡ V.tells station.old }
    ensures puts { (V.counts station.new).put_faults ≡ (V.counts station.old).put_faults }
    ensures spends { Spends (3 * limit + 3) 0 (V.counts station.old) (V.counts station.new) }
{
    let mut records = Records {
        places: Vec::new(alloc),
        octets: Vec::new(alloc),
        gate: 76,
    };
    let mut octet = gate_at(station, 76)?;
    while octet == OPEN {
        read_record(station, size, limit, &mut records)?;
        octet = gate_at(station, records.gate)?;
    }
    Ok((records, octet))
}

// The serial of the first record, by the head of a register of this key.
fn first_serial(head: &[u8; 76], key: &[u8; 60]) -> Result<u64, Open>
    ensures serial { IfOk result IsFirstSerial }
    ensures head { IfOk result (λ first. head.now ≡ head_of key.now first) }
    ensures refused { (octets : List ℕ) → 77 ≤ length octets → take 76 octets ≡ head.now → (limit before now : ℕ)
        → IfErr result (IsCause (IsNoRegister octets key.now limit) (IsOtherKey octets key.now) before now) }
{
    if &head[..8] != b"DVREG001".as_slice() {
        return Err(Open::NotRegister { place: 0 });
    }
    if &head[8..68] != key.as_slice() {
        return Err(Open::OtherKey);
    }
    let mut serial = [0; 8];
    serial.copy_from_slice(&head[68..]);
    let first = u64::from_be_bytes(serial);
    if first == 0 || first > 1 << 62 {
        return Err(Open::NotRegister { place: 68 });
    }
    Ok(first)
}

// The serial of the first record of a register of this key, in a file of this size.
fn first_at<V: Station>(station: &mut V, size: u64, key: &[u8; 60]) -> Result<u64, Open>
    requires { IsTrue (V.tells station.old) → size ≡ length (V.content station.old).reads }
    ensures serial { IfOk result IsFirstSerial }
    ensures long { OnOk result (77 ≤ size) }
    ensures head { IsTrue (V.tells station.old) → IfOk result
        (λ first. take 76 (V.content station.old).reads ≡ head_of key.now first) }
    ensures refused { (limit : ℕ) → IfErr result (IsCause
        (λ place. IsTrue (V.tells station.old) → IsNoRegister (V.content station.old).reads key.now limit place)
        (IsTrue (V.tells station.old) → IsOtherKey (V.content station.old).reads key.now) (V.counts station.old).faults
        (V.counts station.new).faults) }
    ensures looks { IsTrue (V.tells station.old) → Looks (V.content station.old) (V.content station.new) }
    ensures tells { V.tells station.new ≡ V.tells station.old }
    ensures puts { (V.counts station.new).put_faults ≡ (V.counts station.old).put_faults }
    ensures spends { Spends 1 0 (V.counts station.old) (V.counts station.new) }
{
    if size < 77 {
        return Err(Open::NotRegister { place: 0 });
    }
    let mut head = [0; 76];
    station.read_at(0, &mut head)?;
    first_serial(&head, key)
}

// Makes sure of the file, and tells its size.
fn sure_size<V: Station>(station: &mut V) -> Result<u64, Failed>
    ensures size { IsTrue (V.tells station.old) → IfOk result (λ n. n ≡ length (V.content station.old).reads) }
    ensures durable { IsTrue (V.tells station.old) → OnOk result
        ((b : List ℕ) → (V.content station.new).image (V.content station.new).moment b → b ≡ (V.content station.new).reads) }
    ensures looks { IsTrue (V.tells station.old) → Looks (V.content station.old) (V.content station.new) }
    ensures tells { V.tells station.new ≡ V.tells station.old }
    ensures cause { HasCause (V.counts station.old).faults (V.counts station.new).faults result }
    ensures puts { (V.counts station.new).put_faults ≡ (V.counts station.old).put_faults }
    ensures spends { Spends 2 0 (V.counts station.old) (V.counts station.new) }
{
    station.sync()?;
    station.len()
}

// Closes the gate at this place, which has this octet, where it isn't surely closed.
fn close<V: Station>(station: &mut V, gate: u64, octet: u8) -> Result<(), Failed>
    requires room { gate + 1 ≤ 2 ^ 40 }
    requires quiet { IsTrue (V.tells station.old) → IsQuiet gate (V.content station.old) }
    requires octet { IsTrue (V.tells station.old) → HasAt (V.content station.old).reads gate octet }
    ensures closed { IsTrue (V.tells station.old) → OnOk result
        (IsGateSet gate CLOSED (V.content station.old).reads (V.content station.new)) }
    ensures images { IsTrue (V.tells station.old) → gate + 1 < length (V.content station.old).reads →
        Leaves (GateOnly gate (V.content station.old).reads) (V.content station.old) (V.content station.new) }
    ensures looks { octet ≡ CLOSED → IsTrue (V.tells station.old) → Looks (V.content station.old) (V.content station.new) }
    ensures runs { IsTrue (V.tells station.old) → Leaves (λ b. Unit {0}) (V.content station.old) (V.content station.new) }
    ensures tells { V.tells station.new ≡ V.tells station.old }
    ensures cause { HasCause (V.counts station.old).faults (V.counts station.new).faults result }
    ensures puts { (V.counts station.new).put_faults ≡ (V.counts station.old).put_faults }
    ensures spends { Spends 2 1 (V.counts station.old) (V.counts station.new) }
{
    if octet == CLOSED {
        return Ok(());
    }
    set_gate(station, gate, CLOSED)
}

// Makes sure of a file, and finds the records of a register of this key in it. The octet is that of the last gate.
fn find_records<V: Station>(
    alloc: Global,
    station: &mut V,
    key: &[u8; 60],
    limit: u32,
) -> Result<(u64, Records, u8), Open>
    ensures serial { IfOk result (λ r. IsFirstSerial r.0) }
    ensures read { IfOk result (λ r. IsRead (IsTrue (V.tells station.old)) (V.content station.old).reads
        (head_of key.now r.0) limit r.1.gate r.1.places.items r.1.octets.items) }
    ensures closed { IfOk result (λ r. r.2 ≢ OPEN) }
    ensures gate { IsTrue (V.tells station.old) → IfOk result (λ r. HasAt (V.content station.old).reads r.1.gate r.2) }
    ensures within { IsTrue (V.tells station.old) → IfOk result (λ r. r.1.gate < length (V.content station.old).reads) }
    ensures durable { IsTrue (V.tells station.old) → OnOk result
        ((b : List ℕ) → (V.content station.new).image (V.content station.new).moment b → b ≡ (V.content station.new).reads) }
    ensures refused { IfErr result (IsCause (λ place. IsTrue (V.tells station.old)
        → IsNoRegister (V.content station.old).reads key.now limit place)
        (IsTrue (V.tells station.old) → IsOtherKey (V.content station.old).reads key.now) (V.counts station.old).faults
        (V.counts station.new).faults) }
    ensures looks { IsTrue (V.tells station.old) → Looks (V.content station.old) (V.content station.new) }
    ensures tells { V.tells station.new ≡ V.tells station.old }
    ensures puts { (V.counts station.new).put_faults ≡ (V.counts station.old).put_faults }
    ensures spends { Spends (3 * limit + 6) 0 (V.counts station.old) (V.counts station.new) }
{
    let size = sure_size(station)?;
    let first = first_at(station, size, key)?;
    let (records, octet) = read_records(alloc, station, size, limit)?;
    Ok((first, records, octet))
}

/// Reads a register of this key from the file of a station: the serial of its first record, and its records. It begins with a
/// sync, and closes a last gate that isn't surely closed.
pub fn read_register<V: Station>(
    alloc: Global,
    station: &mut V,
    key: &[u8; 60],
    limit: u32,
) -> Result<(u64, Records), Open>
    requires { limit ≤ 1024 }
    ensures found { IfOk result (λ r. IsFound (IsTrue (V.tells station.old))
        (V.content station.old).reads key.now limit r.0 r.1.gate r.1.places.items r.1.octets.items (V.content station.new)) }
    ensures refused { IfErr result (IsCause (λ place. IsTrue (V.tells station.old)
        → IsNoRegister (V.content station.old).reads key.now limit place)
        (IsTrue (V.tells station.old) → IsOtherKey (V.content station.old).reads key.now) (V.counts station.old).faults
        (V.counts station.new).faults) }
    ensures keeps { IsTrue (V.tells station.old) → KeepsSound key.now limit (V.content station.old) (V.content station.new) }
    ensures runs { IsTrue (V.tells station.old) → Leaves (λ b. Unit {0}) (V.content station.old) (V.content station.new) }
    ensures tells { V.tells station.new ≡ V.tells station.old }
    ensures puts { (V.counts station.new).put_faults ≡ (V.counts station.old).put_faults }
    ensures spends { Spends (3 * limit + 8) 1 (V.counts station.old) (V.counts station.new) }
{
    let (first, records, octet) = find_records(alloc, station, key, limit)?;
    close(station, records.gate, octet)?;
    Ok((first, records))
}
