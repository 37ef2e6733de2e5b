//! The register itself.
ghost use Rattle.std.specs.Prelude.{◌≡◌, ◌↔◌, ◌⊎◌, ◌+◌, ◌*◌, ◌<◌, ◌≤◌, ◌++◌, ◌∷◌, [], ℕ, List, true, false, length, take, drop, slice_get, Some, vec_len, vec_capacity, IsTrue, OnOk, OnErr, IfOk, IfErr};
ghost use Rattle.dv_outside.specs.Causes.{HasCause, Rose};
ghost use Rattle.dv_outside.specs.Station.{Looks, Leaves, Puts, Spends};
ghost use Rattle.dv_outside.specs.Releases.{Entry};
ghost use Rattle.dv_lms.specs.Height.{leaf_count};
ghost use Rattle.dv_lms.specs.Signed.{public_of};
ghost use Rattle.dv_register.specs.Layout.{BeginsWith, IsKnownKind, SoundFor, Stands, head_of};
ghost use Rattle.dv_register.specs.Opening.{IsCause, KeepsSound};
ghost use Rattle.dv_register.specs.Refusals.{IsFirstSerial, IsNoRegister, IsOtherKey};

use crate::opening::{Records, read_register};
use crate::place::Place;
use crate::refusals::{Contents, Create, Open, Reserve};
use crate::signing_key::{SigningKey, Slot};
use crate::steps::{append, write_head};
use dv_outside::{Failed, Releases, Station};
use std::alloc::{AllocError, Global};
use std::marker::{Model, PhantomData};
use std::snapshot::Snapshot;

/// The register of a key in the file of a station. Record `i` has the serial `first() + i`, and the leaf of that number.
///
/// Where the station tells its content, this holds at every moment since the register was made or opened: whatever octets a
/// crash leaves in the file, they stand for a list that begins with the one at the opening, and under that list `P` allows
/// each piece that was sent.
#[derive(Drop)]
pub struct Register<V: Station, P: Releases> {
    station: V,
    opening: Snapshot<V>,
    key: Snapshot<SigningKey>,
    first: u64,
    limit: u32,
    base: u32,
    gate: u64,
    shut: bool,
    places: Vec<Place>,
    octets: Vec<u8>,
    of: PhantomData<P>,
}

impl<V: Station, P: Releases> Model for Register<V, P> {
    ghost use Rattle.dv_register.specs.State.{State, state_of, IsHeld};

    ghost Value = { State V };

    ghost view = { λ r. state_of r.station r.opening.value r.key.value r.first r.base r.shut r.places r.octets };

    ghost invariant = { λ r. IsHeld V.tells V.content V.counts P.allows
        (state_of r.station r.opening.value r.key.value r.first r.base r.shut r.places r.octets) r.limit r.gate r.places.items r.octets.items };
}

// Keeps a copy of a record, for which there is room.
fn note(places: &mut Vec<Place>, octets: &mut Vec<u8>, kind: u8, contents: &[u8])
    requires place { vec_len places.old < vec_capacity places.old }
    requires octets { vec_len octets.old + length contents.now ≤ vec_capacity octets.old }
    ensures places { places.new.items ≡ places.old.items ++
        (record { kind = kind; from = length octets.old.items; len = length contents.now }) ∷ [] }
    ensures octets { octets.new.items ≡ octets.old.items ++ contents.now }
{
    let place = Place {
        kind,
        from: octets.len(),
        len: contents.len(),
    };
    let _ = places.push(place);
    let _ = octets.extend_from_slice(contents);
}

// A copy of a part of these octets.
fn part_of(alloc: Global, octets: &[u8], from: usize, len: usize) -> Result<Vec<u8>, AllocError>
    requires { from + len ≤ length octets.now }
    ensures { IfOk result (λ part. part.items ≡ take len (drop from octets.now)) }
{
    octets[from..from + len].to_vec(alloc)
}

impl<V: Station, P: Releases> Register<V, P> {
    ghost use Rattle.dv_register.specs.State.{IsKept, IsSameRegister, head_in, limit_in, rule_identity, slot_at, station_left};

    /// The serial of the first record.
    pub fn first(&self) -> u64
        ensures { result ≡ self.now.first }
    {
        self.first
    }

    /// How many records it has. What holds of every register is known after it.
    pub fn len(&self) -> u32
        ensures length { result ≡ length self.now.list }
        ensures kept { IsKept V.tells V.content V.counts P.allows self.now }
    {
        self.places.len() as u32
    }

    /// Whether an earlier reservation met a fault. A register that is shut reserves no more; its station can be opened again.
    pub fn is_shut(&self) -> bool
        ensures { result ≡ self.now.shut }
    {
        self.shut
    }

    /// The slot of the record of this number.
    pub fn slot(&self, index: u32) -> Slot
        requires { index < length self.now.list }
        ensures { result ≡ slot_at self.now index }
    {
        Slot::new(self.first + index as u64, index, &self.key)
    }

    /// The kind and the contents of the record of this number.
    pub fn contents(&mut self, alloc: Global, index: u32) -> Result<(u8, Vec<u8>), Contents>
        requires { index < length self.old.list }
        ensures record { IfOk result (λ r. slice_get self.old.list index ≡ Some
            (record { kind = r.0; contents = r.1.items })) }
        ensures fault { result ≡ Err Contents.Fault → Rose (V.counts self.old.station).faults
            (V.counts self.new.station).faults }

        ensures list { self.new.list ≡ self.old.list }
        ensures shut { self.new.shut ≡ self.old.shut }
        ensures spare { self.new.spare ≡ self.old.spare }
        ensures kept { IsKept V.tells V.content V.counts P.allows self.new }
        ensures same { IsSameRegister self.old self.new }
        ensures looks { IsTrue (V.tells self.old.station) → Looks (V.content self.old.station) (V.content self.new.station) }
        ensures tells { V.tells self.new.station ≡ V.tells self.old.station }
        ensures puts { (V.counts self.new.station).put_faults ≡ (V.counts self.old.station).put_faults }
        ensures spends { Spends 1 0 (V.counts self.old.station) (V.counts self.new.station) }
    {
        let place = self.places[index as usize];
        match part_of(alloc, &self.octets, place.from, place.len) {
            Ok(contents) => Ok((place.kind, contents)),
            Err(_) => Err(Contents::Memory),
        }
    }

    /// Makes room for a record of `len` octets. No call of the station is made.
    pub fn prepare(&mut self, len: usize) -> Result<(), AllocError>
        ensures spare { OnOk result (len < self.new.spare) }
        ensures unchanged { OnErr result (self.new.spare ≡ self.old.spare) }
        ensures station { self.new.station ≡ self.old.station }
        ensures list { self.new.list ≡ self.old.list }
        ensures shut { self.new.shut ≡ self.old.shut }
        ensures same { IsSameRegister self.old self.new }
        ensures kept { IsKept V.tells V.content V.counts P.allows self.new }
    {
        self.octets.reserve(len)?;
        self.places.reserve(1)?;
        Ok(())
    }

    /// Adds a record, to the file first. At `Fault` the register is shut from then on. It takes no memory.
    ///
    /// Where the record was written and the answer is `Fault` all the same, an opening after it may find the record or not.
    pub fn reserve(&mut self, kind: u8, contents: &[u8]) -> Result<Slot, Reserve>
        requires kind { IsKnownKind kind }
        requires short { length contents.now ≤ 1048576 }
        requires spare { length contents.now < self.old.spare }

        ensures reserved { OnOk result (self.new.list ≡ self.old.list ++
            (record { kind = kind; contents = contents.now }) ∷ []) }
        ensures slot { IfOk result (λ slot. slot ≡ slot_at self.old (length self.old.list)) }
        ensures unchanged { OnErr result (self.new.list ≡ self.old.list) }

        ensures shut { (result ≡ Err Reserve.Shut) ↔ (self.old.shut ≡ true) }
        ensures full { (result ≡ Err Reserve.Full) ↔ ((self.old.shut ≡ false) × (length self.old.list ≡ limit_in self.old)) }
        ensures fault { result ≡ Err Reserve.Fault → Rose (V.counts self.old.station).faults
            (V.counts self.new.station).faults }
        ensures shuts { (self.new.shut ≡ true) ↔ ((self.old.shut ≡ true) ⊎ (result ≡ Err Reserve.Fault)) }

        // Each image of each moment in the call is sound for a list that begins with the list at its start.
        ensures images { IsTrue (V.tells self.old.station)
            → Leaves (SoundFor (head_in self.old) (limit_in self.old) self.old.list) (V.content self.old.station)
            (V.content self.new.station) }
        ensures kept { IsKept V.tells V.content V.counts P.allows self.new }
        ensures same { IsSameRegister self.old self.new }
        ensures tells { V.tells self.new.station ≡ V.tells self.old.station }
        ensures puts { (V.counts self.new.station).put_faults ≡ (V.counts self.old.station).put_faults }
        ensures spends { Spends 6 (length contents.now + 7) (V.counts self.old.station) (V.counts self.new.station) }
    {
        if self.shut {
            return Err(Reserve::Shut);
        }
        let index = self.places.len() as u32;
        if index >= self.limit {
            return Err(Reserve::Full);
        }
        if append(&mut self.station, self.gate, kind, contents).is_err() {
            self.shut = true;
            return Err(Reserve::Fault);
        }
        note(&mut self.places, &mut self.octets, kind, contents);
        self.gate += 6 + contents.len() as u64;
        Ok(Slot::new(self.first + index as u64, index, &self.key))
    }

    /// Sends a piece, which the rule allows. It takes no memory.
    pub fn emit(&mut self, octets: &[u8]) -> Result<(), Failed>
        requires allowed { IsTrue (V.tells self.old.station)
            → P.allows (rule_identity self.old.identity) self.old.first self.old.list octets.now }

        ensures cause { HasCause (V.counts self.old.station).put_faults (V.counts self.new.station).put_faults result }
        ensures faults { (V.counts self.new.station).faults ≡ (V.counts self.old.station).faults }
        ensures sent { IsTrue (V.tells self.old.station) → Puts octets.now result (V.content self.old.station)
            (V.content self.new.station) }
        ensures list { self.new.list ≡ self.old.list }
        ensures shut { self.new.shut ≡ self.old.shut }
        ensures spare { self.new.spare ≡ self.old.spare }
        ensures kept { IsKept V.tells V.content V.counts P.allows self.new }
        ensures same { IsSameRegister self.old self.new }
        ensures tells { V.tells self.new.station ≡ V.tells self.old.station }
        ensures spends { Spends 1 (length octets.now) (V.counts self.old.station) (V.counts self.new.station) }
    {
        self.station.put(octets)
    }

    /// The station, and all that is known of it.
    pub fn into_station(self) -> V
        ensures station { result ≡ self.station }
        ensures kept { IsKept V.tells V.content V.counts P.allows self }
    {
        let Register {
            station,
            opening: _,
            key: _,
            first: _,
            limit: _,
            base: _,
            gate: _,
            shut: _,
            places: _,
            octets: _,
            of: _,
        } = self;
        station
    }

    /// Makes a register in an empty file. A refusal hands the station back. It takes no memory.
    ///
    /// What a crash inside the call leaves of an empty file isn't said; nothing was sent then.
    pub fn create(
        alloc: Global,
        station: V,
        key: &SigningKey,
        first: u64,
    ) -> Result<Register<V, P>, (V, Create)>
        requires first { IsFirstSerial first }

        ensures list { IfOk result (λ r. r.list ≡ []) }
        ensures identity { IfOk result (λ r. r.identity ≡ key.now) }
        ensures first { IfOk result (λ r. r.first ≡ first) }
        ensures base { IfOk result (λ r. r.base ≡ 0) }
        ensures shut { IfOk result (λ r. r.shut ≡ false) }
        ensures opening { IfOk result (λ r. r.opening ≡ r.station) }
        ensures kept { IfOk result (IsKept V.tells V.content V.counts P.allows) }

        ensures fault { IfErr result (λ e. e.1 ≡ Create.Fault → Rose (V.counts station).faults (V.counts e.0).faults) }
        ensures not_empty { IsTrue (V.tells station) → IfErr result
            (λ e. e.1 ≡ Create.NotEmpty → 0 < length (V.content station).reads) }
        ensures empty { IsTrue (V.tells station) → OnOk result (length (V.content station).reads ≡ 0) }

        // A file that isn't empty is only looked at.
        ensures looks { IsTrue (V.tells station) → 0 < length (V.content station).reads
            → Looks (V.content station) (V.content (station_left result)) }
        ensures keeps { IsTrue (V.tells station) → 0 < length (V.content station).reads
            → KeepsSound (public_of key.now) (leaf_count key.now.height) (V.content station)
            (V.content (station_left result)) }
        ensures runs { IsTrue (V.tells station) → Leaves (λ b. Unit {0}) (V.content station)
            (V.content (station_left result)) }
        ensures tells { V.tells (station_left result) ≡ V.tells station }
        ensures puts { (V.counts (station_left result)).put_faults ≡ (V.counts station).put_faults }
        ensures spends { Spends 3 77 (V.counts station) (V.counts (station_left result)) }
    {
        let mut station = station;
        match station.len() {
            Ok(0) => {}
            Ok(_) => return Err((station, Create::NotEmpty)),
            Err(_) => return Err((station, Create::Fault)),
        }
        if write_head(&mut station, &key.public(), first).is_err() {
            return Err((station, Create::Fault));
        }
        let opening = Snapshot::of(&station);
        Ok(Register {
            station,
            opening,
            key: Snapshot::of(key),
            first,
            limit: key.height().leaves(),
            base: 0,
            gate: 76,
            shut: false,
            places: Vec::new(alloc),
            octets: Vec::new(alloc),
            of: PhantomData,
        })
    }
    /// Opens the register of this key in the file of a station. A refusal hands the station back.
    ///
    /// It begins with a sync, and a last gate that is neither open nor closed is closed and synced.
    pub fn open(alloc: Global, station: V, key: &SigningKey) -> Result<Register<V, P>, (V, Open)>
        // The list is the one that stands in the file.
        ensures stands { IsTrue (V.tells station) → IfOk result
            (λ r. Stands (V.content station).reads (head_in r) (limit_in r) r.list) }
        ensures identity { IfOk result (λ r. r.identity ≡ key.now) }
        ensures base { IfOk result (λ r. r.base ≡ length r.list) }
        ensures shut { IfOk result (λ r. r.shut ≡ false) }
        ensures opening { IfOk result (λ r. r.opening ≡ r.station) }
        ensures kept { IfOk result (IsKept V.tells V.content V.counts P.allows) }

        // Why it is refused.
        ensures refused { IfErr result (λ e. IsCause (λ place. IsTrue (V.tells station)
            → IsNoRegister (V.content station).reads (public_of key.now) (leaf_count key.now.height) place)
            (IsTrue (V.tells station) → IsOtherKey (V.content station).reads (public_of key.now)) (V.counts station).faults
            (V.counts e.0).faults e.1) }

        // A file that stands for a list is refused by a fault or want of memory alone.
        ensures good { IsTrue (V.tells station) → (first : ℕ) (list : List Entry) → IsFirstSerial first
            → Stands (V.content station).reads (head_of (public_of key.now) first) (leaf_count key.now.height) list
            → IfErr result (λ e. IsCause (λ _. ⊥) ⊥ (V.counts station).faults (V.counts e.0).faults e.1) }

        // Where each image is sound for a list that begins with another, each image of each moment in the call is, whatever
        // it answers, and the list begins with that one.
        ensures keeps { IsTrue (V.tells station) → KeepsSound (public_of key.now) (leaf_count key.now.height)
            (V.content station) (V.content (station_left result)) }
        ensures begins { IsTrue (V.tells station) → (first : ℕ) (list : List Entry)
            → ((b : List ℕ) → (V.content station).image (V.content station).moment b
            → SoundFor (head_of (public_of key.now) first) (leaf_count key.now.height) list b)
            → IfOk result (λ r. BeginsWith r.list list) }
        ensures runs { IsTrue (V.tells station) → Leaves (λ b. Unit {0}) (V.content station)
            (V.content (station_left result)) }
        ensures tells { V.tells (station_left result) ≡ V.tells station }
        ensures puts { (V.counts (station_left result)).put_faults ≡ (V.counts station).put_faults }
        ensures spends { Spends (3 * leaf_count key.now.height + 8) 1 (V.counts station) (V.counts (station_left result)) }
    {
        let mut station = station;
        let limit = key.height().leaves();
        match read_register(alloc, &mut station, &key.public(), limit) {
            Ok((first, records)) => {
                let Records {
                    places,
                    octets,
                    gate,
                } = records;
                let opening = Snapshot::of(&station);
                Ok(Register {
                    station,
                    opening,
                    key: Snapshot::of(key),
                    first,
                    limit,
                    base: places.len() as u32,
                    gate,
                    shut: false,
                    places,
                    octets,
                    of: PhantomData,
                })
            }
            Err(refusal) => Err((station, refusal)),
        }
    }
}
