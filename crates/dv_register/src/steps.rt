//! The station calls that write a register.
ghost use Rattle.std.specs.Prelude.{◌≡◌, ◌+◌, ◌^◌, ◌<◌, ◌≤◌, ◌++◌, ◌∷◌, [], length, OnOk, IsTrue};
ghost use Rattle.std.specs.Int.{to_be_bytes, w32};
ghost use Rattle.dv_outside.specs.Causes.{HasCause};
ghost use Rattle.dv_outside.specs.Station.{Holds, Leaves, Spends};
ghost use Rattle.dv_register.specs.Layout.{head_of};
ghost use Rattle.dv_register.specs.Steps.{IsQuiet, SameFront, IsStagedFile, GateOnly, IsGateSet, BeforeOrAfter, IsAppended, IsEmptyRegister};

use dv_outside::{Failed, Station};

/// An open gate.
pub const OPEN: u8 = 0xA5;

/// A gate that is surely closed.
pub const CLOSED: u8 = 0;

/// Adds a record at the closed gate at this place.
pub fn append<V: Station>(
    station: &mut V,
    gate: u64,
    kind: u8,
    contents: &[u8],
) -> Result<(), Failed>
    requires room { gate + length contents.now + 7 ≤ 2 ^ 40 }
    requires short { length contents.now ≤ 1048576 }
    requires quiet { IsTrue (V.tells station.old) → IsQuiet gate (V.content station.old) }

    // In each image of each moment the file's front stands, or the record behind some gate.
    ensures images { IsTrue (V.tells station.old) → Leaves (BeforeOrAfter gate (V.content station.old).reads
        (record { kind = kind; contents = contents.now })) (V.content station.old) (V.content station.new) }
    ensures appended { IsTrue (V.tells station.old) → OnOk result (IsAppended gate (V.content station.old).reads
        (record { kind = kind; contents = contents.now }) (V.content station.new)) }

    ensures tells { V.tells station.new ≡ V.tells station.old }
    ensures cause { HasCause (V.counts station.old).faults (V.counts station.new).faults result }
    ensures puts { (V.counts station.new).put_faults ≡ (V.counts station.old).put_faults }
    ensures spends { Spends 6 (length contents.now + 7) (V.counts station.old) (V.counts station.new) }
{
    stage(station, gate, kind, contents)?;
    set_gate(station, gate, OPEN)
}

// Writes a record and a closed gate behind the closed gate at this place, and syncs them.
fn stage<V: Station>(station: &mut V, gate: u64, kind: u8, contents: &[u8]) -> Result<(), Failed>
    requires room { gate + length contents.now + 7 ≤ 2 ^ 40 }
    requires short { length contents.now ≤ 1048576 }
    requires quiet { IsTrue (V.tells station.old) → IsQuiet gate (V.content station.old) }

    // The file's front stands in each image of each moment.
    ensures images { IsTrue (V.tells station.old) → Leaves (SameFront (gate + 1) (V.content station.old).reads)
        (V.content station.old) (V.content station.new) }
    ensures staged { IsTrue (V.tells station.old) → OnOk result (IsStagedFile gate (V.content station.old).reads
        (record { kind = kind; contents = contents.now }) (V.content station.new)) }

    ensures tells { V.tells station.new ≡ V.tells station.old }
    ensures cause { HasCause (V.counts station.old).faults (V.counts station.new).faults result }
    ensures puts { (V.counts station.new).put_faults ≡ (V.counts station.old).put_faults }
    ensures spends { Spends 4 (length contents.now + 6) (V.counts station.old) (V.counts station.new) }
{
    let head = record_head(kind, contents.len() as u32);
    let end = gate + 6 + contents.len() as u64;
    station.write_at(gate + 1, &head)?;
    station.write_at(gate + 6, contents)?;
    station.write_at(end, &[CLOSED])?;
    station.sync()
}

// The kind and the length of a record.
fn record_head(kind: u8, len: u32) -> [u8; 5]
    ensures { result ≡ kind ∷ to_be_bytes w32 len }
{
    let [a, b, c, d] = len.to_be_bytes();
    [kind, a, b, c, d]
}

/// Writes the octet of a gate, and syncs it.
pub fn set_gate<V: Station>(station: &mut V, gate: u64, octet: u8) -> Result<(), Failed>
    requires room { gate + 1 ≤ 2 ^ 40 }
    requires quiet { IsTrue (V.tells station.old) → IsQuiet gate (V.content station.old) }

    // Nothing but the gate changes in what the file had, where it goes on behind the gate. Nothing is sent.
    ensures images { IsTrue (V.tells station.old) → gate + 1 < length (V.content station.old).reads →
        Leaves (GateOnly gate (V.content station.old).reads) (V.content station.old) (V.content station.new) }
    ensures runs { IsTrue (V.tells station.old) → Leaves (λ b. Unit {0}) (V.content station.old) (V.content station.new) }
    ensures set { IsTrue (V.tells station.old) →
        OnOk result (IsGateSet gate octet (V.content station.old).reads (V.content station.new)) }

    ensures tells { V.tells station.new ≡ V.tells station.old }
    ensures cause { HasCause (V.counts station.old).faults (V.counts station.new).faults result }
    ensures puts { (V.counts station.new).put_faults ≡ (V.counts station.old).put_faults }
    ensures spends { Spends 2 1 (V.counts station.old) (V.counts station.new) }
{
    station.write_at(gate, &[octet])?;
    station.sync()
}

/// Writes an empty register to an empty file, and syncs it.
pub fn write_head<V: Station>(station: &mut V, key: &[u8; 60], first: u64) -> Result<(), Failed>
    requires empty { IsTrue (V.tells station.old) → length (V.content station.old).reads ≡ 0 }
    ensures written { IsTrue (V.tells station.old) →
        OnOk result (IsEmptyRegister (head_of key.now first) (V.content station.new)) }
    ensures runs { IsTrue (V.tells station.old) → Leaves (λ b. Unit {0}) (V.content station.old) (V.content station.new) }
    ensures tells { V.tells station.new ≡ V.tells station.old }
    ensures cause { HasCause (V.counts station.old).faults (V.counts station.new).faults result }
    ensures puts { (V.counts station.new).put_faults ≡ (V.counts station.old).put_faults }
    ensures spends { Spends 2 77 (V.counts station.old) (V.counts station.new) }
{
    station.write_at(0, &empty_register(key, first))?;
    station.sync()
}

// The octets of an empty register.
fn empty_register(key: &[u8; 60], first: u64) -> [u8; 77]
    ensures { result ≡ head_of key.now first ++ 0 ∷ [] }
{
    let mut octets = [0; 77];
    lay(&mut octets, 0, b"DVREG001");
    lay(&mut octets, 8, key);
    lay(&mut octets, 68, &first.to_be_bytes());
    octets
}

// Lays octets over others.
fn lay(octets: &mut [u8; 77], at: usize, from: &[u8])
    requires { at + length from.now ≤ 77 }
    ensures { Holds octets.old at from.now octets.new }
{
    octets[at..at + from.len()].copy_from_slice(from);
}
