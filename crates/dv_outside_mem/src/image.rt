//! What a crash may leave of a file.
ghost use Rattle.std.specs.Prelude.{◌≡◌, ◌+◌, ◌≤◌, true, length, IfOk, OnOk};
ghost use Rattle.dv_outside_mem.specs.Replay.{start, step, after, is_within, all_within};
ghost use Rattle.dv_outside_mem.specs.Image.{crash_moment, image_of, picked, IsLastSync};

use crate::made::Made;
use crate::tape::lay;
use std::alloc::{AllocError, Global};

/// What a crash makes of the writes that no sync made sure of.
#[derive(Clone, Copy, Debug, PartialEq, Eq)]
pub enum Pick {
    /// None of them is left.
    Old,
    /// All of them are.
    New,
    /// All of them are, but each octet that they wrote is this one.
    Torn(u8),
}

/// What a pick leaves of a file in a crash during the call of this number.
pub fn image(
    alloc: Global,
    base: &[u8],
    tape: &[u8],
    log: &[Made],
    call: usize,
    pick: Pick,
) -> Result<Vec<u8>, AllocError>
    requires within { all_within (length tape.now) log.now ≡ true }
    requires call { call ≤ length log.now }
    ensures { IfOk result (λ octets. octets.items ≡ image_of base.now tape.now log.now call pick) }
{
    after_crash(alloc, base, tape, &log[..begun(log, call)], pick)
}

// What a pick leaves after these calls.
fn after_crash(
    alloc: Global,
    base: &[u8],
    tape: &[u8],
    log: &[Made],
    pick: Pick,
) -> Result<Vec<u8>, AllocError>
    requires { all_within (length tape.now) log.now ≡ true }
    ensures { IfOk result (λ octets. octets.items ≡ picked pick (after tape.now (start base.now) log.now)) }
{
    let mut file = Vec::new(alloc);
    file.extend_from_slice(base)?;
    let sure = last_sync(log);
    replay(&mut file, tape, &log[..sure])?;
    let later = &log[sure..];
    match pick {
        Pick::Old => Ok(file),
        Pick::New => {
            replay(&mut file, tape, later)?;
            Ok(file)
        }
        Pick::Torn(octet) => {
            let same = vec![in alloc; octet; tape.len()]?;
            replay(&mut file, &same, later)?;
            Ok(file)
        }
    }
}

// How many calls count as made.
fn begun(log: &[Made], call: usize) -> usize
    requires { call ≤ length log.now }
    ensures value { result ≡ crash_moment log.now call }
    ensures within { result ≤ length log.now }
{
    match log.get(call) {
        Some(Made::Write { .. }) => call + 1,
        _ => call,
    }
}

// How many calls there are up to the last sync.
fn last_sync(log: &[Made]) -> usize
    ensures { IsLastSync log.now result }
{
    let mut last = 0;
    for (i, call) in log.iter().enumerate() {
        if let Made::Sync = call {
            last = i + 1;
        }
    }
    last
}

// Makes these calls on a file once more.
fn replay(file: &mut Vec<u8>, tape: &[u8], log: &[Made]) -> Result<(), AllocError>
    requires { all_within (length tape.now) log.now ≡ true }
    ensures { OnOk result (file.new.items ≡ (after tape.now (start file.old.items) log.now).reads) }
{
    for call in log {
        replay_call(file, tape, *call)?;
    }
    Ok(())
}

fn replay_call(file: &mut Vec<u8>, tape: &[u8], call: Made) -> Result<(), AllocError>
    requires { is_within (length tape.now) call ≡ true }
    ensures { OnOk result (file.new.items ≡ (step tape.now (start file.old.items) call).reads) }
{
    if let Made::Write {
        place,
        from,
        done,
        ..
    } = call
    {
        let place = place.min(file.len());
        lay(file, place, &tape[from..from + done])?;
    }
    Ok(())
}
