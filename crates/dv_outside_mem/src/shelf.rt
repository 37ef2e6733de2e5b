//! Files in memory.
ghost use Rattle.std.specs.Prelude.{◌≡◌, ◌≢◌, ◌↔◌, ◌⊎◌, ◌≤◌, Some, None, length, IfOk, IfSome};
ghost use Rattle.dv_outside.specs.Causes.{Rose};
ghost use Rattle.dv_outside.specs.Shelf.{IsLongerThan};
ghost use Rattle.dv_outside_mem.specs.Plan.{Fails, entered, faulted};
ghost use Rattle.dv_outside_mem.specs.MemShelf.{file_in, files_of, plan_of};

use crate::plan::FaultPlan;
use dv_outside::{Shelf, ShelfRefusal};
use std::alloc::Global;
use std::collections::BTreeMap;

/// Files in memory by their names.
#[derive(Drop)]
pub struct MemShelf {
    files: BTreeMap<String, Vec<u8>>,
    plan: FaultPlan,
}

impl MemShelf {
    /// A shelf of these files.
    pub fn new(files: BTreeMap<String, Vec<u8>>, failing: Vec<u64>) -> MemShelf
        ensures files { files_of result ≡ file_in files }
        ensures plan { plan_of result ≡ record { failing = failing.items; calls = 0; faults = 0 } }
    {
        MemShelf {
            files,
            plan: FaultPlan::new(failing),
        }
    }
}

impl Shelf for MemShelf {
    ghost files = { λ s. Some (files_of s) };

    ghost faults = { λ s. (plan_of s).faults };

    fn read(&mut self, alloc: Global, name: &str, limit: u64) -> Result<Vec<u8>, ShelfRefusal>
        // The trait's.
        ensures short { IfOk result (λ octets. length octets.items ≤ limit) }
        ensures octets { IfOk result (λ octets. files_of self.old name.now ≡ Some octets.items) }
        ensures too_long { result ≡ Err ShelfRefusal.TooLong → IsLongerThan limit (files_of self.old name.now) }
        ensures files { files_of self.new ≡ files_of self.old }
        ensures later { (plan_of self.old).faults ≤ (plan_of self.new).faults }
        ensures failed { result ≡ Err ShelfRefusal.Failed → Rose (plan_of self.old).faults (plan_of self.new).faults }

        // Which calls fail, and what is counted.
        ensures fails { (result ≡ Err ShelfRefusal.Failed) ↔ (Fails (plan_of self.old) ⊎ (files_of self.old name.now ≡ None)) }
        ensures faulted { result ≡ Err ShelfRefusal.Failed → plan_of self.new ≡ faulted (entered (plan_of self.old)) }
        ensures entered { result ≢ Err ShelfRefusal.Failed → plan_of self.new ≡ entered (plan_of self.old) }
    {
        if self.plan.enter() {
            self.plan.fault();
            return Err(ShelfRefusal::Failed);
        }
        match self.files.get(name) {
            None => {
                self.plan.fault();
                Err(ShelfRefusal::Failed)
            }
            Some(octets) if octets.len() as u64 > limit => Err(ShelfRefusal::TooLong),
            Some(octets) => octets.to_vec(alloc).map_err(|_| ShelfRefusal::Memory),
        }
    }
}

#[cfg(test)]
mod tests {
    use super::*;
    use std::test::Fail;

    #[test]
    fn finds_files_by_name(rt: HostRuntime) -> Result<(), Fail> {
        let alloc = rt.alloc();
        let mut files = BTreeMap::new(alloc);
        files.insert("a".to_string(alloc)?, b"abc".to_vec(alloc)?)?;
        let mut shelf = MemShelf::new(files, vec![in alloc; 1]?);
        let rows = [
            ("a", 3, None),
            ("a", 3, Some(ShelfRefusal::Failed)),
            ("a", 2, Some(ShelfRefusal::TooLong)),
            ("b", 3, Some(ShelfRefusal::Failed)),
            ("a", 4, None),
        ];
        for (name, limit, refusal) in rows {
            let answer = shelf.read(alloc, name, limit);
            assert_eq!(rt;
                answer.as_ref().err().copied(),
                refusal,
                "at {name} {limit}"
            );
            if let Ok(octets) = answer {
                assert_eq!(rt; octets.as_slice(), b"abc".as_slice());
            }
        }
        Ok(())
    }
}
