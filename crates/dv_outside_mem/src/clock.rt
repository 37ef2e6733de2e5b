//! Moments in memory.
ghost use Rattle.std.specs.Prelude.{◌≡◌, ◌↔◌, ◌<◌, ◌≤◌, ◌^◌, ◌-◌, [], Some, is_some, length, IfOk, IsErr};
ghost use Rattle.dv_outside.specs.Causes.{HasCause};
ghost use Rattle.dv_outside.specs.Clock.{Tells};
ghost use Rattle.dv_outside_mem.specs.Plan.{Fails};
ghost use Rattle.dv_outside_mem.specs.Clock.{ClockState, answer_at, first_answers, after_call};

use crate::plan::FaultPlan;
use dv_outside::{Clock, Failed};
use std::marker::Model;

/// A clock that answers listed moments, and then the last one for good. Contracts see the moments, how many answers were
/// given, and which calls fail.
#[derive(Drop)]
pub struct MemClock {
    answers: Vec<u64>,
    given: u64,
    plan: FaultPlan,
}

impl Model for MemClock {
    ghost Value = { ClockState };

    ghost view = { λ s. record { answers = s.answers.items; given = s.given; plan = s.plan } };

    ghost invariant = { λ s. (0 < length s.answers.items) × (s.given ≤ s.plan.calls) };
}

impl MemClock {
    /// A clock of these moments, in seconds since 1970-01-01T00:00:00Z. A call that fails uses none of them.
    pub fn new(answers: Vec<u64>, failing: Vec<u64>) -> MemClock
        requires { 0 < length answers.items }
        ensures { result ≡ record { answers = answers.items; given = 0; plan = record { failing = failing.items; calls = 0; faults = 0 } } }
    {
        MemClock {
            answers,
            given: 0,
            plan: FaultPlan::new(failing),
        }
    }
}

// The answer of this number, or the last one.
fn answer(answers: &[u64], number: u64) -> u64
    requires { 0 < length answers.now }
    ensures { result ≡ answer_at answers.now number }
{
    let last = answers.len() - 1;
    match usize::try_from(number) {
        Ok(number) => answers[number.min(last)],
        Err(_) => answers[last],
    }
}

impl Clock for MemClock {
    ghost told = { λ s. Some (first_answers s.answers s.given) };

    ghost faults = { λ s. s.plan.faults };

    fn now(&mut self) -> Result<u64, Failed>
        // The trait's.
        ensures content { Tells (Some (first_answers self.old.answers self.old.given)) (Some (first_answers self.new.answers self.new.given)) result }
        ensures cause { HasCause self.old.plan.faults self.new.plan.faults result }

        // Which calls fail, and which moment comes.
        ensures fails { IsErr result ↔ Fails self.old.plan }
        ensures answer { IfOk result (λ moment. moment ≡ answer_at self.old.answers self.old.given) }
        ensures after { self.new ≡ after_call self.old result }
    {
        if self.plan.enter() {
            self.plan.fault();
            return Err(Failed);
        }
        let moment = answer(&self.answers, self.given);
        self.given += 1;
        Ok(moment)
    }
}

#[cfg(test)]
mod tests {
    use super::*;
    use std::test::Fail;

    #[test]
    fn repeats_its_last_answer(rt: HostRuntime) -> Result<(), Fail> {
        let alloc = rt.alloc();
        let mut clock = MemClock::new(vec![in alloc; 7, 5]?, vec![in alloc; 0, 3]?);
        for answer in [Err(Failed), Ok(7), Ok(5), Err(Failed), Ok(5), Ok(5)] {
            assert_eq!(rt; clock.now(), answer);
        }
        Ok(())
    }
}
