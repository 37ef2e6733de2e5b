//! Passes over one history that several workers add to: what each pass has seen of it, and what it added itself.
//!
//! The workers share one word, the length of the history. The history itself is no value of the program: it stands in the contracts
//! alone, as the list of all events so far. A [`Pass`] belongs to one worker at a time and knows a beginning of that list and its own
//! additions with their places; what other workers do never changes what it knows. The one [`Turn`] is what may add: it lies under the
//! lock that guards the register.
#![tactic(auto)]

mod history;
mod rule;
#[cfg(test)]
mod tests;
mod view;

pub use history::{History, Pass, Turn, Unnamed};
pub use rule::{Adds, Begins, HistoryRule, Naming};
pub use view::{Event, View};
