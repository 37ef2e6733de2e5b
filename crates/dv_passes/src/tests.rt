//! One history with two passes. What is expected was found by hand.
ghost use Rattle.std.specs.Prelude.{◌≡◌, []};

use super::*;
use std::alloc::Global;
use std::marker::Brand;
use std::test::*;

/// What has no events yet.
struct Fresh;

impl Begins for Fresh {
    ghost use Rattle.std.specs.Prelude.{[]};

    ghost begins = { λ k. [] };
}

/// An addition that tells of a stop.
struct Stops;

impl Adds for Stops {
    ghost use Rattle.dv_passes.specs.declared.view.Event.TheVariants.{Stopped};

    ghost event = { Stopped };
}

// Returns how long the history is after one addition by each of two passes.
fn added_by_two<J: Naming>(unnamed: Unnamed<Fresh>) -> u64
    requires table { unnamed.table ≡ J.table }
    requires start { J.start ≡ [] }
{
    let (history, pass, mut turn) = unnamed.named::<J>();
    let (one, other) = history.split(pass);
    let one = turn.add::<Stops, Fresh>(&history, one);
    let other = turn.show(&history, other);
    let other = turn.add::<Stops, Fresh>(&history, other);
    let both = history.join(one, other);
    both.stands();
    turn.len()
}

#[test]
fn one_history(rt: HostRuntime) -> Result<(), Fail> {
    let alloc: Global = rt.alloc();
    let unnamed = Unnamed::new(alloc, 0, &Fresh).ok().ok_or("memory")?;
    assert_eq!(rt; added_by_two::<Brand>(unnamed), 2);
    Ok(())
}
