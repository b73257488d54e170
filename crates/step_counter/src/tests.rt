//! A counter on its way.
ghost use Rattle.std.specs.Prelude.{◌≡◌, ◌<◌};

use crate::Steps;
use std::marker::Brand;
use std::sync::ledger::{Blank, Ledger};
use std::test::*;

// Three steps of one counter.
fn three<L: Ledger>(blank: Blank) -> u64
    requires { (blank.name ≡ L.name) × (blank.parts ≡ L.parts) × (0 < blank.parts) }
    ensures { result ≡ 3 }
{
    let mut steps = Steps::<L>::new(blank);
    steps.tick();
    steps.tick();
    steps.tick();
    steps.taken()
}

#[test]
fn three_steps_are_three(rt: HostRuntime) -> Result<(), Fail> {
    assert_eq!(rt; three::<Brand>(Blank::new(1)), 3);
    Ok(())
}
