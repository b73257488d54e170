//! Worked runs of the coordinator.
mod drawn;
mod plain;

use super::*;
use crate::event::Main;
use crate::queue::is_full_enough;
use std::process::Abort;
use std::test::Fail;

const NOTHING: Actions = Actions {
    pass: None,
    start: None,
    give: None,
    main: Main::Idle,
    ask: false,
};

// The slot is for this, and nothing else is to be done.
fn slot(main: Main) -> Actions {
    Actions { main, ..NOTHING }
}

// The slot is lent to the unit, and a token is to be asked for.
fn lend_and_ask(unit: u32) -> Actions {
    Actions {
        main: Main::Lend(unit),
        ask: true,
        ..NOTHING
    }
}

// The token pays the unit's job, and the next one is generated on the slot.
fn pass_and_generate(byte: u8, unit: u32, next: u32) -> Actions {
    Actions {
        pass: Some((byte, unit)),
        main: Main::Generate(next),
        ..NOTHING
    }
}

// The token is to be given back.
fn give(byte: u8) -> Actions {
    Actions {
        give: Some(byte),
        ..NOTHING
    }
}

// Tells the event, which must be awaited.
fn told(rt: &impl Abort, core: &mut Core, event: Event) -> Actions {
    assert!(rt; core.is_awaited(&event), "{event:?} is not awaited");
    core.next(event)
}

// Tells the events in turn, each of which must be answered so.
fn told_all(rt: &impl Abort, core: &mut Core, run: &[(Event, Actions)]) {
    for (event, want) in run {
        let actions = told(rt, core, *event);
        assert_eq!(rt; actions, *want, "after {event:?}");
    }
}

#[test]
fn no_units(rt: HostRuntime) -> Result<(), Fail> {
    let (core, actions) = Core::new(rt.alloc(), 0, 8, false)?;
    assert_eq!(rt; actions, NOTHING);
    assert!(rt; core.finished());
    assert_eq!(rt; core.journal().len(), 0);
    assert_eq!(rt; core.first_failure(), None);
    Ok(())
}

#[test]
fn one_lane(rt: HostRuntime) -> Result<(), Fail> {
    let (mut core, actions) = Core::new(rt.alloc(), 2, 1, false)?;
    assert_eq!(rt; actions, slot(Main::Generate(0)));
    assert!(rt; !core.is_awaited(&Event::Empty));
    let run = [
        (Event::Generated(0, 5), slot(Main::Lend(0))),
        (Event::Made(0), slot(Main::Generate(1))),
        (Event::Generated(1, 2), slot(Main::Lend(1))),
        (Event::Made(1), NOTHING),
    ];
    told_all(&rt, &mut core, &run);
    assert!(rt; core.finished());
    assert_eq!(rt; core.journal().len(), 4);
    Ok(())
}

#[test]
fn one_token(rt: HostRuntime) -> Result<(), Fail> {
    let (mut core, actions) = Core::new(rt.alloc(), 3, 2, false)?;
    assert_eq!(rt; actions, slot(Main::Generate(0)));
    let run = [
        (Event::Generated(0, 9), lend_and_ask(0)),
        (Event::Took(0x61), pass_and_generate(0x61, 0, 1)),
        (Event::Generated(1, 4), slot(Main::Lend(1))),
        (Event::Made(0), pass_and_generate(0x61, 1, 2)),
        (Event::Generated(2, 7), slot(Main::Lend(2))),
        (Event::Made(1), give(0x61)),
        (Event::Gave(0x61), NOTHING),
        (Event::Made(2), NOTHING),
    ];
    told_all(&rt, &mut core, &run);
    assert!(rt; core.finished());
    assert_eq!(rt; core.first_failure(), None);
    Ok(())
}

#[test]
fn pool_cannot_be_read(rt: HostRuntime) -> Result<(), Fail> {
    let (mut core, actions) = Core::new(rt.alloc(), 3, 2, false)?;
    assert_eq!(rt; actions, slot(Main::Generate(0)));
    let run = [
        (Event::Generated(0, 9), lend_and_ask(0)),
        (Event::TakeFault, NOTHING),
        (Event::Made(0), slot(Main::Generate(1))),
        (Event::Generated(1, 4), slot(Main::Lend(1))),
        (Event::Made(1), slot(Main::Generate(2))),
        (Event::Generated(2, 7), slot(Main::Lend(2))),
        (Event::Made(2), NOTHING),
    ];
    told_all(&rt, &mut core, &run);
    assert!(rt; core.finished());
    Ok(())
}

#[test]
fn no_memory_to_generate(rt: HostRuntime) -> Result<(), Fail> {
    let (mut core, actions) = Core::new(rt.alloc(), 2, 1, false)?;
    assert_eq!(rt; actions, slot(Main::Generate(0)));
    told_all(&rt, &mut core, &[(Event::Wanted(0), NOTHING)]);
    assert!(rt; core.finished());
    assert_eq!(rt; core.first_failure(), Some(0));
    Ok(())
}

// A run of two units in one lane, the first of which is refused.
fn refused_first(
    rt: &impl Abort,
    alloc: Global,
    keep: bool,
    run: &[(Event, Actions)],
) -> Result<(), AllocError> {
    let (mut core, actions) = Core::new(alloc, 2, 1, keep)?;
    assert_eq!(rt; actions, slot(Main::Generate(0)));
    told_all(rt, &mut core, run);
    assert!(rt; core.finished());
    assert_eq!(rt; core.first_failure(), Some(0));
    Ok(())
}

#[test]
fn a_refusal_ends_the_run_unless_it_keeps_going(rt: HostRuntime) -> Result<(), Fail> {
    let ended = [(Event::GenFailed(0), NOTHING)];
    let kept = [
        (Event::GenFailed(0), slot(Main::Generate(1))),
        (Event::Generated(1, 5), slot(Main::Lend(1))),
        (Event::Made(1), NOTHING),
    ];
    refused_first(&rt, rt.alloc(), false, &ended)?;
    refused_first(&rt, rt.alloc(), true, &kept)?;
    Ok(())
}

#[test]
fn a_lesser_unit_fails_later(rt: HostRuntime) -> Result<(), Fail> {
    let (mut core, actions) = Core::new(rt.alloc(), 4, 2, false)?;
    assert_eq!(rt; actions, slot(Main::Generate(0)));
    let run = [
        (Event::Generated(0, 1), lend_and_ask(0)),
        (Event::Took(0x61), pass_and_generate(0x61, 0, 1)),
        (Event::Generated(1, 5), slot(Main::Lend(1))),
        (Event::Made(0), pass_and_generate(0x61, 1, 2)),
        (Event::Generated(2, 3), slot(Main::Lend(2))),
        (Event::Made(2), slot(Main::Generate(3))),
        (Event::GenFailed(3), NOTHING),
        (Event::MakeFailed(1), give(0x61)),
        (Event::Gave(0x61), NOTHING),
    ];
    told_all(&rt, &mut core, &run);
    assert!(rt; core.finished());
    assert_eq!(rt; core.first_failure(), Some(1));
    Ok(())
}

#[test]
fn enough_to_run(rt: HostRuntime) {
    let table = [
        (0, 0, false),
        (1, 0, true),
        (1, 4, true),
        (1, 5, false),
        (1, 8, false),
        (2, 8, true),
        (15, 64, false),
        (16, 64, true),
    ];
    for (queued, running, enough) in table {
        assert_eq!(rt;
            is_full_enough(queued, running),
            enough,
            "{queued} queued, {running} running"
        );
    }
}
