//! The worked rounds, and two threads on one word. The clauses say what each call does; here each
//! call is made once on its way through, with ample memory.
ghost use Rattle.std.specs.Prelude.{◌≡◌, ◌+◌};

use crate::{Busy, Desk, Lease, Leases, Reading};
use std::snapshot::Snapshot;
use std::test::*;
use std::thread;
use std::thread::Promise;

const TURNS: u32 = 2_000;

#[test]
fn two_leases_on_one_token(rt: HostRuntime) -> Result<(), Fail> {
    let mut desk = Leases::new(rt.alloc())?;
    desk.took();
    let first = desk.lend();
    let (first, reading) = first.begin();
    assert_eq!(rt;
        reading,
        Reading {
            held: 1,
            running: 1
        }
    );
    let second = desk.lend();
    let (second, reading) = second.begin();
    assert_eq!(rt;
        reading,
        Reading {
            held: 1,
            running: 2
        }
    );
    desk.spend(first.end());
    desk.spend(second.end());
    assert_eq!(rt; (desk.held(), desk.share()), (1, 2));
    desk.gave();
    desk.close();
    Ok(())
}

#[test]
fn a_lease_keeps_its_job_and_may_be_lent_for_it_again(rt: HostRuntime) -> Result<(), Fail> {
    let mut desk = Leases::new(rt.alloc())?;
    let lease = desk.lend_for(3);
    assert_eq!(rt; lease.job(), Some(3));
    assert_eq!(rt; desk.share(), 0);
    let (busy, reading) = lease.begin();
    assert_eq!(rt;
        reading,
        Reading {
            held: 0,
            running: 1
        }
    );
    let lease = busy.end();
    assert_eq!(rt; lease.job(), Some(3));
    desk.spend(lease);
    let again = desk.lend_for(3);
    desk.spend(again);
    let plain = desk.lend();
    assert_eq!(rt; plain.job(), None);
    desk.spend(plain);
    desk.close();
    Ok(())
}

#[test]
fn a_lease_begins_twice(rt: HostRuntime) -> Result<(), Fail> {
    let mut desk = Leases::new(rt.alloc())?;
    let (busy, _) = desk.lend_for(8).begin();
    desk.took();
    let (busy, reading) = busy.end().begin();
    assert_eq!(rt;
        reading,
        Reading {
            held: 1,
            running: 1
        }
    );
    desk.spend(busy.end());
    desk.gave();
    desk.close();
    Ok(())
}

#[test]
fn a_second_session_at_one_desk(rt: HostRuntime) -> Result<(), Fail> {
    let mut desk = Leases::new(rt.alloc())?;
    desk.took();
    let (busy, _) = desk.lend_for(5).begin();
    desk.spend(busy.end());
    desk.gave();
    assert_eq!(rt;
        round_at_rest(&mut desk, 5),
        Reading {
            held: 0,
            running: 1
        }
    );
    desk.close();
    Ok(())
}

#[test]
fn every_token_is_taken_and_given(rt: HostRuntime) -> Result<(), Fail> {
    let mut desk = Leases::new(rt.alloc())?;
    fill(&mut desk);
    assert_eq!(rt; (desk.held(), desk.share()), (63, 64));
    drain(&mut desk);
    assert_eq!(rt; (desk.held(), desk.share()), (0, 1));
    desk.close();
    Ok(())
}

#[test]
fn a_mark_outlives_its_desk(rt: HostRuntime) -> Result<(), Fail> {
    let desk = Leases::new(rt.alloc())?;
    let mark = desk.mark();
    desk.close();
    drop(mark?);
    Ok(())
}

#[test]
fn a_busy_lease_alone(rt: HostRuntime) -> Result<(), Fail> {
    Busy::alone(rt.alloc())?.leave();
    Ok(())
}

// One job at a desk that has all its shares and holds nothing, whatever was done at it before. Its
// share tells that no job is out, and what it holds bounds the reading.
fn round_at_rest(desk: &mut Desk, job: u32) -> Reading
    requires { (desk.old.held ≡ 0) × (desk.old.share ≡ 1) }
    ensures desk { (desk.new.held ≡ 0) × (desk.new.share ≡ 1) × (desk.new.table ≡ desk.old.table) }
    ensures reading { (result.held ≡ 0) × (result.running ≡ 1) }
{
    desk.share();
    let (busy, reading) = desk.lend_for(job).begin();
    desk.spend(busy.end());
    reading
}

// Takes every token that a desk can hold.
fn fill(desk: &mut Desk)
    requires { desk.old.held ≡ 0 }
    ensures { (desk.new.held ≡ 63) × (desk.new.share ≡ desk.old.share + 63) }
{
    for count in 0..63u8 {
        desk.took();
    }
}

// Gives every token back.
fn drain(desk: &mut Desk)
    requires { (desk.old.held ≡ 63) × (desk.old.share ≡ 64) }
    ensures { (desk.new.held ≡ 0) × (desk.new.share ≡ 1) }
{
    for count in 0..63u8 {
        desk.gave();
    }
}

// Whether a word is one that the rule allows where at most one token is held.
fn is_within(reading: Reading) -> bool {
    reading.running >= 1 && reading.held <= 1 && reading.running <= reading.held.saturating_add(1)
}

// Begins and ends, over and over, beside a desk that another thread has.
fn begin_and_end(mut lease: Lease) -> (Lease, bool)
    ensures { result.0.table ≡ lease.table }
{
    let mut within = true;
    for _ in 0..TURNS {
        let (busy, reading) = lease.begin();
        within &= is_within(reading);
        lease = busy.end();
    }
    (lease, within)
}

// One round of a token and its job, over and over, while another thread has the desk's own share.
fn take_and_give(desk: &mut Desk) -> bool
    requires { (desk.old.held ≡ 0) × (desk.old.share ≡ 0) }
    ensures { (desk.new.held ≡ 0) × (desk.new.share ≡ 0) × (desk.new.table ≡ desk.old.table) }
{
    let mut within = true;
    for _ in 0..TURNS {
        desk.took();
        let (busy, reading) = desk.lend().begin();
        within &= is_within(reading);
        desk.spend(busy.end());
        desk.gave();
    }
    within
}

// The other thread's lease comes back of the same table.
#[derive(Drop)]
struct SameTable(Snapshot<Lease>);

impl Promise<(Lease, bool)> for SameTable {
    ghost kept_by = { λ promise result. result.0.table ≡ promise.0.value.table };
}

#[test]
fn two_threads_on_one_word(rt: HostRuntime) -> Result<(), Fail> {
    let mut desk = Leases::new(rt.alloc())?;
    let lease = desk.lend();
    let promise = SameTable(Snapshot::of(&lease));
    match thread::spawn_with(&rt, promise, move || begin_and_end(lease)) {
        Ok(child) => {
            let desk_within = take_and_give(&mut desk);
            let (lease, lease_within) = child.join(&rt);
            desk.spend(lease);
            assert!(rt; lease_within && desk_within);
        }
        Err(refused) => {
            let (lease, _) = (refused.value)();
            desk.spend(lease);
        }
    }
    assert_eq!(rt; (desk.held(), desk.share()), (0, 1));
    desk.close();
    Ok(())
}
