//! Seats at one desk: what each sees of the others' notes, one after another and from two threads.

ghost use Rattle.std.specs.Prelude.{◌≡◌, ◌++◌, ◌∷◌, [], OnOk, OnErr};

use ddc_desk::{Desk, Grows, Seat};
use ddc_names::{NoMemory, Rows};
use std::alloc::Global;
use std::marker::Model;
use std::rt::Clock;
use std::sync::Wait;
use std::test::Fail;
use std::thread::{join, sleep};
use std::time::Duration;

#[derive(Drop)]
struct Notes {
    items: Rows<u64>,
}

impl Model for Notes {
    ghost use Rattle.std.specs.Prelude.{List, ℕ};

    ghost Value = { List ℕ };

    ghost view = { λ notes. notes.items };
}

impl Notes {
    fn new(alloc: Global) -> Notes {
        Notes {
            items: Rows::new(alloc),
        }
    }

    fn note(&mut self, number: u64) -> Result<(), NoMemory>
        ensures ok { OnOk result (self.new ≡ self.old ++ number ∷ []) }
        ensures err { OnErr result (self.new ≡ self.old) }
    {
        self.items.push(number)
    }

    fn has(&self, number: u64) -> bool {
        self.items.as_slice().contains(&number)
    }
}

impl Grows for Notes {
    type Item = u64;

    ghost list = { λ notes. notes };

    fn count(&self) -> u64 {
        self.items.len() as u64
    }
}

// One turn, in which a number is noted.
fn noted<R: Wait>(
    rt: &R,
    desk: &Desk<Notes>,
    seat: Seat<Notes>,
    number: u64,
) -> (Seat<Notes>, Result<(), NoMemory>)
    requires { seat.desk ≡ desk.now }
    ensures { result.0.desk ≡ desk.now }
{
    let mut turn = desk.enter(rt, seat);
    let done = turn.value().note(number);
    (desk.leave(turn), done)
}

// One turn, in which a number is looked for.
fn looked_for<R: Wait>(
    rt: &R,
    desk: &Desk<Notes>,
    seat: Seat<Notes>,
    number: u64,
) -> (Seat<Notes>, bool)
    requires { seat.desk ≡ desk.now }
    ensures { result.0.desk ≡ desk.now }
{
    let mut turn = desk.enter(rt, seat);
    let found = turn.value().has(number);
    (desk.leave(turn), found)
}

// A thousand turns, in each of which a number is noted. Says whether there was memory.
fn noted_often<R: Wait>(
    rt: &R,
    desk: &Desk<Notes>,
    seat: Seat<Notes>,
    number: u64,
) -> (Seat<Notes>, bool)
    requires { seat.desk ≡ desk.now }
    ensures { result.0.desk ≡ desk.now }
{
    let mut seat = seat;
    for _ in 0..1_000 {
        let (next, done) = noted(rt, desk, seat, number);
        seat = next;
        if done.is_err() {
            return (seat, false);
        }
    }
    (seat, true)
}

// Whether a number is noted within 100,000 turns, with a rest after each.
fn seen_within<R: Wait + Clock>(
    rt: &R,
    desk: &Desk<Notes>,
    seat: Seat<Notes>,
    number: u64,
) -> (Seat<Notes>, bool)
    requires { seat.desk ≡ desk.now }
    ensures { result.0.desk ≡ desk.now }
{
    let mut seat = seat;
    for _ in 0..100_000 {
        let (next, found) = looked_for(rt, desk, seat, number);
        seat = next;
        if found {
            return (seat, true);
        }
        sleep(rt, Duration::from_micros(100));
    }
    (seat, false)
}

// Notes a number, waits for the other one, and goes on noting.
fn meets<R: Wait + Clock>(
    rt: &R,
    desk: &Desk<Notes>,
    seat: Seat<Notes>,
    mine: u64,
    other: u64,
) -> (Seat<Notes>, bool)
    requires { seat.desk ≡ desk.now }
    ensures { result.0.desk ≡ desk.now }
{
    let (seat, done) = noted(rt, desk, seat, mine);
    let (seat, found) = seen_within(rt, desk, seat, other);
    let (seat, all) = noted_often(rt, desk, seat, mine);
    (seat, done.is_ok() && found && all)
}

#[test]
fn a_seat_sees_what_was_noted_before_it_was_split(rt: HostRuntime) -> Result<(), Fail> {
    let (desk, first) = Desk::new(rt.alloc(), Notes::new(rt.alloc()))
        .ok()
        .ok_or("memory")?;
    let (mut first, done) = noted(&rt, &desk, first, 61);
    done?;
    let second = desk.split(&mut first)?;
    let (second, found) = looked_for(&rt, &desk, second, 61);
    assert!(rt; found);
    let (second, done) = noted(&rt, &desk, second, 62);
    done?;
    let both = desk.join(first, second);
    let notes = desk.enter(&rt, both).close();
    assert_eq!(rt; notes.count(), 2);
    assert!(rt; notes.has(61) && notes.has(62));
    Ok(())
}

#[test]
fn two_threads_wait_for_each_other(rt: HostRuntime) -> Result<(), Fail> {
    let (desk, mut first) = Desk::new(rt.alloc(), Notes::new(rt.alloc()))
        .ok()
        .ok_or("memory")?;
    let second = desk.split(&mut first)?;
    let shared = &desk;
    let handle = &rt;
    let ((first, met), (second, too)) = join(
        handle,
        move || -> (Seat<Notes>, bool)
            requires { first.desk ≡ shared.now }
            ensures { result.0.desk ≡ shared.entry.now }
        { meets(handle, shared, first, 1, 2) },
        move || -> (Seat<Notes>, bool)
            requires { second.desk ≡ shared.now }
            ensures { result.0.desk ≡ shared.entry.now }
        { meets(handle, shared, second, 2, 1) },
    );
    assert!(rt; met && too);
    let notes = desk.enter(&rt, desk.join(first, second)).close();
    assert_eq!(rt; notes.count(), 2_002);
    Ok(())
}
