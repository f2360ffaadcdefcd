//! The desk, its seats and its turns.

ghost use Rattle.std.specs.Prelude.{◌≡◌, ◌<◌, ◌-◌, ◌^◌, [], ◌∷◌, Some, None, IfOk, IfErr, IsOk};
ghost use mathlib.Core.List.{IsPrefix};
ghost use Rattle.ddc_desk.specs.Fronts.{longer};
ghost use Rattle.ddc_desk.specs.inside.Steps.{idle, waiting, inside};

use crate::bells::Bells;
use crate::grows::Grows;
use crate::rule::{Compare, Draw, Known, Look, Rule, SameFront, Serve, SideBySide};
use atomic_table::{Refused, Seat as Token, Table};
use ddc_names::NoMemory;
use std::alloc::{AllocFailed, Global};
use std::marker::Model;
use std::snapshot::Snapshot;
use std::sync::Wait;

type Board<T> = Table<Option<T>, Known<<T as Grows>::Item>, Snapshot<T>, Rule<T>, Global>;

/// A value that threads use one at a time, in the order in which they came. Contracts see which desk it is.
#[derive(Drop)]
pub struct Desk<T: Grows> {
    board: Board<T>,
    bells: Bells,
}

impl<T: Grows> Model for Desk<T> {
    ghost use Rattle.std.specs.Prelude.{◌≡◌};
    ghost use Rattle.atomic_table.specs.Seated.{TableId, table_id_coded};

    ghost Value = { TableId };

    ghost coded = { table_id_coded };

    ghost view = { λ desk. desk.board.shared.table_id };

    ghost invariant = { λ desk. (desk.board.shared.table_id.words ≡ 2) × (desk.board.shared.table_id.slots ≡ 1) };
}

/// What a thread has seen of the value. It has no bytes. Contracts see which desk it is of, and the front of the value's
/// list that was seen.
#[derive(Drop)]
pub struct Seat<T: Grows> {
    token: Token<Option<T>, Known<<T as Grows>::Item>>,
}

impl<T: Grows> Model for Seat<T> {
    ghost use Rattle.std.specs.Prelude.{◌≡◌, []};
    ghost use Rattle.ddc_desk.specs.Fronts.{Seated, coded_seated};
    ghost use Rattle.ddc_desk.specs.inside.Steps.{idle};

    ghost Value = { Seated T.Item };

    ghost coded = { coded_seated T.Item.code };

    ghost view = { λ seat. record { desk = seat.token.table_id; front = seat.token.me.0.front } };

    ghost invariant = { λ seat. seat.token.me ≡ (idle seat.token.me.0.front, []) };
}

/// The value, for as long as nobody else has it. It is left or closed, and can't be dropped.
pub struct Turn<T: Grows> {
    pub(crate) value: T,
    pub(crate) begun: Begun<T>,
}

/// How a turn began: its desk, its ticket, and the value's list then.
#[derive(Drop)]
pub struct Begun<T: Grows> {
    ticket: u64,
    token: Token<Option<T>, Known<<T as Grows>::Item>>,
}

impl<T: Grows> Model for Begun<T> {
    ghost use Rattle.std.specs.Prelude.{◌≡◌, ◌<◌, ◌-◌, ◌^◌, [], ◌∷◌, None};
    ghost use Rattle.ddc_desk.specs.Fronts.{Entered, coded_entered};
    ghost use Rattle.ddc_desk.specs.inside.Steps.{inside};

    ghost Value = { Entered T.Item };

    ghost coded = { coded_entered T.Item.code };

    ghost view = { λ begun. record { desk = begun.token.table_id; ticket = begun.ticket; front = begun.token.me.0.front } };

    ghost invariant = { λ begun. (begun.token.me ≡ (inside begun.ticket begun.token.me.0.front, (0, None) ∷ [])) × (begun.ticket < 2 ^ 64 - 1) };
}

impl<T: Grows> Desk<T> {
    /// A desk with a value, and the first seat, which has seen all of its list.
    ///
    /// # Errors
    ///
    /// Gives the value back where there is no memory.
    pub fn new(alloc: Global, value: T) -> Result<(Desk<T>, Seat<T>), T>
        ensures made { IfOk result (λ made. (made.1.desk ≡ made.0) × (made.1.front ≡ T.list value)) }
        ensures back { IfErr result (λ back. back ≡ value) }
    {
        let about = Snapshot::of(&value);
        let mut slots = Vec::new(alloc);
        if let Err(AllocFailed { value: back }) = slots.push(Some(value)) {
            slots.destroy_empty();
            return match back {
                Some(value) => Err(value),
                None => unreachable!(),
            };
        }
        match Table::new(alloc, &[0, 0], slots, &about) {
            Ok((board, token)) => Ok((
                Desk {
                    board,
                    bells: Bells::new(),
                },
                Seat { token },
            )),
            Err(Refused { mut slots }) => match slots.pop() {
                Some(Some(value)) => {
                    slots.destroy_empty();
                    Err(value)
                }
                _ => unreachable!(),
            },
        }
    }

    /// A second seat, which has seen as much as this one. It takes no memory, so it is always there.
    pub fn split(&self, seat: &mut Seat<T>) -> Result<Seat<T>, NoMemory>
        requires own { seat.old.desk ≡ self.now }
        ensures there { IsOk result }
        ensures second { IfOk result (λ second. second ≡ seat.old) }
        ensures same { seat.new ≡ seat.old }
    {
        let token = self.board.shared.split_seat::<SameFront>(&mut seat.token);
        Ok(Seat { token })
    }

    /// One seat in place of two, which has seen what both have.
    pub fn join(&self, seat: Seat<T>, other: Seat<T>) -> Seat<T>
        requires own { (seat.desk ≡ self.now) × (other.desk ≡ self.now) }
        ensures own { result.desk ≡ self.now }
        ensures longer { result.front ≡ longer seat.front other.front }
        ensures first { IsPrefix seat.front result.front }
        ensures second { IsPrefix other.front result.front }
    {
        let Seat { mut token } = seat;
        let Seat { token: second } = other;
        self.board
            .shared
            .join_seat::<SideBySide>(&mut token, second);
        self.board.shared.load::<Compare>(&mut token, 0);
        Seat { token }
    }

    /// Waits until all who came before have left, and takes the value. Once 2^64 - 1 tickets were drawn it never returns.
    /// It takes no memory.
    pub fn enter<R: Wait>(&self, rt: &R, seat: Seat<T>) -> Turn<T>
        requires own { seat.desk ≡ self.now }
        ensures own { result.begun.desk ≡ self.now }
        ensures ticket { result.begun.ticket < 2 ^ 64 - 1 }
        ensures seen { IsPrefix seat.front (T.list result.value) }
        ensures entered { result.begun.front ≡ T.list result.value }
    {
        let Seat { mut token } = seat;
        let ticket = self.draw(rt, &mut token);
        self.wait(rt, &mut token, ticket);
        let value = self.take(&mut token, ticket);
        Turn {
            value,
            begun: Begun { ticket, token },
        }
    }

    /// Gives the value back, with all that its list had, and lets the next one enter. It takes no memory.
    pub fn leave(&self, turn: Turn<T>) -> Seat<T>
        requires own { turn.begun.desk ≡ self.now }
        requires grown { IsPrefix turn.begun.front (T.list turn.value) }
        ensures own { result.desk ≡ self.now }
        ensures front { result.front ≡ T.list turn.value }
    {
        let Turn { value, begun } = turn;
        let Begun { ticket, mut token } = begun;
        match self.board.shared.exchange(&mut token, 0, Some(value)) {
            Some(_) => unreachable!(),
            None => (),
        }
        self.board.shared.fetch_add::<Serve<T>>(&mut token, 1, 1);
        // Where the next ticket isn't drawn yet, whoever draws it finds it served.
        let next = ticket + 1;
        if next < self.board.shared.peek(0) {
            self.bells.ring(next);
        }
        Seat { token }
    }

    // Draws the next ticket. The last number isn't drawn, and who comes then sleeps for ever.
    fn draw<R: Wait>(&self, rt: &R, token: &mut Token<Option<T>, Known<T::Item>>) -> u64
        requires own { token.old.table_id ≡ self.now }
        requires idle { token.old.me ≡ (idle token.old.me.0.front, []) }
        ensures own { token.new.table_id ≡ token.old.table_id }
        ensures small { result < 2 ^ 64 - 1 }
        ensures waits { token.new.me ≡ (waiting result token.old.me.0.front, []) }
    {
        for _ in rt.forever() {
            let next = self.board.shared.peek(0);
            if next == u64::MAX {
                self.board.shared.park(rt, 0, u32::MAX);
                continue;
            }
            let found = self
                .board
                .shared
                .compare_exchange::<Draw>(token, 0, next, next + 1);
            if found == next {
                return next;
            }
        }
        unreachable!()
    }

    // Waits until the ticket is served. The seat then has the slot.
    fn wait<R: Wait>(&self, rt: &R, token: &mut Token<Option<T>, Known<T::Item>>, ticket: u64)
        requires own { token.old.table_id ≡ self.now }
        requires waits { token.old.me ≡ (waiting ticket token.old.me.0.front, []) }
        ensures own { token.new.table_id ≡ token.old.table_id }
        ensures turn { (x : T) × (token.new.me ≡ (inside ticket (T.list x), (0, Some x) ∷ [])) × IsPrefix token.old.me.0.front (T.list x) }
    {
        for _ in rt.forever() {
            // The bell is heard before the look, so that a ring between the two isn't slept through.
            let heard = self.bells.heard(ticket);
            if self.board.shared.load::<Look<T>>(token, 1) == ticket {
                return;
            }
            self.bells.sleep(rt, ticket, heard);
        }
        unreachable!()
    }

    // Takes the value out of the slot.
    fn take(&self, token: &mut Token<Option<T>, Known<T::Item>>, ticket: u64) -> T
        requires own { token.old.table_id ≡ self.now }
        requires turn { (x : T) × (token.old.me ≡ (inside ticket (T.list x), (0, Some x) ∷ [])) }
        ensures own { token.new.table_id ≡ token.old.table_id }
        ensures turn { token.new.me ≡ (inside ticket (T.list result), (0, None) ∷ []) }
        ensures value { token.old.me.1 ≡ (0, Some result) ∷ [] }
    {
        match self.board.shared.exchange(token, 0, None) {
            Some(value) => value,
            None => unreachable!(),
        }
    }
}
