//! The rule that the words and the slot of a desk keep, and what each step tells the seat that makes it.

use crate::grows::Grows;
use atomic_table::{Join, Play, Split, TableRule};
use std::collections::LinkedList;
use std::marker::PhantomData;
use std::snapshot::Snapshot;

/// Where a seat stands.
pub enum Role {
    Idle,
    /// With the ticket that it drew.
    Waits(u64),
    /// With the ticket that is served.
    In(u64),
}

/// What a seat knows. No value of it is made.
pub struct Known<I> {
    pub role: Role,
    /// The front of the list that was seen.
    pub front: LinkedList<I>,
    /// The front of a seat that was joined to this one, until the two are compared.
    pub other: LinkedList<I>,
}

/// What holds of a desk between any two steps.
pub struct Rule<T> {
    of: PhantomData<T>,
}

impl<T: Grows> TableRule<Option<T>, Known<T::Item>, Snapshot<T>> for Rule<T> {
    ghost use Rattle.ddc_desk.specs.inside.Steps.{IsKept, idle};

    ghost holds = { λ _. IsKept T.list };

    ghost first = { λ value. idle (T.list value.value) };
}

/// The next ticket is drawn.
pub struct Draw;

impl<T, I> Play<Option<T>, Known<I>> for Draw {
    ghost use Rattle.ddc_desk.specs.inside.Steps.{Draws};

    ghost then = { Draws };
}

/// A look at the ticket that is served.
pub struct Look<T> {
    of: PhantomData<T>,
}

impl<T: Grows> Play<Option<T>, Known<T::Item>> for Look<T> {
    ghost use Rattle.ddc_desk.specs.inside.Steps.{Looks};

    ghost then = { Looks T.list };
}

/// The next ticket is served.
pub struct Serve<T> {
    of: PhantomData<T>,
}

impl<T: Grows> Play<Option<T>, Known<T::Item>> for Serve<T> {
    ghost use Rattle.ddc_desk.specs.inside.Steps.{Serves};

    ghost then = { Serves T.list };
}

/// The fronts of two seats that were joined are compared.
pub struct Compare;

impl<T, I> Play<Option<T>, Known<I>> for Compare {
    ghost use Rattle.ddc_desk.specs.inside.Steps.{Compares};

    ghost then = { Compares };
}

/// A second seat has the front of the first.
pub struct SameFront;

impl<I> Split<Known<I>> for SameFront {
    ghost use Rattle.ddc_desk.specs.inside.Steps.{idle};

    ghost left = { λ known. known };

    ghost right = { λ known. idle known.front };
}

/// A seat has the front of another one beside its own.
pub struct SideBySide;

impl<I> Join<Known<I>> for SideBySide {
    ghost use Rattle.std.specs.Prelude.{[]};
    ghost use Rattle.ddc_desk.specs.inside.Steps.{idle, beside};

    ghost both = { beside };

    ghost spent = { idle [] };
}
