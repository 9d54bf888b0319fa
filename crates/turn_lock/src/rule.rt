//! The rule of the lock's table, and what each kind of step tells. These types are for the proofs
//! alone.
//!
//! The steps are eight: pass 0 draws a number (`DrawNumber`), splits (`Divide`) and joins
//! (`Unite`, and then `Compare`); every pass draws a ticket (`DrawTicket`), looks at the word of
//! the served tickets (`Look`), takes the value out of the slot and puts one in, and serves the
//! next (`Serve`).
ghost use Rattle.turn_lock.specs.Rule.{RuleHolds, beginning_of, first_view};
ghost use Rattle.turn_lock.specs.View.{DrawsNumber, Compares, DrawsTicket, LooksAtServed, Serves, parted, split_view, united, spent};

use crate::story::Storied;
use crate::view::View;
use atomic_table::{Join, Play, Split, TableRule};
use std::marker::PhantomData;
use std::snapshot::Snapshot;

/// One story, in which each number has the entries of its own pass. The key is the value at the
/// start.
pub struct History<V> {
    of: PhantomData<V>,
}

impl<V: Storied> TableRule<Option<V>, View<V::Frame, V::Entry>, Snapshot<V>> for History<V> {
    ghost holds = { λ key.
        RuleHolds V.frame V.story V.who (beginning_of V.frame V.story key.value) };

    ghost first = { λ key. first_view V.frame V.story key.value };
}

pub(crate) struct DrawNumber<V> {
    of: PhantomData<V>,
}

impl<V: Storied> Play<Option<V>, View<V::Frame, V::Entry>> for DrawNumber<V> {
    ghost then = { DrawsNumber V.frame V.story V.who };
}

pub(crate) struct Divide<V> {
    of: PhantomData<V>,
}

impl<V: Storied> Split<View<V::Frame, V::Entry>> for Divide<V> {
    ghost left = { parted };

    ghost right = { split_view };
}

pub(crate) struct Unite<V> {
    of: PhantomData<V>,
}

impl<V: Storied> Join<View<V::Frame, V::Entry>> for Unite<V> {
    ghost both = { united };

    ghost spent = { spent };
}

pub(crate) struct Compare<V> {
    of: PhantomData<V>,
}

impl<V: Storied> Play<Option<V>, View<V::Frame, V::Entry>> for Compare<V> {
    ghost then = { Compares V.frame V.story V.who };
}

pub(crate) struct DrawTicket<V> {
    of: PhantomData<V>,
}

impl<V: Storied> Play<Option<V>, View<V::Frame, V::Entry>> for DrawTicket<V> {
    ghost then = { DrawsTicket V.frame V.story V.who };
}

pub(crate) struct Look<V> {
    of: PhantomData<V>,
}

impl<V: Storied> Play<Option<V>, View<V::Frame, V::Entry>> for Look<V> {
    ghost then = { LooksAtServed V.frame V.story V.who };
}

pub(crate) struct Serve<V> {
    of: PhantomData<V>,
}

impl<V: Storied> Play<Option<V>, View<V::Frame, V::Entry>> for Serve<V> {
    ghost then = { Serves V.frame V.story V.who };
}
