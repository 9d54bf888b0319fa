//! The tokens with which threads take turns.
ghost use Rattle.std.specs.Prelude.{◌≡◌};
ghost use Rattle.turn_lock.specs.Pass.{pass_state, IsPass};

use crate::story::Storied;
use crate::view::{PassState, View};
use atomic_table::Seat;
use std::marker::Model;

/// The most numbers that a turn draws. The word of the drawn numbers never wraps, and a `u32`
/// holds each count.
pub const MOST_NUMBERS: u32 = u32::MAX;

/// The right to take a turn's value under one number. It can go to another thread, and stands for
/// its [`PassState`].
pub struct Pass<V: Storied> {
    pub(crate) seat: Seat<Option<V>, View<V::Frame, V::Entry>>,
    pub(crate) number: u32,
    pub(crate) made: u32,
    pub(crate) out: u32,
    pub(crate) holds: bool,
}

impl<V: Storied> Model for Pass<V> {
    ghost use Rattle.turn_lock.specs.declared.view.PassState.{PassState};

    ghost Value = { PassState V.Frame V.Entry };

    ghost use Rattle.turn_lock.specs.Pass.{pass_state, IsPass};

    ghost view = { λ p. pass_state p.seat.table_id p.seat.me.0 };

    ghost invariant = { λ p. IsPass V.who p.seat.me p.number p.made p.out p.holds };
}

impl<V: Storied> Pass<V> {
    /// Its number. That of the first pass of a turn is 0.
    pub fn number(&self) -> u32
        ensures { result ≡ self.now.number }
    {
        self.number
    }

    /// How many numbers pass 0 has drawn, with its own. It is 0 at every other pass.
    pub fn made(&self) -> u32
        ensures { result ≡ self.now.made }
    {
        self.made
    }

    /// How many passes were split from pass 0 and not joined yet. It is 0 at every other pass.
    pub fn out(&self) -> u32
        ensures { result ≡ self.now.out }
    {
        self.out
    }

    /// Whether its holder has taken the turn's value and not given it back.
    pub fn holds(&self) -> bool
        ensures { result ≡ self.now.holds }
    {
        self.holds
    }

    pub(crate) fn into_seat(self) -> Seat<Option<V>, View<V::Frame, V::Entry>>
        ensures state { pass_state result.table_id result.me.0 ≡ self }
        ensures pass { IsPass V.who result.me self.number self.made self.out self.holds }
    {
        let Self {
            seat,
            number: _,
            made: _,
            out: _,
            holds: _,
        } = self;
        seat
    }
}

impl<V: Storied> Drop for Pass<V> {
    fn drop(self) {
        let Self {
            seat: _,
            number: _,
            made: _,
            out: _,
            holds: _,
        } = self;
    }
}
