//! The touches of one word: 64 blocks in a row.
ghost use Rattle.std.specs.Prelude.{◌≡◌, ◌<◌, ◌≤◌, ◌+◌, ◌^◌, ◌&&◌, ◌||◌, [], OnOk, OnErr, ℕ};
ghost use Rattle.basics.specs.Bits.{has_bit};
ghost use Rattle.change_tracker.specs.Touches.{WordState, is_inside, is_of, touched_at};
ghost use Rattle.std.specs.List.{list_any};

use sector_model::NoMemory;
use std::alloc::Global;
use std::marker::Model;

/// Blocks of a word, one a bit.
pub const WORD_BLOCKS: u64 = 64;

/// Which blocks of a word were touched between two freezes, bit `p` for the block at place `p`.
#[derive(Clone, Copy, Debug, PartialEq, Eq)]
pub struct Touch {
    /// How many freezes came before.
    pub freezes: u64,
    pub bits: u64,
}

/// The touches after `from` freezes or more, and before `end`.
#[derive(Clone, Copy, Debug, PartialEq, Eq)]
pub struct Window {
    pub from: u64,
    pub end: u64,
}

impl Touch {
    /// The blocks, where the touch lies inside the window.
    fn bits_in(&self, window: Window) -> u64
        ensures { (place : ℕ) → has_bit result place
            ≡ (is_inside window self.now.freezes && has_bit self.now.bits place) }
    {
        if window.from <= self.freezes && self.freezes < window.end {
            self.bits
        } else {
            0
        }
    }
}

/// The touches of a word's blocks. Most words are touched between two freezes alone, so the latest
/// touch stands beside the list.
#[derive(Debug, Drop)]
pub struct Word {
    latest: Touch,
    earlier: Vec<Touch>,
}

impl Model for Word {
    ghost use Rattle.change_tracker.specs.Rising.{AreRising};
    ghost use Rattle.change_tracker.specs.Touches.{WordState};

    ghost Value = { WordState };

    ghost view = { λ a. record { latest = a.latest; earlier = a.earlier.items } };

    ghost invariant = { λ a. AreRising 0 a.latest.freezes a.earlier.items };
}

impl Word {
    /// A word of which no block was touched, with a place for touches after that many freezes. It
    /// takes no memory.
    pub(crate) fn new(alloc: Global, freezes: u64) -> Word
        ensures { result
            ≡ record { latest = record { freezes = freezes; bits = 0 }; earlier = [] } }
    {
        Word {
            latest: Touch { freezes, bits: 0 },
            earlier: Vec::new(alloc),
        }
    }

    /// Makes the place for touches after that many freezes, if there is none. No touch came later.
    /// An `Err` changes nothing.
    pub(crate) fn reserve(&mut self, freezes: u64) -> Result<(), NoMemory>
        requires { self.old.latest.freezes ≤ freezes }
        ensures place { OnOk result (self.new.latest.freezes ≡ freezes) }
        ensures same { (window : Window) (place : ℕ)
            → touched_at window place self.new ≡ touched_at window place self.old }
        ensures kept { OnErr result (self.new ≡ self.old) }
    {
        if self.latest.freezes != freezes {
            if self.latest.bits != 0 {
                self.earlier.push(self.latest)?;
            }
            self.latest = Touch { freezes, bits: 0 };
        }
        Ok(())
    }

    /// Adds blocks to the latest touches.
    pub(crate) fn add(&mut self, bits: u64)
        ensures freezes { self.new.latest.freezes ≡ self.old.latest.freezes }
        ensures added { (window : Window) (place : ℕ) → touched_at window place self.new
            ≡ (touched_at window place self.old
            || (is_inside window self.old.latest.freezes && has_bit bits place)) }
    {
        self.latest.bits |= bits;
    }

    /// The blocks that were touched inside the window.
    pub(crate) fn bits_in(&self, window: Window) -> u64
        ensures { (place : ℕ) → has_bit result place ≡ touched_at window place self.now }
    {
        let mut bits = self.latest.bits_in(window);
        for touch in self.earlier_in(window) {
            bits |= touch.bits_in(window);
        }
        bits
    }

    /// The earlier touches inside the window, which lie next to each other.
    fn earlier_in(&self, window: Window) -> &[Touch]
        ensures { (place : ℕ) → list_any (is_of window place) result.now
            ≡ list_any (is_of window place) self.now.earlier }
    {
        let earlier = self.earlier.as_slice();
        let start = earlier.partition_point(|touch| touch.freezes < window.from);
        let later = &earlier[start..];
        let count = later.partition_point(|touch| touch.freezes < window.end);
        &later[..count]
    }
}
