//! The two maps of a tracker. They are apart since a reset drops what changed, and keeps what was
//! touched at all.
ghost use Rattle.std.specs.Prelude.{◌≡◌, ◌+◌, ◌-◌, ◌*◌, ◌/◌, ◌<◌, ◌≤◌, ◌^◌, ◌||◌, ◌&&◌, [], ℕ, OnOk, nat_le, nat_lt, ◌==◌};
ghost use Rattle.sector_model.specs.Run.{meets};
ghost use Rattle.sector_model.specs.declared.run.TheConstants.{BLOCK_SECTORS};
ghost use Rattle.basics.specs.Bits.{has_bit};
ghost use Rattle.change_tracker.specs.declared.word.TheConstants.{WORD_BLOCKS};
ghost use Rattle.change_tracker.specs.Touches.{touched_in, word_of};
ghost use Rattle.change_tracker.specs.Maps.{window, HasSameTouches, KeepsPlaces, NoneTouchedLater, IsTouchedWhere, is_met_by, is_met_in, HasRoomWhere};

use crate::touches::Touches;
use crate::word::{WORD_BLOCKS, Window};
use sector_model::{BLOCK_SECTORS, NoMemory, Run};
use std::alloc::Global;

/// What was touched, by the words of 64 blocks.
#[derive(Debug, Drop)]
pub struct Maps {
    /// The first touch of each block, which an answer since the beginning needs.
    pub first: Touches,
    /// All touches since the last reset.
    pub changes: Touches,
}

impl Maps {
    /// Makes the places for marking a run after that many freezes. Nothing that was touched
    /// changes.
    pub(crate) fn reserve(&mut self, alloc: Global, run: Run, freezes: u64) -> Result<(), NoMemory>
        requires some { 0 < run.count }
        requires fits { run.first + run.count < 2 ^ 64 }
        requires few { freezes + 1 < 2 ^ 64 }
        requires later { NoneTouchedLater self.old freezes }
        ensures room { OnOk result (HasRoomWhere (is_met_by run) self.new freezes) }
        ensures later { NoneTouchedLater self.new freezes }
        ensures same { HasSameTouches self.old self.new }
        ensures kept { KeepsPlaces freezes self.old self.new }
    {
        for word in first_word(run)..last_word(run) + 1 {
            self.reserve_word(alloc, run, freezes, word)?;
        }
        Ok(())
    }

    /// Makes the places in one word.
    fn reserve_word(
        &mut self,
        alloc: Global,
        run: Run,
        freezes: u64,
        word: u64,
    ) -> Result<(), NoMemory>
        requires some { 0 < run.count }
        requires fits { run.first + run.count < 2 ^ 64 }
        requires few { freezes + 1 < 2 ^ 64 }
        requires from { run.first / BLOCK_SECTORS / WORD_BLOCKS ≤ word }
        requires upto { word ≤ (run.first + run.count - 1) / BLOCK_SECTORS / WORD_BLOCKS }
        requires later { NoneTouchedLater self.old freezes }
        ensures room { OnOk result (HasRoomWhere (is_met_in word run) self.new freezes) }
        ensures later { NoneTouchedLater self.new freezes }
        ensures same { HasSameTouches self.old self.new }
        ensures kept { KeepsPlaces freezes self.old self.new }
    {
        let bits = bits_of(run, word);
        if bits & !self.known(freezes, word) != 0 {
            self.first.reserve(alloc, word, freezes)?;
        }
        self.changes.reserve(alloc, word, freezes)
    }

    /// Marks a run that has its places after that many freezes. It takes no memory.
    pub(crate) fn mark(&mut self, run: Run, freezes: u64)
        requires some { 0 < run.count }
        requires fits { run.first + run.count < 2 ^ 64 }
        requires few { freezes + 1 < 2 ^ 64 }
        requires room { HasRoomWhere (is_met_by run) self.old freezes }
        ensures later { NoneTouchedLater self.old freezes → NoneTouchedLater self.new freezes }
        ensures touched { IsTouchedWhere (is_met_by run) freezes self.old self.new }
    {
        for word in first_word(run)..last_word(run) + 1 {
            self.mark_word(run, freezes, word);
        }
    }

    /// Marks the run's blocks in one word.
    fn mark_word(&mut self, run: Run, freezes: u64, word: u64)
        requires some { 0 < run.count }
        requires fits { run.first + run.count < 2 ^ 64 }
        requires few { freezes + 1 < 2 ^ 64 }
        requires from { run.first / BLOCK_SECTORS / WORD_BLOCKS ≤ word }
        requires upto { word ≤ (run.first + run.count - 1) / BLOCK_SECTORS / WORD_BLOCKS }
        requires room { HasRoomWhere (is_met_in word run) self.old freezes }
        ensures later { NoneTouchedLater self.old freezes → NoneTouchedLater self.new freezes }
        ensures touched { IsTouchedWhere (is_met_in word run) freezes self.old self.new }
        ensures kept { KeepsPlaces freezes self.old self.new }
    {
        let bits = bits_of(run, word);
        let new = bits & !self.known(freezes, word);
        if new != 0 {
            self.first.add(word, freezes, new);
        }
        self.changes.add(word, freezes, bits);
    }

    /// The blocks of a word that were touched by now.
    fn known(&self, freezes: u64, word: u64) -> u64
        requires { freezes + 1 < 2 ^ 64 }
        ensures { (place : ℕ) → has_bit result place
            ≡ touched_in (window 0 (freezes + 1)) place (word_of self.now.first word) }
    {
        self.first.bits_in(
            word,
            Window {
                from: 0,
                end: freezes + 1,
            },
        )
    }
}

/// The word of a run's first block, and of its last one.
fn first_word(run: Run) -> u64
    ensures { result ≡ run.first / BLOCK_SECTORS / WORD_BLOCKS }
{
    run.first / BLOCK_SECTORS / WORD_BLOCKS
}

fn last_word(run: Run) -> u64
    requires some { 0 < run.count }
    requires fits { run.first + run.count < 2 ^ 64 }
    ensures { result ≡ (run.first + run.count - 1) / BLOCK_SECTORS / WORD_BLOCKS }
{
    (run.first + run.count - 1) / BLOCK_SECTORS / WORD_BLOCKS
}

/// The blocks of a word that a run meets, bit `p` for the block at place `p`.
fn bits_of(run: Run, word: u64) -> u64
    requires some { 0 < run.count }
    requires fits { run.first + run.count < 2 ^ 64 }
    requires from { run.first / BLOCK_SECTORS / WORD_BLOCKS ≤ word }
    requires upto { word ≤ (run.first + run.count - 1) / BLOCK_SECTORS / WORD_BLOCKS }
    ensures { (place : ℕ) → place < WORD_BLOCKS
        → has_bit result place ≡ meets (WORD_BLOCKS * word + place) run.first run.count }
{
    let base = WORD_BLOCKS * word;
    let low = (run.first / BLOCK_SECTORS).max(base) - base;
    let last = (run.first + run.count - 1) / BLOCK_SECTORS;
    let high = last.min(base + (WORD_BLOCKS - 1)) - base;
    (u64::MAX >> (WORD_BLOCKS - 1 - high)) & (u64::MAX << low)
}
