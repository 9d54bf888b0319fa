//! Touches of a disk's blocks, and pages of the areas that were touched.
ghost use Rattle.std.specs.Prelude.{◌≡◌, ◌+◌, ◌*◌, ◌/◌, ◌<◌, ◌≤◌, ◌^◌, [], ℕ, true, false, Some, None, MatchOption, MatchBool, OnOk};
ghost use Rattle.sector_model.specs.Run.{block_count, next_run};
ghost use Rattle.sector_model.specs.Page.{page_from};
ghost use Rattle.basics.specs.Bits.{has_bit};
ghost use Rattle.change_tracker.specs.Touches.{TouchState, word_of, is_touched_in, touched_in, HasSame, HasRoom, KeepsRoom, NoneLater, IsAdded, IsFirst, IsSeen, IsAhead, areas_in};

use crate::word::{WORD_BLOCKS, Window, Word};
use sector_model::{BLOCK_SECTORS, NoMemory, PAGE_AREAS, Page, Run};
use std::alloc::Global;
use std::collections::BTreeMap;
use std::marker::Model;

/// A word that was looked up, and which of its blocks were touched inside a window.
#[derive(Clone, Copy, Debug, PartialEq, Eq)]
pub struct Seen {
    word: u64,
    bits: u64,
}

/// Words under their numbers: those of which a block was touched, and those for which a place was
/// made.
#[derive(Debug, Drop)]
pub struct Touches {
    words: BTreeMap<u64, Word>,
}

impl Model for Touches {
    ghost Value = { TouchState };

    ghost view = { λ a. a.words.entries };
}

impl Touches {
    /// No touches. It takes no memory.
    pub(crate) fn new(alloc: Global) -> Touches
        ensures { result ≡ [] }
    {
        Touches {
            words: BTreeMap::new(alloc),
        }
    }

    /// Forgets all touches.
    pub(crate) fn clear(&mut self)
        ensures { self.new ≡ [] }
    {
        self.words.clear();
    }

    /// Makes a place in a word for touches after that many freezes. Nothing that was touched
    /// changes.
    pub(crate) fn reserve(&mut self, alloc: Global, word: u64, freezes: u64) -> Result<(), NoMemory>
        requires { NoneLater self.old freezes }
        ensures room { OnOk result (HasRoom self.new word freezes) }
        ensures later { NoneLater self.new freezes }
        ensures same { HasSame self.old self.new }
        ensures kept { KeepsRoom self.old self.new freezes }
    {
        if let Some(touches) = self.words.get_mut(&word) {
            return touches.reserve(freezes);
        }
        self.words.insert(word, Word::new(alloc, freezes))?;
        Ok(())
    }

    /// Adds touched blocks to a word's place. It takes no memory.
    pub(crate) fn add(&mut self, word: u64, freezes: u64, bits: u64)
        requires { HasRoom self.old word freezes }
        ensures later { NoneLater self.old freezes → NoneLater self.new freezes }
        ensures added { IsAdded self.old self.new word freezes bits }
        ensures kept { KeepsRoom self.old self.new freezes }
    {
        if let Some(touches) = self.words.get_mut(&word) {
            touches.add(bits);
        }
    }

    /// The blocks of a word that were touched inside the window, bit `p` for the block at place
    /// `p`.
    pub(crate) fn bits_in(&self, word: u64, window: Window) -> u64
        ensures { (place : ℕ)
            → has_bit result place ≡ touched_in window place (word_of self.now word) }
    {
        match self.words.get(&word) {
            Some(touches) => touches.bits_in(window),
            None => 0,
        }
    }

    /// The first word from `word` on that has an entry.
    fn next_word(&self, word: u64) -> Option<(u64, &Word)>
        ensures { MatchOption result
            ((w : ℕ) → word ≤ w → w < 2 ^ 64 → word_of self.now w ≡ None)
            (λ x. (word ≤ x.0) × (word_of self.now x.0 ≡ Some x.1.now)
            × ((w : ℕ) → word ≤ w → w < x.0 → word_of self.now w ≡ None)) }
    {
        let (next, touches) = self.words.range(word..).next()?;
        Some((*next, touches))
    }

    /// Looks a word up, unless it is the last one that was.
    fn look_up(&self, window: Window, word: u64, seen: &mut Seen)
        requires { IsSeen self.now window seen.old.word seen.old.bits }
        ensures word { seen.new.word ≡ word }
        ensures seen { IsSeen self.now window seen.new.word seen.new.bits }
    {
        if seen.word != word {
            let bits = self.bits_in(word, window);
            *seen = Seen { word, bits };
        }
    }

    /// Looks up the first word from `word` on that has an entry, unless `word` is the last one that
    /// was looked up. Whether there is one.
    fn look_ahead(&self, window: Window, word: u64, seen: &mut Seen) -> bool
        requires { IsSeen self.now window seen.old.word seen.old.bits }
        ensures seen { IsSeen self.now window seen.new.word seen.new.bits }
        ensures ahead { MatchBool result (IsAhead self.now word seen.new.word)
            ((w : ℕ) → word ≤ w → w < 2 ^ 64 → word_of self.now w ≡ None) }
    {
        if seen.word == word {
            return true;
        }
        match self.next_word(word) {
            Some((next, touches)) => {
                let bits = touches.bits_in(window);
                *seen = Seen { word: next, bits };
                true
            }
            None => false,
        }
    }

    /// The first block from `block` on, and below `end`, that was touched inside the window.
    fn next_touched(&self, window: Window, block: u64, end: u64, seen: &mut Seen) -> Option<u64>
        requires small { end < 2 ^ 58 }
        requires seen { IsSeen self.now window seen.old.word seen.old.bits }
        ensures found { MatchOption result
            ((b : ℕ) → block ≤ b → b < end → is_touched_in self.now window b ≡ false)
            (λ b. IsFirst self.now window block b × (b < end)) }
        ensures seen { IsSeen self.now window seen.new.word seen.new.bits }
    {
        let mut at = block;
        while at < end && self.look_ahead(window, at / WORD_BLOCKS, seen) {
            let word = seen.word;
            if word >= end.div_ceil(WORD_BLOCKS) {
                return None;
            }
            let first = at.max(WORD_BLOCKS * word);
            let bits = seen.bits & (u64::MAX << (first % WORD_BLOCKS));
            if bits != 0 {
                let found = WORD_BLOCKS * word + u64::from(bits.trailing_zeros());
                return if found < end { Some(found) } else { None };
            }
            at = WORD_BLOCKS * word + WORD_BLOCKS;
        }
        None
    }

    /// The first block from `block` on that wasn't touched inside the window, but at most `end`.
    fn next_untouched(&self, window: Window, block: u64, end: u64, seen: &mut Seen) -> u64
        requires small { end < 2 ^ 58 }
        requires below { block < end }
        requires seen { IsSeen self.now window seen.old.word seen.old.bits }
        ensures from { block ≤ result }
        ensures within { result ≤ end }
        ensures touched { (b : ℕ) → block ≤ b → b < result
            → is_touched_in self.now window b ≡ true }
        ensures found { result < end → is_touched_in self.now window result ≡ false }
        ensures seen { IsSeen self.now window seen.new.word seen.new.bits }
    {
        let mut at = block;
        while at < end {
            let word = at / WORD_BLOCKS;
            self.look_up(window, word, seen);
            let bits = !seen.bits & (u64::MAX << (at % WORD_BLOCKS));
            if bits != 0 {
                return end.min(WORD_BLOCKS * word + u64::from(bits.trailing_zeros()));
            }
            at = WORD_BLOCKS * word + WORD_BLOCKS;
        }
        end
    }

    /// The first block from sector `at` on that was touched inside the window.
    fn next_block(&self, window: Window, capacity: u64, at: u64, seen: &mut Seen) -> Option<u64>
        requires within { at ≤ capacity }
        requires seen { IsSeen self.now window seen.old.word seen.old.bits }
        ensures found { MatchOption result (next_run at (areas_in capacity self.now window) ≡ None)
            (λ b. IsFirst self.now window (at / BLOCK_SECTORS) b
            × (BLOCK_SECTORS * b < capacity) × (at < capacity)) }
        ensures seen { IsSeen self.now window seen.new.word seen.new.bits }
    {
        if at == capacity {
            return None;
        }
        let blocks = capacity.div_ceil(BLOCK_SECTORS);
        self.next_touched(window, at / BLOCK_SECTORS, blocks, seen)
    }

    /// The area that was touched inside the window and holds sector `at`, from there on, or else
    /// the next one.
    fn next_area(&self, window: Window, capacity: u64, at: u64, seen: &mut Seen) -> Option<Run>
        requires within { at ≤ capacity }
        requires seen { IsSeen self.now window seen.old.word seen.old.bits }
        ensures found { result ≡ next_run at (areas_in capacity self.now window) }
        ensures seen { IsSeen self.now window seen.new.word seen.new.bits }
    {
        let block = self.next_block(window, capacity, at, seen)?;
        let blocks = capacity.div_ceil(BLOCK_SECTORS);
        let first = at.max(BLOCK_SECTORS * block);
        let behind = self.next_untouched(window, block, blocks, seen);
        let end = if behind < blocks {
            BLOCK_SECTORS * behind
        } else {
            capacity
        };
        Some(Run {
            first,
            count: end - first,
        })
    }

    /// Fills the page with the areas that were touched inside the window, from sector `start` on.
    /// No area behind the page is looked at but for its first block.
    pub(crate) fn fill_page(&self, window: Window, capacity: u64, start: u64, page: &mut Page)
        requires { start < capacity }
        ensures { page.new ≡ page_from capacity (areas_in capacity self.now window) start }
    {
        page.clear(start);
        let word = start / BLOCK_SECTORS / WORD_BLOCKS;
        let mut seen = Seen {
            word,
            bits: self.bits_in(word, window),
        };
        let mut at = start;
        while page.areas().len() < PAGE_AREAS {
            let Some(run) = self.next_area(window, capacity, at, &mut seen) else {
                page.cover(capacity - start);
                return;
            };
            page.push(run);
            at = run.first + run.count;
        }
        let end = match self.next_block(window, capacity, at, &mut seen) {
            Some(_) => at,
            None => capacity,
        };
        page.cover(end - start);
    }
}
