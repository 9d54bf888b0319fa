//! A page of changed areas, which takes no memory once it was made.
ghost use Rattle.std.specs.Prelude.{◌≡◌, ◌<◌, ◌++◌, ◌∷◌, [], length, IfOk};

use crate::{NoMemory, Run};
use std::alloc::Global;
use std::marker::Model;

/// The most areas that one page holds.
pub const PAGE_AREAS: usize = 1024;

/// Where a page of areas starts, how many sectors it speaks of, and the areas among these.
///
/// A tracker answers which areas changed in pages, after VMware's `QueryChangedDiskAreas`: the
/// caller goes on at the page's start plus its length until that is the capacity.
#[derive(Debug, Drop)]
pub struct Page {
    start: u64,
    length: u64,
    runs: Vec<Run>,
}

impl Model for Page {
    ghost use Rattle.std.specs.Prelude.{◌≤◌};
    ghost use Rattle.std.specs.Vec.{vec_capacity};
    ghost use Rattle.sector_model.specs.Page.{PageContents};
    ghost use Rattle.sector_model.specs.declared.page.TheConstants.{PAGE_AREAS};

    ghost Value = { PageContents };

    ghost view = { λ a. record { start = a.start; length = a.length; areas = a.runs.items } };

    ghost invariant = { λ a. PAGE_AREAS ≤ vec_capacity a.runs };
}

impl Page {
    /// An empty page at sector 0, with room for 1,024 areas. It answers only want of memory.
    pub fn new(alloc: Global) -> Result<Page, NoMemory>
        ensures { IfOk result (λ page. page ≡ record { start = 0; length = 0; areas = [] }) }
    {
        let runs = Vec::with_capacity(alloc, PAGE_AREAS)?;
        Ok(Page {
            start: 0,
            length: 0,
            runs,
        })
    }

    /// The first sector that the page speaks of.
    pub fn start(&self) -> u64
        ensures { result ≡ self.now.start }
    {
        self.start
    }

    /// How many sectors the page speaks of.
    pub fn length(&self) -> u64
        ensures { result ≡ self.now.length }
    {
        self.length
    }

    /// The areas, in the order in which they were pushed.
    pub fn areas(&self) -> &[Run]
        ensures { result.now ≡ self.now.areas }
    {
        self.runs.as_slice()
    }

    /// Empties the page, and lets it start at a sector.
    pub fn clear(&mut self, start: u64)
        ensures { self.new ≡ record { start = start; length = 0; areas = [] } }
    {
        self.runs.clear();
        self.start = start;
        self.length = 0;
    }

    /// Adds an area behind the others. It takes no memory.
    pub fn push(&mut self, run: Run)
        requires { length self.old.areas < PAGE_AREAS }
        ensures { self.new ≡ record self.old { areas = self.old.areas ++ run ∷ [] } }
    {
        self.runs.push(run).unwrap();
    }

    /// Sets how many sectors the page speaks of.
    pub fn cover(&mut self, length: u64)
        ensures { self.new ≡ record self.old { length = length } }
    {
        self.length = length;
    }
}
