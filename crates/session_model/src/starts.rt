//! The regions of a playlist by their starts: those that meet a span are found without a look at each region.
ghost use Rattle.std.specs.Prelude.{◌≡◌, ℕ, ◌<◌, ◌≤◌, false, [], length, map, slice_index_or, All, IfOk};
ghost use Rattle.std.specs.List.{list_any};
ghost use Rattle.std.specs.List.Sorted.{IsPermutation, IsNonDecreasingBy};
ghost use Rattle.session_model.specs.Region.{region_of, regions_of, IsRegion};
ghost use Rattle.session_model.specs.Starts.{stretch, stretches_from, bare, IsIndexOf, IsStretch, IsRising, meets_at, goes_on};

use crate::region::Region;
use ses_io::{FixedList, NoMemory, TryClone};
use ses_units::limits::REGIONS;
use std::alloc::Global;
use std::marker::Model;

/// A region of a playlist, by its place in layer order.
#[derive(Clone, Copy)]
pub(crate) struct Stretch {
    place: u16,
    /// Its first position, and the one behind its last.
    at: u64,
    end: u64,
    /// The greatest end of it and all that begin before it.
    reach: u64,
}

impl TryClone for Stretch {
    fn try_clone(&self, _alloc: Global) -> Result<Self, NoMemory> {
        Ok(*self)
    }
}

/// The stretches of up to 256 regions by their starts, with room for all of them from the first.
#[derive(Drop)]
pub(crate) struct Starts {
    stretches: FixedList<Stretch>,
}

impl Model for Starts {
    ghost use Rattle.std.specs.Prelude.{List, ◌≤◌};
    ghost use Rattle.session_model.specs.declared.starts.Stretch.{Stretch};
    ghost use Rattle.session_model.specs.Starts.{IsRising};

    ghost Value = { List Stretch };

    ghost view = { λ s. s.stretches.items };

    ghost invariant = { λ s. IsRising s.stretches.items × (256 ≤ s.stretches.room) };
}

fn stretch_of(place: u16, r: &Region) -> Stretch
    requires { IsRegion (region_of r.now) }
    ensures { result ≡ stretch place (region_of r.now) }
{
    Stretch {
        place,
        at: r.at,
        end: r.at + r.length,
        reach: 0,
    }
}

fn empty(list: &mut FixedList<Stretch>)
    ensures items { list.new.items ≡ [] }
    ensures room { list.new.room ≡ list.old.room }
{
    while !list.is_empty() {
        list.pop();
    }
}

// Adds the stretches of all regions in layer order.
fn fill(list: &mut FixedList<Stretch>, regions: &[Region])
    requires empty { list.old.items ≡ [] }
    requires room { 256 ≤ list.old.room }
    requires few { length regions.now ≤ 256 }
    requires limits { All IsRegion (regions_of regions.now) }
    ensures items { list.new.items ≡ stretches_from 0 (regions_of regions.now) }
    ensures room { list.new.room ≡ list.old.room }
{
    for (place, r) in regions.iter().enumerate() {
        list.push(stretch_of(place as u16, r));
    }
}

// Notes at each stretch how far those up to it reach.
fn note_reaches(index: &mut [Stretch])
    ensures same { map bare index.new ≡ map bare index.old }
    ensures ends { All (λ s. s.end ≤ s.reach) index.new }
    ensures reaches { IsNonDecreasingBy (λ s. s.reach) index.new }
{
    let mut reach: u64 = 0;
    for s in index.iter_mut() {
        reach = reach.max(s.end);
        s.reach = reach;
    }
}

fn order(index: &mut [Stretch])
    requires { All IsStretch index.old }
    ensures same { IsPermutation (map bare index.old) (map bare index.new) }
    ensures rising { IsRising index.new }
{
    index.sort_unstable_by_key(|s| s.at);
    note_reaches(index);
}

// How many stretches begin before a position.
fn begun_before(index: &[Stretch], end: u64) -> usize
    requires { IsRising index.now }
    ensures begun { (k : ℕ) (d : Stretch) → k < result → (slice_index_or index.now k d).at < end }
    ensures later { (k : ℕ) (d : Stretch) → result ≤ k → k < length index.now
        → end ≤ (slice_index_or index.now k d).at }
    ensures bound { result ≤ length index.now }
{
    index.partition_point(|s| s.at < end)
}

// How many stretches, from the first on, have ended by a position.
fn ended_by(index: &[Stretch], from: u64) -> usize
    requires { IsRising index.now }
    ensures ended { (k : ℕ) (d : Stretch) → k < result → (slice_index_or index.now k d).end ≤ from }
    ensures bound { result ≤ length index.now }
{
    index.partition_point(|s| s.reach <= from)
}

// Marks the places of stretches that go on beyond a position.
fn mark(part: &[Stretch], from: u64) -> [bool; 256]
    requires { All IsStretch part.now }
    ensures marks { (k : ℕ) → k < 256
        → slice_index_or result k false ≡ list_any (goes_on from k) part.now }
    ensures len { length result ≡ 256 }
{
    let mut marks = [false; 256];
    for s in part {
        if from < s.end {
            marks[s.place as usize] = true;
        }
    }
    marks
}

impl Starts {
    /// No stretches, with room for those of 256 regions.
    pub(crate) fn new(alloc: Global) -> Result<Starts, NoMemory>
        ensures { IfOk result (λ s. s ≡ []) }
    {
        Ok(Starts {
            stretches: FixedList::new(alloc, REGIONS)?,
        })
    }

    /// Becomes the index of these regions. It takes no memory.
    pub(crate) fn renew(&mut self, regions: &[Region])
        requires few { length regions.now ≤ 256 }
        requires limits { All IsRegion (regions_of regions.now) }
        ensures { IsIndexOf (regions_of regions.now) self.new }
    {
        empty(&mut self.stretches);
        fill(&mut self.stretches, regions);
        order(self.stretches.as_mut_slice());
    }

    /// For each place whether its region meets so many frames from a position on.
    pub(crate) fn heard(&self, from: u64, frames: u32) -> [bool; 256]
        ensures heard { (k : ℕ) → k < 256
            → slice_index_or result k false ≡ list_any (meets_at from frames k) self.now }
        ensures len { length result ≡ 256 }
    {
        let index = self.stretches.as_slice();
        let begun = begun_before(index, from.saturating_add(u64::from(frames)));
        let ended = ended_by(index, from).min(begun);
        mark(&index[ended..begun], from)
    }
}

impl TryClone for Starts {
    fn try_clone(&self, alloc: Global) -> Result<Self, NoMemory> {
        Ok(Starts {
            stretches: self.stretches.try_clone(alloc)?,
        })
    }
}
