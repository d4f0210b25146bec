//! At which index a sheet stands, found by its id. All is in one list, in the order of the ids. Where few sheets come to
//! stand elsewhere, the spot of each is found by halves and gets its new index; where many do, the list is gone over once.
ghost use Rattle.std.specs.Prelude.{◌≡◌, ◌<◌, ◌≤◌, ℕ, [], IfOk, MatchOption, None, OnOk, Some, length, map, nat_eq, option_map, vec_capacity, vec_len, if◌then◌else◌};
ghost use Rattle.std.specs.List.{AllWithin, HoldsAt, IsDistinct};
ghost use Rattle.std.specs.Bool.{Decides};
ghost use Rattle.ic_laws.specs.Greatest.{greatest};
ghost use Rattle.ic_sheets.specs.Spots.{Rise, Rise-prop, index_at, lowered, moved_index, raised, renumbered, spots_from, with_indexes};
ghost use Rattle.ic_sheets.specs.Search.{index_with_id};

use crate::Sheet;
use ic_laws::{Boxed, OutOfMemory};
use std::alloc::Global;

/// To find the spot of a sheet by halves costs about as much as to go over this many spots: so much was measured in a
/// book of 100,000 sheets.
const SPOTS_PER_SEARCH: usize = 64;

/// A sheet's id, and the index at which it stands, from 0.
#[derive(Clone, Copy)]
pub struct Spot {
    id: u32,
    index: usize,
}

/// The indexes of sheets by their ids, in the order of the ids.
#[derive(Drop)]
pub struct Spots {
    list: Vec<Spot>,
    ghost rise: { Rise 0 list.items } by { Rise-prop 0 list.items },
}

impl Spots {
    /// None.
    pub fn new(alloc: Global) -> Spots
        ensures { result.list.items ≡ [] }
    {
        Spots {
            list: Vec::new(alloc),
        }
    }

    /// The indexes of these sheets. None exactly where two have one id.
    pub fn of_sheets(alloc: Global, sheets: &[Boxed<Sheet>]) -> Result<Option<Spots>, OutOfMemory>
        ensures { IfOk result (λ made. MatchOption made
            (IsDistinct nat_eq (map (λ s. s.id) sheets.now) → ⊥)
            (λ spots. IsDistinct nat_eq (map (λ s. s.id) sheets.now)
            × ((id : ℕ) → index_at id spots.list.items ≡ index_with_id id sheets.now))) }
    {
        let list = listed(alloc, sheets)?;
        Ok(Spots::of(list))
    }

    /// These, in any order. None exactly where two have one id.
    fn of(mut list: Vec<Spot>) -> Option<Spots>
        ensures { MatchOption result (IsDistinct nat_eq (map (λ s. s.id) list.items) → ⊥)
            (λ made. IsDistinct nat_eq (map (λ s. s.id) list.items)
            × ((id : ℕ) → index_at id made.list.items ≡ index_at id list.items)) }
    {
        list.sort_unstable_by_key(|spot| spot.id);
        if !do_rise(&list) {
            return None;
        }
        Some(Spots { list })
    }

    /// The index at this id. None exactly where there is none.
    pub fn index_of(&self, id: u32) -> Option<usize>
        ensures { result ≡ index_at id self.now.list.items }
    {
        let place = found(&self.list, id)?;
        Some(self.list[place].index)
    }

    /// The greatest id, 0 where there is none.
    pub fn greatest_id(&self) -> u32
        ensures { result ≡ greatest (map (λ s. s.id) self.now.list.items) }
    {
        match self.list.last() {
            Some(spot) => spot.id,
            None => 0,
        }
    }

    /// Makes room for one more. `OutOfMemory` changes nothing.
    pub fn reserve(&mut self) -> Result<(), OutOfMemory>
        ensures kept { self.new.list.items ≡ self.old.list.items }
        ensures ok { OnOk result (vec_len self.new.list < vec_capacity self.new.list) }
    {
        self.list.reserve(1)?;
        Ok(())
    }

    /// Puts an index in at an id that has none. There is room for it.
    pub fn put(&mut self, id: u32, index: usize)
        requires absent { index_at id self.old.list.items ≡ None }
        requires room { vec_len self.old.list < vec_capacity self.old.list }
        ensures { (q : ℕ) → index_at q self.new.list.items
            ≡ (if nat_eq id q then Some index else index_at q self.old.list.items) }
    {
        let place = place_of(&self.list, id);
        let _ = self.list.insert(place, Spot { id, index });
    }

    /// Takes the index at an id out, where there is one.
    pub fn take_out(&mut self, id: u32)
        ensures { (q : ℕ) → index_at q self.new.list.items
            ≡ (if nat_eq id q then None else index_at q self.old.list.items) }
    {
        if let Some(place) = found(&self.list, id) {
            self.list.remove(place);
        }
    }

    /// These are the sheets after the one at this index, from 0, was taken away: those behind it stand one before.
    pub fn lower(&mut self, sheets: &[Boxed<Sheet>], index: usize)
        requires differ { IsDistinct nat_eq (map (λ s. s.id) sheets.now) }
        requires within { index ≤ length sheets.now }
        requires before { (id : ℕ) → index_at id self.old.list.items
            ≡ option_map (raised index) (index_with_id id sheets.now) }
        ensures { (id : ℕ) → index_at id self.new.list.items ≡ index_with_id id sheets.now }
    {
        let end = sheets.len();
        if end - index <= end / SPOTS_PER_SEARCH {
            self.renumber(sheets, index, end);
        } else {
            lower_all(&mut self.list, index);
        }
    }

    /// These are the sheets after one of them was put from an index to another, both from 0: those between stand one
    /// before or one further.
    pub fn follow(&mut self, sheets: &[Boxed<Sheet>], from: usize, to: usize)
        requires differ { IsDistinct nat_eq (map (λ s. s.id) sheets.now) }
        requires from { from < length sheets.now }
        requires to { to < length sheets.now }
        requires before { (id : ℕ) → index_at id self.old.list.items
            ≡ option_map (moved_index to from) (index_with_id id sheets.now) }
        ensures { (id : ℕ) → index_at id self.new.list.items ≡ index_with_id id sheets.now }
    {
        let first = from.min(to);
        let end = from.max(to) + 1;
        if end - first <= sheets.len() / SPOTS_PER_SEARCH {
            self.renumber(sheets, first, end);
        } else {
            move_all(&mut self.list, from, to);
        }
    }

    /// Each of the sheets from one index up to another, both from 0, gets its index, where it has one.
    fn renumber(&mut self, sheets: &[Boxed<Sheet>], from: usize, to: usize)
        requires differ { IsDistinct nat_eq (map (λ s. s.id) sheets.now) }
        requires ordered { from ≤ to }
        requires within { to ≤ length sheets.now }
        ensures { (id : ℕ) → index_at id self.new.list.items
            ≡ renumbered from to (index_with_id id sheets.now) (index_at id self.old.list.items) }
    {
        for index in from..to {
            self.replace(sheets[index].as_ref().id, index);
        }
    }

    /// Puts another index in at an id, where there is one.
    fn replace(&mut self, id: u32, index: usize)
        ensures { (q : ℕ) → index_at q self.new.list.items
            ≡ (if nat_eq id q then option_map (λ had. index) (index_at q self.old.list.items)
            else index_at q self.old.list.items) }
    {
        if let Some(place) = found(&self.list, id) {
            self.list[place].index = index;
        }
    }
}

/// The indexes of sheets, in the order of the sheets.
fn listed(alloc: Global, sheets: &[Boxed<Sheet>]) -> Result<Vec<Spot>, OutOfMemory>
    ensures { IfOk result (λ list. list.items ≡ spots_from 0 sheets.now) }
{
    let mut list = Vec::new(alloc);
    for (index, sheet) in sheets.iter().enumerate() {
        let id = sheet.as_ref().id;
        list.push(Spot { id, index })?;
    }
    Ok(list)
}

/// Whether the id of each is higher than that of the one before.
fn do_rise(spots: &[Spot]) -> bool
    ensures { Decides result (Rise 0 spots.now) }
{
    for place in 1..spots.len() {
        if spots[place - 1].id >= spots[place].id {
            return false;
        }
    }
    true
}

/// How many have a lower id.
fn place_of(spots: &[Spot], id: u32) -> usize
    requires { Rise 0 spots.now }
    ensures within { result ≤ length spots.now }
    ensures below { AllWithin (λ s. s.id < id) spots.now 0 result }
    ensures above { AllWithin (λ s. id ≤ s.id) spots.now result (length spots.now) }
{
    spots.partition_point(|spot| spot.id < id)
}

/// The one at this id. None exactly where there is none.
fn found(spots: &[Spot], id: u32) -> Option<usize>
    requires { Rise 0 spots.now }
    ensures { MatchOption result (index_at id spots.now ≡ None)
        (λ k. (k < length spots.now) × HoldsAt (λ s. s.id ≡ id) spots.now k) }
{
    let place = place_of(spots, id);
    if place == spots.len() {
        return None;
    }
    if spots[place].id == id {
        Some(place)
    } else {
        None
    }
}

/// All indexes after this one are lowered by one.
fn lower_all(spots: &mut Vec<Spot>, index: usize)
    ensures { spots.new.items ≡ with_indexes (lowered index) spots.old.items }
{
    for place in 0..spots.len() {
        let spot = &mut spots[place];
        spot.index = lowered(spot.index, index);
    }
}

/// All indexes follow the sheet that is put from one to another.
fn move_all(spots: &mut Vec<Spot>, from: usize, to: usize)
    ensures { spots.new.items ≡ with_indexes (moved_index from to) spots.old.items }
{
    for place in 0..spots.len() {
        let spot = &mut spots[place];
        spot.index = moved_index(spot.index, from, to);
    }
}

/// An index, lowered by one where it is past this one.
fn lowered(place: usize, index: usize) -> usize
    ensures { result ≡ lowered index place }
{
    if place > index { place - 1 } else { place }
}

/// Where the sheet at an index stands after the one at `from` was put to `to`.
fn moved_index(place: usize, from: usize, to: usize) -> usize
    ensures { result ≡ moved_index from to place }
{
    if place == from {
        return to;
    }
    if place > from {
        return if place - 1 < to { place - 1 } else { place };
    }
    if place < to { place } else { place + 1 }
}
