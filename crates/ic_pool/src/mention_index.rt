//! Where formulas mention what.
ghost use Rattle.std.specs.Prelude.{◌≡◌, ◌≤◌, [], None, false, length, true, ℕ, IfOk, IfSome, OnOk, Some};
ghost use Rattle.std.specs.List.{insert};
ghost use Rattle.ic_pool.specs.MentionPlaces.{AreMerged, AscendFrom, HasAt, IsFirstOf, KeepsAll, KnowsAll, has_place, has_place_of, places_with};
ghost use Rattle.ic_pool.specs.Pool.{is_among};
ghost use Rattle.ic_pool.specs.Topics.{topics_in};

use crate::topics::push_topics;
use ic_laws::{Formula, OutOfMemory};
use std::alloc::Global;
use std::collections::BTreeMap;
use std::marker::Model;
use std::mem::swap;

/// So many notes more are never too many.
const FEW: usize = 1024;

/// Some numbers below 2^32, each once, in ascending order.
#[derive(Drop)]
struct Places {
    list: Vec<u32>,
}

impl Model for Places {
    ghost use Rattle.std.specs.Prelude.{List, ℕ};
    ghost use Rattle.ic_pool.specs.MentionPlaces.{AscendFrom};

    ghost Value = { List ℕ };

    ghost view = { λ p. p.list.items };

    ghost invariant = { λ p. AscendFrom 0 p.list.items };
}

impl Places {
    /// No place.
    fn new(alloc: Global) -> Places
        ensures { result ≡ [] }
    {
        Places {
            list: Vec::new(alloc),
        }
    }

    /// All of them.
    fn as_slice(&self) -> &[u32]
        ensures places { result.now ≡ self.now }
        ensures ascend { AscendFrom 0 result.now }
    {
        &self.list
    }

    /// The index, from 0, at which a place is to be put in. None where it is one of them. Most come behind the last one.
    fn index_for(&self, place: u32) -> Option<usize>
        ensures there { result ≡ None → is_among place self.now ≡ true }
        ensures within { IfSome result (λ index. index ≤ length self.now) }
        ensures ascend { IfSome result (λ index. AscendFrom 0 (insert self.now index place)) }
    {
        if is_past(&self.list, place) {
            return Some(self.list.len());
        }
        index_within(&self.list, place)
    }

    /// Puts a place in, where it isn't one of them. There is no memory for places from 2^32 on.
    fn note(&mut self, at: usize) -> Result<(), OutOfMemory>
        ensures noted { OnOk result (is_among at self.new ≡ true) }
        ensures kept { (other : ℕ) → is_among other self.old ≡ true
            → is_among other self.new ≡ true }
    {
        let Ok(place) = u32::try_from(at) else {
            return Err(OutOfMemory);
        };
        if let Some(index) = self.index_for(place) {
            self.list.insert(index, place)?;
        }
        Ok(())
    }
}

/// Whether a place is past the last of these, or there are none.
fn is_past(places: &[u32], place: u32) -> bool
    requires { AscendFrom 0 places.now }
    ensures { result ≡ true → AscendFrom 0 (insert places.now (length places.now) place) }
{
    match places.last() {
        Some(last) => *last < place,
        None => true,
    }
}

/// The index, from 0, at which a place is to be put in among these. None where it is one of them.
fn index_within(places: &[u32], place: u32) -> Option<usize>
    requires { AscendFrom 0 places.now }
    ensures there { result ≡ None → is_among place places.now ≡ true }
    ensures within { IfSome result (λ index. index ≤ length places.now) }
    ensures ascend { IfSome result (λ index. AscendFrom 0 (insert places.now index place)) }
{
    match places.binary_search(&place) {
        Ok(_) => None,
        Err(index) => Some(index),
    }
}

/// Topics, each with places.
struct TopicPlaces {
    alloc: Global,
    places: BTreeMap<u64, Places>,
}

impl Drop for TopicPlaces {
    fn drop(self) {
        let Self { alloc, places } = self;
        drop(alloc);
        drop(places);
    }
}

impl Model for TopicPlaces {
    ghost use Rattle.ic_pool.specs.MentionPlaces.{Noted};

    ghost Value = { Noted };

    ghost view = { λ t. t.places.entries };
}

impl TopicPlaces {
    /// No topics.
    fn new(alloc: Global) -> TopicPlaces
        ensures { (topic : ℕ) → (at : ℕ) → has_place result topic at ≡ false }
    {
        TopicPlaces {
            alloc,
            places: BTreeMap::new(alloc),
        }
    }

    /// Notes that something with this topic is mentioned at a place. `OutOfMemory` leaves what it had.
    fn put(&mut self, topic: u64, at: usize) -> Result<(), OutOfMemory>
        ensures noted { OnOk result (has_place self.new topic at ≡ true) }
        ensures kept { KeepsAll self.old self.new }
    {
        if let Some(places) = self.places.get_mut(&topic) {
            return places.note(at);
        }
        let mut places = Places::new(self.alloc);
        places.note(at)?;
        self.places.insert(topic, places)?;
        Ok(())
    }

    /// Notes that what these topics are of is mentioned at a place. `OutOfMemory` leaves what it had.
    fn put_all(&mut self, topics: &[u64], at: usize) -> Result<(), OutOfMemory>
        ensures noted { OnOk result (HasAt self.new at topics.now) }
        ensures kept { KeepsAll self.old self.new }
    {
        for topic in topics {
            self.put(*topic, at)?;
        }
        Ok(())
    }

    /// The places of a topic.
    fn places_with(&self, topic: u64) -> &[u32]
        ensures places { result.now ≡ places_with self.now topic }
        ensures ascend { AscendFrom 0 result.now }
    {
        match self.places.get(&topic) {
            Some(places) => places.as_slice(),
            None => &[],
        }
    }
}

/// For each topic the places of the formulas that mention it, from 0, or what else they are told by, as the ids of their
/// sheets. It may have more than those: none is taken out when a formula changes or goes.
pub struct MentionIndex {
    alloc: Global,
    places: TopicPlaces,
    /// How many topics the formulas as they came had, each with its own.
    count: usize,
    /// How many notes it has of formulas that changed since it was made.
    again: usize,
    /// The place at which topics were noted last.
    last_at: Option<usize>,
    /// Those topics.
    last: Vec<u64>,
    /// Room for the topics of the next formula.
    room: Vec<u64>,
}

impl Drop for MentionIndex {
    fn drop(self) {
        let Self {
            alloc,
            places,
            count: _,
            again: _,
            last_at: _,
            last,
            room,
        } = self;
        drop(alloc);
        drop(places);
        drop(last);
        drop(room);
    }
}

impl Model for MentionIndex {
    ghost use Rattle.ic_pool.specs.MentionPlaces.{KnowsLast, Noted};

    ghost Value = { Noted };

    ghost view = { λ m. m.places };

    ghost invariant = { λ m. KnowsLast m.places m.last_at m.last.items };
}

impl MentionIndex {
    /// No places.
    pub fn new(alloc: Global) -> MentionIndex
        ensures { (topic : ℕ) → (at : ℕ) → has_place result topic at ≡ false }
    {
        MentionIndex {
            alloc,
            places: TopicPlaces::new(alloc),
            count: 0,
            again: 0,
            last_at: None,
            last: Vec::new(alloc),
            room: Vec::new(alloc),
        }
    }

    /// Notes what a formula mentions, which comes to stand at a place, from 0. `OutOfMemory` leaves what it had.
    pub fn note(&mut self, at: usize, formula: &Formula) -> Result<(), OutOfMemory>
        ensures noted { OnOk result (HasAt self.new at (topics_in formula.now)) }
        ensures kept { KeepsAll self.old self.new }
    {
        self.note_at(at, formula)?;
        self.count = self.count.saturating_add(self.last.len());
        Ok(())
    }

    /// Notes what the formula at a place, from 0, mentions after it changed. `OutOfMemory` leaves what it had.
    pub fn note_again(&mut self, at: usize, formula: &Formula) -> Result<(), OutOfMemory>
        ensures noted { OnOk result (HasAt self.new at (topics_in formula.now)) }
        ensures kept { KeepsAll self.old self.new }
    {
        if self.note_at(at, formula)? {
            self.again = self.again.saturating_add(self.last.len());
        }
        Ok(())
    }

    /// Notes what the formula at a place, from 0, mentions. False where the one that was noted before it stands there too and
    /// mentions the same: then there is nothing to note.
    fn note_at(&mut self, at: usize, formula: &Formula) -> Result<bool, OutOfMemory>
        ensures noted { OnOk result (HasAt self.new at (topics_in formula.now)) }
        ensures kept { KeepsAll self.old self.new }
    {
        self.room.clear();
        push_topics(&mut self.room, formula)?;
        if is_at(self.last_at, at) && are_same(&self.last, &self.room) {
            return Ok(false);
        }
        self.places.put_all(&self.room, at)?;
        self.last_at = Some(at);
        swap(&mut self.last, &mut self.room);
        Ok(true)
    }

    /// What each of these formulas mentions.
    pub fn of(alloc: Global, formulas: &[Formula]) -> Result<MentionIndex, OutOfMemory>
        ensures { IfOk result (λ index. KnowsAll index formulas.now) }
    {
        let mut index = MentionIndex::new(alloc);
        for (at, formula) in formulas.iter().enumerate() {
            index.note(at, formula)?;
        }
        Ok(index)
    }

    /// Whether it has more notes of formulas that changed than the formulas as they came had topics: many of its places may
    /// then be places of what is mentioned there no more.
    pub fn is_stale(&self) -> bool {
        self.again > self.count.saturating_add(FEW)
    }

    /// The places of the formulas that mention something with one of these topics, and maybe others, each once, in ascending
    /// order.
    pub fn places_of(&self, topics: &[u64]) -> Result<Vec<usize>, OutOfMemory>
        ensures ascend { IfOk result (λ places. AscendFrom 0 places.items) }
        ensures all { IfOk result (λ places. (at : ℕ)
            → has_place_of self.now topics.now at ≡ true → is_among at places.items ≡ true) }
    {
        let mut places = Vec::new(self.alloc);
        for topic in topics {
            places = with_places(self.alloc, places, self.places_with(*topic))?;
        }
        Ok(places)
    }

    /// Whether it has no place of any of these topics. It takes no memory.
    pub fn has_none(&self, topics: &[u64]) -> bool
        ensures { result ≡ true → (at : ℕ) → has_place_of self.now topics.now at ≡ false }
    {
        for topic in topics {
            if !self.places_with(*topic).is_empty() {
                return false;
            }
        }
        true
    }

    /// The places of those that mention something with this topic, and maybe others, each once, in ascending order.
    pub fn places_with(&self, topic: u64) -> &[u32]
        ensures places { result.now ≡ places_with self.now topic }
        ensures ascend { AscendFrom 0 result.now }
    {
        self.places.places_with(topic)
    }
}

/// Whether this is the place.
fn is_at(place: Option<usize>, at: usize) -> bool
    ensures { result ≡ true → place ≡ Some at }
{
    match place {
        Some(place) => place == at,
        None => false,
    }
}

/// Whether these are the same topics in the same order.
fn are_same(one: &[u64], other: &[u64]) -> bool
    ensures { result ≡ true → one.now ≡ other.now }
{
    one == other
}

/// These places and more, where both ascend: each once, in ascending order.
fn with_places(alloc: Global, places: Vec<usize>, more: &[u32]) -> Result<Vec<usize>, OutOfMemory>
    requires places { AscendFrom 0 places.items }
    requires more { AscendFrom 0 more.now }
    ensures ascend { IfOk result (λ both. AscendFrom 0 both.items) }
    ensures merged { IfOk result (λ both. AreMerged places.items more.now both.items) }
{
    if more.is_empty() {
        return Ok(places);
    }
    merged(alloc, &places, more)
}

/// The places of two lists that ascend: each once, in ascending order.
fn merged(alloc: Global, one: &[usize], other: &[u32]) -> Result<Vec<usize>, OutOfMemory>
    requires one { AscendFrom 0 one.now }
    requires other { AscendFrom 0 other.now }
    ensures ascend { IfOk result (λ both. AscendFrom 0 both.items) }
    ensures merged { IfOk result (λ both. AreMerged one.now other.now both.items) }
{
    let mut both = Vec::new(alloc);
    let mut ones = one;
    let mut others = other;
    while let Some((at, ones_left, others_left)) = first_of(ones, others) {
        both.push(at)?;
        ones = ones_left;
        others = others_left;
    }
    Ok(both)
}

/// The first place of two lists that ascend, and what is left of each behind it.
fn first_of<'p>(one: &'p [usize], other: &'p [u32]) -> Option<(usize, &'p [usize], &'p [u32])>
    ensures none { result ≡ None → (one.now ≡ []) × (other.now ≡ []) }
    ensures first { IfSome result (λ f. IsFirstOf f.0 one.now other.now f.1.now f.2.now) }
{
    match (one.split_first(), other.split_first()) {
        (Some((a, ones)), Some((b, others))) => {
            let b = *b as usize;
            if *a < b {
                Some((*a, ones, other))
            } else if b < *a {
                Some((b, one, others))
            } else {
                Some((b, ones, others))
            }
        }
        (Some((a, ones)), None) => Some((*a, ones, other)),
        (None, Some((b, others))) => Some((*b as usize, one, others)),
        (None, None) => None,
    }
}
