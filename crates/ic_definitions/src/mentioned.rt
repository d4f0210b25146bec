//! What the bodies of definitions mention, each thing told by its topic.
ghost use Rattle.std.specs.Prelude.{◌≡◌, [], ◌∷◌, chars, false, flat_map, map, OnOk};
ghost use Rattle.std.specs.List.{AllByRecursion};
ghost use Rattle.ic_laws.specs.declared.tree.Formula.{Formula};
ghost use Rattle.ic_definitions.specs.Mentioned.{HasMore, KnowsBodies, KnowsFormula};
ghost use Rattle.ic_pool.specs.Topics.{mentions_some, name_topic, sheet_topics, topics_in, tree_topics, word_topics};

use crate::definition::fold_name;
use crate::{Definition, NewBody};
use ic_laws::{Bound, Formula, LetPair, NameMention, OutOfMemory, SheetMention, Tree};
use ic_pool::folded_topic;
use std::alloc::Global;
use std::collections::BTreeSet;

/// So many notes more are never too many.
const FEW: usize = 1024;

/// The topics of what bodies mention. It may have more than those: none is taken out when a body changes or goes.
pub struct Mentioned {
    alloc: Global,
    topics: BTreeSet<u64>,
    /// Where it is false, there was no memory for some topic.
    has_all: bool,
    /// How many bodies were noted since it was made.
    notes: usize,
}

impl Drop for Mentioned {
    fn drop(self) {
        let Self {
            alloc,
            topics,
            has_all: _,
            notes: _,
        } = self;
        drop(alloc);
        drop(topics);
    }
}

impl Mentioned {
    /// Of no bodies.
    pub fn new(alloc: Global) -> Mentioned {
        Mentioned {
            alloc,
            topics: BTreeSet::new(alloc),
            has_all: true,
            notes: 0,
        }
    }

    /// Of the bodies of these definitions.
    fn of(alloc: Global, definitions: &[Definition]) -> Mentioned
        ensures { KnowsBodies result definitions.now }
    {
        let mut mentioned = Mentioned::new(alloc);
        for definition in definitions {
            mentioned.note(definition.body());
        }
        mentioned
    }

    /// Notes what a body mentions. Where there is no memory for that, anything may be mentioned from then on.
    pub fn note(&mut self, body: &Formula)
        ensures noted { KnowsFormula self.new body.now }
        ensures kept { (other : Formula) → KnowsFormula self.old other
            → KnowsFormula self.new other }
    {
        match put_topics(self.alloc, &mut self.topics, body) {
            Ok(()) => self.notes = self.notes.saturating_add(1),
            Err(_) => self.has_all = false,
        }
    }

    /// Notes what these bodies mention.
    pub fn note_all(&mut self, bodies: &[NewBody])
        ensures noted { AllByRecursion (λ new. KnowsFormula self.new new.body) bodies.now }
        ensures kept { (other : Formula) → KnowsFormula self.old other
            → KnowsFormula self.new other }
    {
        for new in bodies {
            self.note(&new.body);
        }
    }

    /// Is made anew of the bodies of these definitions, where it lacks something or may have much too much.
    pub fn renew(&mut self, definitions: &[Definition])
        ensures { KnowsBodies self.old definitions.now → KnowsBodies self.new definitions.now }
    {
        if !self.has_all || self.notes / 2 > definitions.len().saturating_add(FEW) {
            *self = Mentioned::of(self.alloc, definitions);
        }
    }

    /// Whether a body may mention something with this topic: where not, none of those that it knows does.
    pub fn may_have(&self, topic: u64) -> bool
        ensures { result ≡ false → (body : Formula) → KnowsFormula self.now body
            → mentions_some (topic ∷ []) body ≡ false }
    {
        !self.has_all || self.topics.contains(&topic)
    }
}

/// Puts the topics of what a formula mentions into these.
fn put_topics(
    alloc: Global,
    topics: &mut BTreeSet<u64>,
    formula: &Formula,
) -> Result<(), OutOfMemory>
    ensures { OnOk result (HasMore topics.old topics.new (topics_in formula.now)) }
{
    match formula {
        Formula::Tree(tree) => put_of_tree(alloc, topics, tree),
        Formula::Raw(_) => Ok(()),
    }
}

/// Puts the topics of what a tree mentions into these.
#[cycle(put_of_tree)]
fn put_of_tree(alloc: Global, topics: &mut BTreeSet<u64>, tree: &Bound) -> Result<(), OutOfMemory>
    ensures { OnOk result (HasMore topics.old topics.new (tree_topics tree.now)) }
{
    match tree {
        Tree::Reference(sheet, _) => put_of_sheet(alloc, topics, sheet),
        Tree::Local(sheet, word) => {
            put_of_sheet(alloc, topics, sheet)?;
            put_of_word(alloc, topics, word)
        }
        Tree::Word(word) => put_of_word(alloc, topics, word),
        Tree::Paren(x) => put_of_tree(alloc, topics, x.as_ref()),
        Tree::Prefix(_, x) => put_of_tree(alloc, topics, x.as_ref()),
        Tree::Percent(x) => put_of_tree(alloc, topics, x.as_ref()),
        Tree::Spill(x) => put_of_tree(alloc, topics, x.as_ref()),
        Tree::Binary(_, a, b) => {
            put_of_tree(alloc, topics, a.as_ref())?;
            put_of_tree(alloc, topics, b.as_ref())
        }
        Tree::Fun(_, arguments) => put_of_all(alloc, topics, arguments.as_slice()),
        Tree::Call(word, arguments) => {
            put_of_word(alloc, topics, word.as_ref())?;
            put_of_all(alloc, topics, arguments.as_slice())
        }
        Tree::Let(pairs, body) => {
            put_of_values(alloc, topics, pairs.as_slice())?;
            put_of_tree(alloc, topics, body.as_ref())
        }
        Tree::Lambda(_, body) => put_of_tree(alloc, topics, body.as_ref()),
        Tree::Apply(x, arguments) => {
            put_of_tree(alloc, topics, x.as_ref())?;
            put_of_all(alloc, topics, arguments.as_slice())
        }
        _ => Ok(()),
    }
}

/// Puts the topics of what these trees mention into these.
#[cycle(put_of_tree)]
fn put_of_all(alloc: Global, topics: &mut BTreeSet<u64>, trees: &[Bound]) -> Result<(), OutOfMemory>
    ensures { OnOk result (HasMore topics.old topics.new
        (flat_map (λ ts. ts) (map tree_topics trees.now))) }
{
    for tree in trees {
        put_of_tree(alloc, topics, tree)?;
    }
    Ok(())
}

/// Puts the topics of what the values of these variables mention into these.
#[cycle(put_of_tree)]
fn put_of_values(
    alloc: Global,
    topics: &mut BTreeSet<u64>,
    pairs: &[LetPair<SheetMention, NameMention>],
) -> Result<(), OutOfMemory>
    ensures { OnOk result (HasMore topics.old topics.new
        (flat_map (λ ts. ts) (map (λ pair. tree_topics pair.value) pairs.now))) }
{
    for pair in pairs {
        put_of_tree(alloc, topics, &pair.value)?;
    }
    Ok(())
}

/// Puts the topic of a reference's sheet into these, where that isn't the formula's own.
fn put_of_sheet(
    alloc: Global,
    topics: &mut BTreeSet<u64>,
    mention: &SheetMention,
) -> Result<(), OutOfMemory>
    ensures { OnOk result (HasMore topics.old topics.new (sheet_topics mention.now)) }
{
    match mention {
        SheetMention::Own => Ok(()),
        SheetMention::Sheet(id) => put_topic(topics, u64::from(*id)),
        SheetMention::Dangling(name) => put_name(alloc, topics, name.as_ref().as_str()),
    }
}

/// Puts the topic of a word into these, where it is no variable.
fn put_of_word(
    alloc: Global,
    topics: &mut BTreeSet<u64>,
    mention: &NameMention,
) -> Result<(), OutOfMemory>
    ensures { OnOk result (HasMore topics.old topics.new (word_topics mention.now)) }
{
    match mention {
        NameMention::Var(_) => Ok(()),
        NameMention::Name(key) => put_topic(topics, folded_topic(key.as_ref().name.as_str())),
        NameMention::Dangling(word) => put_name(alloc, topics, word.as_ref().as_str()),
    }
}

/// Puts the topic of a name into these, in whatever case it is written.
fn put_name(alloc: Global, topics: &mut BTreeSet<u64>, name: &str) -> Result<(), OutOfMemory>
    ensures { OnOk result (HasMore topics.old topics.new (name_topic (chars name.now) ∷ [])) }
{
    let folded = fold_name(alloc, name)?;
    put_topic(topics, folded_topic(folded.as_str()))
}

/// Puts a topic into these.
fn put_topic(topics: &mut BTreeSet<u64>, topic: u64) -> Result<(), OutOfMemory>
    ensures { OnOk result (HasMore topics.old topics.new (topic ∷ [])) }
{
    topics.insert(topic)?;
    Ok(())
}
