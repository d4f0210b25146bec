//! What a formula mentions, each thing told by a number, its topic: a sheet by its id, and a name by its folded characters,
//! whether it was found or not.
ghost use Rattle.std.specs.Prelude.{◌≡◌, ◌<◌, ◌^◌, ◌++◌, chars, flat_map, map, OnOk};
ghost use Rattle.ic_laws.specs.declared.tree.NameMention.{NameMention};
ghost use Rattle.ic_laws.specs.declared.tree.SheetMention.{SheetMention};
ghost use Rattle.ic_pool.specs.Topics.{all_mixed, folded_topic, mixed, name_topic, sheet_topic, sheet_topics, topics_in, tree_topics, word_topics};
ghost use Rattle.ucd_case.specs.CaseFolding.{full_fold};

use ic_laws::scan::first_char;
use ic_laws::{Bound, Formula, LetPair, NameMention, OutOfMemory, SheetMention, Tree};
use ucd_case::full_folding;

/// The topics of names stand past those of sheets.
const NAMES: u64 = 4_294_967_296;

/// The numbers into which characters are mixed are below this one.
const MIXED: u64 = 1_099_511_627_776;

/// A number with a character mixed in.
#[tactic(auto, unfolding(crate::specs::Topics::mixed))]
fn mixed(number: u64, c: char) -> u64
    requires { number < 2 ^ 40 }
    ensures value { result ≡ mixed number c }
    ensures small { result < 2 ^ 40 }
{
    (number * 1_000_003 + u64::from(c)) % MIXED
}

/// A number with the folding of a character mixed in.
fn mixed_folding(number: u64, c: char) -> u64
    requires { number < 2 ^ 40 }
    ensures value { result ≡ all_mixed number (full_fold c) }
    ensures small { result < 2 ^ 40 }
{
    let folding = full_folding(c);
    if folding.is_empty() {
        return mixed(number, c);
    }
    let mut out = number;
    for folded in folding {
        out = mixed(out, *folded);
    }
    out
}

/// The topic of a sheet, by its id.
pub fn sheet_topic(id: u32) -> u64
    ensures { result ≡ sheet_topic id }
{
    u64::from(id)
}

/// The topic of a folded name.
pub fn folded_topic(folded: &str) -> u64
    ensures { result ≡ folded_topic (chars folded.now) }
{
    let mut out = 0;
    let mut rest = folded;
    while let Some((c, after)) = first_char(rest) {
        out = mixed(out, c);
        rest = after;
    }
    NAMES + out
}

/// The topic of a name, in whatever case it is written.
pub fn name_topic(name: &str) -> u64
    ensures { result ≡ name_topic (chars name.now) }
{
    let mut out = 0;
    let mut rest = name;
    while let Some((c, after)) = first_char(rest) {
        out = mixed_folding(out, c);
        rest = after;
    }
    NAMES + out
}

/// Puts the topics of what a formula mentions behind these.
pub fn push_topics(topics: &mut Vec<u64>, formula: &Formula) -> Result<(), OutOfMemory>
    ensures { OnOk result (topics.new.items ≡ topics.old.items ++ topics_in formula.now) }
{
    match formula {
        Formula::Tree(tree) => push_of_tree(topics, tree),
        Formula::Raw(_) => Ok(()),
    }
}

/// Puts the topics of what a tree mentions behind these.
#[cycle(push_topics)]
fn push_of_tree(topics: &mut Vec<u64>, tree: &Bound) -> Result<(), OutOfMemory>
    ensures { OnOk result (topics.new.items ≡ topics.old.items ++ tree_topics tree.now) }
{
    match tree {
        Tree::Reference(sheet, _) => push_of_sheet(topics, sheet),
        Tree::Local(sheet, word) => {
            push_of_sheet(topics, sheet)?;
            push_of_word(topics, word)
        }
        Tree::Word(word) => push_of_word(topics, word),
        Tree::Paren(x) => push_of_tree(topics, x.as_ref()),
        Tree::Prefix(_, x) => push_of_tree(topics, x.as_ref()),
        Tree::Percent(x) => push_of_tree(topics, x.as_ref()),
        Tree::Spill(x) => push_of_tree(topics, x.as_ref()),
        Tree::Binary(_, a, b) => {
            push_of_tree(topics, a.as_ref())?;
            push_of_tree(topics, b.as_ref())
        }
        Tree::Fun(_, arguments) => push_of_all(topics, arguments.as_slice()),
        Tree::Call(word, arguments) => {
            push_of_word(topics, word.as_ref())?;
            push_of_all(topics, arguments.as_slice())
        }
        Tree::Let(pairs, body) => {
            push_of_values(topics, pairs.as_slice())?;
            push_of_tree(topics, body.as_ref())
        }
        Tree::Lambda(_, body) => push_of_tree(topics, body.as_ref()),
        Tree::Apply(x, arguments) => {
            push_of_tree(topics, x.as_ref())?;
            push_of_all(topics, arguments.as_slice())
        }
        _ => Ok(()),
    }
}

/// Puts the topics of what these trees mention behind these.
#[cycle(push_topics)]
fn push_of_all(topics: &mut Vec<u64>, trees: &[Bound]) -> Result<(), OutOfMemory>
    ensures { OnOk result (topics.new.items
        ≡ topics.old.items ++ flat_map (λ ts. ts) (map tree_topics trees.now)) }
{
    for tree in trees {
        push_of_tree(topics, tree)?;
    }
    Ok(())
}

/// Puts the topics of what the values of these variables mention behind these.
#[cycle(push_topics)]
fn push_of_values(
    topics: &mut Vec<u64>,
    pairs: &[LetPair<SheetMention, NameMention>],
) -> Result<(), OutOfMemory>
    ensures { OnOk result (topics.new.items ≡ topics.old.items
        ++ flat_map (λ ts. ts) (map (λ pair. tree_topics pair.value) pairs.now)) }
{
    for pair in pairs {
        push_of_tree(topics, &pair.value)?;
    }
    Ok(())
}

/// Puts the topic of a reference's sheet behind these, where that isn't the formula's own.
fn push_of_sheet(topics: &mut Vec<u64>, mention: &SheetMention) -> Result<(), OutOfMemory>
    ensures { OnOk result (topics.new.items ≡ topics.old.items ++ sheet_topics mention.now) }
{
    match mention {
        SheetMention::Own => {}
        SheetMention::Sheet(id) => topics.push(sheet_topic(*id))?,
        SheetMention::Dangling(name) => topics.push(name_topic(name.as_ref().as_str()))?,
    }
    Ok(())
}

/// Puts the topic of a word behind these, where it is no variable.
fn push_of_word(topics: &mut Vec<u64>, mention: &NameMention) -> Result<(), OutOfMemory>
    ensures { OnOk result (topics.new.items ≡ topics.old.items ++ word_topics mention.now) }
{
    match mention {
        NameMention::Var(_) => {}
        NameMention::Name(key) => topics.push(folded_topic(key.as_ref().name.as_str()))?,
        NameMention::Dangling(word) => topics.push(name_topic(word.as_ref().as_str()))?,
    }
    Ok(())
}
