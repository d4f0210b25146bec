//! Tests of what a formula mentions. None of them takes memory.
ghost use Rattle.std.specs.Prelude.{◌≡◌, Bool, map};
ghost use Rattle.std.specs.List.{list_any};
ghost use Rattle.ic_laws.specs.Mentions.{some_mention};
ghost use Rattle.ic_laws.specs.declared.tree.NameMention.{NameMention};
ghost use Rattle.ic_laws.specs.declared.tree.SheetMention.{SheetMention};
ghost use Rattle.ic_pool.specs.Mentions.{has_dangling, is_dangling_word, some_in};

use ic_laws::{Bound, Formula, LetPair, NameMention, SheetMention, Tree};

/// A test of single mentions.
pub trait MentionTest {
    ghost is_sheet: { Self → SheetMention → Bool };

    ghost is_word: { Self → NameMention → Bool };

    ghost is_local: { Self → SheetMention → NameMention → Bool };

    /// Whether the sheet of a reference passes.
    fn sheet(&self, mention: &SheetMention) -> bool
        ensures { result ≡ is_sheet self.now mention.now };

    /// Whether a word passes.
    fn word(&self, mention: &NameMention) -> bool
        ensures { result ≡ is_word self.now mention.now };

    /// Whether a word with its sheet passes, whatever is said of the sheet alone.
    fn local(&self, sheet: &SheetMention, mention: &NameMention) -> bool
        ensures { result ≡ is_local self.now sheet.now mention.now };
}

/// Whether some mention of a formula passes a test.
#[cycle(some_mention)]
pub fn some_mention<T: MentionTest>(test: &T, tree: &Bound) -> bool
    ensures { result ≡ some_mention (T.is_sheet test.now) (T.is_word test.now)
        (T.is_local test.now) tree.now }
{
    match tree {
        Tree::Reference(sheet, _) => test.sheet(sheet),
        Tree::Local(sheet, word) => test.sheet(sheet) || test.local(sheet, word),
        Tree::Word(word) => test.word(word),
        Tree::Paren(x) => some_mention(test, x.as_ref()),
        Tree::Prefix(_, x) => some_mention(test, x.as_ref()),
        Tree::Percent(x) => some_mention(test, x.as_ref()),
        Tree::Spill(x) => some_mention(test, x.as_ref()),
        Tree::Binary(_, a, b) => {
            some_mention(test, a.as_ref()) || some_mention(test, b.as_ref())
        }
        Tree::Fun(_, arguments) => some_of_all(test, arguments.as_slice()),
        Tree::Call(word, arguments) => test.word(word.as_ref())
            || some_of_all(test, arguments.as_slice()),
        Tree::Let(pairs, body) => {
            some_of_values(test, pairs.as_slice()) || some_mention(test, body.as_ref())
        }
        Tree::Lambda(_, body) => some_mention(test, body.as_ref()),
        Tree::Apply(x, arguments) => {
            some_mention(test, x.as_ref()) || some_of_all(test, arguments.as_slice())
        }
        _ => false,
    }
}

/// Whether some mention of one of these formulas passes.
#[cycle(some_mention)]
fn some_of_all<T: MentionTest>(test: &T, trees: &[Bound]) -> bool
    ensures { result ≡ list_any (λ b. b) (map (some_mention (T.is_sheet test.now)
        (T.is_word test.now) (T.is_local test.now)) trees.now) }
{
    for tree in trees {
        if some_mention(test, tree) {
            return true;
        }
    }
    false
}

/// Whether some mention in the values of these variables passes.
#[cycle(some_mention)]
fn some_of_values<T: MentionTest>(test: &T, pairs: &[LetPair<SheetMention, NameMention>]) -> bool
    ensures { result ≡ list_any (λ b. b) (map (λ pair. some_mention (T.is_sheet test.now)
        (T.is_word test.now) (T.is_local test.now) pair.value) pairs.now) }
{
    for pair in pairs {
        if some_mention(test, &pair.value) {
            return true;
        }
    }
    false
}

/// A mention that found nothing.
#[derive(Drop)]
struct IsDangling;

impl MentionTest for IsDangling {
    ghost use Rattle.ic_pool.specs.Mentions.{is_dangling, is_dangling_local, is_dangling_word};

    ghost is_sheet = { λ test mention. is_dangling mention };

    ghost is_word = { λ test mention. is_dangling_word mention };

    ghost is_local = { λ test sheet mention. is_dangling_local sheet mention };

    fn sheet(&self, mention: &SheetMention) -> bool {
        match mention {
            SheetMention::Dangling(_) => true,
            _ => false,
        }
    }

    fn word(&self, mention: &NameMention) -> bool {
        is_dangling_word(mention)
    }

    fn local(&self, _sheet: &SheetMention, mention: &NameMention) -> bool {
        is_dangling_word(mention)
    }
}

/// Whether a word found nothing.
fn is_dangling_word(mention: &NameMention) -> bool
    ensures { result ≡ is_dangling_word mention.now }
{
    match mention {
        NameMention::Dangling(_) => true,
        _ => false,
    }
}

/// Whether some mention of a formula that reads passes a test; a text that doesn't read has none.
pub(crate) fn some_in<T: MentionTest>(test: &T, formula: &Formula) -> bool
    ensures { result ≡ some_in (T.is_sheet test.now) (T.is_word test.now) (T.is_local test.now)
        formula.now }
{
    match formula {
        Formula::Tree(tree) => some_mention(test, tree),
        Formula::Raw(_) => false,
    }
}

/// Whether some mention of a formula found nothing.
pub fn has_dangling(formula: &Formula) -> bool
    ensures { result ≡ has_dangling formula.now }
{
    some_in(&IsDangling, formula)
}
