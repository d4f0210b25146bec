ghost use Rattle.std.specs.Prelude.{List, Option, Some, ℕ, ◌↔◌, ◌≡◌};
ghost use Rattle.ic_laws.specs.Binding.{IsSettled, RespectsFolding, bound};
ghost use Rattle.ic_laws.specs.NextToken.{tokens_of};
ghost use Rattle.ic_laws.specs.ReadAs.{read_as};
ghost use Rattle.ic_laws.specs.Reading.{Fits, IsWell, Reads, printed};
ghost use Rattle.ic_laws.specs.Scene.{KeysDiffer, SheetsDiffer};
ghost use Rattle.ic_laws.specs.Token.{Lexes, Token};
ghost use Rattle.ic_laws.specs.Tree.{Spelled};
ghost use Rattle.ic_laws.specs.Yield.{yield};
ghost use Rattle.ic_laws.specs.declared.scene.Scene.{Scene};
ghost use Rattle.ic_laws.specs.declared.tree.Formula.TheVariants as formulas;

use crate::Dialect;

/// A list of tokens is that of one formula at most: two well-formed formulas with the same tokens are equal.
pub fn law_yield_injective<D: Dialect>()
    ensures { (d : D) (s t : Spelled) → IsWell (D.meaning d) s → IsWell (D.meaning d) t
        → yield (D.meaning d) s ≡ yield (D.meaning d) t → s ≡ t }
{}

/// A text falls into tokens in one way at most.
pub fn law_lexes_unique<D: Dialect>()
    ensures { (d : D) (text : List ℕ) (ts us : List Token) → Lexes (D.meaning d) text ts
        → Lexes (D.meaning d) text us → ts ≡ us }
{}

/// The canonical text of a formula that fits falls into the tokens of the formula, by the relation and by the function.
pub fn law_lex_print<D: Dialect>()
    ensures { (d : D) (t : Spelled) → Fits (D.meaning d) t
        → Lexes (D.meaning d) (printed (D.meaning d) t) (yield (D.meaning d) t)
        × (tokens_of (D.meaning d) (printed (D.meaning d) t) ≡ Some (yield (D.meaning d) t)) }
{}

/// A formula that fits is read from its canonical text.
pub fn law_read_print<D: Dialect>()
    ensures { (d : D) (t : Spelled) → Fits (D.meaning d) t
        → Reads (D.meaning d) (printed (D.meaning d) t) t }
{}

/// A text reads as a formula exactly where the function that reads texts answers it. So it reads as one at most.
pub fn law_read_as<D: Dialect>()
    ensures { (d : D) (text : List ℕ) (t : Spelled) → Reads (D.meaning d) text t
        ↔ read_as (D.meaning d) text ≡ Some t }
{}

/// What is bound is settled: written out and bound again in the same scene, a bound formula is the same. The function
/// words must be told by folding alone, as those of every language are.
pub fn law_binding_settled()
    ensures { (english : List ℕ → Option ℕ) (scene : Scene) (scope : Option ℕ) → SheetsDiffer scene
        → KeysDiffer scene → RespectsFolding english → (t : Spelled)
        → IsSettled english scene scope (bound english scene scope t) }
{}
