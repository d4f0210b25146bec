//! The formulas of one sheet, each where a cell first used it, and what a change of the sheets or the definitions does to
//! a formula. Two that a change makes equal both stay.
//! `Pool` keeps them in their places. `IsPlaced` of `place` is its promise: an equal formula is found at its first place,
//! a new one is put at the end, and nothing else moves. It looks formulas up by their keys, and `law_code_determines`
//! says that equal keys are keys of equal formulas. `prepare` makes ready a change of all formulas, `made` says to what, and
//! `apply` then can't fail. The four changes are `SheetNamed`, `SheetGone`, `DefinitionAdded` and `DefinitionGone`;
//! `changed_formula` says what one makes of a formula. A `Remaking` makes formulas anew by a rule of the caller's:
//! `prepare_remade` makes that ready; a `FormulaTest` is a test of the caller's, and `has_passing` tells whether a formula
//! passes. A pool has an index from what its formulas mention, told by topics, so each change
//! and each rule names the topics that it is about. `places_of_sheet` and `places_of_name` tell by it where a sheet or a
//! definition is mentioned.
#![tactic(auto)]

mod changes;
mod code;
mod copies;
mod hashed;
mod key;
mod law;
mod look_up;
mod mention_index;
mod mentions;
mod pool;
mod remaking;
mod same;
mod steps;
mod testing;
mod topics;

pub use changes::{
    BookChange, DefinitionAdded, DefinitionGone, SheetGone, SheetNamed, changed_formula, same_key,
    same_scope,
};
pub use code::key_of;
pub use copies::{copy_formula, copy_key};
pub use hashed::HashedKey;
pub use key::Key;
pub use law::law_code_determines;
pub use mention_index::MentionIndex;
pub use mentions::has_dangling;
pub use pool::{Pool, Replacement, Rewrites, mentions_name, mentions_sheet};
pub use remaking::{Remaking, remade_formula};
pub use steps::Steps;
pub use testing::FormulaTest;
pub use topics::folded_topic;
