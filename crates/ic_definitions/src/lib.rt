//! The definitions of a book in their order, found by their keys without a search.
//! `NamedDefinitions` are definitions with what finds them by their keys, a map of the caller's. They answer what the scene
//! of these definitions finds (`find`, `key_at`, `name_of`, `index_of`). `Definitions` keeps up with definitions that come and
//! go (`add`, `delete`), which change the map and the bodies of the others too, and with sheets that do: `prepare` makes ready
//! what a change does to all bodies, `made` says to what, and `apply` then can't fail. It knows the topics of what the bodies
//! mention, so where none mentions what a change is about it looks at none. Bodies that a rule of the caller's
//! makes anew are made ready by `prepare_remade`; `append` and `update` take what was prepared. What would be found among
//! definitions that are yet to come, `BothDefinitions` and `UpdatedDefinitions` tell.
#![tactic(auto)]

mod bodies;
mod definition;
mod definitions;
mod finders;
mod mentioned;

pub use bodies::{BodyRewrites, NewBody};
pub use definition::Definition;
pub use definitions::{Definitions, NamedDefinitions};
pub use finders::{BothDefinitions, UpdatedDefinitions};
