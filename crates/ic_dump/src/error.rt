//! Why a book has no lines.

use ic_book::MentionSite;
use ic_laws::{NameKey, OutOfMemory};
use std::fmt;
use thiserror::Error;

/// Why no lines rebuild a book. Each displays its name.
#[derive(Drop, Error)]
pub enum DumpError {
    /// The body of the definition with this key is a text that doesn't read.
    #[error("RawBody")]
    RawBody(NameKey),
    /// The formula in this cell is a text that doesn't read, but would in English, or has nothing in it.
    #[error("Rereads")]
    Rereads(MentionSite),
    /// Memory ran out.
    #[error("OutOfMemory")]
    OutOfMemory,
}

impl fmt::Debug for DumpError {
    fn fmt<W: fmt::Write>(&self, f: &mut fmt::Formatter<W>) -> fmt::Result {
        match self {
            Self::RawBody(key) => write!(f, "RawBody {:?} {:?}", key.name, key.scope),
            Self::Rereads(site) => write!(f, "Rereads {site:?}"),
            Self::OutOfMemory => write!(f, "OutOfMemory"),
        }
    }
}

impl From<OutOfMemory> for DumpError {
    ghost use Rattle.std.specs.Prelude.{◌≡◌};
    ghost use Rattle.ic_dump.specs.declared.error.DumpError.TheVariants as errors;

    ghost from_gives = { λ _ e. e ≡ errors.OutOfMemory };

    fn from(_: OutOfMemory) -> DumpError {
        DumpError::OutOfMemory
    }
}
