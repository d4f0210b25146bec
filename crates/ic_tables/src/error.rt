use ic_laws::OutOfMemory;
use thiserror::Error;

/// Why `Tables::new` made no tables.
#[derive(Clone, Copy, Debug, Error)]
pub enum TablesError {
    /// The number of the first condition that fails, from 1.
    #[error("BadTables")]
    BadTables(u8),
    #[error("OutOfMemory")]
    OutOfMemory,
}

impl From<OutOfMemory> for TablesError {
    ghost use Rattle.std.specs.Prelude.{◌≡◌};
    ghost use Rattle.ic_tables.specs.declared.error.TablesError.TheVariants as variants;

    ghost from_gives = { λ _ e. e ≡ variants.OutOfMemory };

    fn from(_: OutOfMemory) -> TablesError {
        TablesError::OutOfMemory
    }
}

/// Why a look-up by an id found nothing.
#[derive(Clone, Copy, Debug, Error)]
pub enum BookIdError {
    /// No language has the code.
    #[error("Language is not supported")]
    InvalidLanguage,
    /// No locale has the id.
    #[error("Invalid locale")]
    InvalidLocale,
}
