//! Why a question has no answer.

use thiserror::Error;

/// Why it isn't told who mentions something. Each displays its name.
#[derive(Debug, Drop, Error)]
pub enum AuditError {
    /// No sheet stands at the index.
    #[error("NoSuchSheet")]
    NoSuchSheet,
    /// No sheet stands at the index that the definition is to be local to, or there is no such definition.
    #[error("NoSuchName")]
    NoSuchName,
    /// Memory ran out.
    #[error("OutOfMemory")]
    OutOfMemory,
}
