//! What is noted of an error beside its kind.
ghost use Rattle.std.specs.Prelude.{◌≡◌, IfOk, chars};
ghost use Rattle.ic_cells.specs.Note.{no_note};

use ic_laws::{Boxed, OutOfMemory, Text};
use std::alloc::Global;
use std::marker::Model;

/// The place where an error arose (`o`) and what to say of it (`m`). Neither is shown.
#[derive(Drop)]
pub struct ErrorTexts {
    pub o: Text,
    pub m: Text,
}

/// Both texts, of one word's size and a mark, since each cell has room for the widest value. Contracts see the texts; those
/// of `empty` take no memory.
#[derive(Drop)]
pub struct ErrorNote {
    inner: Option<Boxed<ErrorTexts>>,
}

impl Model for ErrorNote {
    ghost use Rattle.ic_cells.specs.declared.note.ErrorTexts.{ErrorTexts};
    ghost use Rattle.ic_cells.specs.Note.{noted};

    ghost Value = { ErrorTexts };

    ghost view = { λ n. noted n.inner };
}

impl ErrorNote {
    /// Two empty texts. It takes no memory.
    pub fn empty() -> ErrorNote
        ensures { result ≡ no_note }
    {
        ErrorNote { inner: None }
    }

    /// These texts. Only memory can be missing.
    pub fn new(alloc: Global, o: Text, m: Text) -> Result<ErrorNote, OutOfMemory>
        ensures { IfOk result (λ n. n ≡ record { o = o; m = m }) }
    {
        let texts = Boxed::new(alloc, ErrorTexts { o, m })?;
        Ok(ErrorNote { inner: Some(texts) })
    }

    /// The place where the error arose.
    #[tactic(auto, using(crate::proofs::Literals::literals))]
    pub fn o(&self) -> &str
        ensures { chars result.now ≡ self.now.o }
    {
        match &self.inner {
            Some(texts) => texts.as_ref().o.as_str(),
            None => "",
        }
    }

    /// What to say of the error.
    #[tactic(auto, using(crate::proofs::Literals::literals))]
    pub fn m(&self) -> &str
        ensures { chars result.now ≡ self.now.m }
    {
        match &self.inner {
            Some(texts) => texts.as_ref().m.as_str(),
            None => "",
        }
    }

    /// A copy. Only memory can be missing; one of `empty` takes none.
    pub fn copy(&self, alloc: Global) -> Result<ErrorNote, OutOfMemory>
        ensures { IfOk result (λ n. n ≡ self.now) }
    {
        match &self.inner {
            Some(texts) => {
                let texts = texts.as_ref();
                let o = Text::from_str(alloc, texts.o.as_str())?;
                let m = Text::from_str(alloc, texts.m.as_str())?;
                ErrorNote::new(alloc, o, m)
            }
            None => Ok(ErrorNote::empty()),
        }
    }
}
