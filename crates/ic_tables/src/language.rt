use ic_laws::{Items, Text};

/// A language in which formulas are shown and read.
pub struct Language {
    /// Its name, as `Spanish`.
    pub name: Text,
    /// Its code, as `es`.
    pub code: Text,
    pub booleans: Booleans,
    pub errors: Errors,
    pub functions: Functions,
}

impl Drop for Language {
    fn drop(self) {
        let Self {
            name,
            code,
            booleans,
            errors,
            functions,
        } = self;
        drop(name);
        drop(code);
        drop(booleans);
        drop(errors);
        drop(functions);
    }
}

/// The words of the two booleans.
pub struct Booleans {
    pub true_word: Text,
    pub false_word: Text,
}

impl Drop for Booleans {
    fn drop(self) {
        let Self {
            true_word,
            false_word,
        } = self;
        drop(true_word);
        drop(false_word);
    }
}

/// The words of the twelve error values.
pub struct Errors {
    pub ref_word: Text,
    pub name: Text,
    pub value: Text,
    pub div: Text,
    pub na: Text,
    pub num: Text,
    pub nimpl: Text,
    pub spill: Text,
    pub calc: Text,
    pub circ: Text,
    pub error: Text,
    pub null: Text,
}

impl Drop for Errors {
    fn drop(self) {
        let Self {
            ref_word,
            name,
            value,
            div,
            na,
            num,
            nimpl,
            spill,
            calc,
            circ,
            error,
            null,
        } = self;
        drop(ref_word);
        drop(name);
        drop(value);
        drop(div);
        drop(na);
        drop(num);
        drop(nimpl);
        drop(spill);
        drop(calc);
        drop(circ);
        drop(error);
        drop(null);
    }
}

/// The words of the functions: the word of function n stands at place n, from 0.
pub struct Functions {
    pub words: Items<Text>,
    /// The number of LET.
    pub let_fn: usize,
    /// The number of LAMBDA.
    pub lambda_fn: usize,
    /// The number of TRUE.
    pub true_fn: usize,
    /// The number of FALSE.
    pub false_fn: usize,
}

impl Drop for Functions {
    fn drop(self) {
        let Self {
            words,
            let_fn: _,
            lambda_fn: _,
            true_fn: _,
            false_fn: _,
        } = self;
        drop(words);
    }
}

/// How a function takes an argument of several cells.
#[derive(Clone, Copy)]
pub enum FunctionKind {
    /// As a whole, as SUM does.
    Whole,
    /// Cell by cell, as ABS does: the result has as many cells as the argument.
    Each,
    /// The result has several cells whatever the arguments are, as of SEQUENCE.
    Dynamic,
}
