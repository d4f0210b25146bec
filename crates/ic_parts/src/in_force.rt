//! The notation in force.
ghost use Rattle.std.specs.Prelude.{◌≡◌, Some, codes, option_map, true};
ghost use Rattle.ic_tables.specs.Tables.{HasGoodFormats, HasGoodWords, language_of, locale_of};
ghost use Rattle.ic_tables.specs.Words.{has_stored_words};

use ic_tables::{Language, Locale, NamedLocale, Tables};
use std::marker::Model;

/// The tables, and their entries of the locale and the language in force.
#[derive(Drop)]
pub struct Notation<'a> {
    tables: &'a Tables,
    locale: &'a NamedLocale,
    language: &'a Language,
}

impl<'a> Model for Notation<'a> {
    ghost use Rattle.ic_parts.specs.Book.{NotationState};

    ghost Value = { NotationState };

    ghost use Rattle.std.specs.Prelude.{◌≡◌, Some};
    ghost use Rattle.ic_tables.specs.Tables.{language_of, locale_of};

    ghost view = { λ n. record {
      tables = n.tables.now;
      locale = n.locale.now.id;
      language = n.language.now.code;
    } };

    ghost invariant = { λ n. (locale_of n.tables.now n.locale.now.id ≡ Some n.locale.now)
        × (language_of n.tables.now n.language.now.code ≡ Some n.language.now) };
}

impl<'a> Notation<'a> {
    /// The notation of these tables with these of their entries in force.
    pub fn new(tables: &'a Tables, locale: &'a NamedLocale, language: &'a Language) -> Notation<'a>
        requires locale { locale_of tables.now locale.now.id ≡ Some locale.now }
        requires language { language_of tables.now language.now.code ≡ Some language.now }
        ensures { result ≡ record {
          tables = tables.now;
          locale = locale.now.id;
          language = language.now.code;
        } }
    {
        Notation {
            tables,
            locale,
            language,
        }
    }

    /// The tables that texts are read and shown by.
    pub fn tables(&self) -> &'a Tables
        ensures { result.now ≡ self.now.tables }
    {
        self.tables
    }

    /// The locale in force, beside its id.
    pub fn locale(&self) -> &'a NamedLocale
        ensures id { result.now.id ≡ self.now.locale }
        ensures found { locale_of self.now.tables self.now.locale ≡ Some result.now }
    {
        self.locale
    }

    /// The language in force.
    pub fn language(&self) -> &'a Language
        ensures code { result.now.code ≡ self.now.language }
        ensures found { language_of self.now.tables self.now.language ≡ Some result.now }
    {
        self.language
    }

    /// The language `en`, which is always there.
    pub fn get_default_language(&self) -> &'a Language
        ensures found { language_of self.now.tables (codes "en") ≡ Some result.now }
        ensures words { HasGoodWords self.now.tables result.now }
        ensures stored { has_stored_words result.now ≡ true }
    {
        self.tables.get_default_language()
    }

    /// The locale `en`, which is always there.
    pub fn get_default_locale(&self) -> &'a Locale
        ensures found { option_map (λ n. n.locale) (locale_of self.now.tables (codes "en"))
            ≡ Some result.now }
        ensures formats { HasGoodFormats self.now.tables result.now }
    {
        self.tables.get_default_locale()
    }

    /// Puts a locale of the tables in force.
    pub fn put_locale(&mut self, locale: &'a NamedLocale)
        requires { locale_of self.old.tables locale.now.id ≡ Some locale.now }
        ensures { self.new ≡ record self.old { locale = locale.now.id } }
    {
        self.locale = locale;
    }

    /// Puts a language of the tables in force.
    pub fn put_language(&mut self, language: &'a Language)
        requires { language_of self.old.tables language.now.code ≡ Some language.now }
        ensures { self.new ≡ record self.old { language = language.now.code } }
    {
        self.language = language;
    }
}
