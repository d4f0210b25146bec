ghost use Rattle.std.specs.Prelude.{◌≡◌, true, None, Some, chars, codes, is_some, map, option_map, string_bytes, IfOk, IfSome, MatchResult};
ghost use Rattle.std.specs.List.{slice_get};
ghost use Rattle.ic_tables.specs.Making.{Tells};
ghost use Rattle.ic_tables.specs.Words.{has_stored_words};
ghost use Rattle.ic_tables.specs.Tables.{TableSet, HasGoodFormats, HasGoodWords, IsWellFormed, first_failed, ids_of, language_of, locale_of, lists_zone};

use crate::conditions::check;
use crate::ids::{copy_ids, find_id, has_id};
use crate::languages::Languages;
use crate::{BookIdError, FunctionKind, Language, Locale, NamedLocale, TablesError, Words};
use ic_laws::{Items, OutOfMemory, Text};
use std::alloc::Global;
use std::marker::Model;

/// Languages, locales, zones and function kinds that meet every condition on tables.
pub struct Tables {
    alloc: Global,
    languages: Languages,
    locales: Items<NamedLocale>,
    zones: Items<Text>,
    kinds: Items<FunctionKind>,
}

impl Drop for Tables {
    fn drop(self) {
        let Self {
            alloc,
            languages,
            locales,
            zones,
            kinds,
        } = self;
        drop(alloc);
        drop(languages);
        drop(locales);
        drop(zones);
        drop(kinds);
    }
}

impl Model for Tables {
    ghost use Rattle.ic_tables.specs.Tables.{TableSet, IsWellFormed};

    ghost Value = { TableSet };

    ghost view = { λ t. record { languages = t.languages; locales = t.locales; zones = t.zones; kinds = t.kinds } };

    ghost invariant = { λ t. IsWellFormed (record { languages = t.languages; locales = t.locales; zones = t.zones; kinds = t.kinds }) };
}

impl Tables {
    /// The tables of these lists. `BadTables` carries the number, from 1, of the first condition that fails.
    pub fn new(
        alloc: Global,
        languages: Items<Language>,
        locales: Items<NamedLocale>,
        zones: Items<Text>,
        kinds: Items<FunctionKind>,
    ) -> Result<Tables, TablesError>
        ensures made { IfOk result (λ t. t ≡ record {
          languages = languages;
          locales = locales;
          zones = zones;
          kinds = kinds;
        }) }
        ensures failed { let set : TableSet = record {
          languages = languages;
          locales = locales;
          zones = zones;
          kinds = kinds;
        } in
            MatchResult result (λ _. first_failed set ≡ None) (λ e. Tells e (first_failed set)) }
    {
        check(
            alloc,
            languages.as_slice(),
            locales.as_slice(),
            zones.as_slice(),
            kinds.as_slice(),
        )?;
        let languages = Languages::new(alloc, languages)?;
        Ok(Tables {
            alloc,
            languages,
            locales,
            zones,
            kinds,
        })
    }

    /// The language with this code.
    pub fn get_language(&self, id: &str) -> Result<&Language, BookIdError>
        ensures found { MatchResult result (λ l. language_of self.now (chars id.now) ≡ Some l.now)
            (λ e. (e ≡ BookIdError.InvalidLanguage)
            × (language_of self.now (chars id.now) ≡ None)) }

        // Its words meet the conditions on words.
        ensures words { IfOk result (λ l. HasGoodWords self.now l.now) }
    {
        find_id(self.languages.as_slice(), id).ok_or(BookIdError::InvalidLanguage)
    }

    /// The words of the language with this code.
    pub fn get_words(&self, id: &str) -> Result<Words<'_>, BookIdError>
        ensures found { MatchResult result (λ w. language_of self.now (chars id.now)
            ≡ Some w.language.now)
            (λ e. (e ≡ BookIdError.InvalidLanguage)
            × (language_of self.now (chars id.now) ≡ None)) }

        // They meet the conditions on words.
        ensures words { IfOk result (λ w. HasGoodWords self.now w.language.now) }
    {
        self.languages.words(id).ok_or(BookIdError::InvalidLanguage)
    }

    /// The locale with this id, beside the id.
    pub fn get_named_locale(&self, id: &str) -> Result<&NamedLocale, BookIdError>
        ensures found { MatchResult result (λ l. locale_of self.now (chars id.now) ≡ Some l.now)
            (λ e. (e ≡ BookIdError.InvalidLocale) × (locale_of self.now (chars id.now) ≡ None)) }

        // Its formats meet the conditions on locales.
        ensures formats { IfOk result (λ l. HasGoodFormats self.now l.now.locale) }
    {
        find_id(self.locales.as_slice(), id).ok_or(BookIdError::InvalidLocale)
    }

    /// The locale with this id.
    pub fn get_locale(&self, id: &str) -> Result<&Locale, BookIdError>
        ensures found { MatchResult result (λ l. option_map (λ n. n.locale)
            (locale_of self.now (chars id.now)) ≡ Some l.now)
            (λ e. (e ≡ BookIdError.InvalidLocale) × (locale_of self.now (chars id.now) ≡ None)) }

        // Its formats meet the conditions on locales.
        ensures formats { IfOk result (λ l. HasGoodFormats self.now l.now) }
    {
        Ok(&self.get_named_locale(id)?.locale)
    }

    /// The language `en`, which is always there.
    pub fn get_default_language(&self) -> &Language
        ensures found { language_of self.now (codes "en") ≡ Some result.now }

        // Its words meet the conditions on words, and are those of stored formulas.
        ensures words { HasGoodWords self.now result.now }
        ensures stored { has_stored_words result.now ≡ true }
    {
        find_id(self.languages.as_slice(), "en").unwrap()
    }

    /// The words of the language `en`, which is always there.
    pub fn get_default_words(&self) -> Words<'_>
        ensures found { language_of self.now (codes "en") ≡ Some result.language.now }

        // They meet the conditions on words, and are those of stored formulas.
        ensures words { HasGoodWords self.now result.language.now }
        ensures stored { has_stored_words result.language.now ≡ true }
    {
        self.languages.words("en").unwrap()
    }

    /// The locale `en`, which is always there.
    pub fn get_default_locale(&self) -> &Locale
        ensures found { option_map (λ n. n.locale) (locale_of self.now (codes "en"))
            ≡ Some result.now }

        // Its formats meet the conditions on locales.
        ensures formats { HasGoodFormats self.now result.now }
    {
        &find_id(self.locales.as_slice(), "en").unwrap().locale
    }

    /// Whether the list of zones has this name. The tables meet every condition, whatever is asked.
    pub fn has_zone(&self, id: &str) -> bool
        ensures listed { result ≡ lists_zone self.now (chars id.now) }
        ensures well_formed { IsWellFormed self.now }
    {
        has_id(self.zones.as_slice(), id)
    }

    /// The name of a zone as the list has it. None exactly where the list of zones lacks the name.
    pub fn get_zone(&self, id: &str) -> Option<&Text>
        ensures listed { is_some result ≡ lists_zone self.now (chars id.now) }
        ensures name { IfSome result (λ zone. zone.now ≡ chars id.now) }
        ensures well_formed { IsWellFormed self.now }
    {
        find_id(self.zones.as_slice(), id)
    }

    /// The kind of function `n`, from 0. None exactly where the tables have no such function.
    pub fn function_kind(&self, n: usize) -> Option<FunctionKind>
        ensures { result ≡ slice_get self.now.kinds n }
    {
        self.kinds.as_slice().get(n).copied()
    }

    /// The ids of the locales, in the order of the tables.
    pub fn get_supported_locales(&self) -> Result<Vec<String>, OutOfMemory>
        ensures { IfOk result (λ ids. map (λ s. chars (string_bytes s)) ids.items
            ≡ ids_of self.now) }
    {
        copy_ids(self.alloc, self.locales.as_slice())
    }

    /// The names of the time zones, in the order of the tables.
    pub fn get_all_timezones(&self) -> Result<Vec<String>, OutOfMemory>
        ensures { IfOk result (λ names. map (λ s. chars (string_bytes s)) names.items
            ≡ self.now.zones) }
    {
        copy_ids(self.alloc, self.zones.as_slice())
    }
}
