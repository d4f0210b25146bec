ghost use Rattle.std.specs.Prelude.{◌≡◌, chars};
ghost use Rattle.ic_machine.specs.subjects.Notation.{GetLanguage, GetLocale, GetTimezone, SetLanguage, SetLocale, SetTimezone, notation_step};
ghost use Rattle.ic_parts.specs.Book.{core_of};
ghost use Rattle.ic_parts.specs.Does.{Does, DoesOnly};
ghost use Rattle.ic_parts.specs.Fields.{no_fields, string_only};

use crate::{BookError, Model};
use ic_parts::notation::string_of;
use ic_tables::Tables;

impl<'a> Model<'a> {
    /// The tables that the book borrows. It takes no memory.
    pub fn tables(&self) -> &'a Tables
        ensures { result.now ≡ self.now.book.tables }
    {
        self.notation.tables()
    }

    /// Puts the locale with this id in force. Formulas are read and shown with its separators from then on.
    ///
    /// `InvalidLocale` exactly where the tables lack it; an error changes nothing. It takes no memory.
    pub fn set_locale(&mut self, locale_id: &str) -> Result<(), BookError>
        ensures does { DoesOnly notation_step (SetLocale (chars locale_id.now)) no_fields
            result self.old self.new }
        ensures looks_up { self.new.has_all ≡ self.old.has_all }

        // Each mention finds what it found.
        ensures sheets { (core_of self.new.book).sheets ≡ (core_of self.old.book).sheets }
        ensures definitions { (core_of self.new.book).definitions ≡
            (core_of self.old.book).definitions }
    {
        match self.notation.tables().get_named_locale(locale_id) {
            Ok(locale) => {
                self.notation.put_locale(locale);
                Ok(())
            }
            Err(_) => Err(BookError::InvalidLocale),
        }
    }

    /// Puts the language with this code in force. Formulas are read and shown with its words from then on.
    ///
    /// `InvalidLanguage` exactly where the tables lack it; an error changes nothing. It takes no memory.
    pub fn set_language(&mut self, language_id: &str) -> Result<(), BookError>
        ensures does { DoesOnly notation_step (SetLanguage (chars language_id.now)) no_fields
            result self.old self.new }
        ensures looks_up { self.new.has_all ≡ self.old.has_all }

        // Each mention finds what it found.
        ensures sheets { (core_of self.new.book).sheets ≡ (core_of self.old.book).sheets }
        ensures definitions { (core_of self.new.book).definitions ≡
            (core_of self.old.book).definitions }
    {
        match self.notation.tables().get_language(language_id) {
            Ok(language) => {
                self.notation.put_language(language);
                Ok(())
            }
            Err(_) => Err(BookError::InvalidLanguage),
        }
    }

    /// The id of the locale in force. Only memory can be missing.
    pub fn get_locale(&self) -> Result<String, BookError>
        ensures does { Does notation_step GetLocale string_only result self.now self.now }
    {
        Ok(string_of(self.alloc, &self.notation.locale().id)?)
    }

    /// The code of the language in force. Only memory can be missing.
    pub fn get_language(&self) -> Result<String, BookError>
        ensures does { Does notation_step GetLanguage string_only result self.now self.now }
    {
        Ok(string_of(self.alloc, &self.notation.language().code)?)
    }

    /// Puts the book into another time zone, by its name.
    ///
    /// `InvalidTimezone` exactly where the tables lack it; an error changes nothing. It takes no memory.
    pub fn set_timezone(&mut self, timezone: &str) -> Result<(), BookError>
        ensures does { DoesOnly notation_step (SetTimezone (chars timezone.now)) no_fields
            result self.old self.new }
        ensures looks_up { self.new.has_all ≡ self.old.has_all }
    {
        match self.notation.tables().get_zone(timezone) {
            Some(zone) => {
                self.about.zone = zone;
                Ok(())
            }
            None => Err(BookError::InvalidTimezone),
        }
    }

    /// The name of the book's time zone. Only memory can be missing.
    pub fn get_timezone(&self) -> Result<String, BookError>
        ensures does { Does notation_step GetTimezone string_only result self.now self.now }
    {
        Ok(string_of(self.alloc, self.about.zone)?)
    }
}
