//! The languages of users who share a book, and the answer to a line of one of them.
ghost use Rattle.std.specs.Prelude.{◌≡◌, List, ℕ, [], Err, IfOk, IfSome, IsFalse, IsSome, IsTrue, OnErr, OnOk, Some, None, chars, string_bytes, true, unwrap_or};
ghost use Rattle.std.specs.FinMap as finite;
ghost use Rattle.ic_machine.specs.Book.{notations_in};
ghost use Rattle.ic_machine.specs.Command.{command_in, commands};
ghost use Rattle.ic_machine.specs.Refusal.{BadLine};
ghost use Rattle.ic_machine.specs.Reply.{reply_bytes};
ghost use Rattle.ic_machine.specs.Step.{english_errors, line_step};
ghost use Rattle.ic_parts.specs.Book.{IsValidBook};
ghost use Rattle.ic_parts.specs.Whole.{whole_of};
ghost use Rattle.ic_run.specs.Counts.{begins_with_o};
ghost use Rattle.ic_share.specs.Share.{DoesShared, IsKnown, shared_by};
ghost use Rattle.ic_commands.specs.Answered.{DoesLine};
ghost use Rattle.ic_share.specs.Shared.{in_language, language_chosen, languages_left, sent_step};

use crate::line::{parts_of, user_of};
use ic_book::Model;
use ic_commands::reply_to_text;
use ic_laws::OutOfMemory;
use ic_laws::scan::{first_char, same_text};
use std::alloc::Global;
use std::collections::BTreeMap;
use std::marker;

/// The book's own language, by its code, and the languages that users chose, by the users' texts.
pub struct Users {
    own: String,
    languages: BTreeMap<String, String>,
}

impl Drop for Users {
    fn drop(self) {
        let Self { own, languages } = self;
        drop(own);
        drop(languages);
    }
}

impl marker::Model for Users {
    ghost use Rattle.std.specs.Prelude.{chars, string_bytes};
    ghost use Rattle.ic_share.specs.Share.{UsersState, languages_held, users_code};

    ghost Value = { UsersState };

    ghost coded = { users_code };

    ghost view = { λ u. record { own = chars (string_bytes u.own); languages = languages_held u.languages.entries } };
}

impl Users {
    /// No user chose a language yet. Only memory can be missing.
    pub fn of(alloc: Global, model: &Model<'_>) -> Result<Users, OutOfMemory>
        ensures own { IfOk result (λ users. users.own ≡ model.now.book.language) }
        ensures none { IfOk result (λ users. users.languages ≡ finite.empty) }
        ensures known { IfOk result (λ users. IsKnown (shared_by users model.now.book)) }
    {
        Ok(Users {
            own: language_in(model)?,
            languages: BTreeMap::new(alloc),
        })
    }

    /// The code of a user's language: the one that they chose, or the book's own.
    fn language_of(&self, user: &str) -> &str
        ensures { chars result.now
            ≡ unwrap_or (finite.get self.now.languages (chars user.now)) self.now.own }
    {
        match self.languages.get(user) {
            Some(code) => code.as_str(),
            None => self.own.as_str(),
        }
    }

    /// Answers a line in the book with the language of its user, who has another one from then on where they chose it. Nobody's
    /// line is bad. The book's own language is in force before and after. Where memory runs out all is as it was.
    pub fn answered(
        &mut self,
        alloc: Global,
        model: &mut Model<'_>,
        line: &str,
        last: String,
    ) -> Result<String, OutOfMemory>
        requires own { self.old.own ≡ model.old.book.language }
        requires known { IsKnown (shared_by self.old model.old.book) }
        ensures does { IfOk result (λ reply. DoesShared (chars line.now)
            (shared_by self.old model.old.book) (shared_by self.new model.new.book)
            (string_bytes reply)) }
        ensures own { self.new.own ≡ self.old.own }
        ensures languages { OnErr result (self.new.languages ≡ self.old.languages) }
        ensures err { OnErr result (whole_of model.new.book ≡ whole_of model.old.book) }
    {
        let Some((word, command)) = parts_of(line) else {
            return bad_reply(alloc, model, last);
        };
        let Some(user) = user_of(alloc, word)? else {
            return bad_reply(alloc, model, last);
        };
        self.reply_for(alloc, model, user.as_str(), command, last)
    }

    /// The same for a command line of a user.
    fn reply_for(
        &mut self,
        alloc: Global,
        model: &mut Model<'_>,
        user: &str,
        command: &str,
        last: String,
    ) -> Result<String, OutOfMemory>
        requires own { self.old.own ≡ model.old.book.language }
        requires known { IsKnown (shared_by self.old model.old.book) }
        ensures left { OnOk result (shared_by self.new model.new.book
            ≡ (sent_step (shared_by self.old model.old.book)
            (Some (record { user = chars user.now; command = chars command.now }))).0) }
        ensures reply { IfOk result (λ reply. string_bytes reply
            ≡ reply_bytes (sent_step (shared_by self.old model.old.book)
            (Some (record { user = chars user.now; command = chars command.now }))).1) }
        ensures own { self.new.own ≡ self.old.own }
        ensures languages { OnErr result (self.new.languages ≡ self.old.languages) }
        ensures err { OnErr result (whole_of model.new.book ≡ whole_of model.old.book) }
    {
        put_language(model, self.language_of(user));
        let reply = self.reply_chosen(alloc, model, user, command, last);
        put_language(model, self.own.as_str());
        reply
    }

    /// The same where the user's language is in force, which it stays unless they choose another one.
    fn reply_chosen(
        &mut self,
        alloc: Global,
        model: &mut Model<'_>,
        user: &str,
        command: &str,
        last: String,
    ) -> Result<String, OutOfMemory>
        ensures does { IfOk result (λ reply. DoesLine (chars command.now) model.old model.new
            (string_bytes reply)) }
        ensures languages { OnOk result (self.new.languages ≡ languages_left (chars user.now)
            (command_in (english_errors (whole_of model.old.book)) commands (chars command.now))
            (line_step commands (whole_of model.old.book) (chars command.now)).1
            self.old.languages) }
        ensures own { self.new.own ≡ self.old.own }
        ensures stays { OnErr result (self.new.languages ≡ self.old.languages) }
        ensures err { OnErr result (in_language [] (whole_of model.new.book)
            ≡ in_language [] (whole_of model.old.book)) }
    {
        let reply = reply_to_text(alloc, model, command, last)?;
        if chooses_language(command) && is_ok(reply.as_str()) {
            self.choose(alloc, user, language_in(model)?)?;
        }
        Ok(reply)
    }

    /// Puts a user's language.
    fn choose(&mut self, alloc: Global, user: &str, language: String) -> Result<(), OutOfMemory>
        ensures chosen { OnOk result (self.new.languages ≡ finite.insert self.old.languages
            (chars user.now) (chars (string_bytes language))) }
        ensures own { self.new.own ≡ self.old.own }
        ensures err { OnErr result (self.new.languages ≡ self.old.languages) }
    {
        let user = String::from_str(alloc, user)?;
        self.languages.insert(user, language)?;
        Ok(())
    }
}

/// Whether a command line is one that chooses a language, if it is a command.
fn chooses_language(command: &str) -> bool
    ensures no { IsFalse result → (english : List (List ℕ))
        → language_chosen (command_in english commands (chars command.now)) ≡ None }
    ensures yes { IsTrue result → (english : List (List ℕ)) → IfSome
        (command_in english commands (chars command.now))
        (λ c. IsSome (language_chosen (Some c))) }
{
    match parts_of(command) {
        Some((name, _)) => same_text(name, "set_language"),
        None => false,
    }
}

/// Whether a reply tells no refusal.
fn is_ok(reply: &str) -> bool
    ensures { result ≡ begins_with_o (chars reply.now) }
{
    match first_char(reply) {
        Some((c, _)) => c == 'o',
        None => false,
    }
}

/// The code of the language in force.
fn language_in(model: &Model<'_>) -> Result<String, OutOfMemory>
    ensures code { IfOk result (λ code. chars (string_bytes code) ≡ model.now.book.language) }
    ensures valid { IsValidBook model.now.book }
{
    match model.get_language() {
        Ok(code) => Ok(code),
        Err(_) => Err(OutOfMemory),
    }
}

/// Puts a language of the tables in force.
fn put_language(model: &mut Model<'_>, code: &str)
    requires { (notations_in (whole_of model.old.book)).knows_language (chars code.now) ≡ true }
    ensures { whole_of model.new.book ≡ in_language (chars code.now) (whole_of model.old.book) }
{
    let _ = model.set_language(code);
}

/// The reply to a line that is no command.
fn bad_reply(alloc: Global, model: &mut Model<'_>, last: String) -> Result<String, OutOfMemory>
    ensures reply { IfOk result (λ reply. string_bytes reply ≡ reply_bytes (Err BadLine)) }
    ensures left { whole_of model.new.book ≡ whole_of model.old.book }
{
    reply_to_text(alloc, model, "", last)
}
