ghost use Rattle.std.specs.Prelude.{◌≡◌, ◌⊎◌, ℕ, ℤ, List, true, Some, None};
ghost use Rattle.ic_laws.specs.Amount.{amount_text, is_amount};
ghost use Rattle.ic_tables.specs.Tables.{HasGoodFormats, TableSet};
ghost use Rattle.ic_tables.specs.declared.language.Language.{Language};
ghost use Rattle.ic_tables.specs.declared.locale.Locale.{Locale};
ghost use Rattle.ic_input.specs.Again.{BooleansTypedAgain, ErrorsTypedAgain};
ghost use Rattle.ic_input.specs.Again.{FormulasTypedAgain, QuotedTypedAgain, TextsTypedAgain};
ghost use Rattle.ic_input.specs.Convention.{short_date};
ghost use Rattle.ic_tables.specs.Formats.{decimal_separator};
ghost use Rattle.ic_input.specs.Counted.{CountedIsNumbered, NumberedIsCounted, ShownIsCounted};
ghost use Rattle.ic_input.specs.Date.{IsShownDay, iso_date};
ghost use Rattle.ic_input.specs.Rules.{AnsweredIsRuled, RuledIsAnswered};
ghost use Rattle.ic_input.specs.Typed.{amount_of_day, typed};
ghost use Rattle.ic_input.specs.declared.input.Typed.TheVariants as kinds;

/// An amount's text, by the decimal separator of a locale of tables, is typed there as that amount, in any language.
pub fn law_amount_typed_again()
    ensures { (tables : TableSet) (l : Locale) (language english : Language) (v : ℤ)
        → HasGoodFormats tables l → is_amount v ≡ true
        → typed l language english (amount_text (decimal_separator l) v) ≡ kinds.Number v None }
{}

/// What is shown of a day by `yyyy-mm-dd`, or by the code of the short dates of a locale of tables, is typed there as that
/// day with that code, in any language.
pub fn law_date_typed_again()
    ensures { (tables : TableSet) (l : Locale) (language english : Language) (code text : List ℕ)
        (n : ℕ) → HasGoodFormats tables l → (code ≡ iso_date) ⊎ (code ≡ short_date l)
        → IsShownDay code n text → typed l language english text
        ≡ kinds.Number (amount_of_day n) (Some code) }
{}

/// The word of a boolean, and that of an error value, in a language of tables is typed there as the boolean or the error
/// value, in each locale of the tables, whichever language is asked after it.
pub fn law_word_typed_again()
    ensures booleans { BooleansTypedAgain }
    ensures errors { ErrorsTypedAgain }
{}

/// What is typed as a text is that text. Any text after a quote is that text, and something after an equals sign is the
/// formula that it is.
pub fn law_text_typed_again()
    ensures texts { TextsTypedAgain }
    ensures quoted { QuotedTypedAgain }
    ensures formulas { FormulasTypedAgain }
{}

/// By a locale of tables, every text is typed as the function says, which goes over the text once, exactly where it is
/// typed so by the rules, which ask of the whole text whether each kind of input is it: what the rules say of a text, the
/// function answers, and what it answers is what the rules say. So each text is typed as one thing and never as two.
pub fn law_typed_by_rules()
    ensures answered { RuledIsAnswered }
    ensures ruled { AnsweredIsRuled }
{}

/// The day of the number n is 30 December 1899 and n days, counted one by one through the months and the leap years of the
/// calendar, from 31 December 1899 to 31 December 9999: that day has this number, no other has it, and it is what is
/// shown of the number by a code of dates.
pub fn law_days_count_from()
    ensures counted { CountedIsNumbered }
    ensures only { NumberedIsCounted }
    ensures shown { ShownIsCounted }
{}
