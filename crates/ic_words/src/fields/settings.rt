//! The formats of a locale, as the fields of replies.
ghost use Rattle.std.specs.Prelude.{◌≡◌, ◌++◌, OnOk, chars, flat_map, string_bytes, true};
ghost use Rattle.ic_machine.specs.Fields.{back_settings, fields_of_settings, front_settings};
ghost use Rattle.ic_machine.specs.Reply.{field_word};
ghost use Rattle.ic_words.specs.Reply.{AreTexts};

use crate::fields::Fields;
use crate::reply::push_field;
use ic_cells::FmtSettings;
use ic_laws::OutOfMemory;

/// The formats of a locale, with eight fields in this order: the code of its currency and the format of currencies; the short
/// date, the long date and the number, each by its format and an example.
impl Fields for FmtSettings {
    ghost fields = { fields_of_settings };

    ghost memory = { true };

    fn write(&self, reply: &mut String) -> Result<(), OutOfMemory> {
        push_front(reply, self)?;
        push_back(reply, self)?;
        Ok(())
    }
}

/// Appends the fields of the currency and of the short date.
fn push_front(reply: &mut String, settings: &FmtSettings) -> Result<(), OutOfMemory>
    ensures ok { OnOk result (chars (string_bytes reply.new) ≡ chars (string_bytes reply.old)
        ++ flat_map field_word (front_settings settings.now)) }
    ensures texts { OnOk result (AreTexts (front_settings settings.now)) }
{
    push_field(reply, settings.currency.as_str())?;
    push_field(reply, settings.currency_format.as_str())?;
    push_field(reply, settings.short_date.as_str())?;
    push_field(reply, settings.short_date_example.as_str())
}

/// Appends the fields of the long date and of the number.
fn push_back(reply: &mut String, settings: &FmtSettings) -> Result<(), OutOfMemory>
    ensures ok { OnOk result (chars (string_bytes reply.new) ≡ chars (string_bytes reply.old)
        ++ flat_map field_word (back_settings settings.now)) }
    ensures texts { OnOk result (AreTexts (back_settings settings.now)) }
{
    push_field(reply, settings.long_date.as_str())?;
    push_field(reply, settings.long_date_example.as_str())?;
    push_field(reply, settings.number_fmt.as_str())?;
    push_field(reply, settings.number_example.as_str())
}
