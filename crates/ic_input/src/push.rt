//! Digits appended to a text.
ghost use Rattle.std.specs.Prelude.{◌≡◌, ◌<◌, ◌+◌, ◌/◌, ◌%◌, ◌++◌, ◌∷◌, [], chars, string_bytes, OnOk};
ghost use Rattle.std.specs.Fmt.{decimal};
ghost use Rattle.ic_input.specs.Date.{four_digits, two_digits};

use ic_laws::OutOfMemory;
use ic_laws::scan::push_char;

/// Appends a number in decimal digits.
pub(crate) fn push_number(text: &mut String, n: u128) -> Result<(), OutOfMemory>
    ensures { OnOk result (chars (string_bytes text.new) ≡ chars (string_bytes text.old)
        ++ decimal n) }
{
    write!(text, "{n}")?;
    Ok(())
}

/// Appends one digit.
pub(crate) fn push_digit(text: &mut String, digit: u32) -> Result<(), OutOfMemory>
    requires { digit < 10 }
    ensures { OnOk result (chars (string_bytes text.new) ≡ chars (string_bytes text.old)
        ++ (48 + digit) ∷ []) }
{
    push_char(text, (b'0' + digit as u8) as char)
}

/// Appends a number below 100 in two digits.
pub(crate) fn push_two_digits(text: &mut String, n: u32) -> Result<(), OutOfMemory>
    requires { n < 100 }
    ensures { OnOk result (chars (string_bytes text.new) ≡ chars (string_bytes text.old)
        ++ two_digits n) }
{
    push_digit(text, n / 10)?;
    push_digit(text, n % 10)
}

/// Appends a number below 10,000 in four digits.
pub(crate) fn push_four_digits(text: &mut String, n: u32) -> Result<(), OutOfMemory>
    requires { n < 10000 }
    ensures { OnOk result (chars (string_bytes text.new) ≡ chars (string_bytes text.old)
        ++ four_digits n) }
{
    push_two_digits(text, n / 100)?;
    push_two_digits(text, n % 100)
}
