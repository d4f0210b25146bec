ghost use Rattle.std.specs.Prelude.{◌≡◌, ◌++◌, OnOk, ◌<◌, ◌^◌};
ghost use Rattle.ic_pool.specs.Code.{bit, int_sign, int_size, high, low, error_number, prefix_number, sign_number, position_kind, position_value, sheet_kind, sheet_id, part_numbers};
ghost use Rattle.ic_pool.specs.Bytes.{text_bytes};

use crate::Key;
use ic_laws::{BinarySign, Error, OutOfMemory, Position, PrefixSign, RefPart, SheetMention};

/// 1 below zero, else 0.
pub fn sign_of(n: i128) -> u64
    ensures { result ≡ int_sign n }
{
    if n < 0 { 1 } else { 0 }
}

/// What is above the low 63 bits.
pub fn high_of(n: u128) -> u64
    requires { n < 2 ^ 120 }
    ensures { result ≡ high n }
{
    (n / 0x8000_0000_0000_0000) as u64
}

/// The low 63 bits.
pub fn low_of(n: u128) -> u64
    ensures { result ≡ low n }
{
    (n % 0x8000_0000_0000_0000) as u64
}

/// 1 for true.
pub fn bit_of(b: bool) -> u64
    ensures { result ≡ bit b }
{
    if b { 1 } else { 0 }
}

/// Whether it is relative.
pub fn kind_of(p: Position) -> u64
    ensures { result ≡ position_kind p }
{
    match p {
        Position::Abs(_) => 0,
        Position::Rel(_) => 1,
    }
}

/// The sign of a position's number.
pub fn side_of(p: Position) -> u64
    ensures { result ≡ int_sign (position_value p) }
{
    match p {
        Position::Abs(n) => sign_of(i128::from(n)),
        Position::Rel(n) => sign_of(i128::from(n)),
    }
}

/// The size of a position's number.
pub fn size_of(p: Position) -> u64
    ensures { result ≡ int_size (position_value p) }
{
    match p {
        Position::Abs(n) => u64::from(n.unsigned_abs()),
        Position::Rel(n) => u64::from(n.unsigned_abs()),
    }
}

/// The six numbers of a corner.
pub fn part_of(p: RefPart) -> [u64; 6]
    ensures { result ≡ part_numbers p }
{
    let (row, column) = (p.row, p.column);
    [
        kind_of(row),
        side_of(row),
        size_of(row),
        kind_of(column),
        side_of(column),
        size_of(column),
    ]
}

/// The number of an error.
pub fn error_of(e: Error) -> u64
    ensures { result ≡ error_number e }
{
    match e {
        Error::REF => 0,
        Error::NAME => 1,
        Error::VALUE => 2,
        Error::DIV => 3,
        Error::NA => 4,
        Error::NUM => 5,
        Error::NIMPL => 6,
        Error::SPILL => 7,
        Error::CALC => 8,
        Error::CIRC => 9,
        Error::ERROR => 10,
        Error::NULL => 11,
    }
}

/// The number of a sign.
pub fn prefix_of(s: PrefixSign) -> u64
    ensures { result ≡ prefix_number s }
{
    match s {
        PrefixSign::Plus => 0,
        PrefixSign::Minus => 1,
        PrefixSign::At => 2,
    }
}

/// The number of a sign.
pub fn binary_of(s: BinarySign) -> u64
    ensures { result ≡ sign_number s }
{
    match s {
        BinarySign::Equal => 0,
        BinarySign::Unequal => 1,
        BinarySign::Less => 2,
        BinarySign::Greater => 3,
        BinarySign::AtMost => 4,
        BinarySign::AtLeast => 5,
        BinarySign::Join => 6,
        BinarySign::Plus => 7,
        BinarySign::Minus => 8,
        BinarySign::Times => 9,
        BinarySign::Over => 10,
        BinarySign::Power => 11,
    }
}

/// The kind of a mention.
pub fn mention_of(s: &SheetMention) -> u64
    ensures { result ≡ sheet_kind s.now }
{
    match s {
        SheetMention::Own => 0,
        SheetMention::Sheet(_) => 1,
        SheetMention::Dangling(_) => 2,
    }
}

/// The id of a mention.
pub fn id_of(s: &SheetMention) -> u64
    ensures { result ≡ sheet_id s.now }
{
    match s {
        SheetMention::Sheet(id) => u64::from(*id),
        _ => 0,
    }
}

/// Writes numbers.
#[inline]
pub fn write_numbers(key: &mut Key, numbers: &[u64]) -> Result<(), OutOfMemory>
    ensures { OnOk result (key.new ≡ key.old ++ text_bytes numbers.now) }
{
    key.push(numbers.len() as u64)?;
    key.extend(numbers)
}
