//! Bytes that aren't UTF-8, in a row that is.
use ic_rows::Row;

/// The first character that stands for a byte.
const FIRST: u32 = 0xE000;

/// The last one.
const LAST: u32 = 0xE0FF;

/// The bytes that a text says: a character from U+E000 to U+E0FF says the byte of its last two digits, and every other one itself,
/// in UTF-8.
pub fn bytes_in(row: &mut Row<'_>, text: &str) -> Vec<u8> {
    let mut bytes = Vec::new(row.alloc);
    for c in text.chars() {
        put_byte(row, &mut bytes, c);
    }
    bytes
}

fn put_byte(row: &mut Row<'_>, bytes: &mut Vec<u8>, c: char) {
    let number = u32::from(c);
    if FIRST <= number && number <= LAST {
        row.done(bytes.push((number - FIRST) as u8).is_ok());
    } else {
        let mut text = String::new(row.alloc);
        row.done(text.push(c).is_ok());
        row.done(bytes.extend_from_slice(text.as_bytes()).is_ok());
    }
}

/// A text as it is written in a word, with U+E000 for each NUL, so that the answers stay a text file.
pub fn put_text(row: &mut Row<'_>, text: &str) {
    let mut first = true;
    for piece in text.split('\0') {
        if !first {
            row.put("\u{E000}");
        }
        first = false;
        row.put_text(piece);
    }
}
