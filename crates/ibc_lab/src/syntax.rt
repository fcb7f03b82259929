//! Why a text is no JSON, as far as the byte tells at which the reader stopped.

use serde_json::Error;

/// What is wrong with a text that is no JSON, at the offset where the reader stopped.
pub fn reason_of(text: &[u8], offset: usize, error: &Error) -> &'static str {
    if text.is_empty() {
        return "the file is empty";
    }
    if text.starts_with(b"\xef\xbb\xbf") {
        return "a byte order mark stands before the script";
    }
    if str::from_utf8(text).is_err() {
        return "a byte here is no UTF-8";
    }
    if error.is_eof() {
        return "the text ends before the script does";
    }
    match text.get(offset) {
        Some(byte) => reason_at(*byte, last_before(text, offset)),
        None => "the text ends before the script does",
    }
}

// The last byte before an offset that isn't blank.
fn last_before(text: &[u8], offset: usize) -> u8 {
    let mut last = b' ';
    for byte in &text[..offset.min(text.len())] {
        if !matches!(byte, b' ' | b'\t' | b'\r' | b'\n') {
            last = *byte;
        }
    }
    last
}

// What is wrong at a byte, behind another.
fn reason_at(byte: u8, last: u8) -> &'static str {
    match byte {
        b'/' | b'#' => "JSON has no comments",
        b'\'' => "texts stand between double quotes",
        b'}' | b']' if last == b',' => "a comma stands before the closing bracket",
        b',' if last == b',' => "a comma too much",
        b'"' | b'{' | b'[' | b'0'..=b'9' | b'-' if last == b'"' => {
            "a colon or a comma is missing here"
        }
        b'"' | b'{' | b'[' | b'0'..=b'9' | b'-' if ends_value(last) => "a comma is missing here",
        b'A'..=b'Z' | b'a'..=b'z' => "a word that JSON doesn't have, or a text without quotes",
        b'+' | b'.' | b'0'..=b'9' | b'-' => "a number that JSON doesn't have",
        _ => "something else is wanted here",
    }
}

fn ends_value(last: u8) -> bool {
    matches!(last, b'}' | b']' | b'0'..=b'9' | b'e' | b'l')
}
