//! Texts inside of XML.

ghost use Rattle.std.specs.Prelude.{◌≡◌, ◌++◌, OnOk, option_map, string_bytes};
ghost use Rattle.ibc_drawing.specs.Escaped.{entity, escaped_bytes, escaped_text};

use std::alloc::AllocError;

/// Writes a text so that XML has it as text.
pub fn write_escaped(out: &mut String, text: &str) -> Result<(), AllocError>
    ensures { OnOk result (string_bytes out.new ≡ string_bytes out.old ++ escaped_text text.now) }
{
    for character in text.chars() {
        push_escaped(out, character)?;
    }
    Ok(())
}

// Writes a character so that XML has it as text.
fn push_escaped(out: &mut String, character: char) -> Result<(), AllocError>
    ensures { OnOk result (string_bytes out.new ≡ string_bytes out.old ++ escaped_bytes character) }
{
    match entity(character) {
        Some(text) => out.push_str(text),
        None => out.push(character),
    }
}

// What stands for a character that XML takes for its own.
fn entity(character: char) -> Option<&'static str>
    ensures { option_map (λ text. text.now) result ≡ entity character }
{
    if character == '&' {
        return Some("&amp;");
    }
    if character == '<' {
        return Some("&lt;");
    }
    if character == '>' {
        return Some("&gt;");
    }
    if character == '"' {
        return Some("&quot;");
    }
    None
}
