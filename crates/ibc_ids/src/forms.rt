//! Which texts have the form of a name (ICS 24, "Identifiers"; ICS 20 for denominations).

ghost use Rattle.std.specs.Prelude.{◌≡◌, MatchOption};
ghost use Rattle.std.specs.List.{list_all, position, slice_split};
ghost use Rattle.ibc_ids.specs.Names.{is_made_of, is_letter_or_digit, is_identifier_byte, is_plain_byte, is_version_byte, is_version, is_slash, are_hops_and_base, is_denom, HasNoSlash, IsPartedShorter};

fn is_letter_or_digit(byte: u8) -> bool
    ensures { result ≡ is_letter_or_digit byte }
{
    byte.is_ascii_alphanumeric()
}

fn is_identifier_byte(byte: u8) -> bool
    ensures { result ≡ is_identifier_byte byte }
{
    is_letter_or_digit(byte)
        || matches!(
            byte,
            b'.' | b'_' | b'+' | b'-' | b'#' | b'[' | b']' | b'<' | b'>'
        )
}

fn is_plain_byte(byte: u8) -> bool
    ensures { result ≡ is_plain_byte byte }
{
    0x20 <= byte && byte <= 0x7e && !(byte == b'"') && !(byte == b'\\')
}

fn is_version_byte(byte: u8) -> bool
    ensures { result ≡ is_version_byte byte }
{
    is_letter_or_digit(byte) || byte == b'-' || byte == b'.'
}

fn are_letters_or_digits(text: &[u8]) -> bool
    ensures { result ≡ list_all is_letter_or_digit text.now }
{
    text.iter().all(|byte| is_letter_or_digit(*byte))
}

fn are_identifier_bytes(text: &[u8]) -> bool
    ensures { result ≡ list_all is_identifier_byte text.now }
{
    text.iter().all(|byte| is_identifier_byte(*byte))
}

fn are_plain_bytes(text: &[u8]) -> bool
    ensures { result ≡ list_all is_plain_byte text.now }
{
    text.iter().all(|byte| is_plain_byte(*byte))
}

fn are_version_bytes(text: &[u8]) -> bool
    ensures { result ≡ list_all is_version_byte text.now }
{
    text.iter().all(|byte| is_version_byte(*byte))
}

/// Whether the text is an identifier of so many bytes.
pub fn is_identifier(text: &[u8], least: usize, most: usize) -> bool
    ensures { result ≡ is_made_of is_identifier_byte least most text.now }
{
    least <= text.len() && text.len() <= most && are_identifier_bytes(text)
}

/// Whether the text is so many letters and digits.
pub fn is_word(text: &[u8], least: usize, most: usize) -> bool
    ensures { result ≡ is_made_of is_letter_or_digit least most text.now }
{
    least <= text.len() && text.len() <= most && are_letters_or_digits(text)
}

/// Whether the text is so many bytes that JSON writes as they are.
pub fn is_plain(text: &[u8], least: usize, most: usize) -> bool
    ensures { result ≡ is_made_of is_plain_byte least most text.now }
{
    least <= text.len() && text.len() <= most && are_plain_bytes(text)
}

/// Whether the text is a channel's version.
pub fn is_version(text: &[u8]) -> bool
    ensures { result ≡ is_version text.now }
{
    1 <= text.len() && text.len() <= 32 && are_version_bytes(text)
}

fn first_slash(text: &[u8]) -> Option<usize>
    ensures { result ≡ position is_slash text.now }
{
    text.iter().position(|byte| *byte == b'/')
}

/// What stands before the first slash, and what stands behind it.
#[tactic(auto, using(crate::proofs::Splits::one_part, crate::proofs::Splits::part_and_rest))]
fn split_at_slash(text: &[u8]) -> Option<(&[u8], &[u8])>
    ensures { MatchOption result (HasNoSlash text.now) (λ p. IsPartedShorter text.now p.0.now p.1.now) }
{
    match first_slash(text) {
        None => None,
        Some(at) => Some((&text[..at], &text[at + 1..])),
    }
}

/// Whether the text is hops, each a port and a channel, and a base behind them.
fn are_hops_and_base(text: &[u8]) -> bool
    ensures { result ≡ are_hops_and_base (slice_split is_slash text.now) }
{
    let mut rest = text;
    while let Some((port, behind)) = split_at_slash(rest) {
        let Some((channel, behind)) = split_at_slash(behind) else {
            return false;
        };
        if !is_identifier(port, 2, 128) || !is_identifier(channel, 8, 64) {
            return false;
        }
        rest = behind;
    }
    is_word(rest, 1, 64)
}

/// Whether the text is a denomination.
pub fn is_denom(text: &[u8]) -> bool
    ensures { result ≡ is_denom text.now }
{
    text.len() <= 256 && are_hops_and_base(text)
}
