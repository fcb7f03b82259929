//! The texts of data, cut out of its one spelling.

ghost use Rattle.std.specs.Prelude.{◌≡◌, ◌&&◌, [], nat_le, slice_index, option_map};
ghost use Rattle.std.specs.List.{position};
ghost use Rattle.std.specs.Ordering.{is_lt};
ghost use Rattle.ibc_ids.specs.Texts.{same_text, text_cmp};
ghost use Rattle.ibc_token_data.specs.Cutting.{is_quote, behind, up_to_quote, value_behind, memo_at, pair_at, parties_behind, amount_of_digits, token_at, is_row, one_cut};
ghost use Rattle.ibc_token_data.specs.ShownParties.{shown_parties};

use crate::forms::{are_parties, is_token};

/// What stands behind the front, or `None` where the text doesn't begin with it.
pub(crate) fn behind<'t>(front: &[u8], text: &'t [u8]) -> Option<&'t [u8]>
    ensures { option_map (λ rest. rest.now) result ≡ behind front.now text.now }
{
    text.strip_prefix(front)
}

/// The text up to the first quote, and what stands behind the quote.
fn up_to_quote(text: &[u8]) -> Option<(&[u8], &[u8])>
    ensures { option_map (λ cut. (cut.0.now, cut.1.now)) result ≡ up_to_quote text.now }
{
    let at = first_quote(text)?;
    Some((&text[..at], &text[at + 1..]))
}

fn first_quote(text: &[u8]) -> Option<usize>
    ensures { result ≡ position is_quote text.now }
{
    text.iter().position(|byte| *byte == b'"')
}

/// The text between the front and the next quote, and what stands behind that quote.
fn value_behind<'t>(front: &[u8], text: &'t [u8]) -> Option<(&'t [u8], &'t [u8])>
    ensures { option_map (λ cut. (cut.0.now, cut.1.now)) result ≡ value_behind front.now text.now }
{
    up_to_quote(behind(front, text)?)
}

/// The amount of which these are the digits, or `None` where they are those of none.
#[tactic(auto, using(crate::proofs::Amounts::no_first_digit, crate::proofs::Amounts::no_text, crate::proofs::Amounts::amount_parsed))]
fn amount_of(digits: &[u8]) -> Option<u128>
    ensures { result ≡ amount_of_digits digits.now }
{
    if !has_first_digit(digits) {
        return None;
    }
    match str::from_utf8(digits) {
        Ok(text) => text.parse().ok(),
        Err(_) => None,
    }
}

// Whether the text begins with a digit that isn't 0.
fn has_first_digit(text: &[u8]) -> bool
    ensures { result ≡ (nat_le 49 (slice_index text.now 0) && nat_le (slice_index text.now 0) 57) }
{
    match text {
        [first, ..] => b'1' <= *first && *first <= b'9',
        [] => false,
    }
}

/// Amount and denomination of the token at the front, and what stands behind them.
pub(crate) fn token_at(text: &[u8]) -> Option<(u128, &[u8], &[u8])>
    ensures { option_map (λ found. (found.0, found.1.now, found.2.now)) result ≡ token_at text.now }
{
    let (digits, rest) = value_behind(b"{\"amount\":\"", text)?;
    let amount = amount_of(digits)?;
    let (denom, rest) = value_behind(b",\"denom\":\"", rest)?;
    if is_token(amount, denom) {
        Some((amount, denom, rest))
    } else {
        None
    }
}

/// Whether up to 8 tokens whose denominations rise stand there, and the end of their list.
pub(crate) fn is_row(text: &[u8]) -> bool
    ensures { result ≡ is_row 8 [] text.now }
{
    let mut last: &[u8] = b"";
    let mut rest = text;
    let mut left: usize = 8;
    while left > 0 {
        let Some((_, denom, next)) = token_at(rest) else {
            return false;
        };
        if !is_before(last, denom) {
            return false;
        }
        if is_text(next, b"}]}") {
            return true;
        }
        let Some(next) = behind(b"},", next) else {
            return false;
        };
        last = denom;
        rest = next;
        left -= 1;
    }
    false
}

/// Memo, receiver and sender as they stand in a text, and what stands behind them.
#[derive(Clone, Copy)]
pub(crate) struct Parties<'t> {
    pub memo: &'t [u8],
    pub receiver: &'t [u8],
    pub sender: &'t [u8],
    pub rest: &'t [u8],
}

/// The parties behind the front.
pub(crate) fn parties_behind<'t>(front: &[u8], text: &'t [u8]) -> Option<Parties<'t>>
    ensures { option_map (λ p. shown_parties p) result ≡ parties_behind front.now text.now }
{
    let start = behind(front, text)?;
    let (memo, rest) = memo_at(start)?;
    let (receiver, sender, rest) = pair_at(rest)?;
    if !are_parties(memo, receiver, sender) {
        return None;
    }
    Some(Parties {
        memo,
        receiver,
        sender,
        rest,
    })
}

// The memo, empty where there is none, and what stands behind its comma.
fn memo_at(text: &[u8]) -> Option<(&[u8], &[u8])>
    ensures { option_map (λ cut. (cut.0.now, cut.1.now)) result ≡ memo_at text.now }
{
    let Some((memo, rest)) = value_behind(b"\"memo\":\"", text) else {
        return Some((&[], text));
    };
    match memo {
        [] => None,
        [_, ..] => Some((memo, behind(b",", rest)?)),
    }
}

// Receiver and sender, and what stands behind them.
fn pair_at(text: &[u8]) -> Option<(&[u8], &[u8], &[u8])>
    ensures { option_map (λ pair. (pair.0.now, pair.1.now, pair.2.now)) result ≡ pair_at text.now }
{
    let (receiver, rest) = value_behind(b"\"receiver\":\"", text)?;
    let (sender, rest) = value_behind(b",\"sender\":\"", rest)?;
    Some((receiver, sender, rest))
}

/// Amount and denomination of one token, and the parties up to the end of the text.
pub(crate) fn one_cut(text: &[u8]) -> Option<(u128, &[u8], Parties<'_>)>
    ensures { option_map (λ cut. (cut.0, cut.1.now, shown_parties cut.2)) result ≡ one_cut text.now }
{
    let (amount, denom, rest) = token_at(text)?;
    let parties = parties_behind(b",", rest)?;
    if is_text(parties.rest, b"}") {
        Some((amount, denom, parties))
    } else {
        None
    }
}

/// Whether the two texts are the same.
pub(crate) fn is_text(left: &[u8], right: &[u8]) -> bool
    ensures { result ≡ same_text left.now right.now }
{
    left == right
}

// Whether one text is before another in byte order.
fn is_before(left: &[u8], right: &[u8]) -> bool
    ensures { result ≡ is_lt (text_cmp left.now right.now) }
{
    left.cmp(right).is_lt()
}
