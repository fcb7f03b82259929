//! Which texts have which form.

ghost use Rattle.std.specs.Prelude.{◌≡◌, MatchOption};
ghost use Rattle.std.specs.List.{list_all, slice_split};
ghost use Rattle.ibc_ids.specs.Names.{is_made_of, is_slash, is_letter_or_digit, is_base_denom};
ghost use Rattle.ibc_lab.specs.Texts.{IsOnePart, IsSplitAtSlash, after_channel, after_channels, after_kind, after_second, after_third, has_leading_zero, is_application, is_at_most, is_counter, is_decimal_to, is_digit, is_last_sequence, is_not_above, is_order, is_packet_kind, is_path, is_record_kind, text_fits};

use crate::{StepKind, TextForm};
use ibc_ids::{
    ChannelKind, ClientKind, ConnectionKind, DenomKind, MemoKind, NameKind, PortKind, ReceiverKind,
    UserKind, VersionKind,
};
use ibc_script::ChainNameKind;
use std::cmp::Ordering;

/// The greatest amount.
const MOST_AMOUNT: &str = "340282366920938463463374607431768211455";

/// The greatest sequence.
const MOST_SEQUENCE: &str = "18446744073709551615";

/// Whether the text has the form.
pub fn text_fits(form: TextForm, text: &str) -> bool
    ensures { result ≡ text_fits form text.now }
{
    match form {
        TextForm::Amount => is_decimal_to(MOST_AMOUNT, text),
        TextForm::Application => is_application(text),
        TextForm::BaseDenom => is_base_denom(text.as_bytes()),
        TextForm::Chain => ChainNameKind::has_form(text.as_bytes()),
        TextForm::Channel => ChannelKind::has_form(text.as_bytes()),
        TextForm::Client => ClientKind::has_form(text.as_bytes()),
        TextForm::Connection => ConnectionKind::has_form(text.as_bytes()),
        TextForm::Denom => DenomKind::has_form(text.as_bytes()),
        TextForm::Kind => StepKind::of(text).is_some(),
        TextForm::Memo => MemoKind::has_form(text.as_bytes()),
        TextForm::Order => is_order(text),
        TextForm::Path => is_path(text),
        TextForm::Port => PortKind::has_form(text.as_bytes()),
        TextForm::Receiver => ReceiverKind::has_form(text.as_bytes()),
        TextForm::User => UserKind::has_form(text.as_bytes()),
        TextForm::Version => VersionKind::has_form(text.as_bytes()),
    }
}

fn is_application(text: &str) -> bool
    ensures { result ≡ is_application text.now }
{
    text == "note" || text == "transfer" || text == "transfer2"
}

fn is_order(text: &str) -> bool
    ensures { result ≡ is_order text.now }
{
    text == "ORDERED" || text == "UNORDERED"
}

fn is_letter_or_digit(byte: u8) -> bool
    ensures { result ≡ is_letter_or_digit byte }
{
    byte.is_ascii_alphanumeric()
}

fn are_letters_or_digits(text: &[u8]) -> bool
    ensures { result ≡ list_all is_letter_or_digit text.now }
{
    text.iter().all(|byte| is_letter_or_digit(*byte))
}

fn is_base_denom(text: &[u8]) -> bool
    ensures { result ≡ is_base_denom text.now }
{
    1 <= text.len() && text.len() <= 64 && are_letters_or_digits(text)
}

fn is_digit(byte: u8) -> bool
    ensures { result ≡ is_digit byte }
{
    b'0' <= byte && byte <= b'9'
}

fn are_digits(text: &[u8]) -> bool
    ensures { result ≡ list_all is_digit text.now }
{
    text.iter().all(|byte| is_digit(*byte))
}

// Whether the text is so many digits at most, and one at least.
fn are_few_digits(text: &[u8], most: usize) -> bool
    ensures { result ≡ is_made_of is_digit 1 most text.now }
{
    1 <= text.len() && text.len() <= most && are_digits(text)
}

// Whether there are several digits, of which the first is 0.
fn has_leading_zero(digits: &[u8]) -> bool
    ensures { result ≡ has_leading_zero digits.now }
{
    digits.len() > 1 && digits[0] == b'0'
}

fn is_at_most(text: &str, most: &str) -> bool
    ensures { result ≡ is_at_most text.now most.now }
{
    match text.cmp(most) {
        Ordering::Less | Ordering::Equal => true,
        Ordering::Greater => false,
    }
}

// Whether there are fewer digits, or as many that aren't above in byte order.
fn is_not_above(most: &str, digits: &str) -> bool
    ensures { result ≡ is_not_above most.now digits.now }
{
    digits.len() < most.len() || is_at_most(digits, most)
}

// Whether the text writes in decimal digits, without leading zeros, a number that is at most the one that `most` writes.
fn is_decimal_to(most: &str, text: &str) -> bool
    ensures { result ≡ is_decimal_to most.now text.now }
{
    are_few_digits(text.as_bytes(), most.len())
        && !has_leading_zero(text.as_bytes())
        && is_not_above(most, text)
}

// What stands before the first slash, and what stands behind it.
fn split_at_slash(text: &str) -> Option<(&str, &str)>
    ensures { MatchOption result (IsOnePart text.now) (IsSplitAtSlash text.now) }
{
    text.split_once('/')
}

// Whether the text is the path of a record that a chain proves.
fn is_path(text: &str) -> bool
    ensures { result ≡ is_path text.now }
{
    match split_at_slash(text) {
        None => is_counter(text),
        Some((kind, rest)) => after_kind(kind, rest),
    }
}

fn is_counter(name: &str) -> bool
    ensures { result ≡ is_counter name.now }
{
    name == "nextClientSequence"
        || name == "nextConnectionSequence"
        || name == "nextChannelSequence"
}

// The functions from here on judge what stands behind the first parts of a path, as the definitions of their names do.
fn after_kind(kind: &str, rest: &str) -> bool
    ensures { result ≡ after_kind kind.now (slice_split is_slash rest.now) }
{
    match split_at_slash(rest) {
        None => kind == "connections" && ConnectionKind::has_form(rest.as_bytes()),
        Some((second, rest)) => after_second(kind, second, rest),
    }
}

fn after_second(kind: &str, second: &str, rest: &str) -> bool
    ensures { result ≡ after_second kind.now second.now (slice_split is_slash rest.now) }
{
    match split_at_slash(rest) {
        None => {
            kind == "clients" && ClientKind::has_form(second.as_bytes()) && rest == "clientState"
        }
        Some((third, rest)) => after_third(kind, second, third, rest),
    }
}

fn after_third(kind: &str, second: &str, third: &str, rest: &str) -> bool
    ensures { result ≡ after_third kind.now second.now third.now (slice_split is_slash rest.now) }
{
    match split_at_slash(rest) {
        None => false,
        Some((fourth, rest)) => {
            after_channels(kind, rest)
                && second == "ports"
                && PortKind::has_form(third.as_bytes())
                && fourth == "channels"
        }
    }
}

fn after_channels(kind: &str, rest: &str) -> bool
    ensures { result ≡ after_channels kind.now (slice_split is_slash rest.now) }
{
    match split_at_slash(rest) {
        None => is_record_kind(kind) && ChannelKind::has_form(rest.as_bytes()),
        Some((channel, rest)) => {
            after_channel(kind, rest) && ChannelKind::has_form(channel.as_bytes())
        }
    }
}

fn is_record_kind(kind: &str) -> bool
    ensures { result ≡ is_record_kind kind.now }
{
    kind == "channelEnds"
        || kind == "nextSequenceSend"
        || kind == "nextSequenceRecv"
        || kind == "nextSequenceAck"
}

fn is_packet_kind(kind: &str) -> bool
    ensures { result ≡ is_packet_kind kind.now }
{
    kind == "commitments" || kind == "receipts" || kind == "acks"
}

fn after_channel(kind: &str, rest: &str) -> bool
    ensures { result ≡ after_channel kind.now (slice_split is_slash rest.now) }
{
    match split_at_slash(rest) {
        None => false,
        Some((word, rest)) => {
            is_last_sequence(rest) && is_packet_kind(kind) && word == "sequences"
        }
    }
}

fn is_last_sequence(rest: &str) -> bool
    ensures { result ≡ is_last_sequence (slice_split is_slash rest.now) }
{
    match split_at_slash(rest) {
        None => is_decimal_to(MOST_SEQUENCE, rest),
        Some(_) => false,
    }
}
