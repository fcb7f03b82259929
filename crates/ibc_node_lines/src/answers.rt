//! The lines that tell no event, each a JSON object.

ghost use Rattle.std.specs.Prelude.{◌≡◌, map, option_copied, string_bytes, IfOk};
ghost use Rattle.ibc_ids.specs.Paths.{account_text};
ghost use Rattle.ibc_journal.specs.Entries.{item};
ghost use Rattle.ibc_script_cli.specs.Balances.{holding_of};
ghost use Rattle.ibc_node_lines.specs.Told.{joined, resumed_text};
ghost use Rattle.ibc_node_lines.specs.OtherLines.{balances_text, both_text, bytes_text, digits_text, entries_text, fault_text, found_text, holding_text, item_text, kept_text, lawful_text, looked_text, mistaken_text, named_list, place_text, reading_text, refusal_line, row_text, totals_text, IsAnsweredText, IsDueText, IsUnansweredText, IsUnlawfulText};

use crate::LineFault;
use crate::lines::{joined, refused, reply_text};
use hex::encode as encode_hex;
use ibc_ids::{Account, Denom, Refusal};
use ibc_journal::JournalEntry;
use ibc_machine::{Reading, Totals};
use ibc_replay::Answered;
use std::alloc::{AllocError, Global};

/// The line at the start: how many entries there are, and the last place of a log by which one came, or 0.
pub fn resumed(alloc: Global, entries: u32, log_place: u32) -> Result<String, AllocError>
    ensures { IfOk result (λ text. string_bytes text ≡ resumed_text entries log_place) }
{
    format!(in alloc; "{{\"resumed\":{{\"entries\":{entries},\"at\":{log_place}}}}}\n")
}

/// What an audit tells of a journal whose entries are a lawful run.
pub fn lawful(alloc: Global, entries: u32) -> Result<String, AllocError>
    ensures { IfOk result (λ text. string_bytes text ≡ lawful_text entries) }
{
    format!(in alloc; "{{\"entries\":{entries},\"lawful\":true}}\n")
}

/// What an audit tells of a journal whose entries aren't a lawful run: the first place that differs, the answer that is due there, or that
/// none is, and the one that is kept.
pub fn unlawful(
    alloc: Global,
    place: usize,
    due: Option<&Answered>,
    kept: &Answered,
) -> Result<String, AllocError>
    ensures { IfOk result (λ text. IsUnlawfulText place (option_copied due.entry) kept.now (string_bytes text)) }
{
    let due = due_text(alloc, due)?;
    let kept = answered(alloc, kept)?;
    both_in(alloc, place, due.as_str(), kept.as_str())
}

fn both_in(alloc: Global, place: usize, due: &str, kept: &str) -> Result<String, AllocError>
    ensures { IfOk result (λ text. string_bytes text ≡ both_text place due.now kept.now) }
{
    format!(in alloc; "{{\"place\":{place},\"lawful\":false,\"due\":{due},\"kept\":{kept}}}\n")
}

// The answer that is due, or that none is.
fn due_text(alloc: Global, due: Option<&Answered>) -> Result<String, AllocError>
    ensures { IfOk result (λ text. IsDueText (option_copied due.entry) (string_bytes text)) }
{
    match due {
        Some(due) => answered(alloc, due),
        None => String::from_str(alloc, "null"),
    }
}

// A reply, and what was read for it.
fn answered(alloc: Global, given: &Answered) -> Result<String, AllocError>
    ensures { IfOk result (λ text. IsAnsweredText given.now (string_bytes text)) }
{
    let reply = reply_text(alloc, &given.reply)?;
    with_reading(alloc, reply.as_str(), given.reading)
}

fn with_reading(alloc: Global, reply: &str, reading: Option<Reading>) -> Result<String, AllocError>
    ensures { IfOk result (λ text. string_bytes text ≡ reading_text reply.now reading) }
{
    match reading {
        Some(reading) => {
            let row = row_word(reading.row_was_there);
            with_row(alloc, reply, reading.published, row)
        }
        None => in_braces(alloc, reply),
    }
}

fn in_braces(alloc: Global, reply: &str) -> Result<String, AllocError>
    ensures { IfOk result (λ text. string_bytes text ≡ reading_text reply.now None) }
{
    format!(in alloc; "{{{reply}}}")
}

fn with_row(alloc: Global, reply: &str, published: u64, row: &str) -> Result<String, AllocError>
    ensures { IfOk result (λ text. string_bytes text ≡ looked_text reply.now published row.now) }
{
    format!(in alloc; "{{{reply},\"published\":{published},\"row\":\"{row}\"}}")
}

// Whether a row was looked for, and whether it was there.
fn row_word(row_was_there: Option<bool>) -> &'static str
    ensures { result.now ≡ row_text row_was_there }
{
    match row_was_there {
        None => "none",
        Some(false) => "gone",
        Some(true) => "there",
    }
}

/// How many entries there are.
pub fn entries(alloc: Global, entries: u32) -> Result<String, AllocError>
    ensures { IfOk result (λ text. string_bytes text ≡ entries_text entries) }
{
    format!(in alloc; "{{\"entries\":{entries}}}\n")
}

/// Why a line asks for nothing.
pub fn mistaken(alloc: Global, line: u64, why: LineFault) -> Result<String, AllocError>
    ensures { IfOk result (λ text. string_bytes text ≡ mistaken_text line (fault_text why)) }
{
    mistaken_for(alloc, line, why.text())
}

fn mistaken_for(alloc: Global, line: u64, why: &str) -> Result<String, AllocError>
    ensures { IfOk result (λ text. string_bytes text ≡ mistaken_text line why.now) }
{
    format!(in alloc; "{{\"line\":{line},\"mistake\":\"{why}\"}}\n")
}

/// What is found under a name, in hex, or `null`.
pub fn found(alloc: Global, what: &str, bytes: Option<&[u8]>) -> Result<String, AllocError>
    ensures { IfOk result (λ it. string_bytes it ≡ found_text what.now (option_copied bytes.entry)) }
{
    match bytes {
        Some(bytes) => {
            let digits = encode_hex(alloc, bytes)?;
            digits_found(alloc, what, digits.as_str())
        }
        None => nothing_found(alloc, what),
    }
}

fn digits_found(alloc: Global, what: &str, digits: &str) -> Result<String, AllocError>
    ensures { IfOk result (λ text. string_bytes text ≡ digits_text what.now digits.now) }
{
    format!(in alloc; "{{\"{what}\":\"{digits}\"}}\n")
}

fn nothing_found(alloc: Global, what: &str) -> Result<String, AllocError>
    ensures { IfOk result (λ text. string_bytes text ≡ found_text what.now None) }
{
    format!(in alloc; "{{\"{what}\":null}}\n")
}

/// What a channel has of a denomination.
pub fn totals(alloc: Global, totals: Totals) -> Result<String, AllocError>
    ensures { IfOk result (λ text. string_bytes text ≡ totals_text totals) }
{
    let Totals {
        escrow,
        vouchers,
        out,
        back,
    } = totals;
    format!(in alloc;
        "{{\"escrow\":\"{escrow}\",\"vouchers\":\"{vouchers}\",\"out\":\"{out}\",\"back\":\"{back}\"}}\n"
    )
}

/// Why a question has no answer.
pub fn unanswered(alloc: Global, refusal: Refusal) -> Result<String, AllocError>
    ensures { IfOk result (λ text. IsUnansweredText refusal (string_bytes text)) }
{
    let why = refused(alloc, refusal)?;
    unanswered_for(alloc, why.as_str())
}

fn unanswered_for(alloc: Global, why: &str) -> Result<String, AllocError>
    ensures { IfOk result (λ text. string_bytes text ≡ refusal_line why.now) }
{
    format!(in alloc; "{{{why}}}\n")
}

/// Who holds how much of what.
pub fn balances(alloc: Global, holdings: &[(Account, Denom, u128)]) -> Result<String, AllocError>
    ensures { IfOk result (λ text. string_bytes text ≡ balances_text (map holding_of holdings.now)) }
{
    let mut texts = Vec::new(alloc);
    for (account, denom, amount) in holdings {
        texts.push(holding(alloc, account, denom, *amount)?)?;
    }
    list(alloc, "balances", texts.as_slice())
}

fn holding(
    alloc: Global,
    account: &Account,
    denom: &Denom,
    amount: u128,
) -> Result<String, AllocError>
    ensures { IfOk result (λ text. string_bytes text ≡ holding_text (account_text account.now) denom.now amount) }
{
    let account = account_text(alloc, account)?;
    holding_in(alloc, account.as_str(), denom.as_str(), amount)
}

fn account_text(alloc: Global, account: &Account) -> Result<String, AllocError>
    ensures { IfOk result (λ text. string_bytes text ≡ account_text account.now) }
{
    match account {
        Account::User(name) => String::from_str(alloc, name.as_str()),
        Account::Escrow(channel) => {
            let channel = channel.as_str();
            format!(in alloc; "escrow/transfer/{channel}")
        }
    }
}

fn holding_in(alloc: Global, account: &str, denom: &str, amount: u128) -> Result<String, AllocError>
    ensures { IfOk result (λ text. string_bytes text ≡ holding_text account.now denom.now amount) }
{
    format!(in alloc; "[\"{account}\",\"{denom}\",\"{amount}\"]")
}

/// Texts as a list under a name.
pub fn list(alloc: Global, what: &str, texts: &[String]) -> Result<String, AllocError>
    ensures { IfOk result (λ text. string_bytes text ≡ named_list what.now (joined (map string_bytes texts.now))) }
{
    let list = joined(alloc, texts)?;
    list_in(alloc, what, list.as_str())
}

fn list_in(alloc: Global, what: &str, texts: &str) -> Result<String, AllocError>
    ensures { IfOk result (λ text. string_bytes text ≡ named_list what.now texts.now) }
{
    format!(in alloc; "{{\"{what}\":[{texts}]}}\n")
}

/// An entry as the journal has it, at a place.
pub fn kept(alloc: Global, place: u32, entry: &JournalEntry) -> Result<String, AllocError>
    ensures { IfOk result (λ text. string_bytes text ≡ item_text place (item entry.now)) }
{
    let event = encode_hex(alloc, entry.event.as_slice())?;
    let answer = encode_hex(alloc, entry.answer.as_slice())?;
    let digest = encode_hex(alloc, entry.digest.as_slice())?;
    kept_in(
        alloc,
        place,
        entry,
        event.as_str(),
        answer.as_str(),
        digest.as_str(),
    )
}

fn kept_in(
    alloc: Global,
    place: u32,
    entry: &JournalEntry,
    event: &str,
    answer: &str,
    digest: &str,
) -> Result<String, AllocError>
    ensures { IfOk result (λ text. string_bytes text ≡ kept_text place (item entry.now) event.now answer.now digest.now) }
{
    let front = kept_at(alloc, place, entry)?;
    with_bytes(alloc, front.as_str(), event, answer, digest)
}

// The place of an entry, its chain, its kind and its place in a log.
fn kept_at(alloc: Global, place: u32, entry: &JournalEntry) -> Result<String, AllocError>
    ensures { IfOk result (λ text. string_bytes text ≡ place_text place (item entry.now)) }
{
    let chain = entry.chain;
    let kind = entry.kind;
    let at = entry.log_place;
    format!(in alloc; "\"place\":{place},\"chain\":{chain},\"kind\":{kind},\"at\":{at}")
}

fn with_bytes(
    alloc: Global,
    front: &str,
    event: &str,
    answer: &str,
    digest: &str,
) -> Result<String, AllocError>
    ensures { IfOk result (λ text. string_bytes text ≡ bytes_text front.now event.now answer.now digest.now) }
{
    format!(in alloc;
        "{{{front},\"event\":\"{event}\",\"answer\":\"{answer}\",\"digest\":\"{digest}\"}}"
    )
}
