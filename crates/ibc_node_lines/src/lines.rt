//! The lines that a node writes, and what each tells of events.

ghost use Rattle.std.specs.Prelude.{◌≡◌, ◌==◌, ◌++◌, codes, length, map, string_bytes, IfOk, OnOk};
ghost use Rattle.hex.specs.Hex.{encode_lower};
ghost use Rattle.ibc_ids.specs.Texts.{Text};
ghost use Rattle.ibc_node_lines.specs.Told.{named_text, sequence_text, block_text, effect_text, ok_text, refused_text, refusal_text, answer_text, comma_behind, joined, list_text, answers_text, IsRefusedText, IsReplyText, IsAnswerText, AreAnswersText, IsLineText, AreLinesText};

use hex::encode as encode_hex;
use ibc_ids::Refusal;
use ibc_machine::{Effect, Reply};
use ibc_node::KeptAnswer;
use std::alloc::{AllocError, Global};

/// A line that a node writes.
#[derive(Drop)]
pub enum NodeLine {
    /// What came of the events that a line asks for, each beside the number of its chain.
    Answers(Vec<(u8, KeptAnswer)>),
    /// What is told where a line asks for no event.
    Other(String),
}

/// The texts of lines, one behind another.
pub fn lines_text(alloc: Global, lines: &[NodeLine]) -> Result<String, AllocError>
    ensures { IfOk result (λ text. AreLinesText lines.now (string_bytes text)) }
{
    let mut text = String::new(alloc);
    for line in lines {
        add_line(alloc, &mut text, line)?;
    }
    Ok(text)
}

// Adds the text of a line.
fn add_line(alloc: Global, text: &mut String, line: &NodeLine) -> Result<(), AllocError>
    ensures { OnOk result ((more : Text) × IsLineText line.now more × (string_bytes text.new ≡ string_bytes text.old ++ more)) }
{
    let more = line_text(alloc, line)?;
    text.push_str(more.as_str())
}

fn line_text(alloc: Global, line: &NodeLine) -> Result<String, AllocError>
    ensures { IfOk result (λ text. IsLineText line.now (string_bytes text)) }
{
    match line {
        NodeLine::Answers(answers) => answers_line(alloc, answers.as_slice()),
        NodeLine::Other(text) => String::from_str(alloc, text.as_str()),
    }
}

// What came of events: of one an object, of several or of none a list.
fn answers_line(alloc: Global, answers: &[(u8, KeptAnswer)]) -> Result<String, AllocError>
    ensures { IfOk result (λ text. AreAnswersText answers.now (string_bytes text)) }
{
    let mut texts = Vec::new(alloc);
    for (chain, kept) in answers {
        texts.push(answer(alloc, *chain, kept)?)?;
    }
    told(alloc, texts.as_slice())
}

// What came of events, by what came of each.
fn told(alloc: Global, texts: &[String]) -> Result<String, AllocError>
    ensures { IfOk result (λ text. string_bytes text ≡ answers_text (length texts.now == 1) (joined (map string_bytes texts.now))) }
{
    let list = joined(alloc, texts)?;
    in_line(alloc, is_alone(texts), list.as_str())
}

// Whether there is one text.
fn is_alone(texts: &[String]) -> bool
    ensures { result ≡ (length texts.now == 1) }
{
    texts.len() == 1
}

fn in_line(alloc: Global, is_alone: bool, list: &str) -> Result<String, AllocError>
    ensures { IfOk result (λ text. string_bytes text ≡ answers_text is_alone list.now) }
{
    if is_alone {
        line_of_one(alloc, list)
    } else {
        line_of_list(alloc, list)
    }
}

fn line_of_one(alloc: Global, answer: &str) -> Result<String, AllocError>
    ensures { IfOk result (λ text. string_bytes text ≡ answer.now ++ codes "\n") }
{
    format!(in alloc; "{answer}\n")
}

fn line_of_list(alloc: Global, answers: &str) -> Result<String, AllocError>
    ensures { IfOk result (λ text. string_bytes text ≡ list_text answers.now) }
{
    format!(in alloc; "{{\"answers\":[{answers}]}}\n")
}

/// Texts with commas between.
pub fn joined(alloc: Global, texts: &[String]) -> Result<String, AllocError>
    ensures { IfOk result (λ text. string_bytes text ≡ joined (map string_bytes texts.now)) }
{
    let mut text = String::new(alloc);
    for next in texts {
        add_next(&mut text, next.as_str())?;
    }
    Ok(text)
}

// Adds a text, behind a comma where others stand before it.
fn add_next(text: &mut String, next: &str) -> Result<(), AllocError>
    ensures { OnOk result (string_bytes text.new ≡ string_bytes text.old ++ (comma_behind (string_bytes text.old) ++ next.now)) }
{
    let between = comma(text.as_str());
    text.push_str(between)?;
    text.push_str(next)
}

// What stands between a text and the next.
fn comma(text: &str) -> &'static str
    ensures { result.now ≡ comma_behind text.now }
{
    if text.is_empty() { "" } else { "," }
}

// What came of an event.
fn answer(alloc: Global, chain: u8, kept: &KeptAnswer) -> Result<String, AllocError>
    ensures { IfOk result (λ text. IsAnswerText (chain, kept.now) (string_bytes text)) }
{
    let given = reply_text(alloc, &kept.reply)?;
    with_place(alloc, chain, kept.place, given.as_str())
}

fn with_place(
    alloc: Global,
    chain: u8,
    place: Option<u32>,
    given: &str,
) -> Result<String, AllocError>
    ensures { IfOk result (λ text. string_bytes text ≡ answer_text chain place given.now) }
{
    match place {
        Some(place) => format!(in alloc; "{{\"chain\":{chain},\"place\":{place},{given}}}"),
        None => format!(in alloc; "{{\"chain\":{chain},{given}}}"),
    }
}

/// What was answered, without the braces round it.
pub fn reply_text(alloc: Global, reply: &Reply) -> Result<String, AllocError>
    ensures { IfOk result (λ text. IsReplyText reply.now (string_bytes text)) }
{
    match reply {
        Reply::Ok(effect) => accepted(alloc, effect),
        Reply::No(refusal) => refused(alloc, *refusal),
    }
}

/// Why there is no answer, without the braces round it.
pub fn refused(alloc: Global, refusal: Refusal) -> Result<String, AllocError>
    ensures { IfOk result (λ text. IsRefusedText refusal (string_bytes text)) }
{
    refused_for(alloc, refusal.number(), words_of(refusal))
}

// The words that say why.
fn words_of(refusal: Refusal) -> &'static str
    ensures { result.now ≡ refusal_text refusal }
{
    match refusal {
        Refusal::NoMemory => "no memory",
        Refusal::BadName => "bad name",
        Refusal::UnknownChain => "unknown chain",
        Refusal::OwnChain => "own chain",
        Refusal::UnknownClient => "unknown client",
        Refusal::NotPublished => "not published",
        Refusal::WrongHeader => "wrong header",
        Refusal::UnknownConnection => "unknown connection",
        Refusal::WrongState => "wrong state",
        Refusal::WrongPeer => "wrong peer",
        Refusal::NoConsensus => "no consensus state",
        Refusal::BadProof => "bad proof",
        Refusal::WrongSelfClient => "wrong self client",
        Refusal::UnknownPort => "unknown port",
        Refusal::UnknownChannel => "unknown channel",
        Refusal::WrongOrder => "wrong order",
        Refusal::WrongVersion => "wrong version",
        Refusal::NoTimeout => "no timeout",
        Refusal::TimeoutPassed => "timeout passed",
        Refusal::AlreadyReceived => "already received",
        Refusal::OutOfOrder => "out of order",
        Refusal::NoCommitment => "no commitment",
        Refusal::NotTimedOut => "not timed out",
        Refusal::TooLarge => "too large",
        Refusal::Poor => "poor",
        Refusal::CloseRefused => "close refused",
        Refusal::TimeBack => "time goes back",
        Refusal::TableFull => "table full",
        Refusal::NumberFull => "number full",
        Refusal::BadMessage => "bad message",
        Refusal::Pruned => "pruned",
    }
}

fn refused_for(alloc: Global, number: u8, why: &str) -> Result<String, AllocError>
    ensures { IfOk result (λ text. string_bytes text ≡ refused_text number why.now) }
{
    format!(in alloc; "\"no\":{number},\"why\":\"{why}\"")
}

fn accepted(alloc: Global, effect: &Effect) -> Result<String, AllocError>
    ensures { IfOk result (λ text. string_bytes text ≡ ok_text (effect_text effect.now)) }
{
    match effect {
        Effect::None => String::from_str(alloc, "\"ok\":{}"),
        Effect::Client(id) => named(alloc, "client", id.as_str()),
        Effect::Connection(id) => named(alloc, "connection", id.as_str()),
        Effect::Channel(id) => named(alloc, "channel", id.as_str()),
        Effect::Sent(sequence) => sent(alloc, *sequence),
        Effect::Ack(bytes) => in_hex(alloc, "acknowledgement", bytes.as_slice()),
        Effect::Block(height, root) => block(alloc, *height, root.bytes().as_slice()),
    }
}

fn sent(alloc: Global, sequence: u64) -> Result<String, AllocError>
    ensures { IfOk result (λ text. string_bytes text ≡ ok_text (sequence_text sequence)) }
{
    format!(in alloc; "\"ok\":{{\"sequence\":{sequence}}}")
}

fn named(alloc: Global, what: &str, name: &str) -> Result<String, AllocError>
    ensures { IfOk result (λ text. string_bytes text ≡ ok_text (named_text what.now name.now)) }
{
    format!(in alloc; "\"ok\":{{\"{what}\":\"{name}\"}}")
}

fn in_hex(alloc: Global, what: &str, bytes: &[u8]) -> Result<String, AllocError>
    ensures { IfOk result (λ text. string_bytes text ≡ ok_text (named_text what.now (encode_lower bytes.now))) }
{
    let digits = encode_hex(alloc, bytes)?;
    named(alloc, what, digits.as_str())
}

fn block(alloc: Global, height: u64, root: &[u8]) -> Result<String, AllocError>
    ensures { IfOk result (λ text. string_bytes text ≡ ok_text (block_text height (encode_lower root.now))) }
{
    let digits = encode_hex(alloc, root)?;
    digits_in(alloc, height, digits.as_str())
}

fn digits_in(alloc: Global, height: u64, root: &str) -> Result<String, AllocError>
    ensures { IfOk result (λ text. string_bytes text ≡ ok_text (block_text height root.now)) }
{
    format!(in alloc; "\"ok\":{{\"height\":{height},\"root\":\"{root}\"}}")
}
