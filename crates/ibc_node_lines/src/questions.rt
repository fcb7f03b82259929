//! What is told of a node without asking its world for anything.

ghost use Rattle.std.specs.Prelude.{◌≡◌, ◌++◌, ◌∷◌, ◌&&◌, [], List, codes, map, string_bytes, is_ok, None, Some, IfErr, IfOk, IsOkAnd, OnOk};
ghost use Rattle.sqlite.specs.Held.{state};
ghost use Rattle.hex.specs.Hex.{encode_lower};
ghost use Rattle.ibc_journal.specs.Tables.{JournalItem};
ghost use Rattle.ibc_journal.specs.Entries.{item};
ghost use Rattle.ibc_script_cli.specs.Completing.{IsEncoding};
ghost use Rattle.ibc_script_cli.specs.Balances.{holding_of};
ghost use Rattle.ibc_node.specs.Nodes.{node_end, node_world};
ghost use Rattle.ibc_node_lines.specs.Desks.{IsOnlyRead};
ghost use Rattle.ibc_node_lines.specs.OtherLines.{balances_text, entries_text, found_text, item_text};
ghost use Rattle.ibc_node_lines.specs.QuestionAnswers.{has_chains_of, holdings_of, is_chain_of, item_texts, message_text, plan_of, plan_text, question_of_step, quoted_text, AnswersQuestion, IsKeptText, IsProofText, IsRootText, IsTotalsText};

use crate::request::NodeQuestion;
use crate::{Desk, LineFault, answers};
use hex::encode as encode_hex;
use ibc_ids::{Account, Bytes, Denom, Refusal, Root};
use ibc_journal::JournalEntry;
use ibc_machine::Totals;
use ibc_merkle::Proof;
use ibc_message_codec::encode as encode_message;
use ibc_node::NodeFault;
use ibc_script::Step;
use ibc_script_cli::{Chains, Holdings};
use ibc_wire::{Message, encode};
use sqlite::Alter;
use std::alloc::{AllocError, Global};

/// A question tells at most so many entries at once.
const MOST_KEPT: u32 = 100;

/// The answer to a question of a line, or what is wrong with the line.
#[tactic(auto, using(crate::proofs::OnlyRead::read_same))]
pub fn tell<S: Alter + Drop>(
    alloc: Global,
    desk: &mut Desk<S>,
    question: NodeQuestion,
) -> Result<Result<String, LineFault>, NodeFault>
    ensures read { OnOk result (IsOnlyRead (state S.Store) desk.old.node desk.new.node) }
    ensures answers { IfOk result (λ told. IfOk told (λ text. AnswersQuestion desk.old.node question (string_bytes text))) }
    ensures which { IfOk result (λ it. is_ok it ≡ has_chains_of (node_world desk.old.node) question) }
    ensures why { IfOk result (λ told. IfErr told (λ why. why ≡ LineFault.UnknownChain)) }
{
    if !has_chains(desk, &question) {
        drop(question);
        return Ok(Err(LineFault::UnknownChain));
    }
    Ok(Ok(told(alloc, desk, question)?))
}

// Whether the chains that a question names are there.
fn has_chains<S: Alter + Drop>(desk: &Desk<S>, question: &NodeQuestion) -> bool
    ensures { result ≡ has_chains_of (node_world desk.now.node) question.now }
{
    match question {
        NodeQuestion::Entries => true,
        NodeQuestion::Kept { .. } => true,
        NodeQuestion::Balances { chain } => desk.has_chain(*chain),
        NodeQuestion::Standing { chain, .. } => desk.has_chain(*chain),
        NodeQuestion::Root { chain, .. } => desk.has_chain(*chain),
        NodeQuestion::Proof { chain, .. } => desk.has_chain(*chain),
        NodeQuestion::Totals { chain, .. } => desk.has_chain(*chain),
        NodeQuestion::Plan { from, to } => has_both(desk, *from, *to),
    }
}

// Whether two chains are there.
fn has_both<S: Alter + Drop>(desk: &Desk<S>, first: u8, second: u8) -> bool
    ensures { let world = node_world desk.now.node in result ≡ (is_chain_of world first && is_chain_of world second) }
{
    let has_first = desk.has_chain(first);
    let has_second = desk.has_chain(second);
    has_first && has_second
}

// The answer to a question whose chains are there.
#[tactic(auto, using(crate::proofs::OnlyRead::read_same))]
fn told<S: Alter + Drop>(
    alloc: Global,
    desk: &mut Desk<S>,
    question: NodeQuestion,
) -> Result<String, NodeFault>
    ensures read { OnOk result (IsOnlyRead (state S.Store) desk.old.node desk.new.node) }
    ensures answers { IfOk result (λ text. AnswersQuestion desk.old.node question (string_bytes text)) }
{
    match question {
        NodeQuestion::Entries => Ok(tell_entries(alloc, desk)?),
        NodeQuestion::Kept { from } => tell_kept(alloc, desk, from),
        NodeQuestion::Balances { chain } => Ok(tell_balances(alloc, desk, chain)?),
        NodeQuestion::Standing { chain, key } => {
            let value = desk.value(chain, &key);
            drop(key);
            Ok(tell_bytes(alloc, "value", value)?)
        }
        NodeQuestion::Root { chain, height } => Ok(tell_root(alloc, desk, chain, height)?),
        NodeQuestion::Proof { chain, height, key } => {
            let proof = desk.proof(chain, height, &key);
            drop(key);
            Ok(tell_proof(alloc, proof)?)
        }
        NodeQuestion::Totals {
            chain,
            channel,
            denom,
        } => {
            let totals = desk.totals(chain, &channel, &denom);
            drop(channel);
            drop(denom);
            Ok(totals_line(alloc, totals)?)
        }
        NodeQuestion::Plan { from, to } => Ok(tell_plan(alloc, desk, from, to)?),
    }
}

/// The question that a step is which only looks at what chains have, or the step, where it is another.
pub fn question_of(step: Step) -> Result<NodeQuestion, Step>
    ensures { result ≡ question_of_step step }
{
    match step {
        Step::Message { on, draft } => Err(Step::Message { on, draft }),
        Step::Block { on, time } => Err(Step::Block { on, time }),
        Step::Root { on, height } => Ok(NodeQuestion::Root { chain: on, height }),
        Step::Prove { on, height, key } => Ok(NodeQuestion::Proof {
            chain: on,
            height,
            key,
        }),
        Step::Totals { on, channel, denom } => Ok(NodeQuestion::Totals {
            chain: on,
            channel,
            denom,
        }),
        Step::Open {
            first,
            second,
            application,
        } => Err(Step::Open {
            first,
            second,
            application,
        }),
        Step::Relay {
            first,
            second,
            turns,
        } => Err(Step::Relay {
            first,
            second,
            turns,
        }),
    }
}

// How many entries there are.
fn tell_entries<S: Alter + Drop>(alloc: Global, desk: &Desk<S>) -> Result<String, NodeFault>
    ensures { IfOk result (λ text. string_bytes text ≡ entries_text (node_end desk.now.node).place) }
{
    let count = desk.node.entries();
    Ok(answers::entries(alloc, count)?)
}

// The root of a height, or that there is none.
fn tell_root<S: Alter + Drop>(
    alloc: Global,
    desk: &Desk<S>,
    chain: u8,
    height: u64,
) -> Result<String, NodeFault>
    ensures { IfOk result (λ text. IsRootText (string_bytes text)) }
{
    match desk.block(chain, height) {
        Some(block) => root_found(alloc, &block.root),
        None => no_root(alloc),
    }
}

fn root_found(alloc: Global, root: &Root) -> Result<String, NodeFault>
    ensures { IfOk result (λ text. string_bytes text ≡ found_text (codes "root") (Some root.now)) }
{
    Ok(answers::found(alloc, "root", Some(root.bytes().as_slice()))?)
}

fn no_root(alloc: Global) -> Result<String, NodeFault>
    ensures { IfOk result (λ text. string_bytes text ≡ found_text (codes "root") None) }
{
    Ok(answers::found(alloc, "root", None)?)
}

// What a channel has, or why there is no answer.
fn totals_line(alloc: Global, totals: Result<Totals, Refusal>) -> Result<String, AllocError>
    ensures { IfOk result (λ text. IsTotalsText totals (string_bytes text)) }
{
    match totals {
        Ok(totals) => answers::totals(alloc, totals),
        Err(refusal) => answers::unanswered(alloc, refusal),
    }
}

// Bytes that were asked for, or that there are none.
fn tell_bytes(
    alloc: Global,
    what: &str,
    bytes: Result<Option<Bytes>, Refusal>,
) -> Result<String, NodeFault>
    ensures { IfOk result (λ it. IsOkAnd bytes (λ found. string_bytes it ≡ found_text what.now found)) }
{
    match bytes {
        Ok(found) => Ok(told_bytes(alloc, what, found)?),
        Err(_) => Err(NodeFault::NoMemory),
    }
}

fn told_bytes(alloc: Global, what: &str, found: Option<Bytes>) -> Result<String, AllocError>
    ensures { IfOk result (λ text. string_bytes text ≡ found_text what.now found) }
{
    match found {
        Some(bytes) => answers::found(alloc, what, Some(bytes.as_slice())),
        None => answers::found(alloc, what, None),
    }
}

// A proof's encoding, or that there is none.
fn tell_proof(alloc: Global, proof: Result<Option<Proof>, Refusal>) -> Result<String, NodeFault>
    ensures { IfOk result (λ text. IsOkAnd proof (λ found. IsProofText found (string_bytes text))) }
{
    match proof {
        Ok(found) => {
            let told = told_proof(alloc, &found);
            drop(found);
            told
        }
        Err(_) => Err(NodeFault::NoMemory),
    }
}

fn told_proof(alloc: Global, found: &Option<Proof>) -> Result<String, NodeFault>
    ensures { IfOk result (λ text. IsProofText found.now (string_bytes text)) }
{
    let encoding = encoding_of(alloc, found)?;
    Ok(told_bytes(alloc, "proof", encoding)?)
}

// The encoding of a proof that was found, `None` where it has none.
fn encoding_of(alloc: Global, found: &Option<Proof>) -> Result<Option<Bytes>, NodeFault>
    ensures { IfOk result (IsEncoding found.now) }
{
    match found {
        Some(proof) => encoding_in(alloc, proof),
        None => Ok(None),
    }
}

fn encoding_in(alloc: Global, proof: &Proof) -> Result<Option<Bytes>, NodeFault>
    ensures { IfOk result (IsEncoding (Some proof.now)) }
{
    match encode(alloc, proof) {
        Ok(bytes) => Ok(Some(Bytes::from_vec(bytes))),
        Err(Refusal::BadMessage) => Ok(None),
        Err(_) => Err(NodeFault::NoMemory),
    }
}

fn tell_balances<S: Alter + Drop>(
    alloc: Global,
    desk: &Desk<S>,
    chain: u8,
) -> Result<String, NodeFault>
    ensures { IfOk result (λ text. string_bytes text ≡ holdings_of (node_world desk.now.node) chain) }
{
    match desk.balances(chain) {
        Ok(holdings) => told_holdings(alloc, holdings.as_slice()),
        Err(_) => Err(NodeFault::NoMemory),
    }
}

fn told_holdings(alloc: Global, holdings: &[(Account, Denom, u128)]) -> Result<String, NodeFault>
    ensures { IfOk result (λ text. string_bytes text ≡ balances_text (map holding_of holdings.now)) }
{
    let text = answers::balances(alloc, holdings)?;
    Ok(text)
}

// The messages of a plan, each in hex.
fn tell_plan<S: Alter + Drop>(
    alloc: Global,
    desk: &Desk<S>,
    from: u8,
    to: u8,
) -> Result<String, NodeFault>
    ensures { IfOk result (λ text. string_bytes text ≡ plan_of (node_world desk.now.node) from to) }
{
    match desk.plans(from, to) {
        Ok((messages, others)) => {
            drop(others);
            let told = told_plan(alloc, messages.as_slice());
            drop(messages);
            told
        }
        Err(_) => Err(NodeFault::NoMemory),
    }
}

fn told_plan(alloc: Global, messages: &[Message]) -> Result<String, NodeFault>
    ensures { IfOk result (λ text. string_bytes text ≡ plan_text messages.now) }
{
    let texts = texts_of(alloc, messages)?;
    Ok(answers::list(alloc, "plan", texts.as_slice())?)
}

fn texts_of(alloc: Global, messages: &[Message]) -> Result<Vec<String>, NodeFault>
    ensures { IfOk result (λ texts. map string_bytes texts.items ≡ map message_text messages.now) }
{
    let mut texts = Vec::new(alloc);
    for message in messages {
        texts.push(text_of(alloc, message)?)?;
    }
    Ok(texts)
}

// A message in hex, between quotes.
fn text_of(alloc: Global, message: &Message) -> Result<String, NodeFault>
    ensures { IfOk result (λ text. string_bytes text ≡ message_text message.now) }
{
    match encode_message(alloc, message) {
        Ok(bytes) => Ok(in_quotes(alloc, bytes.as_slice())?),
        Err(_) => Err(NodeFault::NoMemory),
    }
}

// Bytes in hex, between quotes.
fn in_quotes(alloc: Global, bytes: &[u8]) -> Result<String, AllocError>
    ensures { IfOk result (λ text. string_bytes text ≡ quoted_text (encode_lower bytes.now)) }
{
    let digits = encode_hex(alloc, bytes)?;
    quoted(alloc, digits.as_str())
}

fn quoted(alloc: Global, digits: &str) -> Result<String, AllocError>
    ensures { IfOk result (λ text. string_bytes text ≡ quoted_text digits.now) }
{
    format!(in alloc; "\"{digits}\"")
}

// The entries from a place on.
fn tell_kept<S: Alter + Drop>(
    alloc: Global,
    desk: &mut Desk<S>,
    from: u32,
) -> Result<String, NodeFault>
    ensures read { OnOk result (IsOnlyRead (state S.Store) desk.old.node desk.new.node) }
    ensures kept { IfOk result (λ text. IsKeptText from (string_bytes text)) }
{
    let texts = kept_texts(alloc, desk, from)?;
    Ok(answers::list(alloc, "kept", texts.as_slice())?)
}

// The texts of entries from a place on, of so many at most.
fn kept_texts<S: Alter + Drop>(
    alloc: Global,
    desk: &mut Desk<S>,
    from: u32,
) -> Result<Vec<String>, NodeFault>
    ensures read { OnOk result (IsOnlyRead (state S.Store) desk.old.node desk.new.node) }
    ensures kept { IfOk result (λ texts. (items : List JournalItem) × (map string_bytes texts.items ≡ item_texts from items)) }
{
    let mut texts = Vec::new(alloc);
    'places: for place in from..from.saturating_add(MOST_KEPT) {
        match desk.node.entry_at(place)? {
            Some(entry) => add_kept(alloc, &mut texts, place, entry)?,
            None => return Ok(texts),
        }
    }
    Ok(texts)
}

// Adds the text of an entry at a place.
fn add_kept(
    alloc: Global,
    texts: &mut Vec<String>,
    place: u32,
    entry: JournalEntry,
) -> Result<(), NodeFault>
    ensures { OnOk result (map string_bytes texts.new.items ≡ map string_bytes texts.old.items ++ item_text place (item entry) ∷ []) }
{
    let text = answers::kept(alloc, place, &entry)?;
    texts.push(text)?;
    Ok(())
}
