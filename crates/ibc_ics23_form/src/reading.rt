//! How forms are read. A proof is cut out, and its form compared.

ghost use Rattle.std.specs.Prelude.{◌≡◌, ◌⊎◌, IfOk, IfErr, IsErrOf};
ghost use Rattle.ibc_ids.specs.declared.refusal.Refusal.TheVariants.{BadMessage, NoMemory};
ghost use Rattle.ibc_wire.specs.Fronts.{Gives};
ghost use Rattle.ibc_ics23_form.specs.Forms.{IsFormOfNone, IsProofOf, IsSpelledProofOf, form_of};
ghost use Rattle.ibc_ics23_form.specs.Reading.{absence_in, behind, content_at_front, delimited_at_front, leaf_prefix_in, neighbour_at_front, operation_at_front, operation_in, path_behind, presence_in, proof_in, varint_at_front};

use crate::writing::form_of;
use ibc_ids::{Bytes, ListOf, Refusal};
use ibc_merkle::{Absence, Affix, Operation, Presence, Proof};
use ibc_wire::encode;
use ibc_wire::fields::read_bytes;
use std::alloc::Global;

/// The most operations that a proof has.
const MOST_OPERATIONS: usize = 64;

/// The bytes that spell the one proof whose canonical form these bytes are, as a `CommitmentProof`. Refused: `BadMessage` exactly where
/// they are the form of no proof that bytes spell; `NoMemory`.
pub fn spelled_of_form(alloc: Global, form: &[u8]) -> Result<Bytes, Refusal>
    ensures ok { IfOk result (λ bytes. IsSpelledProofOf form.now bytes) }
    ensures bad { IsErrOf result BadMessage → IsFormOfNone form.now }
    ensures err { IfErr result (λ refusal. (refusal ≡ BadMessage) ⊎ (refusal ≡ NoMemory)) }
{
    let proof = proof_of_form(alloc, form)?;
    let spelled = encode(alloc, &proof);
    drop(proof);
    match spelled {
        Ok(bytes) => Ok(Bytes::from_vec(bytes)),
        Err(refusal) => Err(refusal),
    }
}

/// The one proof whose canonical form these bytes are, as a `CommitmentProof`. Refused: `BadMessage` only where they are the form of no
/// proof that bytes spell; `NoMemory`.
#[tactic(auto, using(crate::proofs::ReadForms::another_is_read))]
pub fn proof_of_form(alloc: Global, form: &[u8]) -> Result<Proof, Refusal>
    ensures ok { IfOk result (IsProofOf form.now) }
    ensures bad { IsErrOf result BadMessage → IsFormOfNone form.now }
    ensures err { IfErr result (λ refusal. (refusal ≡ BadMessage) ⊎ (refusal ≡ NoMemory)) }
{
    match proof_in(alloc, form) {
        Ok(proof) => with_form(alloc, proof, form),
        Err(refusal) => Err(refusal),
    }
}

// The proof, where this is its form.
#[tactic(auto, using(crate::proofs::SameForms::the_one))]
fn with_form(alloc: Global, proof: Proof, form: &[u8]) -> Result<Proof, Refusal>
    ensures ok { IfOk result (IsProofOf form.now) }
    ensures bad { IsErrOf result BadMessage → ¬ (form_of proof ≡ form.now) }
    ensures err { IfErr result (λ refusal. (refusal ≡ BadMessage) ⊎ (refusal ≡ NoMemory)) }
{
    match form_of(alloc, &proof) {
        Ok(own) => {
            if own.as_slice() == form {
                Ok(proof)
            } else {
                drop(proof);
                Err(Refusal::BadMessage)
            }
        }
        Err(_) => {
            drop(proof);
            Err(Refusal::NoMemory)
        }
    }
}

#[tactic(auto, unfolding(crate::specs::Reading::proof_in))]
fn proof_in(alloc: Global, form: &[u8]) -> Result<Proof, Refusal>
    ensures { Gives (λ x. x) result (proof_in form.now) }
{
    match form {
        [] => Err(Refusal::BadMessage),
        [tag, ..] => {
            if *tag == 10 {
                let (content, _) = delimited(10, form)?;
                Ok(Proof::Present(presence_in(alloc, content)?))
            } else {
                let (content, _) = delimited(18, form)?;
                Ok(Proof::Absent(absence_in(alloc, content)?))
            }
        }
    }
}

#[tactic(auto, unfolding(crate::specs::Reading::absence_in))]
fn absence_in(alloc: Global, text: &[u8]) -> Result<Absence, Refusal>
    ensures { Gives (λ x. x) result (absence_in text.now) }
{
    let (key, rest) = content(10, text)?;
    let (left, rest) = neighbour(alloc, 18, rest)?;
    let (right, _) = neighbour(alloc, 26, rest)?;
    let key = Bytes::copy_of(alloc, key)?;
    Ok(Absence { key, left, right })
}

// A neighbour, where its field is there, and what stands behind it.
#[tactic(auto, unfolding(crate::specs::Reading::neighbour_at_front))]
fn neighbour(alloc: Global, tag: u8, text: &[u8]) -> Result<(Option<Presence>, &[u8]), Refusal>
    ensures { Gives (λ x. (x.0, x.1.now)) result (neighbour_at_front tag text.now) }
{
    match text {
        [] => Ok((None, text)),
        [first, ..] => {
            if *first == tag {
                let (found, rest) = delimited(tag, text)?;
                let shown = presence_in(alloc, found)?;
                Ok((Some(shown), rest))
            } else {
                Ok((None, text))
            }
        }
    }
}

#[tactic(auto, unfolding(crate::specs::Reading::presence_in))]
fn presence_in(alloc: Global, text: &[u8]) -> Result<Presence, Refusal>
    ensures { Gives (λ x. x) result (presence_in text.now) }
{
    let (key, rest) = content(10, text)?;
    let (value, rest) = content(18, rest)?;
    let (leaf, rest) = delimited(26, rest)?;
    let leaf_prefix = leaf_prefix_in(alloc, leaf)?;
    let mut operations = Vec::new(alloc);
    push_path(alloc, rest, MOST_OPERATIONS, &mut operations)?;
    Ok(Presence {
        key: Bytes::copy_of(alloc, key)?,
        value: Bytes::copy_of(alloc, value)?,
        leaf_prefix,
        operations: ListOf::from_vec(operations),
    })
}

#[tactic(auto, unfolding(crate::specs::Reading::leaf_prefix_in))]
fn leaf_prefix_in(alloc: Global, leaf: &[u8]) -> Result<Affix, Refusal>
    ensures { Gives (λ x. x) result (leaf_prefix_in leaf.now) }
{
    let marked = behind([8u8, 1, 24, 1, 32, 1].as_slice(), leaf)?;
    let (prefix, _) = content(42, marked)?;
    let prefix = Affix::copy_of(alloc, prefix)?;
    Ok(prefix)
}

// The operations, behind those that were cut out already; at most so many.
#[tactic(auto, unfolding(crate::specs::Reading::path_behind), using(crate::proofs::ReadForms::path_more))]
fn push_path(
    alloc: Global,
    text: &[u8],
    most: usize,
    done: &mut Vec<Operation>,
) -> Result<(), Refusal>
    ensures { Gives (λ _. done.new.items) result (path_behind text.now most done.old.items) }
{
    match text {
        [] => Ok(()),
        [_, ..] => {
            if most == 0 {
                return Err(Refusal::BadMessage);
            }
            let (operation, rest) = operation(alloc, text)?;
            done.push(operation)?;
            push_path(alloc, rest, most - 1, done)
        }
    }
}

// The operation at the front, and what stands behind it.
#[tactic(auto, unfolding(crate::specs::Reading::operation_at_front))]
fn operation(alloc: Global, text: &[u8]) -> Result<(Operation, &[u8]), Refusal>
    ensures { Gives (λ x. (x.0, x.1.now)) result (operation_at_front text.now) }
{
    let (node, rest) = delimited(34, text)?;
    let operation = operation_in(alloc, node)?;
    Ok((operation, rest))
}

#[tactic(auto, unfolding(crate::specs::Reading::operation_in))]
fn operation_in(alloc: Global, node: &[u8]) -> Result<Operation, Refusal>
    ensures { Gives (λ x. x) result (operation_in node.now) }
{
    let marked = behind([8u8, 1].as_slice(), node)?;
    let (prefix, rest) = content(18, marked)?;
    let (suffix, _) = content(26, rest)?;
    let prefix = Affix::copy_of(alloc, prefix)?;
    let suffix = Affix::copy_of(alloc, suffix)?;
    Ok(Operation { prefix, suffix })
}

// What stands behind the front.
#[tactic(auto, unfolding(crate::specs::Reading::behind))]
fn behind<'t>(front: &[u8], text: &'t [u8]) -> Result<&'t [u8], Refusal>
    ensures { Gives (λ rest. rest.now) result (behind front.now text.now) }
{
    let (found, rest) = read_bytes(text, front.len())?;
    if found == front {
        Ok(rest)
    } else {
        Err(Refusal::BadMessage)
    }
}

// The content of a field of bytes, none where it is left out, and what stands behind it.
#[tactic(auto, unfolding(crate::specs::Reading::content_at_front))]
fn content(tag: u8, text: &[u8]) -> Result<(&[u8], &[u8]), Refusal>
    ensures { Gives (λ x. (x.0.now, x.1.now)) result (content_at_front tag text.now) }
{
    match text {
        [] => Ok(text.split_at(0)),
        [first, ..] => {
            if *first == tag {
                delimited(tag, text)
            } else {
                Ok(text.split_at(0))
            }
        }
    }
}

// The content of the field with this tag, and what stands behind it.
#[tactic(auto, unfolding(crate::specs::Reading::delimited_at_front))]
fn delimited(tag: u8, text: &[u8]) -> Result<(&[u8], &[u8]), Refusal>
    ensures { Gives (λ x. (x.0.now, x.1.now)) result (delimited_at_front tag text.now) }
{
    match text {
        [] => Err(Refusal::BadMessage),
        [first, rest @ ..] => {
            if *first != tag {
                return Err(Refusal::BadMessage);
            }
            let (size, rest) = varint(rest, 8)?;
            read_bytes(rest, size)
        }
    }
}

// The number at the front, of at most so many bytes and one, and what stands behind it.
#[tactic(auto, unfolding(crate::specs::Reading::varint_at_front))]
fn varint(text: &[u8], more: usize) -> Result<(usize, &[u8]), Refusal>
    ensures { Gives (λ x. (x.0, x.1.now)) result (varint_at_front more text.now) }
{
    match text {
        [] => Err(Refusal::BadMessage),
        [low, rest @ ..] => {
            if *low < 128 {
                return Ok((usize::from(*low), rest));
            }
            if more == 0 {
                return Err(Refusal::BadMessage);
            }
            let (higher, rest) = varint(rest, more - 1)?;
            if higher < 1 << 56 {
                Ok((usize::from(*low % 128) + 128 * higher, rest))
            } else {
                Err(Refusal::BadMessage)
            }
        }
    }
}
