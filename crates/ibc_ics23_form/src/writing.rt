//! How forms are written.

ghost use Rattle.std.specs.Prelude.{◌≡◌, ◌++◌, IfOk, OnOk, IsOkUnless};
ghost use Rattle.ibc_ids.specs.declared.refusal.Refusal.TheVariants.{NoMemory};
ghost use Rattle.ibc_merkle.specs.Hash.{varint};
ghost use Rattle.ibc_ics23_form.specs.Forms.{bytes_field, delimited, existence, form_of, inner_op, leaf_op, neighbour_field, non_existence, path_fields};

use ibc_ids::{Bytes, Refusal};
use ibc_merkle::{Absence, Affix, Operation, Presence, Proof};
use std::alloc::{AllocError, Global};

/// The canonical bytes of the proof as a `CommitmentProof`. Refused: `NoMemory`.
#[tactic(auto, unfolding(crate::specs::Forms::form_of))]
pub fn form_of(alloc: Global, proof: &Proof) -> Result<Bytes, Refusal>
    ensures ok { IfOk result (λ form. form ≡ form_of proof.now) }
    ensures err { IsOkUnless result NoMemory }
{
    match proof {
        Proof::Present(shown) => Ok(Bytes::from_vec(present_form(alloc, shown)?)),
        Proof::Absent(shown) => Ok(Bytes::from_vec(absent_form(alloc, shown)?)),
    }
}

fn present_form(alloc: Global, shown: &Presence) -> Result<Vec<u8>, AllocError>
    ensures { IfOk result (λ form. form.items ≡ delimited 10 (existence shown.now)) }
{
    let content = existence(alloc, shown)?;
    of_message(alloc, 10, content.as_slice())
}

fn absent_form(alloc: Global, shown: &Absence) -> Result<Vec<u8>, AllocError>
    ensures { IfOk result (λ form. form.items ≡ delimited 18 (non_existence shown.now)) }
{
    let content = non_existence(alloc, shown)?;
    of_message(alloc, 18, content.as_slice())
}

fn of_message(alloc: Global, tag: u8, content: &[u8]) -> Result<Vec<u8>, AllocError>
    ensures { IfOk result (λ form. form.items ≡ delimited tag content.now) }
{
    let mut out = Vec::new(alloc);
    push_delimited(&mut out, tag, content)?;
    Ok(out)
}

fn non_existence(alloc: Global, shown: &Absence) -> Result<Vec<u8>, AllocError>
    ensures { IfOk result (λ text. text.items ≡ non_existence shown.now) }
{
    let mut out = Vec::new(alloc);
    push_field(&mut out, 10, shown.key.as_slice())?;
    push_neighbour(alloc, &mut out, 18, &shown.left)?;
    push_neighbour(alloc, &mut out, 26, &shown.right)?;
    Ok(out)
}

fn push_neighbour(
    alloc: Global,
    out: &mut Vec<u8>,
    tag: u8,
    neighbour: &Option<Presence>,
) -> Result<(), AllocError>
    ensures { OnOk result (out.new.items ≡ out.old.items ++ neighbour_field tag neighbour.now) }
{
    match neighbour {
        None => Ok(()),
        Some(shown) => {
            let content = existence(alloc, shown)?;
            push_delimited(out, tag, content.as_slice())
        }
    }
}

fn existence(alloc: Global, shown: &Presence) -> Result<Vec<u8>, AllocError>
    ensures { IfOk result (λ text. text.items ≡ existence shown.now) }
{
    let mut out = Vec::new(alloc);
    push_field(&mut out, 10, shown.key.as_slice())?;
    push_field(&mut out, 18, shown.value.as_slice())?;
    let leaf = leaf_op(alloc, &shown.leaf_prefix)?;
    push_delimited(&mut out, 26, leaf.as_slice())?;
    push_path(alloc, &mut out, shown.operations.as_slice())?;
    Ok(out)
}

fn leaf_op(alloc: Global, prefix: &Affix) -> Result<Vec<u8>, AllocError>
    ensures { IfOk result (λ text. text.items ≡ leaf_op prefix.now) }
{
    let mut out = Vec::new(alloc);
    out.extend_from_slice([8u8, 1, 24, 1, 32, 1].as_slice())?;
    push_field(&mut out, 42, prefix.as_slice())?;
    Ok(out)
}

// The operations, each as a field.
fn push_path(alloc: Global, out: &mut Vec<u8>, operations: &[Operation]) -> Result<(), AllocError>
    ensures { OnOk result (out.new.items ≡ out.old.items ++ path_fields operations.now) }
{
    match operations {
        [] => Ok(()),
        [first, rest @ ..] => {
            let node = inner_op(alloc, first)?;
            push_delimited(out, 34, node.as_slice())?;
            push_path(alloc, out, rest)
        }
    }
}

fn inner_op(alloc: Global, operation: &Operation) -> Result<Vec<u8>, AllocError>
    ensures { IfOk result (λ text. text.items ≡ inner_op operation.now) }
{
    let mut out = Vec::new(alloc);
    out.extend_from_slice([8u8, 1].as_slice())?;
    push_field(&mut out, 18, operation.prefix.as_slice())?;
    push_field(&mut out, 26, operation.suffix.as_slice())?;
    Ok(out)
}

// A field of bytes; nothing where there are none.
fn push_field(out: &mut Vec<u8>, tag: u8, content: &[u8]) -> Result<(), AllocError>
    ensures { OnOk result (out.new.items ≡ out.old.items ++ bytes_field tag content.now) }
{
    if content.is_empty() {
        return Ok(());
    }
    push_delimited(out, tag, content)
}

// A field of bytes, or of a message, behind its tag and its length.
fn push_delimited(out: &mut Vec<u8>, tag: u8, content: &[u8]) -> Result<(), AllocError>
    ensures { OnOk result (out.new.items ≡ out.old.items ++ delimited tag content.now) }
{
    out.push(tag)?;
    push_varint(out, content.len())?;
    out.extend_from_slice(content)
}

// A number, seven bits a byte.
#[tactic(auto, using(crate::proofs::Varints::varint_last, crate::proofs::Varints::varint_more))]
fn push_varint(out: &mut Vec<u8>, number: usize) -> Result<(), AllocError>
    ensures { OnOk result (out.new.items ≡ out.old.items ++ varint number) }
{
    if number < 128 {
        out.push(number as u8)?;
        Ok(())
    } else {
        out.push((128 + number % 128) as u8)?;
        push_varint(out, number / 128)
    }
}
