//! Proofs and messages, with no ledger.

ghost use Rattle.std.specs.Prelude.{◌≡◌, ◌⊎◌};
ghost use Rattle.ibc_calls.specs.CallAnswers.{Numbered};
ghost use Rattle.ibc_calls.specs.ProofForms.{FindsForm, FindsProofOf};
ghost use Rattle.ibc_calls.specs.ProofReads.{FindsKey, FindsShown, TellsProof, proof_output};
ghost use Rattle.ibc_calls.specs.JudgedProofs.{judged_present, judged_absent};
ghost use Rattle.ibc_c.specs.Codes.{IsTagged, code_of, kind_number, TellsKind, NumbersFound};

use ibc_calls::{ProofKind, kind_of, number, show_absent, show_present, tag_of};
use ibc_ids::Refusal;
use std::alloc::Global;

/// Whether the bytes spell a proof that shows that the key has the value under the root (ICS 23, "VerifyMembership"). Answers 0
/// where it does, and else the number of the refusal, as `show_present` names it: that of `BadMessage` where the root
/// hasn't 32 bytes or the bytes spell no proof, that of `BadProof` where the proof doesn't show it; 1 where memory ran out.
#[unsafe(no_mangle)]
pub extern "C" fn ibcw_verify_present(
    alloc: Global,
    root: &[u8],
    key: &[u8],
    value: &[u8],
    proof: &[u8],
) -> u32
    ensures { (result ≡ 1) ⊎ (result ≡ code_of (judged_present root.now key.now value.now proof.now)) }
{
    code_of(show_present(alloc, root, key, value, proof))
}

/// Whether the bytes spell a proof that shows that the key isn't there under the root (ICS 23, "VerifyNonMembership"). Answers as
/// `ibcw_verify_present`.
#[unsafe(no_mangle)]
pub extern "C" fn ibcw_verify_absent(alloc: Global, root: &[u8], key: &[u8], proof: &[u8]) -> u32
    ensures { (result ≡ 1) ⊎ (result ≡ code_of (judged_absent root.now key.now proof.now)) }
{
    code_of(show_absent(alloc, root, key, proof))
}

/// Tells what the proof shows that the bytes spell, and answers 0: 1 where it is that a key has a value, 2 where it is that a key
/// isn't there. Answers the number of `BadMessage` exactly where they spell none, and 1 where memory ran out: then nothing is told.
#[unsafe(no_mangle)]
pub extern "C" fn ibcw_proof_kind(alloc: Global, proof: &[u8], kind: &mut u8) -> u32
    ensures { TellsKind proof.now kind.old kind.new result }
{
    match kind_of(alloc, proof) {
        Ok(found) => {
            *kind = kind_number(found);
            0
        }
        Err(refusal) => u32::from(refusal.number()),
    }
}

// The number of a kind.
fn kind_number(kind: ProofKind) -> u8
    ensures { result ≡ kind_number kind }
{
    match kind {
        ProofKind::Present => 1,
        ProofKind::Absent => 2,
    }
}

/// Writes the key of which a proof speaks. As `proof_key`.
#[unsafe(no_mangle)]
pub extern "C" fn ibcw_proof_key(
    alloc: Global,
    proof: &[u8],
    key: &mut [u8],
    size: &mut usize,
) -> u32
    ensures { NumbersFound (FindsKey proof.now) key.old key.new size.old size.new result }
{
    number(ibc_calls::proof_key(alloc, proof, key, size))
}

/// Writes the value that a proof shows its key to have. As `proof_value`.
#[unsafe(no_mangle)]
pub extern "C" fn ibcw_proof_value(
    alloc: Global,
    proof: &[u8],
    value: &mut [u8],
    size: &mut usize,
) -> u32
    ensures { NumbersFound (FindsShown proof.now) value.old value.new size.old size.new result }
{
    number(ibc_calls::proof_value(alloc, proof, value, size))
}

/// Writes the form of ICS 23 of a proof. As `proof_to_ics23`.
#[unsafe(no_mangle)]
pub extern "C" fn ibcw_proof_to_ics23(
    alloc: Global,
    proof: &[u8],
    form: &mut [u8],
    size: &mut usize,
) -> u32
    ensures { NumbersFound (FindsForm proof.now) form.old form.new size.old size.new result }
{
    number(ibc_calls::proof_to_ics23(alloc, proof, form, size))
}

/// Writes the proof of a form of ICS 23. As `proof_of_ics23`.
#[unsafe(no_mangle)]
pub extern "C" fn ibcw_proof_of_ics23(
    alloc: Global,
    form: &[u8],
    proof: &mut [u8],
    size: &mut usize,
) -> u32
    ensures { NumbersFound (FindsProofOf form.now) proof.old proof.new size.old size.new result }
{
    number(ibc_calls::proof_of_ics23(alloc, form, proof, size))
}

/// Writes a proof that a message carries, and tells its height. As `message_proof`.
#[unsafe(no_mangle)]
pub extern "C" fn ibcw_message_proof(
    alloc: Global,
    message: &[u8],
    index: u64,
    height: &mut u64,
    proof: &mut [u8],
    size: &mut usize,
) -> u32
    ensures { Numbered (TellsProof index message.now (proof_output height.old proof.old size.old) (proof_output height.new proof.new size.new)) result }
{
    number(ibc_calls::message_proof(alloc, message, index, height, proof, size))
}

/// Tells the tag, 1 to 19, of the message that the bytes spell, and answers 0. Answers the number of `NoMessage` exactly where they
/// spell none, and 1 where memory ran out: then no tag is told.
#[unsafe(no_mangle)]
pub extern "C" fn ibcw_message_tag(alloc: Global, message: &[u8], tag: &mut u8) -> u32
    ensures { IsTagged message.now tag.old tag.new result }
{
    match tag_of(alloc, message) {
        Ok(found) => {
            *tag = found;
            0
        }
        Err(refused) => number(Err(refused)),
    }
}

// The number of a check's answer.
fn code_of(checked: Result<(), Refusal>) -> u32
    ensures { result ≡ code_of checked }
{
    match checked {
        Ok(()) => 0,
        Err(refusal) => u32::from(refusal.number()),
    }
}
