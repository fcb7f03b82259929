//! Checks of proofs under the roots that a client knows: each form with a memory of nodes beside the form without.

use crate::genesis::GENESIS_ROOT;
use ibc_ics23_proof::NodeMemory;
use ibc_ids::{Bytes, ClientId, Key, Refusal, Root};
use ibc_merkle::Proof;
use ibc_records::{
    ConsensusState, PeerClaim, Records, check_absent, check_absent_with, check_claim,
    check_claim_with, check_path, check_path_with, check_present, check_present_with,
};
use std::alloc::Global;
use std::process::Abort;

// What a new chain has at each of its numbers.
const NUMBER: [u8; 8] = [0; 8];

// Under which root of which client it is asked, at which key, and by which proof.
#[derive(Clone, Copy)]
struct Question<'a> {
    client: &'a ClientId,
    height: u64,
    key: &'a Key,
    proof: &'a Proof,
}

// What both forms answer of a value at a key, or none where they differ.
fn present(
    alloc: Global,
    records: &Records,
    memory: &mut NodeMemory,
    asked: &Question<'_>,
    value: &[u8],
) -> Option<Result<(), Refusal>> {
    let Question {
        client,
        height,
        key,
        proof,
    } = asked;
    let plain = check_present(alloc, records, client, *height, key, value, proof);
    let other = check_present_with(alloc, records, memory, client, *height, key, value, proof);
    if plain == other { Some(plain) } else { None }
}

// What both forms answer of nothing at a key, or none where they differ.
fn absent(
    alloc: Global,
    records: &Records,
    memory: &mut NodeMemory,
    asked: &Question<'_>,
) -> Option<Result<(), Refusal>> {
    let Question {
        client,
        height,
        key,
        proof,
    } = asked;
    let plain = check_absent(alloc, records, client, *height, key, proof);
    let other = check_absent_with(alloc, records, memory, client, *height, key, proof);
    if plain == other { Some(plain) } else { None }
}

// What both forms answer of a value at a path, or none where they differ.
fn at_path(
    records: &Records,
    memory: &mut NodeMemory,
    asked: &Question<'_>,
    path: &str,
    value: &[u8],
) -> Option<Result<(), Refusal>> {
    let Question {
        client,
        height,
        proof,
        ..
    } = asked;
    let plain = check_path(records, client, *height, path, value, proof);
    let other = check_path_with(records, memory, client, *height, path, value, proof);
    if plain == other { Some(plain) } else { None }
}

// What both forms answer of what a peer claims, or none where they differ.
fn claimed(
    records: &Records,
    memory: &mut NodeMemory,
    asked: &Question<'_>,
    claim: &PeerClaim,
) -> Option<Result<(), Refusal>> {
    let Question {
        client,
        height,
        proof,
        ..
    } = asked;
    let plain = check_claim(records, client, *height, claim, proof);
    let other = check_claim_with(records, memory, client, *height, claim, proof);
    if plain == other { Some(plain) } else { None }
}

// What is claimed at a key.
fn claim_at(rt: &impl Abort, alloc: Global, key: &Key, value: &[u8]) -> PeerClaim {
    let path = key.path(alloc).expect(rt, "memory");
    let value = Bytes::copy_of(alloc, value).expect(rt, "memory");
    PeerClaim { path, value }
}

// All checks of a key answer this, with and without a memory, where it is asked for this value.
fn check_value(
    rt: &impl Abort,
    alloc: Global,
    records: &Records,
    memory: &mut NodeMemory,
    asked: &Question<'_>,
    value: &[u8],
    due: Result<(), Refusal>,
) {
    let claim = claim_at(rt, alloc, asked.key, value);
    assert!(rt; present(alloc, records, memory, asked, value) == Some(due));
    assert!(rt; at_path(records, memory, asked, claim.path.as_str(), value) == Some(due));
    assert!(rt; claimed(records, memory, asked, &claim) == Some(due));
    drop(claim);
}

// A key that a new chain has: with its value it is shown, with another it isn't, and it isn't shown to be absent.
fn check_there(
    rt: &impl Abort,
    alloc: Global,
    records: &Records,
    memory: &mut NodeMemory,
    asked: &Question<'_>,
) {
    check_value(rt, alloc, records, memory, asked, &NUMBER, Ok(()));
    check_value(
        rt,
        alloc,
        records,
        memory,
        asked,
        &[1; 8],
        Err(Refusal::BadProof),
    );
    assert!(rt; absent(alloc, records, memory, asked) == Some(Err(Refusal::BadProof)));
}

// A key that a new chain doesn't have: its absence is shown, and no value.
fn check_not_there(
    rt: &impl Abort,
    alloc: Global,
    records: &Records,
    memory: &mut NodeMemory,
    asked: &Question<'_>,
) {
    check_value(
        rt,
        alloc,
        records,
        memory,
        asked,
        &NUMBER,
        Err(Refusal::BadProof),
    );
    assert!(rt; absent(alloc, records, memory, asked) == Some(Ok(())));
}

// Nothing is shown where the client or the height isn't known.
fn check_unknown(
    rt: &impl Abort,
    alloc: Global,
    records: &Records,
    memory: &mut NodeMemory,
    asked: &Question<'_>,
    due: Refusal,
) {
    check_value(rt, alloc, records, memory, asked, &NUMBER, Err(due));
    assert!(rt; absent(alloc, records, memory, asked) == Some(Err(due)));
}

// Asks for a key of a new chain, by its proof, under the client's root of height 1, of height 2, and of another client.
fn check_key(
    rt: &impl Abort,
    alloc: Global,
    records: &Records,
    memory: &mut NodeMemory,
    clients: [&ClientId; 2],
    key: &Key,
    proof: &Proof,
    is_there: bool,
) {
    let [client, other] = clients;
    let asked = Question {
        client,
        height: 1,
        key,
        proof,
    };
    if is_there {
        check_there(rt, alloc, records, memory, &asked);
    } else {
        check_not_there(rt, alloc, records, memory, &asked);
    }
    let later = Question { height: 2, ..asked };
    check_unknown(rt, alloc, records, memory, &later, Refusal::NoConsensus);
    let foreign = Question {
        client: other,
        ..asked
    };
    check_unknown(rt, alloc, records, memory, &foreign, Refusal::UnknownClient);
}

// Records with a client of chain 1, which knows the root of a new chain at height 1.
fn knowing(rt: &impl Abort, alloc: Global, id: &ClientId) -> Records {
    let mut records = Records::new(alloc, 2, 100).expect(rt, "memory");
    make_client(rt, &mut records, id);
    records
}

fn make_client(rt: &impl Abort, records: &mut Records, id: &ClientId) {
    let known = ConsensusState {
        root: Root::from_bytes(GENESIS_ROOT),
        time: 100,
    };
    let name = id.clone().expect(rt, "memory");
    ibc_records::check_number(records.next_client()).expect(rt, "a number");
    records.add_client(name, 1).expect(rt, "memory");
    records.update_client(id, 1, known).expect(rt, "a client");
}

// The proof of what a new chain has at a key.
fn proof_of(rt: &impl Abort, alloc: Global, key: &Key) -> Proof {
    let mut peer = Records::new(alloc, 2, 100).expect(rt, "memory");
    let proof = committed_proof(rt, &mut peer, key);
    drop(peer);
    proof
}

fn committed_proof(rt: &impl Abort, peer: &mut Records, key: &Key) -> Proof {
    let root = peer.commit(100).expect(rt, "a height");
    assert!(rt; root.bytes() == &GENESIS_ROOT);
    peer.prove(1, key).expect(rt, "a proof")
}

// Proves a key of a new chain and asks for it.
fn prove_and_check(
    rt: &impl Abort,
    alloc: Global,
    records: &Records,
    memory: &mut NodeMemory,
    clients: [&ClientId; 2],
    key: Key,
    is_there: bool,
) {
    let proof = proof_of(rt, alloc, &key);
    check_key(rt, alloc, records, memory, clients, &key, &proof, is_there);
    drop(proof);
    drop(key);
}

// Asks for two counters, and for the first of them once more.
fn check_counters(
    rt: &impl Abort,
    alloc: Global,
    records: &Records,
    memory: &mut NodeMemory,
    clients: [&ClientId; 2],
) {
    prove_and_check(
        rt,
        alloc,
        records,
        memory,
        clients,
        Key::NextClientSequence,
        true,
    );
    prove_and_check(
        rt,
        alloc,
        records,
        memory,
        clients,
        Key::NextChannelSequence,
        true,
    );
    prove_and_check(
        rt,
        alloc,
        records,
        memory,
        clients,
        Key::NextClientSequence,
        true,
    );
}

fn check_keys(rt: &impl Abort, alloc: Global, records: &Records, clients: [&ClientId; 2]) {
    let mut memory = NodeMemory::new(alloc);
    let kept = &mut memory;
    check_counters(rt, alloc, records, kept, clients);
    let name = clients[1].clone().expect(rt, "memory");
    prove_and_check(
        rt,
        alloc,
        records,
        kept,
        clients,
        Key::ClientState(name),
        false,
    );
    drop(memory);
}

#[test]
fn checks_with_a_memory_of_nodes(rt: HostRuntime) {
    let id = ClientId::parse(rt.alloc(), "inprocess-0").expect(&rt, "a name");
    let other = ClientId::parse(rt.alloc(), "inprocess-1").expect(&rt, "a name");
    let records = knowing(&rt, rt.alloc(), &id);
    check_keys(&rt, rt.alloc(), &records, [&id, &other]);
    drop(records);
    drop(id);
    drop(other);
}
