//! Clients that are made and told of published heights.

ghost use Rattle.std.specs.Prelude.{◌≡◌, IsSome};

use crate::genesis::GENESIS_ROOT;
use ibc_ids::{ClientId, Refusal, Root};
use ibc_records::{ConsensusState, Records, create, update};
use ibc_root_table::{Pass, RootTable};
use ibc_wire::{CreateClient, Header, UpdateClient};
use std::alloc::Global;
use std::process::Abort;

fn new_records(rt: &impl Abort, alloc: Global) -> Records {
    Records::new(alloc, 2, 100).expect(rt, "memory")
}

// Whether the client that chain 0 of two makes of a chain has this identifier.
fn is_made(alloc: Global, records: &mut Records, chain: u8, id: &str) -> Result<bool, Refusal> {
    let made = create(alloc, records, 0, 2, &CreateClient { chain })?;
    let is_same = made.as_str() == id;
    drop(made);
    Ok(is_same)
}

fn check_made(rt: &impl Abort, alloc: Global, records: &mut Records) {
    assert!(rt; is_made(alloc, records, 1, "inprocess-0") == Ok(true));
    assert!(rt; is_made(alloc, records, 1, "inprocess-1") == Ok(true));
    assert!(rt; is_made(alloc, records, 0, "inprocess-2") == Err(Refusal::OwnChain));
    assert!(rt; is_made(alloc, records, 2, "inprocess-2") == Err(Refusal::UnknownChain));
}

#[test]
fn clients_are_made_of_other_chains(rt: HostRuntime) {
    let mut records = new_records(&rt, rt.alloc());
    check_made(&rt, rt.alloc(), &mut records);
    drop(records);
}

// What was published of height 1.
fn published() -> ConsensusState {
    ConsensusState {
        root: Root::from_bytes(GENESIS_ROOT),
        time: 100,
    }
}

// What tells a client of height 1 of chain 1, with this root and time.
fn header(rt: &impl Abort, alloc: Global, client: &str, known: ConsensusState) -> UpdateClient {
    UpdateClient {
        client: ClientId::parse(alloc, client).expect(rt, "a name"),
        header: Header {
            chain: 1,
            height: 1,
            time: known.time,
            root: known.root,
        },
    }
}

// What was published, but a later time.
fn late() -> ConsensusState {
    let mut late = published();
    late.time = 101;
    late
}

// What was published, but another root.
fn other() -> ConsensusState {
    let mut other = published();
    other.root = Root::from_bytes([7; 32]);
    other
}

// Whether a client knows of height 1 what was published.
fn knows_it(records: &Records, id: &ClientId) -> bool {
    match records.client(id) {
        Some(client) => client.consensus_state(1) == Some(published()),
        None => false,
    }
}

// What is answered to a header.
fn tell(
    records: &mut Records,
    table: &RootTable,
    pass: &mut Pass,
    message: &UpdateClient,
) -> Result<(), Refusal>
    requires { pass.old.table ≡ table.now }
    ensures { pass.new.table ≡ pass.old.table }
{
    update(records, table, pass, message).result
}

// This is answered to a header, and the client knows then whether it was published.
fn check_told(
    rt: &impl Abort,
    records: &mut Records,
    table: &RootTable,
    pass: &mut Pass,
    message: &UpdateClient,
    due: Result<(), Refusal>,
)
    requires { pass.old.table ≡ table.now }
    ensures { pass.new.table ≡ pass.old.table }
{
    assert!(rt; tell(records, table, pass, message) == due);
    assert!(rt; knows_it(records, &message.client) == due.is_ok());
}

// What is answered of a header of height 1 with this root and time.
fn tell_of(
    rt: &impl Abort,
    records: &mut Records,
    table: &RootTable,
    pass: &mut Pass,
    told: UpdateClient,
    due: Result<(), Refusal>,
)
    requires { pass.old.table ≡ table.now }
    ensures { pass.new.table ≡ pass.old.table }
{
    check_told(rt, records, table, pass, &told, due);
    drop(told);
}

// What is answered to another time, to another root, to what was published, and where there is no client.
fn tell_each(
    rt: &impl Abort,
    alloc: Global,
    records: &mut Records,
    table: &RootTable,
    pass: &mut Pass,
)
    requires { pass.old.table ≡ table.now }
{
    let wrong = Err(Refusal::WrongHeader);
    let told = header(rt, alloc, "inprocess-0", late());
    tell_of(rt, records, table, pass, told, wrong);
    let told = header(rt, alloc, "inprocess-0", other());
    tell_of(rt, records, table, pass, told, wrong);
    let told = header(rt, alloc, "inprocess-0", published());
    tell_of(rt, records, table, pass, told, Ok(()));
    let told = header(rt, alloc, "inprocess-1", published());
    tell_of(rt, records, table, pass, told, Err(Refusal::UnknownClient));
}

// A client of chain 1 is made, that chain publishes its first height, and the client is told.
fn make_and_tell(
    rt: &impl Abort,
    alloc: Global,
    records: &mut Records,
    table: &RootTable,
    pass: &mut Pass,
)
    requires table { pass.old.table ≡ table.now }
    requires own { IsSome pass.old.own }
{
    assert!(rt; is_made(alloc, records, 1, "inprocess-0") == Ok(true));
    table
        .publish(pass, Root::from_bytes(GENESIS_ROOT), 100)
        .expect(rt, "a row");
    tell_each(rt, alloc, records, table, pass);
}

#[test]
fn the_published_header_is_accepted(rt: HostRuntime) {
    let (table, mut passes) = RootTable::new(rt.alloc(), 2, 0, 2, 4).expect(&rt, "memory");
    let mut pass = passes.pop().expect(&rt, "a pass");
    drop(passes);
    let mut records = new_records(&rt, rt.alloc());
    make_and_tell(&rt, rt.alloc(), &mut records, &table, &mut pass);
    drop(records);
    drop(pass);
    drop(table);
}
