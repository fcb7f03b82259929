//! Connections whose numbers end.

use ibc_connection::open_init;
use ibc_ids::{ClientId, Refusal};
use ibc_records::{NextNumbers, Records, check_number};
use ibc_wire::ConnOpenInit;
use std::alloc::Global;
use std::process::Abort;

fn client(rt: &impl Abort, alloc: Global) -> ClientId {
    ClientId::parse(alloc, "inprocess-0").expect(rt, "a name")
}

// Records with a client, of which only one connection more has a number.
fn ending(rt: &impl Abort, alloc: Global) -> Records {
    let next = NextNumbers {
        client: 0,
        connection: u64::MAX - 1,
        channel: 0,
    };
    let mut records = Records::counting_from(alloc, 2, 100, next).expect(rt, "memory");
    check_number(records.next_client()).expect(rt, "a number");
    records
        .add_client(client(rt, alloc), 1)
        .expect(rt, "memory");
    records
}

// Whether the connection that is begun has the last number.
fn is_last(alloc: Global, records: &mut Records, message: &ConnOpenInit) -> Result<bool, Refusal> {
    let id = open_init(alloc, records, message)?;
    let is_last = id.as_str() == "connection-18446744073709551614";
    drop(id);
    Ok(is_last)
}

fn check_numbers(rt: &impl Abort, alloc: Global, records: &mut Records, message: &ConnOpenInit) {
    assert!(rt; is_last(alloc, records, message) == Ok(true));
    assert!(rt; is_last(alloc, records, message) == Err(Refusal::NumberFull));
}

#[test]
fn connections_are_numbered(rt: HostRuntime) {
    let mut records = ending(&rt, rt.alloc());
    let message = ConnOpenInit {
        client: client(&rt, rt.alloc()),
        peer_client: client(&rt, rt.alloc()),
    };
    check_numbers(&rt, rt.alloc(), &mut records, &message);
    drop(message);
    drop(records);
}
