//! Each test has a world asked the list of events of a script at once, or reads the list's messages back.

use crate::lists::{CLOSED_PEER, HANDSHAKES, NOTES, TRANSFERS};
use crate::refused::{Came, Listing, Trying};
use ibc_script::Fault;
use ibc_script_cli::drive;
use ibc_script_worlds::WorldFactory;
use std::alloc::Global;
use std::cell::Cell;
use std::test::Fail;

// What comes of a script's list. Faults: `NoMemory`, where a growth was refused before the list was asked or behind that.
fn came_of(alloc: Global, trying: Trying, script: &str) -> Result<Came, Fault> {
    let came = Cell::new(Came::Wrong);
    let listing = Listing {
        alloc,
        trying,
        came: &came,
    };
    let mut output = Vec::new(alloc);
    drive(
        alloc,
        &WorldFactory::new(alloc),
        &listing,
        &["race", "--relayers", "1"],
        script.as_bytes(),
        &mut output,
    )?;
    Ok(came.get())
}

/// A list of handshakes does what it must, also where one growth is refused while a world is asked it: then it is handed back, or
/// the events that weren't answered `NoMemory` come to what they come to without those.
#[test]
fn handshakes_outlast_a_refused_growth(rt: HostRuntime) -> Result<(), Fail> {
    let came = came_of(rt.alloc(), Trying::Run, HANDSHAKES);
    assert!(rt; came != Err(Fault::NoMemory), "no memory beside the run");
    println!(rt; "{came:?}")?;
    assert!(rt; matches!(came, Ok(Came::Answered | Came::HandedBack | Came::Refused)));
    Ok(())
}

/// So does a list of transfers there and back.
#[test]
fn transfers_outlast_a_refused_growth(rt: HostRuntime) -> Result<(), Fail> {
    let came = came_of(rt.alloc(), Trying::Run, TRANSFERS);
    assert!(rt; came != Err(Fault::NoMemory), "no memory beside the run");
    println!(rt; "{came:?}")?;
    assert!(rt; matches!(came, Ok(Came::Answered | Came::HandedBack | Came::Refused)));
    Ok(())
}

/// So does a list of notes, one of which times out.
#[test]
fn notes_outlast_a_refused_growth(rt: HostRuntime) -> Result<(), Fail> {
    let came = came_of(rt.alloc(), Trying::Run, NOTES);
    assert!(rt; came != Err(Fault::NoMemory), "no memory beside the run");
    println!(rt; "{came:?}")?;
    assert!(rt; matches!(came, Ok(Came::Answered | Came::HandedBack | Came::Refused)));
    Ok(())
}

/// Each message of the lists, and each packet in one, is read back from its bytes as it was.
#[test]
fn messages_are_read_back(rt: HostRuntime) {
    for (script, count) in [
        (HANDSHAKES, 11),
        (TRANSFERS, 27),
        (NOTES, 28),
        (CLOSED_PEER, 22),
    ] {
        let came = came_of(rt.alloc(), Trying::ReadBack, script);
        assert!(rt; came == Ok(Came::ReadBack(count)), "{came:?}");
    }
}
