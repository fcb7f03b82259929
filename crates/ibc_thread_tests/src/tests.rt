//! Each test has chains of a script shared, and looks at what they did and hold.

use crate::handing::Returning;
use crate::scripts::{
    BLOCKS, HEIGHTS, IN_A_ROW, RELAYED, RepeatedSteps, SENT, SENT_IN_A_BLOCK, TOKENS, opened,
};
use crate::trial::{Calls, Deed, Trial};
use ibc_script::Fault;
use ibc_script_cli::drive;
use ibc_script_races::RaceRunner;
use ibc_script_worlds::WorldFactory;
use std::alloc::Global;
use std::cell::Cell;
use std::sync::Wait;
use std::test::Fail;
use std::thread::Threads;

// What is printed where no token is away.
const AT_HOME: &str = "balance a alice atom 1000
";

// What is printed first where 100 of the tokens were sent.
const AWAY: &str = "balance a alice atom 900
balance a escrow/transfer/channel-0 atom 100
";

// What is printed once 50 of the tokens have come over.
const FIFTY: &str = "balance a alice atom 950
balance a escrow/transfer/channel-0 atom 50
balance b bob transfer/channel-0/atom 50
";

/// Has the steps of a script taken by these calls. The result is what is printed of the chains, or nothing where these didn't do
/// what they must.
pub fn tried<R: Threads + Wait + Sync>(
    rt: &R,
    alloc: Global,
    calls: Calls,
    deed: Deed,
    script: &str,
) -> Result<Option<Vec<u8>>, Fault> {
    let is_done = Cell::new(false);
    let trial = Trial {
        rt,
        alloc,
        calls,
        deed,
        is_done: &is_done,
    };
    let mut output = Vec::new(alloc);
    let words = ["race", "--relayers", "8"];
    let worlds = WorldFactory::new(alloc);
    drive(
        alloc,
        &worlds,
        &trial,
        &words,
        script.as_bytes(),
        &mut output,
    )?;
    if is_done.get() {
        Ok(Some(output))
    } else {
        Ok(None)
    }
}

/// Whether what is printed is this.
pub fn is_printed(tried: Result<Option<Vec<u8>>, Fault>, text: &str) -> bool {
    let is_printed = match &tried {
        Ok(Some(output)) => output.as_slice() == text.as_bytes(),
        Ok(None) | Err(_) => false,
    };
    drop(tried);
    is_printed
}

/// How a script ends that is run as a race of so many relayers, and whether this is all that is printed.
pub fn raced<R: Threads + Wait + Sync>(
    rt: &R,
    alloc: Global,
    relayers: &str,
    script: &str,
    text: &str,
) -> (Result<(), Fault>, bool) {
    let mut output = Vec::new(alloc);
    let driven = drive(
        alloc,
        &WorldFactory::new(alloc),
        &RaceRunner::new(rt, alloc),
        &["race", "--relayers", relayers],
        script.as_bytes(),
        &mut output,
    );
    let is_printed = output.as_slice() == text.as_bytes();
    drop(output);
    (driven, is_printed)
}

/// What the histories say is what scripts come to by the calls of `Gate`, and their answers are those of its entries.
#[test]
fn histories_tell_what_gates_answered(rt: HostRuntime) {
    let alloc = rt.alloc();
    for case in [HEIGHTS, TOKENS] {
        let tried = tried(
            &rt,
            alloc,
            Calls::OfGates,
            Deed::Tell(case.told),
            case.script,
        );
        assert!(rt; is_printed(tried, AT_HOME));
    }
}

/// So it is by the chains' own calls, whose receipts are each of an entry of its own, also where two messages are equal.
#[test]
fn receipts_are_of_entries_of_their_own(rt: HostRuntime) {
    let alloc = rt.alloc();
    for case in [HEIGHTS, TOKENS] {
        let tried = tried(&rt, alloc, Calls::Own, Deed::Tell(case.told), case.script);
        assert!(rt; is_printed(tried, AT_HOME));
    }
}

/// While a thread ends 30 blocks, the two that look at the chain see no height fall, and what they relay is received once each.
#[test]
fn heights_never_fall_while_threads_relay(rt: HostRuntime) -> Result<(), Fail> {
    let alloc = rt.alloc();
    let script = opened(
        alloc,
        &[
            RepeatedSteps {
                text: BLOCKS,
                times: 1,
            },
            RepeatedSteps {
                text: SENT_IN_A_BLOCK,
                times: 30,
            },
        ],
    )?;
    let tried = tried(
        &rt,
        alloc,
        Calls::Watched,
        Deed::HaveThirty,
        script.as_str(),
    );
    assert!(rt; matches!(&tried, Ok(Some(_))));
    drop(tried);
    Ok(())
}

/// Eight relayers race for 50 packets: each is received once, what they answer is what the histories gained, the first message
/// sees another relayer's answered while it is held back, and the chains pass the audit.
#[test]
fn eight_relayers_race(rt: HostRuntime) -> Result<(), Fail> {
    let alloc = rt.alloc();
    let script = opened(
        alloc,
        &[
            RepeatedSteps {
                text: SENT,
                times: 50,
            },
            RepeatedSteps {
                text: BLOCKS,
                times: 1,
            },
        ],
    )?;
    let tried = tried(&rt, alloc, Calls::Own, Deed::Race, script.as_str());
    assert!(rt; is_printed(tried, FIFTY));
    Ok(())
}

/// Two relayers between two chains and two between the second and a third relay at the same time, and the chains pass the audit.
#[test]
fn pairs_of_relayers_share_a_chain(rt: HostRuntime) {
    let tried = tried(&rt, rt.alloc(), Calls::Own, Deed::RelayInPairs, IN_A_ROW);
    assert!(rt; matches!(&tried, Ok(Some(output)) if output.starts_with(AWAY.as_bytes())));
    drop(tried);
}

/// A race prints what the audit finds, whatever came first.
#[test]
fn a_race_prints_its_audit(rt: HostRuntime) -> Result<(), Fail> {
    let alloc = rt.alloc();
    let script = opened(
        alloc,
        &[
            RepeatedSteps {
                text: SENT,
                times: 50,
            },
            RepeatedSteps {
                text: RELAYED,
                times: 1,
            },
        ],
    )?;
    for relayers in ["1", "8"] {
        let (driven, is_printed) = raced(&rt, alloc, relayers, script.as_str(), FIFTY);
        assert!(rt; driven.is_ok());
        assert!(rt; is_printed);
    }
    drop(script);
    Ok(())
}

/// Words that ask for no race, and a script that has no chains to race between, run none and print nothing.
#[test]
fn bad_words_race_nothing(rt: HostRuntime) {
    for relayers in ["0", "9", "04", ""] {
        let (driven, is_printed) = raced(&rt, rt.alloc(), relayers, FIFTY, "");
        assert!(rt; driven == Err(Fault::BadArguments));
        assert!(rt; is_printed);
    }
}

/// A ledger comes back out of the chain that was made of it. Where a growth is refused as the chain is made it comes back too, as
/// it was: so this passes also where one of those growths is the one that is refused.
#[test]
fn ledgers_come_back_from_chains(rt: HostRuntime) {
    let alloc = rt.alloc();
    let is_done = Cell::new(false);
    let returning = Returning {
        rt: &rt,
        alloc,
        is_done: &is_done,
    };
    let mut output = Vec::new(alloc);
    let driven = drive(
        alloc,
        &WorldFactory::new(alloc),
        &returning,
        &["race", "--relayers", "1"],
        TOKENS.script.as_bytes(),
        &mut output,
    );
    assert!(rt; driven.is_ok(), "no memory beside the run");
    assert!(rt; is_done.get());
}
