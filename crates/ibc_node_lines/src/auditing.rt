//! What an audit finds is told.

ghost use Rattle.std.specs.Prelude.{◌≡◌, OnOk};
ghost use Rattle.std.specs.Io.KnownBytes.{Appends};
ghost use Rattle.ibc_node.specs.Audits.{FindsLawful};
ghost use Rattle.ibc_node.specs.declared.fault.NodeFault.TheVariants.{OtherAnswer};
ghost use Rattle.ibc_node_lines.specs.Audited.{EndsAsFound, TellsLawful, fault_of};
ghost use Rattle.ibc_node_lines.specs.OtherLines.{lawful_text};

use crate::answers::{lawful, unlawful};
use crate::serving::write;
use ibc_node::{JournalAudit, NodeFault};
use ibc_replay::{Answered, Difference};
use std::alloc::Global;
use std::io::Write;

/// Tells in a line what an audit found: that the entries are a lawful run, or the first place that differs, with the answer that is due
/// there and the one that is kept. Fault: `OtherAnswer` with that place, also where its line can't be written; `CannotWrite` where a lawful
/// run can't be told.
pub fn tell_audit<W: Write>(
    alloc: Global,
    found: &JournalAudit,
    output: &mut W,
) -> Result<(), NodeFault>
    ensures lawful { OnOk result (FindsLawful found.now) }
    ensures ends { EndsAsFound found.now result }
    ensures told { OnOk result (TellsLawful found.now (W.contents output.old) (W.contents output.new)) }
{
    match found {
        JournalAudit::Lawful { entries } => tell_lawful(alloc, *entries, output),
        JournalAudit::Differs(why) => Err(tell_difference(alloc, why, output)),
    }
}

fn tell_lawful<W: Write>(alloc: Global, entries: u32, output: &mut W) -> Result<(), NodeFault>
    ensures { OnOk result (Appends (W.contents output.old) (W.contents output.new) (lawful_text entries)) }
{
    let text = lawful(alloc, entries)?;
    write(output, text.as_str())
}

// Tells which two answers differ, where a line can be written. Answers the fault that the difference is.
fn tell_difference<W: Write>(alloc: Global, why: &Difference, output: &mut W) -> NodeFault
    ensures { result ≡ fault_of why.now }
{
    match why {
        Difference::At { place, due, stored } => {
            tell_both(alloc, *place, Some(due), stored, output)
        }
        Difference::UnknownChain { place, stored } => {
            tell_both(alloc, *place, None, stored, output)
        }
        Difference::NoGenesis => NodeFault::BadGenesis,
        Difference::NoMemory => NodeFault::NoMemory,
    }
}

// Tells the two answers at a place, where a line can be written. Answers the fault that names the place.
fn tell_both<W: Write>(
    alloc: Global,
    place: usize,
    due: Option<&Answered>,
    kept: &Answered,
    output: &mut W,
) -> NodeFault
    ensures { result ≡ OtherAnswer place }
{
    let fault = NodeFault::OtherAnswer(place);
    let Ok(text) = unlawful(alloc, place, due, kept) else {
        return fault;
    };
    let _written = write(output, text.as_str());
    drop(text);
    fault
}
