//! Lines are printed.

ghost use Rattle.std.specs.Prelude.{◌++◌, codes, IfErr};
ghost use Rattle.ibc_script.specs.Faults.{IsRunFault};
ghost use Rattle.ibc_script_cli.specs.Lines.{line};
ghost use Rattle.ibc_script_cli.specs.Runs.{Emits, held_text, note_text, numbered_lines};

use crate::{Line, line_text, write_line};
use ibc_ids::{Account, Bytes, ChannelId, Denom};
use ibc_script::Fault;
use std::alloc::Global;
use std::io::Write;

/// Prints a line. Faults: `CannotWrite`, `NoMemory`.
pub fn print<W: Write>(alloc: Global, printed: Line<'_>, output: &mut W) -> Result<(), Fault>
    ensures written { Emits W.contents result output.old output.new (line printed.entry ++ codes "\n") }
    ensures faults { IfErr result IsRunFault }
{
    let text = line_text(alloc, printed).map_err(Fault::no_memory)?;
    write_line(output, text.as_str())
}

/// Prints what the accounts of a chain have. Faults: `CannotWrite`, `NoMemory`.
pub fn print_balances<W: Write>(
    alloc: Global,
    chain: &str,
    balances: &[(Account, Denom, u128)],
    output: &mut W,
) -> Result<(), Fault>
    ensures written { Emits W.contents result output.old output.new (held_text chain.now balances.now) }
    ensures faults { IfErr result IsRunFault }
{
    for (account, denom, amount) in balances {
        let line = Line::Balance {
            chain,
            account,
            denom,
            amount: *amount,
        };
        print(alloc, line, output)?;
    }
    Ok(())
}

// Prints the notes that came over a channel of a chain, numbered from 1.
fn print_notes_over<W: Write>(
    alloc: Global,
    chain: &str,
    channel: &ChannelId,
    notes: &[Bytes],
    output: &mut W,
) -> Result<(), Fault>
    ensures written { Emits W.contents result output.old output.new (numbered_lines chain.now channel.now 1 notes.now) }
    ensures faults { IfErr result IsRunFault }
{
    let mut index = 0;
    for bytes in notes {
        index += 1;
        let line = Line::Note {
            chain,
            channel,
            index,
            bytes,
        };
        print(alloc, line, output)?;
    }
    Ok(())
}

/// Prints the notes that came over each channel of a chain. Faults: `CannotWrite`, `NoMemory`.
pub fn print_notes<W: Write>(
    alloc: Global,
    chain: &str,
    channels: &[(ChannelId, Vec<Bytes>)],
    output: &mut W,
) -> Result<(), Fault>
    ensures written { Emits W.contents result output.old output.new (note_text chain.now channels.now) }
    ensures faults { IfErr result IsRunFault }
{
    for (channel, notes) in channels {
        print_notes_over(alloc, chain, channel, notes.as_slice(), output)?;
    }
    Ok(())
}
