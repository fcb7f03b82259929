//! What the chains have is told.

ghost use Rattle.std.specs.Prelude.{◌∷◌, [], codes, decimal, length, map, IfErr};
ghost use Rattle.std.specs.List.{range_with_len};
ghost use Rattle.ibc_script.specs.Faults.{IsRunFault};
ghost use Rattle.ibc_script.specs.declared.script.Step.TheVariants as step;
ghost use Rattle.ibc_script_cli.specs.Lines.{hex_of};
ghost use Rattle.ibc_script_cli.specs.Runs.{Emits, Runs, line_of};
ghost use Rattle.ibc_script_cli.specs.Runs.Act.{Take, TellBalances, TellNotes};

use super::Runner;
use crate::completing::Completer;
use crate::printing::{print, print_balances, print_notes};
use crate::{Chains, Holdings, Line};
use ibc_ids::{Bytes, ChannelId, Denom, Key, Root};
use ibc_script::{Fault, ProofSource};
use std::alloc::Global;
use std::io::Write;

// Prints what is known of the root of a height of a chain.
fn print_root_of<W: Write>(
    alloc: Global,
    chain: &str,
    height: u64,
    root: Option<&Root>,
    output: &mut W,
) -> Result<(), Fault>
    ensures written { Emits W.contents result output.old output.new (line_of (chain.now ∷ codes "root" ∷ decimal height ∷ hex_of root.entry ∷ [])) }
    ensures faults { IfErr result IsRunFault }
{
    let line = Line::Root {
        chain,
        height,
        root,
    };
    print(alloc, line, output)
}

// Prints the encoding of a proof at a height of a chain.
fn print_proof_of<W: Write>(
    alloc: Global,
    chain: &str,
    height: u64,
    proof: Option<&Bytes>,
    output: &mut W,
) -> Result<(), Fault>
    ensures written { Emits W.contents result output.old output.new (line_of (chain.now ∷ codes "prove" ∷ decimal height ∷ hex_of proof.entry ∷ [])) }
    ensures faults { IfErr result IsRunFault }
{
    let line = Line::Prove {
        chain,
        height,
        proof,
    };
    print(alloc, line, output)
}

impl Runner<'_> {
    /// Prints the root of a height of a chain.
    pub(super) fn print_root<C: Chains + Drop, W: Write>(
        &self,
        chains: &C,
        on: u8,
        height: u64,
        output: &mut W,
    ) -> Result<(), Fault>
        ensures ran { Runs C.known self.now.names.now (Take (step.Root on height) ∷ []) result chains.now (W.contents output.old) chains.now (W.contents output.new) }
        ensures faults { IfErr result IsRunFault }
    {
        let chain = self.name(on);
        match chains.block(on, height) {
            Some(block) => print_root_of(self.alloc, chain, height, Some(&block.root), output),
            None => print_root_of(self.alloc, chain, height, None, output),
        }
    }

    /// Prints the proof of what a height of a chain has at a key.
    pub(super) fn print_proof<C: Chains + Drop, W: Write>(
        &self,
        chains: &C,
        from: ProofSource,
        key: Key,
        output: &mut W,
    ) -> Result<(), Fault>
        ensures ran { Runs C.known self.now.names.now (Take (step.Prove from.chain from.height key) ∷ []) result chains.now (W.contents output.old) chains.now (W.contents output.new) }
        ensures faults { IfErr result IsRunFault }
    {
        let completer = Completer {
            alloc: self.alloc,
            chains,
        };
        let chain = self.name(from.chain);
        match completer.proof(from, key)? {
            Some(proof) => {
                let shown = Some(&proof);
                let printed = print_proof_of(self.alloc, chain, from.height, shown, output);
                drop(proof);
                printed
            }
            None => print_proof_of(self.alloc, chain, from.height, None, output),
        }
    }

    /// Prints what a channel of a chain has of a denomination.
    pub(super) fn print_totals<C: Holdings + Drop, W: Write>(
        &self,
        chains: &C,
        on: u8,
        channel: ChannelId,
        denom: Denom,
        output: &mut W,
    ) -> Result<(), Fault>
        ensures ran { Runs C.known self.now.names.now (Take (step.Totals on channel denom) ∷ []) result chains.now (W.contents output.old) chains.now (W.contents output.new) }
        ensures faults { IfErr result IsRunFault }
    {
        let line = Line::Totals {
            chain: self.name(on),
            channel: &channel,
            denom: &denom,
            totals: chains.totals(on, &channel, &denom),
        };
        print(self.alloc, line, output)
    }

    // Prints the balances of a chain.
    fn tell_balances_of<C: Holdings + Drop, W: Write>(
        &self,
        chains: &C,
        on: u8,
        output: &mut W,
    ) -> Result<(), Fault>
        ensures ran { Runs C.known self.now.names.now (TellBalances on ∷ []) result chains.now (W.contents output.old) chains.now (W.contents output.new) }
        ensures faults { IfErr result IsRunFault }
    {
        let chain = self.name(on);
        match chains.balances(on) {
            Ok(balances) => {
                let printed = print_balances(self.alloc, chain, balances.as_slice(), output);
                drop(balances);
                printed
            }
            Err(refusal) => Err(Fault::no_memory(refusal)),
        }
    }

    // Prints the notes of a chain.
    fn tell_notes_of<C: Holdings + Drop, W: Write>(
        &self,
        chains: &C,
        on: u8,
        output: &mut W,
    ) -> Result<(), Fault>
        ensures ran { Runs C.known self.now.names.now (TellNotes on ∷ []) result chains.now (W.contents output.old) chains.now (W.contents output.new) }
        ensures faults { IfErr result IsRunFault }
    {
        let chain = self.name(on);
        match chains.notes(on) {
            Ok(notes) => {
                let printed = print_notes(self.alloc, chain, notes.as_slice(), output);
                drop(notes);
                printed
            }
            Err(refusal) => Err(Fault::no_memory(refusal)),
        }
    }

    /// Prints the balances of all chains, in the chains' order. Faults: `CannotWrite`, `NoMemory`.
    pub(super) fn tell_balances<C: Holdings + Drop, W: Write>(
        &self,
        chains: &C,
        output: &mut W,
    ) -> Result<(), Fault>
        ensures ran { Runs C.known self.now.names.now (map TellBalances (range_with_len 0 (length self.now.names.now))) result chains.now (W.contents output.old) chains.now (W.contents output.new) }
        ensures faults { IfErr result IsRunFault }
    {
        for on in 0..self.names.len() {
            self.tell_balances_of(chains, on as u8, output)?;
        }
        Ok(())
    }

    /// Prints the notes of all chains, in the chains' order. Faults: `CannotWrite`, `NoMemory`.
    pub(super) fn tell_notes<C: Holdings + Drop, W: Write>(
        &self,
        chains: &C,
        output: &mut W,
    ) -> Result<(), Fault>
        ensures ran { Runs C.known self.now.names.now (map TellNotes (range_with_len 0 (length self.now.names.now))) result chains.now (W.contents output.old) chains.now (W.contents output.new) }
        ensures faults { IfErr result IsRunFault }
    {
        for on in 0..self.names.len() {
            self.tell_notes_of(chains, on as u8, output)?;
        }
        Ok(())
    }
}
