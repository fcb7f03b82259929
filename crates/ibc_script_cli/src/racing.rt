//! Races: the steps of a script on chains that threads share.

ghost use Rattle.std.specs.Prelude.{◌≡◌, ◌≤◌, length, IfErr};
ghost use Rattle.ibc_script.specs.Faults.{IsRunFault};

use crate::Chains;
use crate::runner::Runner;
use ibc_ids::{Account, Bytes, ChannelId, Denom};
use ibc_machine::Genesis;
use ibc_script::{ChainName, Fault, Script, Step};
use std::alloc::Global;
use std::io;

/// What an audit of chains tells, by their numbers.
#[derive(Debug, Drop)]
pub struct RaceAudit {
    /// Of each chain the amounts above 0, in the byte order of the accounts' texts and then of the denominations.
    pub balances: Vec<Vec<(Account, Denom, u128)>>,
    /// Of each chain the notes that came over each channel, the channels in the byte order of their names.
    pub notes: Vec<Vec<(ChannelId, Vec<Bytes>)>>,
}

/// A script whose steps are to be taken on chains that threads share.
#[derive(Drop)]
pub struct Race {
    alloc: Global,
    script: Script,
}

impl Race {
    /// The race of a script.
    pub(crate) fn new(alloc: Global, script: Script) -> Race
        ensures { result.script ≡ script }
    {
        Race { alloc, script }
    }

    /// The genesis of the chains that the steps are taken on.
    pub fn genesis(&self) -> &Genesis
        ensures { result.now ≡ self.now.script.genesis }
    {
        &self.script.genesis
    }

    /// The names of the chains, at most 8, and the steps.
    pub fn into_parts(self) -> (Vec<ChainName>, Vec<Step>)
        ensures steps { result.1 ≡ self.script.steps }
        ensures names { result.0 ≡ self.script.names }
        ensures few { length result.0.items ≤ 8 }
    {
        let Race { script, .. } = self;
        let Script { names, steps, .. } = script;
        (names, steps)
    }

    /// Takes the steps on chains, and gives the chains back. Replies are not printed, and steps that only look at what chains
    /// have are passed over. Faults: those that stop a run.
    pub fn run_on<C: Chains + Drop>(self, mut chains: C) -> Result<C, Fault>
        ensures { IfErr result IsRunFault }
    {
        let alloc = self.alloc;
        let (names, steps) = self.into_parts();
        let runner = Runner::new(alloc, names.as_slice());
        match act_each(&runner, &mut chains, steps) {
            Ok(()) => Ok(chains),
            Err(fault) => {
                drop(chains);
                Err(fault)
            }
        }
    }
}

// Takes steps in turn.
fn act_each<C: Chains + Drop>(
    runner: &Runner<'_>,
    chains: &mut C,
    steps: Vec<Step>,
) -> Result<(), Fault>
    ensures { IfErr result IsRunFault }
{
    for step in steps {
        runner.act(chains, step, &mut io::sink())?;
    }
    Ok(())
}
