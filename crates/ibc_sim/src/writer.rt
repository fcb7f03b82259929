//! The steps of a script are written, and taken as they are written.

use crate::checked::Checked;
use crate::running::take_steps;
use crate::shrinking::all_kept;
use ibc_random_scripts::{FIRST_STEPS, Maker, script_text};
use ibc_script::{Fault, Script, read_script};
use std::alloc::Global;

/// Writes the steps of a script, and has them taken: by what stands before single steps they are read, and all are kept.
#[derive(Drop)]
pub struct Writer {
    alloc: Global,
    maker: Maker,
    front: String,
    steps: Vec<String>,
}

impl Writer {
    /// No step is written yet.
    pub fn new(alloc: Global, maker: Maker, front: String) -> Writer {
        Writer {
            alloc,
            maker,
            front,
            steps: Vec::new(alloc),
        }
    }

    /// The steps that were taken.
    pub fn into_steps(self) -> Vec<String> {
        let Writer {
            maker,
            front,
            steps,
            ..
        } = self;
        drop(maker);
        drop(front);
        steps
    }

    /// Goes on up to so many steps, or up to the first that breaks a law. Fault: `NoMemory`.
    pub fn go_on(&mut self, chains: &mut Checked, most: u64) -> Result<(), Fault> {
        for number in 0..most {
            let room = (most as usize).saturating_sub(self.steps.len());
            if room == 0 || chains.notes.finding.is_some() {
                break;
            }
            let mut next = self.written(chains, number)?;
            next.truncate(room);
            self.take(chains, next)?;
        }
        Ok(())
    }

    // The next steps: honest ones first, and then those that are drawn.
    fn written(&mut self, chains: &Checked, number: u64) -> Result<Vec<String>, Fault> {
        let mut next = Vec::new(self.alloc);
        let made = if number < FIRST_STEPS {
            self.maker.begin(&chains.so_far(), number, &mut next)
        } else {
            self.maker
                .next(&chains.so_far(), self.steps.as_slice(), &mut next)
        };
        match made {
            Ok(()) => Ok(next),
            Err(fault) => {
                drop(next);
                Err(fault)
            }
        }
    }

    // Takes the next steps, and keeps those that were taken.
    fn take(&mut self, chains: &mut Checked, next: Vec<String>) -> Result<(), Fault> {
        let taken = match self.taken(chains, next.as_slice()) {
            Ok(taken) => taken,
            Err(fault) => {
                drop(next);
                return Err(fault);
            }
        };
        let mut next = next;
        next.truncate(taken);
        for step in next {
            self.steps.push(step)?;
        }
        Ok(())
    }

    // How many of the next steps were taken.
    fn taken(&self, chains: &mut Checked, next: &[String]) -> Result<usize, Fault> {
        let kept = all_kept(self.alloc, next.len())?;
        let text = script_text(self.alloc, self.front.as_str(), next, kept.as_slice());
        drop(kept);
        let text = text?;
        let script = read_script(self.alloc, text.as_bytes());
        drop(text);
        let Script {
            genesis,
            names,
            steps,
            ..
        } = script?;
        drop(genesis);
        drop(names);
        take_steps(self.alloc, chains, steps)
    }
}
