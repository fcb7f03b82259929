//! A script that breaks a law.

ghost use Rattle.std.specs.Prelude.{◌≡◌, IfOk, string_bytes, vec_len};
ghost use Rattle.ibc_sim.specs.ShortScripts.{IsShortened, whole_text};

use crate::shrinking::{Broken, all_kept, kept_count, shrunk};
use ibc_law_checks::Finding;
use ibc_random_scripts::script_text;
use ibc_script::Fault;
use std::alloc::Global;

/// A script that breaks a law: what was found, the seed of the script, its steps up to that, and whether relayers raced on it.
#[derive(Drop)]
pub struct FailedScript {
    alloc: Global,
    pub seed: u64,
    head: String,
    steps: Vec<String>,
    pub finding: Finding,
    pub is_raced: bool,
}

/// A script that still breaks its law, and how many steps it has.
#[derive(Drop)]
pub struct ShortScript {
    pub text: String,
    pub steps: usize,
}

impl FailedScript {
    /// The script of a seed with this beginning and these steps, in which this was found.
    pub(crate) fn new(
        alloc: Global,
        seed: u64,
        head: String,
        steps: Vec<String>,
        finding: Finding,
        is_raced: bool,
    ) -> FailedScript
        ensures seed { result.seed ≡ seed }
        ensures head { result.head ≡ head }
        ensures steps { result.steps ≡ steps }
        ensures finding { result.finding ≡ finding }
        ensures is_raced { result.is_raced ≡ is_raced }
    {
        FailedScript {
            alloc,
            seed,
            head,
            steps,
            finding,
            is_raced,
        }
    }

    /// How many steps it has.
    pub fn step_count(&self) -> usize
        ensures { result ≡ vec_len self.now.steps }
    {
        self.steps.len()
    }

    /// The script with all of its steps. Fault: `NoMemory`.
    pub fn whole(&self) -> Result<ShortScript, Fault>
        ensures text { IfOk result (λ short. string_bytes short.text ≡ whole_text self.now) }
        ensures steps { IfOk result (λ short. short.steps ≡ vec_len self.now.steps) }
    {
        let steps = self.steps.as_slice();
        let count = self.steps.len();
        let kept = all_kept(self.alloc, count)?;
        let text = script_text(self.alloc, self.head.as_str(), steps, kept.as_slice())?;
        Ok(ShortScript { text, steps: count })
    }

    /// The script with those of its steps that suffice. Fault: `NoMemory`.
    pub fn shorter(&self) -> Result<ShortScript, Fault>
        ensures { IfOk result (IsShortened self.now) }
    {
        let broken = Broken {
            alloc: self.alloc,
            head: self.head.as_str(),
            steps: self.steps.as_slice(),
            law: self.finding.law,
        };
        let all = all_kept(self.alloc, self.steps.len())?;
        let kept = shrunk(self.alloc, &broken, all)?;
        self.with_kept(kept.as_slice())
    }

    // The script with those of its steps that are kept. Fault: `NoMemory`.
    fn with_kept(&self, kept: &[bool]) -> Result<ShortScript, Fault>
        ensures { IfOk result (IsShortened self.now) }
    {
        let steps = kept_count(kept);
        let text = script_text(self.alloc, self.head.as_str(), self.steps.as_slice(), kept)?;
        Ok(ShortScript { text, steps })
    }
}
