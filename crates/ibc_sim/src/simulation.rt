//! Many random scripts, one after another.

ghost use Rattle.std.specs.Prelude.{◌≡◌, ◌+◌, ◌-◌, ◌^◌, ◌≤◌, ◌↔◌, IfOk, IfSome, IsTrue, MatchOption, None, OnOk, Some, false, min, true, vec_len};
ghost use Rattle.ibc_sim.specs.Simulations.{next_seed};

use crate::checked::Checked;
use crate::failed_script::FailedScript;
use crate::judging::race_and_judge;
use crate::running::{begin, finding_of};
use crate::shrinking::all_kept;
use crate::writer::Writer;
use ibc_law_checks::Finding;
use ibc_random_scripts::{Draws, Maker, ScriptStart, empty_head, head, script_text, with_relays};
use ibc_run_notes::AnswerCounts;
use ibc_script::{Fault, read_script};
use std::alloc::Global;
use std::sync::Wait;
use std::thread::Threads;

/// A script has at most so many steps.
const STEPS_OF_SCRIPT: u64 = 1_000;

/// What is asked of a simulation: the seed, how many steps, how many chains, and how many heights they keep, if that is said.
#[derive(Clone, Copy)]
pub struct SimulationRequest {
    pub seed: u64,
    pub steps: u64,
    pub chains: u8,
    pub window: Option<u64>,
}

/// Random scripts that are run: how many there were, how many steps they had, and how often each answer came.
#[derive(Drop)]
pub struct Simulation {
    alloc: Global,
    request: SimulationRequest,
    pub scripts: u64,
    pub steps: u64,
    pub counts: AnswerCounts,
}

/// A script that was run: its beginning, its steps, what was found, and whether relayers raced on it.
#[derive(Drop)]
struct WrittenRun {
    head: String,
    steps: Vec<String>,
    found: Option<Finding>,
    is_raced: bool,
}

impl Simulation {
    /// A simulation in which nothing has been done yet. Fault: `NoMemory`.
    pub fn new(alloc: Global, request: SimulationRequest) -> Result<Simulation, Fault>
        ensures request { IfOk result (λ begun. begun.request ≡ request) }
        ensures scripts { IfOk result (λ begun. begun.scripts ≡ 0) }
        ensures steps { IfOk result (λ begun. begun.steps ≡ 0) }
    {
        let counts = AnswerCounts::new(alloc)?;
        Ok(Simulation {
            alloc,
            request,
            scripts: 0,
            steps: 0,
            counts,
        })
    }

    /// Whether all steps are done.
    pub fn is_done(&self) -> bool
        ensures { IsTrue result ↔ (self.now.request.steps ≤ self.now.steps) }
    {
        self.steps >= self.request.steps
    }

    /// Runs the next script. The result is the script, where it breaks a law. Faults: `NoMemory`; `BadScript` where a window is
    /// asked for that no chain has.
    pub fn run_next(&mut self) -> Result<Option<FailedScript>, Fault>
        ensures seed { IfOk result (λ failed. IfSome failed (λ script. script.seed ≡ next_seed self.old)) }
        ensures raced { IfOk result (λ failed. IfSome failed (λ script. script.is_raced ≡ false)) }
        ensures scripts { OnOk result (self.new.scripts ≡ min (self.old.scripts + 1) (2 ^ 64 - 1)) }
        ensures request { self.new.request ≡ self.old.request }
    {
        let (seed, run) = self.next_run()?;
        Ok(failed(self.alloc, seed, run))
    }

    /// Runs the next script, and then once more with so many relayers that work at the same time, at a `relay` behind each few
    /// steps. The result is the script, where it breaks a law. The scripts are those of the seed, and no others; what the relayers
    /// do depends on the threads. Faults: as of `run_next`.
    pub fn race_next<R: Threads + Wait + Sync>(
        &mut self,
        rt: &R,
        relayers: u8,
    ) -> Result<Option<FailedScript>, Fault>
        requires { 1 ≤ relayers × relayers ≤ 8 }
        ensures seed { IfOk result (λ failed. IfSome failed (λ script. script.seed ≡ next_seed self.old)) }
        ensures scripts { OnOk result (self.new.scripts ≡ min (self.old.scripts + 1) (2 ^ 64 - 1)) }
        ensures request { self.new.request ≡ self.old.request }
    {
        let (seed, run) = self.next_run()?;
        if run.found.is_some() {
            return Ok(failed(self.alloc, seed, run));
        }
        let WrittenRun {
            head,
            steps,
            found,
            ..
        } = run;
        drop(found);
        let woven = with_relays(self.alloc, steps.as_slice(), self.request.chains, seed);
        drop(steps);
        match woven {
            Ok(steps) => raced(rt, self.alloc, relayers, seed, head, steps),
            Err(error) => {
                drop(head);
                Err(Fault::from(error))
            }
        }
    }

    // Runs the next script, and counts it. The result is its seed, and the run.
    fn next_run(&mut self) -> Result<(u64, WrittenRun), Fault>
        ensures seed { IfOk result (λ ran. ran.0 ≡ next_seed self.old) }
        ensures raced { IfOk result (λ ran. ran.1.is_raced ≡ false) }
        ensures scripts { OnOk result (self.new.scripts ≡ min (self.old.scripts + 1) (2 ^ 64 - 1)) }
        ensures steps { IfOk result (λ ran. self.new.steps ≡ min (self.old.steps + vec_len ran.1.steps) (2 ^ 64 - 1)) }
        ensures request { self.new.request ≡ self.old.request }
    {
        let seed = self.request.seed.wrapping_add(self.scripts);
        let left = self.request.steps.saturating_sub(self.steps);
        let run = self.run_script(seed, left.min(STEPS_OF_SCRIPT))?;
        self.scripts = self.scripts.saturating_add(1);
        self.steps = self.steps.saturating_add(run.steps.len() as u64);
        Ok((seed, run))
    }

    // Runs a random script of at most so many steps.
    fn run_script(&mut self, seed: u64, most: u64) -> Result<WrittenRun, Fault>
        ensures raced { IfOk result (λ run. run.is_raced ≡ false) }
        ensures scripts { self.new.scripts ≡ self.old.scripts }
        ensures steps { self.new.steps ≡ self.old.steps }
        ensures request { self.new.request ≡ self.old.request }
    {
        let mut draws = Draws::new(seed);
        let beginning = self.beginning(&mut draws);
        let head = head(self.alloc, beginning, &mut draws)?;
        let maker_seed = draws.number();
        drop(draws);
        match self.run_steps(head.as_str(), beginning.chains, maker_seed, most) {
            Ok((steps, found)) => Ok(WrittenRun {
                head,
                steps,
                found,
                is_raced: false,
            }),
            Err(fault) => {
                drop(head);
                Err(fault)
            }
        }
    }

    // How a script begins.
    fn beginning(&self, draws: &mut Draws) -> ScriptStart {
        let drawn = match draws.below(4) {
            0 => 4,
            1 => 16,
            _ => 64,
        };
        let window = self.request.window.unwrap_or(drawn);
        let capacity = if draws.is_one_in(16) { 64 } else { 2_000 };
        ScriptStart {
            chains: self.request.chains,
            window,
            capacity: window.max(capacity),
        }
    }

    // Writes the steps of a script with this beginning and runs them as it goes on. The result is the steps and what was found.
    fn run_steps(
        &mut self,
        head: &str,
        chains: u8,
        seed: u64,
        most: u64,
    ) -> Result<(Vec<String>, Option<Finding>), Fault>
        ensures scripts { self.new.scripts ≡ self.old.scripts }
        ensures steps { self.new.steps ≡ self.old.steps }
        ensures request { self.new.request ≡ self.old.request }
    {
        let front = empty_head(self.alloc, chains)?;
        let maker = Maker::new(self.alloc, chains, seed);
        let mut writer = Writer::new(self.alloc, maker, front);
        let found = self.run_written(head, &mut writer, most);
        let steps = writer.into_steps();
        match found {
            Ok(found) => Ok((steps, found)),
            Err(fault) => {
                drop(steps);
                Err(fault)
            }
        }
    }

    // Runs a script whose steps are written as it goes on.
    fn run_written(
        &mut self,
        head: &str,
        writer: &mut Writer,
        most: u64,
    ) -> Result<Option<Finding>, Fault>
        ensures scripts { self.new.scripts ≡ self.old.scripts }
        ensures steps { self.new.steps ≡ self.old.steps }
        ensures request { self.new.request ≡ self.old.request }
    {
        let mut chains = begin_with(self.alloc, head)?;
        match writer.go_on(&mut chains, most) {
            Ok(()) => {
                self.counts.add_all(&chains.notes.counts);
                finding_of(chains)
            }
            Err(fault) => {
                drop(chains);
                Err(fault)
            }
        }
    }
}

// Has relayers race on a script with this beginning and these steps. The result is the script, where something is found.
fn raced<R: Threads + Wait + Sync>(
    rt: &R,
    alloc: Global,
    relayers: u8,
    seed: u64,
    head: String,
    steps: Vec<String>,
) -> Result<Option<FailedScript>, Fault>
    requires { 1 ≤ relayers × relayers ≤ 8 }
    ensures seed { IfOk result (λ failed. IfSome failed (λ script. script.seed ≡ seed)) }
    ensures raced { IfOk result (λ failed. IfSome failed (λ script. script.is_raced ≡ true)) }
{
    let found = race_steps(rt, alloc, relayers, head.as_str(), steps.as_slice());
    match found {
        Ok(found) => {
            let run = WrittenRun {
                head,
                steps,
                found,
                is_raced: true,
            };
            Ok(failed(alloc, seed, run))
        }
        Err(fault) => {
            drop(head);
            drop(steps);
            Err(fault)
        }
    }
}

// What is found where relayers race on a script with this beginning and these steps.
fn race_steps<R: Threads + Wait + Sync>(
    rt: &R,
    alloc: Global,
    relayers: u8,
    head: &str,
    steps: &[String],
) -> Result<Option<Finding>, Fault>
    requires { 1 ≤ relayers × relayers ≤ 8 }
{
    let kept = all_kept(alloc, steps.len())?;
    let text = script_text(alloc, head, steps, kept.as_slice());
    drop(kept);
    let text = text?;
    let found = race_and_judge(rt, alloc, relayers, text.as_bytes());
    drop(text);
    found
}

// A script that was run, where something was found.
fn failed(alloc: Global, seed: u64, run: WrittenRun) -> Option<FailedScript>
    ensures seed { IfSome result (λ script. script.seed ≡ seed) }
    ensures finding { MatchOption result (run.found ≡ None) (λ it. run.found ≡ Some it.finding) }
    ensures raced { IfSome result (λ script. script.is_raced ≡ run.is_raced) }
{
    let WrittenRun {
        head,
        steps,
        found,
        is_raced,
    } = run;
    match found {
        Some(finding) => Some(FailedScript::new(alloc, seed, head, steps, finding, is_raced)),
        None => {
            drop(head);
            drop(steps);
            None
        }
    }
}

// The chains with which a script of this beginning begins.
fn begin_with(alloc: Global, head: &str) -> Result<Checked, Fault> {
    let text = script_text(alloc, head, &[], &[])?;
    let script = read_script(alloc, text.as_bytes());
    drop(text);
    let script = script?;
    let chains = begin(alloc, &script);
    drop(script);
    chains
}
