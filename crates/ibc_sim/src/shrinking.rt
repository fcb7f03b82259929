//! A script that breaks a law is made shorter, while it still does.

ghost use Rattle.std.specs.Prelude.{◌≡◌, ◌<◌, IfOk, IsTrue, List, Bool, count_by, map, replicate, string_bytes, true, vec_len, ⊤};
ghost use Rattle.ibc_sim.specs.ReadScripts.{ReadsAsScript};
ghost use Rattle.ibc_random_scripts.specs.ScriptTexts.{kept_steps, script_of};
ghost use Rattle.ibc_sim.specs.Shrinking.{KeepsNoMore, StillDo};

use crate::running::replay;
use ibc_law_checks::BrokenLaw;
use ibc_random_scripts::script_text;
use ibc_script::Fault;
use std::alloc::{AllocError, Global};

/// At most so many steps are replayed until a script is short.
const MOST_REPLAYED: usize = 200_000;

/// What some steps do.
pub trait Breaks {
    // Those that are kept do it.
    ghost does: { Self → List Bool → Type 0 } = { λ _ _. ⊤ };

    /// Whether those that are kept still do it: where the answer is yes, they do.
    fn still_breaks(&self, kept: &[bool]) -> Result<bool, Fault>
        ensures { IfOk result (λ still. IsTrue still → does self.now kept.now) };
}

/// A script that breaks a law: its beginning, its steps, and the law.
#[derive(Clone, Copy)]
pub struct Broken<'s> {
    pub alloc: Global,
    pub head: &'s str,
    pub steps: &'s [String],
    pub law: BrokenLaw,
}

impl Breaks for Broken<'_> {
    // Those that are kept are a script with the same beginning.
    ghost does = { λ broken kept. ReadsAsScript (script_of broken.head.now (kept_steps kept (map string_bytes broken.steps.now))) };

    fn still_breaks(&self, kept: &[bool]) -> Result<bool, Fault> {
        let text = script_text(self.alloc, self.head, self.steps, kept)?;
        let found = replay(self.alloc, text.as_bytes())?;
        match found {
            Some(found) => {
                let is_same = found.law == self.law;
                drop(found);
                Ok(is_same)
            }
            None => Ok(false),
        }
    }
}

/// Some steps that stand side by side.
#[derive(Clone, Copy)]
struct StepRange {
    start: usize,
    size: usize,
}

/// Whether each step is kept, where all are. Error: no memory.
pub fn all_kept(alloc: Global, count: usize) -> Result<Vec<bool>, AllocError>
    ensures as_many { IfOk result (λ kept. vec_len kept ≡ count) }
    ensures all { IfOk result (λ kept. kept.items ≡ replicate count true) }
{
    let kept = vec![in alloc; true; count]?;
    Ok(kept)
}

/// Which of the kept steps suffice: none is added, and they still do what is asked, or are all those that were given. Halves are
/// left out first, then parts of half their size, and so on. Fault: `NoMemory`.
#[tactic(auto, using(crate::proofs::KeptSteps::keeps_all, crate::proofs::KeptSteps::keeps_along, crate::proofs::KeptSteps::still_same, crate::proofs::KeptSteps::still_along))]
pub fn shrunk<B: Breaks>(alloc: Global, breaks: &B, kept: Vec<bool>) -> Result<Vec<bool>, Fault>
    ensures fewer { IfOk result (λ fewer. KeepsNoMore kept.items fewer.items) }
    ensures does { IfOk result (λ fewer. StillDo (B.does breaks.now) kept.items fewer.items) }
{
    let mut kept = kept;
    let mut size = kept.len();
    let mut left = MOST_REPLAYED;
    'halving: for _round in 0..usize::BITS {
        if size == 0 {
            break;
        }
        left = without_parts(alloc, breaks, &mut kept, size, left)?;
        size /= 2;
    }
    Ok(kept)
}

// Leaves out parts of so many steps each, where the rest still breaks it. The result is how many steps may still be replayed.
#[tactic(auto, using(crate::proofs::KeptSteps::keeps_all, crate::proofs::KeptSteps::keeps_along, crate::proofs::KeptSteps::still_same, crate::proofs::KeptSteps::still_along))]
fn without_parts<B: Breaks>(
    alloc: Global,
    breaks: &B,
    kept: &mut Vec<bool>,
    size: usize,
    left: usize,
) -> Result<usize, Fault>
    requires { 0 < size }
    ensures fewer { KeepsNoMore kept.old.items kept.new.items }
    ensures does { StillDo (B.does breaks.now) kept.old.items kept.new.items }
{
    let mut left = left;
    let parts = kept.len() / size;
    for part in 0..parts.saturating_add(1) {
        let start = part.saturating_mul(size);
        left = without_part(alloc, breaks, kept, StepRange { start, size }, left)?;
    }
    Ok(left)
}

// Leaves out a part, where the rest still breaks it. The result is how many steps may still be replayed.
#[tactic(auto, using(crate::proofs::KeptSteps::keeps_all, crate::proofs::KeptSteps::still_same))]
fn without_part<B: Breaks>(
    alloc: Global,
    breaks: &B,
    kept: &mut Vec<bool>,
    part: StepRange,
    left: usize,
) -> Result<usize, Fault>
    ensures fewer { KeepsNoMore kept.old.items kept.new.items }
    ensures does { StillDo (B.does breaks.now) kept.old.items kept.new.items }
{
    if left == 0 || !has_kept(kept.as_slice(), part) {
        return Ok(left);
    }
    let replayed = kept_count(kept.as_slice());
    keep_rest(alloc, breaks, kept, part)?;
    Ok(left.saturating_sub(replayed))
}

// Keeps the steps without those of a part, where they still do it.
#[tactic(auto, using(crate::proofs::KeptSteps::keeps_all, crate::proofs::KeptSteps::still_same))]
fn keep_rest<B: Breaks>(
    alloc: Global,
    breaks: &B,
    kept: &mut Vec<bool>,
    part: StepRange,
) -> Result<(), Fault>
    ensures fewer { KeepsNoMore kept.old.items kept.new.items }
    ensures does { StillDo (B.does breaks.now) kept.old.items kept.new.items }
{
    let after = tried_without(alloc, breaks, kept.as_slice(), part)?;
    *kept = after;
    Ok(())
}

// The kept steps without those of a part, where they still do it, and else all of them.
fn tried_without<B: Breaks>(
    alloc: Global,
    breaks: &B,
    kept: &[bool],
    part: StepRange,
) -> Result<Vec<bool>, Fault>
    ensures fewer { IfOk result (λ after. KeepsNoMore kept.now after.items) }
    ensures does { IfOk result (λ after. StillDo (B.does breaks.now) kept.now after.items) }
{
    let fewer = without(alloc, kept, part)?;
    let still = breaks.still_breaks(fewer.as_slice())?;
    if still {
        return Ok(fewer);
    }
    drop(fewer);
    let same = copy_of(alloc, kept)?;
    Ok(same)
}

// Whether one of a part's steps is kept.
fn has_kept(kept: &[bool], part: StepRange) -> bool {
    let end = part.start.saturating_add(part.size).min(kept.len());
    for place in part.start..end {
        if kept[place] {
            return true;
        }
    }
    false
}

/// How many steps are kept.
pub fn kept_count(kept: &[bool]) -> usize
    ensures { result ≡ count_by (λ is_kept. is_kept) kept.now }
{
    kept.iter().filter(|is_kept| **is_kept).count()
}

// The kept steps without those of a part.
#[tactic(auto, using(crate::proofs::KeptSteps::keeps_as))]
fn without(alloc: Global, kept: &[bool], part: StepRange) -> Result<Vec<bool>, AllocError>
    ensures { IfOk result (λ fewer. KeepsNoMore kept.now fewer.items) }
{
    let mut fewer = copy_of(alloc, kept)?;
    leave_out(fewer.as_mut_slice(), part);
    Ok(fewer)
}

// The same steps.
fn copy_of(alloc: Global, kept: &[bool]) -> Result<Vec<bool>, AllocError>
    ensures { IfOk result (λ copy. copy.items ≡ kept.now) }
{
    let copy = kept.to_vec(alloc)?;
    Ok(copy)
}

// Leaves out the steps of a part.
#[tactic(auto, using(crate::proofs::KeptSteps::keeps_all, crate::proofs::KeptSteps::keeps_without))]
fn leave_out(kept: &mut [bool], part: StepRange)
    ensures { KeepsNoMore kept.old kept.new }
{
    let end = part.start.saturating_add(part.size).min(kept.len());
    for place in part.start..end {
        kept[place] = false;
    }
}
