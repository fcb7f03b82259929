//! Steps at which relayers work are put between the steps of a script.

use crate::draws::Draws;
use crate::step_text::StepText;
use std::alloc::{AllocError, Global};

/// Relayers work behind each so many steps.
const STEPS_BETWEEN: usize = 8;

/// Relayers take at most so many turns.
const MOST_TURNS: u64 = 3;

/// The steps of a script of so many chains, with a `relay` behind each few: the same ones for the same seed. Error: no memory.
pub fn with_relays(
    alloc: Global,
    steps: &[String],
    chains: u8,
    seed: u64,
) -> Result<Vec<String>, AllocError> {
    let mut draws = Draws::new(seed);
    let mut woven = Vec::with_capacity(alloc, steps.len())?;
    let mut behind: usize = 0;
    for step in steps {
        woven.push(step.clone()?)?;
        behind = behind.saturating_add(1);
        if behind == STEPS_BETWEEN {
            behind = 0;
            add_relay(alloc, &mut draws, chains, &mut woven)?;
        }
    }
    Ok(woven)
}

// Adds a `relay` between two chains: mostly the first two, which have the most channels.
fn add_relay(
    alloc: Global,
    draws: &mut Draws,
    chains: u8,
    steps: &mut Vec<String>,
) -> Result<(), AllocError> {
    let drawn = if draws.is_one_in(2) {
        draws.place(usize::from(chains)).unwrap_or(1)
    } else {
        1
    };
    let second = u8::try_from(drawn.max(1)).unwrap_or(1);
    let mut step = StepText::between(alloc, "relay", 0, second);
    step.number("turns", draws.below(MOST_TURNS).saturating_add(1));
    step.finish(steps)
}
