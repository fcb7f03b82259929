//! A run, line by line, with what each line is about.

ghost use Rattle.std.specs.Prelude.{◌≡◌, All, IfOk, map};
ghost use Rattle.ibc_explain.specs.Explanations.{AreExplainedIn, IsExplained, IsExplainedBy};

use crate::{
    Absent, EntryPlace, Explanation, NotPlaced, PlacedLine, ScriptRun, explanation_of, placed_lines,
};
use ibc_ids::Refusal;
use std::alloc::Global;

/// A line of a run: the entry that it is of, explained; what was compared where that was refused; the step of the script by
/// which it came; and what the step looked for that isn't there.
#[derive(Drop)]
pub struct ExplainedLine<'e> {
    pub line: PlacedLine<'e>,
    pub told: Option<Explanation<'e>>,
    pub notes: LineNotes<'e>,
}

/// What was noted while a line came.
#[derive(Clone, Copy)]
pub struct LineNotes<'e> {
    pub step: Option<usize>,
    pub sides: &'e str,
    pub absent: Option<&'e Absent>,
}

impl ExplainedLine<'_> {
    /// Whether the line tells that nothing was sent, or isn't kept, since something isn't there.
    pub fn is_none(&self) -> bool {
        self.told.is_none() && self.notes.step.is_some() && self.line.text.ends_with(" none")
    }

    /// Whether the line tells that a message wasn't sent.
    pub fn is_unsent(&self) -> bool {
        let text = self.line.text;
        self.is_none() && !text.contains(" root ") && !text.contains(" prove ")
    }
}

/// The lines of a run, in their order, each with the entry that it is of, explained; no line and no entry is left out.
pub fn explained(alloc: Global, run: &ScriptRun) -> Result<Vec<ExplainedLine<'_>>, NotPlaced>
    ensures { IfOk result (λ lines. AreExplainedIn run.now lines.items) }
{
    let Ok(text) = str::from_utf8(run.text.as_slice()) else {
        return Err(NotPlaced::LeftOut);
    };
    let lines = placed_lines(alloc, run.names.as_slice(), &run.world, text)?;
    let explained = explain_each(alloc, run, lines.as_slice())?;
    Ok(explained)
}

// Explains each of the lines of a run.
fn explain_each<'e>(
    alloc: Global,
    run: &'e ScriptRun,
    lines: &[PlacedLine<'e>],
) -> Result<Vec<ExplainedLine<'e>>, Refusal>
    ensures lines { IfOk result (λ explained. map (λ x. x.line) explained.items ≡ lines.now) }
    ensures told { IfOk result (λ explained. All (IsExplained run.now.world.ledgers) explained.items) }
{
    let mut noting = Noting {
        run,
        printed: 0,
        step: 0,
        refused: 0,
    };
    let mut explained = Vec::new(alloc);
    for line in lines {
        let notes = noting.notes_of(*line);
        explained.push(explained_line(alloc, run, *line, notes)?)?;
    }
    Ok(explained)
}

// Explains a line.
fn explained_line<'e>(
    alloc: Global,
    run: &'e ScriptRun,
    line: PlacedLine<'e>,
    notes: LineNotes<'e>,
) -> Result<ExplainedLine<'e>, Refusal>
    ensures line { IfOk result (λ x. x.line ≡ line.entry) }
    ensures told { IfOk result (IsExplained run.now.world.ledgers) }
{
    let told = told_at(alloc, run, line.place)?;
    Ok(ExplainedLine { line, told, notes })
}

// What is told of the entry at a place, none where there is no place.
fn told_at(
    alloc: Global,
    run: &ScriptRun,
    place: Option<EntryPlace>,
) -> Result<Option<Explanation<'_>>, Refusal>
    ensures { IfOk result (λ told. IsExplainedBy run.now.world.ledgers told place) }
{
    match place {
        Some(place) => explanation_of(alloc, run, place),
        None => Ok(None),
    }
}

/// Finds what was noted of each line of a run in turn: how far it is printed, and the first step and the first refusal that
/// aren't behind it.
#[derive(Drop)]
struct Noting<'e> {
    run: &'e ScriptRun,
    printed: usize,
    step: usize,
    refused: usize,
}

impl<'e> Noting<'e> {
    // What was noted of the next line.
    fn notes_of(&mut self, line: PlacedLine<'_>) -> LineNotes<'e> {
        let run = self.run;
        for _ in 0..run.steps.len() {
            match run.steps.get(self.step) {
                Some(step) if step.end <= self.printed => self.step = self.step.saturating_add(1),
                _ => break,
            }
        }
        self.printed = self
            .printed
            .saturating_add(line.text.len())
            .saturating_add(1);
        let sides = match run.refusals.get(self.refused) {
            Some(refused) if line.place == Some(refused.place) => {
                self.refused = self.refused.saturating_add(1);
                refused.sides.as_str()
            }
            _ => "",
        };
        match run.steps.get(self.step) {
            Some(step) => LineNotes {
                step: Some(self.step),
                sides,
                absent: step.absent.as_ref(),
            },
            None => LineNotes {
                step: None,
                sides,
                absent: None,
            },
        }
    }
}
