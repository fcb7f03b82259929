//! What is printed of a run.

use crate::json::ObjectWriter;
use crate::text::write_explained;
use crate::totals::totals_of;
use crate::{NotPlaced, ScriptRun, explained};
use std::alloc::Global;

/// How a run is told.
#[derive(Clone, Copy, Debug, PartialEq, Eq)]
pub enum ExplainedForm {
    /// As text, for people.
    Text,
    /// As an object of JSON a line.
    Json,
}

/// The lines of a run, and behind each what it is about; then what channels have at the end, and that the laws hold.
pub fn explain(alloc: Global, run: &ScriptRun, form: ExplainedForm) -> Result<String, NotPlaced> {
    let names = run.names.as_slice();
    let writer = ObjectWriter { alloc, names };
    let lines = explained(alloc, run)?;
    let totals = totals_of(alloc, run)?;
    let mut out = String::new(alloc);
    for line in lines.as_slice() {
        match form {
            ExplainedForm::Text => write_explained(alloc, &mut out, names, line)?,
            ExplainedForm::Json => writer.line(&mut out, line)?,
        }
    }
    for total in totals.as_slice() {
        match form {
            ExplainedForm::Text => total.write(&mut out, names)?,
            ExplainedForm::Json => writer.total(&mut out, total)?,
        }
    }
    out.push_str(match form {
        ExplainedForm::Text => "laws hold\n",
        ExplainedForm::Json => "{\"laws\":\"hold\"}\n",
    })?;
    Ok(out)
}
