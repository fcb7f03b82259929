//! Channels are closed.

use super::Maker;
use crate::route::{Route, add_end, is_ordered};
use crate::run_so_far::RunSoFar;
use crate::step_text::StepText;
use ibc_script::Fault;

impl Maker {
    /// Closes some end, mostly an ordered one, and then mostly its peer. Fault: `NoMemory`.
    pub(super) fn close(
        &mut self,
        run: &RunSoFar<'_>,
        steps: &mut Vec<String>,
    ) -> Result<(), Fault> {
        let Some(route) = self.some_route(run)? else {
            return self.end_some_block(run, steps);
        };
        if !is_ordered(run, route.own) && !self.draws.is_one_in(4) {
            return self.end_some_block(run, steps);
        }
        let mut step = StepText::on(self.alloc, "ChanCloseInit", route.from);
        add_end(run, route.own, &mut step);
        step.finish(steps)?;
        let height = self.proved_height(run, route.from, 0, steps)?;
        self.update(run, route.peer, height, steps)?;
        self.confirm_close(run, route, height, steps)
    }

    // Closes the peer of an end that closed.
    fn confirm_close(
        &mut self,
        run: &RunSoFar<'_>,
        route: Route,
        height: u64,
        steps: &mut Vec<String>,
    ) -> Result<(), Fault> {
        if self.draws.is_one_in(3) {
            return Ok(());
        }
        let mut step = StepText::on(self.alloc, "ChanCloseConfirm", route.to);
        add_end(run, route.peer, &mut step);
        step.chain("from", route.from);
        step.number("height", height);
        step.finish(steps)?;
        Ok(())
    }
}
