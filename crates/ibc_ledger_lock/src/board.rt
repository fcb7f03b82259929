//! The views that chains post, in one row that only grows and that is read without a lock.

ghost use Rattle.std.specs.Prelude.{◌≡◌, IfSome, IsOkUnless};
ghost use Rattle.ibc_ids.specs.declared.refusal.Refusal.TheVariants.{NoMemory};
ghost use Rattle.ibc_ledger_lock.specs.ReceiptsAndReadings.{IsLedgerOf, ShowsEnd, view_shown};

use crate::posted_view::PostedView;
use crate::receipt::Receipt;
use crate::world::WorldBrand;
use ibc_ids::Refusal;
use ibc_ledger::View;
use std::alloc::Global;
use std::sync::Wait;
use std::sync::atomic::{AtomicUsize, Ordering};

/// The views that the chains of a world posted. It only grows, and reading it takes no lock.
#[derive(Drop)]
pub struct Board<W: WorldBrand> {
    views: boxcar::Vec<PostedView<W>>,
    // for each chain the index of its newest view that is known; an old one costs a longer scan and nothing else
    hints: Vec<AtomicUsize>,
}

impl<W: WorldBrand> Board<W> {
    /// A board with no views. `NoMemory` where a growth is refused.
    pub fn new(alloc: Global) -> Result<Board<W>, Refusal>
        ensures { IsOkUnless result NoMemory }
    {
        let mut hints = Vec::with_capacity(alloc, 256)?;
        for _ in 0..256 {
            hints.push(AtomicUsize::new(0))?;
        }
        Ok(Board {
            views: boxcar::Vec::new(alloc)?,
            hints,
        })
    }

    /// The view of the greatest height that it finds for a chain, none where none was posted.
    pub fn latest(&self, chain: u8) -> Option<&PostedView<W>>
        ensures { IfSome result (λ p. IsLedgerOf W.table W.genesis p.now × (p.now.ledger.chain ≡ chain)) }
    {
        let mut best: Option<&PostedView<W>> = None;
        for index in self.hint(chain)..usize::MAX {
            let Some(posted) = self.views.get(index) else {
                break;
            };
            if posted.chain() == chain && is_newer(posted.view(), best) {
                best = Some(posted);
            }
        }
        best
    }

    /// Posts the view of a ledger as it stood. Where a growth is refused, it isn't there, and nothing else has changed.
    pub(crate) fn post<R: Wait>(&self, rt: &R, posted: PostedView<W>) {
        let chain = posted.chain();
        if let Ok(index) = self.views.push(rt, posted) {
            self.raise(chain, index);
        }
    }

    /// Posts the view after the end of a block, as the receipt tells it. Where a growth is refused, it isn't there, and
    /// nothing else has changed.
    pub(crate) fn post_end<R: Wait>(&self, rt: &R, receipt: &Receipt<W>, posted: PostedView<W>)
        requires { ShowsEnd receipt.now (view_shown posted) }
    {
        let _chain = receipt.chain();
        self.post(rt, posted);
    }

    // The index from which a chain's newest view is looked for.
    fn hint(&self, chain: u8) -> usize {
        match self.hints.get(usize::from(chain)) {
            Some(hint) => hint.load(Ordering::SeqCst),
            None => 0,
        }
    }

    // A view of the chain stands at the index. What it was raised to never falls.
    fn raise(&self, chain: u8, index: usize) {
        if let Some(hint) = self.hints.get(usize::from(chain)) {
            hint.fetch_max(index, Ordering::SeqCst);
        }
    }
}

// Whether the view is as high as the best so far.
fn is_newer<W: WorldBrand>(view: &View, best: Option<&PostedView<W>>) -> bool {
    match best {
        Some(best) => view.height() >= best.view().height(),
        None => true,
    }
}
