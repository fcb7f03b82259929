//! Where a map was touched.

ghost use Rattle.std.specs.Prelude.{◌≡◌, ◌+◌, ◌-◌, ◌<◌, ◌≤◌, [], true, false, Some, length, take, slice_index_or, option_map};
ghost use Rattle.ibc_path_store.specs.GapChanges.{IsMark, standing, no_gap, with_replacement, FollowsReplacement, PassesGaps, PassesGapsFor, LiesInGap, Widens, FitsInFront, Shrinks, PutsGap, ReplacesBehind};

use ibc_forest::Gap;
use std::alloc::Global;
use std::fmt;
use std::marker::Model;

/// The first gaps, and how many pairs stand in them and in front of them.
#[derive(Clone, Copy, Drop)]
struct Mark {
    number: usize,
    before: usize,
}

impl Mark {
    // No gap.
    fn none() -> Mark
        ensures number { result.number ≡ 0 }
        ensures before { result.before ≡ 0 }
    {
        Mark {
            number: 0,
            before: 0,
        }
    }
}

/// The gaps in which a map was touched since it was settled, in the order of its pairs. Where there is no memory for one more,
/// they are lost, and any pair may have been touched. The mark stands before the gap that was touched last. Contracts see the
/// gaps, or none where they are lost.
#[derive(Drop)]
pub struct Touched {
    gaps: Vec<Gap>,
    lost: bool,
    mark: Mark,
}

impl Model for Touched {
    ghost use Rattle.std.specs.Prelude.{Option, Some, None, List, true, false};
    ghost use Rattle.ibc_forest.specs.declared.gap.Gap.{Gap};
    ghost use Rattle.ibc_path_store.specs.GapChanges.{IsMark};

    ghost Value = { Option (List Gap) };

    ghost view = { λ with_replacement. elim with_replacement.lost [ true ↦ None | false ↦ Some with_replacement.gaps.items ] };

    ghost invariant = { λ touched. IsMark touched.gaps.items touched.mark.number touched.mark.before };
}

impl Touched {
    /// No pair was touched.
    #[tactic(auto, using(crate::proofs::Touching::mark_none))]
    pub fn none(alloc: Global) -> Touched
        ensures { result ≡ Some [] }
    {
        Touched {
            gaps: Vec::new(alloc),
            lost: false,
            mark: Mark::none(),
        }
    }

    /// Begins anew: no pair was touched.
    #[tactic(auto, using(crate::proofs::Touching::mark_none))]
    pub fn clear(&mut self)
        ensures { self.new ≡ Some [] }
    {
        self.gaps.clear();
        self.lost = false;
        self.mark = Mark::none();
    }

    /// The gaps, or none where they are lost.
    pub fn gaps(&self) -> Option<&[Gap]>
        ensures { option_map (λ gaps. gaps.now) result ≡ self.now }
    {
        if self.lost {
            return None;
        }
        Some(self.gaps.as_slice())
    }

    /// Notes that at a place so many pairs, one at most, were replaced by so many others.
    #[tactic(auto, using(crate::proofs::Touching::shares_lost, crate::proofs::Touching::mark_none))]
    pub fn touch(&mut self, index: usize, gone: usize, come: usize)
        requires { gone ≤ 1 }
        ensures { FollowsReplacement self.old self.new index gone come }
    {
        if self.lost {
            return;
        }
        let (number, before) = place_of(self.gaps.as_slice(), self.mark, index, gone);
        if touch_gaps(&mut self.gaps, number, before, gone, come) {
            self.mark = Mark {
                number,
                before: index - before,
            };
            return;
        }
        self.mark = Mark::none();
        self.lost = true;
    }
}

impl fmt::Debug for Touched {
    // The mark is no part of the text.
    fn fmt<W: fmt::Write>(&self, f: &mut fmt::Formatter<W>) -> fmt::Result {
        f.debug_struct("Touched")
            .field("gaps", &self.gaps)
            .field("lost", &self.lost)
            .finish()
    }
}

// Whether the place of a gap behind which so many pairs stand lies in it, with as many pairs as are gone there.
fn is_in(gap: Gap, before: usize, gone: usize) -> bool
    requires { gap.kept ≤ before }
    ensures inside { result ≡ true → before - gap.kept + gone ≤ gap.come }
    ensures past { result ≡ false → gap.come < before - gap.kept + gone }
{
    gone <= gap.come && before - gap.kept <= gap.come - gone
}

// The gaps that are in front of a place: those of the mark, where the place lies behind them, or none.
#[tactic(auto, using(crate::proofs::Touching::touched_behind, crate::proofs::Touching::mark_none))]
fn passed(gaps: &[Gap], mark: Mark, index: usize) -> Mark
    requires { IsMark gaps.now mark.number mark.before }
    ensures mark { IsMark gaps.now result.number result.before }
    ensures behind { result.before ≤ index }
    ensures rest { PassesGaps gaps.now index result.number (index - result.before) }
{
    if mark.before < index {
        mark
    } else {
        Mark::none()
    }
}

// The number of the gap in which or in front of which a place lies, and how many pairs stand between the gap before and the
// place. The gaps of the mark are not looked at where they are in front of it.
fn place_of(gaps: &[Gap], mark: Mark, index: usize, gone: usize) -> (usize, usize)
    requires one { gone ≤ 1 }
    requires mark { IsMark gaps.now mark.number mark.before }
    ensures within { result.0 ≤ length gaps.now }
    ensures counted { standing (take result.0 gaps.now) + result.1 ≡ index }
    ensures rest { PassesGapsFor gone gaps.now index result.0 result.1 }
    ensures inside { LiesInGap gaps.now result.0 result.1 gone }
{
    let first = passed(gaps, mark, index);
    let mut before = index - first.before;
    for i in first.number..gaps.len() {
        let gap = gaps[i];
        if before < gap.kept || is_in(gap, before, gone) {
            return (i, before);
        }
        before -= gap.kept;
        before -= gap.come;
    }
    (gaps.len(), before)
}

// Lets a gap be wider: so many of its pairs are replaced by so many others. Answers whether their number fits.
fn widen(gaps: &mut [Gap], number: usize, gone: usize, come: usize) -> bool
    requires there { number < length gaps.old }
    requires gone { gone ≤ (slice_index_or gaps.old number no_gap).come }
    ensures { result ≡ true → Widens gaps.old gaps.new number gone come }
{
    let gap = gaps[number];
    match (gap.come - gone).checked_add(come) {
        Some(all) => {
            gaps[number] = Gap { come: all, ..gap };
            true
        }
        None => false,
    }
}

// Takes a gap that comes in front of another one from what stays there.
#[tactic(auto, using(crate::proofs::Touching::shrunk_at, crate::proofs::Touching::shrunk_none))]
fn shrink(gaps: &mut [Gap], number: usize, gap: Gap)
    requires { FitsInFront gaps.old number gap }
    ensures { Shrinks gaps.old gaps.new number gap }
{
    if number < gaps.len() {
        let kept = gaps[number].kept;
        gaps[number].kept = kept - (gap.kept + gap.gone);
    }
}

// Puts a gap in front of one, or behind all. Answers whether there is memory for it.
#[tactic(auto, using(crate::proofs::Touching::insert_own))]
fn put(gaps: &mut Vec<Gap>, number: usize, gap: Gap) -> bool
    requires there { number ≤ length gaps.old.items }
    requires fits { FitsInFront gaps.old.items number gap }
    ensures { result ≡ true → PutsGap gaps.old.items gaps.new.items number gap }
{
    shrink(gaps.as_mut_slice(), number, gap);
    gaps.insert(number, gap).is_ok()
}

// Notes in a gap or in front of it, or behind all, that behind so many pairs so many were replaced by so many others. Answers
// whether there is room for it.
#[tactic(auto, using(crate::proofs::Touching::touched_own, crate::proofs::Touching::touched_wide))]
fn touch_gaps(gaps: &mut Vec<Gap>, number: usize, before: usize, gone: usize, come: usize) -> bool
    requires one { gone ≤ 1 }
    requires within { number ≤ length gaps.old.items }
    requires inside { LiesInGap gaps.old.items number before gone }
    ensures { result ≡ true → ReplacesBehind gaps.old.items gaps.new.items number before gone come }
{
    if number < gaps.len() && gaps[number].kept <= before {
        return widen(gaps.as_mut_slice(), number, gone, come);
    }
    let gap = Gap {
        kept: before,
        gone,
        come,
    };
    put(gaps, number, gap)
}
