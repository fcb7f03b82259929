//! Views of ledgers, what they prove, and what is planned from two of them.

ghost use Rattle.std.specs.Prelude.{◌≡◌, ◌<◌, None, Some, IfOk, IfErr};
ghost use Rattle.ibc_calls.specs.Handles.{Finds, IsMade};
ghost use Rattle.ibc_calls.specs.Views.{FindsProof, FindsRoot, HasPath, InView, IsPlanFrom, IsPlanOf, IsProofAt, IsShareOf, IsView, IsViewRoot, IsViewValue, MakesPlan, MakesView, SharesView, TellsHeights, heights_of, IsPathRefused};

use crate::Refused;
use crate::handles::{give, put_new};
use ibc_handle::{Handle, HandleValue};
use ibc_ids::{Bytes, Key, Refusal};
use ibc_ledger::View;
use ibc_relayer::plan;
use std::alloc::Global;
use std::sync::Arc;

/// What a view tells of itself: the number of its chain, its last committed height (0 if there is none), the time of that
/// height and that of the working block.
#[repr(C)]
#[derive(Clone, Copy, Debug, PartialEq, Eq, Drop)]
pub struct ViewHeights {
    pub chain: u64,
    pub height: u64,
    pub time: u64,
    pub working_time: u64,
}

/// Makes the view of a ledger in a handle that holds nothing: it stays as it is while the ledger goes on. Refused, by the first
/// check that fails: `Full`; `Empty` and `OtherKind` where the first handle holds no ledger; `Core(NoMemory)`.
#[tactic(auto, unfolding(crate::specs::Views::MakesView))]
pub fn make_view(alloc: Global, ledger: &mut Handle, view: &mut Handle) -> Result<(), Refused>
    ensures kept { ledger.new.value ≡ ledger.old.value }
    ensures made { MakesView ledger.old.value view.old.value view.new.value result }
{
    if !view.is_empty(alloc) {
        return Err(Refused::Full);
    }
    match ledger.take(alloc) {
        None => Err(Refused::Empty),
        Some(held) => {
            let answer = view_at(alloc, &held, view);
            ledger.set(alloc, held);
            answer
        }
    }
}

fn view_at(alloc: Global, held: &HandleValue, view: &mut Handle) -> Result<(), Refused>
    requires { view.old.value ≡ None }
    ensures { IsViewValue (Some held.now) view.new.value result }
{
    match held {
        HandleValue::Ledger(member) => match member.ledger.view() {
            Ok(made) => put_view(alloc, view, made),
            Err(refusal) => Err(Refused::Core(refusal)),
        },
        _ => Err(Refused::OtherKind),
    }
}

// Puts a view into a handle that holds nothing. Refused: `Core(NoMemory)`.
fn put_view(alloc: Global, handle: &mut Handle, view: View) -> Result<(), Refused>
    requires { handle.old.value ≡ None }
    ensures { IsMade (IsView view) handle.new.value result }
{
    match Arc::new(alloc, view) {
        Ok(shared) => put_new(alloc, handle, HandleValue::View(shared)),
        Err(_) => Err(Refused::Core(Refusal::NoMemory)),
    }
}

/// Puts the view that a handle holds into another handle too, which holds nothing. Nothing is copied, and each of the two handles
/// may go to a thread of its own. Refused, by the first check that fails: `Full`; `Empty` and `OtherKind` where the first handle
/// holds no view; `Core(NoMemory)`.
#[tactic(auto, unfolding(crate::specs::Views::SharesView))]
pub fn share_view(alloc: Global, view: &mut Handle, other: &mut Handle) -> Result<(), Refused>
    ensures kept { view.new.value ≡ view.old.value }
    ensures made { SharesView view.old.value other.old.value other.new.value result }
{
    if !other.is_empty(alloc) {
        return Err(Refused::Full);
    }
    match view.take(alloc) {
        None => Err(Refused::Empty),
        Some(held) => {
            let answer = share_at(alloc, &held, other);
            view.set(alloc, held);
            answer
        }
    }
}

fn share_at(alloc: Global, held: &HandleValue, other: &mut Handle) -> Result<(), Refused>
    requires { other.old.value ≡ None }
    ensures { IsShareOf (Some held.now) other.new.value result }
{
    match held {
        HandleValue::View(shared) => match Arc::try_clone(shared) {
            Ok(another) => put_new(alloc, other, HandleValue::View(another)),
            Err(_) => Err(Refused::Core(Refusal::NoMemory)),
        },
        _ => Err(Refused::OtherKind),
    }
}

/// Tells the number of a view's chain, its height and its times. Refused: `Empty`; `OtherKind`. Then nothing is told.
#[tactic(auto, unfolding(crate::specs::Views::TellsHeights))]
pub fn view_heights(
    alloc: Global,
    view: &mut Handle,
    heights: &mut ViewHeights,
) -> Result<(), Refused>
    ensures kept { view.new.value ≡ view.old.value }
    ensures told { TellsHeights view.old.value heights.old heights.new result }
{
    match view.take(alloc) {
        None => Err(Refused::Empty),
        Some(held) => {
            let answer = heights_at(&held, heights);
            view.set(alloc, held);
            answer
        }
    }
}

#[tactic(auto, unfolding(crate::specs::Views::TellsHeights))]
fn heights_at(held: &HandleValue, heights: &mut ViewHeights) -> Result<(), Refused>
    ensures { TellsHeights (Some held.now) heights.old heights.new result }
{
    match held {
        HandleValue::View(view) => {
            *heights = heights_of(view);
            Ok(())
        }
        _ => Err(Refused::OtherKind),
    }
}

fn heights_of(view: &View) -> ViewHeights
    ensures { result ≡ heights_of view.now }
{
    ViewHeights {
        chain: u64::from(view.chain()),
        height: view.height(),
        time: view.time(),
        working_time: view.working_time(),
    }
}

/// Writes the root of a view's height, 32 bytes. Refused: `Empty`; `OtherKind`; `NothingThere` at height 0; `TooShort`;
/// `Core(NoMemory)`.
#[tactic(auto, unfolding(crate::specs::Handles::Finds))]
pub fn view_root(
    alloc: Global,
    view: &mut Handle,
    root: &mut [u8],
    size: &mut usize,
) -> Result<(), Refused>
    ensures kept { view.new.value ≡ view.old.value }
    ensures found { Finds (FindsRoot view.old.value) root.old root.new size.old size.new result }
{
    give(root_in(alloc, view), root, size)
}

#[tactic(auto, unfolding(crate::specs::Views::FindsRoot))]
fn root_in(alloc: Global, view: &mut Handle) -> Result<Bytes, Refused>
    ensures kept { view.new.value ≡ view.old.value }
    ensures found { FindsRoot view.old.value result }
{
    match view.take(alloc) {
        None => Err(Refused::Empty),
        Some(held) => {
            let found = root_at(alloc, &held);
            view.set(alloc, held);
            found
        }
    }
}

fn root_at(alloc: Global, held: &HandleValue) -> Result<Bytes, Refused>
    ensures { InView IsViewRoot (Some held.now) result }
{
    match held {
        HandleValue::View(view) if view.height() > 0 => root_of(alloc, view),
        HandleValue::View(_) => Err(Refused::NothingThere),
        _ => Err(Refused::OtherKind),
    }
}

fn root_of(alloc: Global, view: &View) -> Result<Bytes, Refused>
    requires { 0 < view.now.height }
    ensures { IsViewRoot view.now result }
{
    match Bytes::copy_of(alloc, view.root().bytes()) {
        Ok(root) => Ok(root),
        Err(_) => Err(Refused::Core(Refusal::NoMemory)),
    }
}

/// Writes the bytes of the proof of what a view's height has at the path of a key (ICS 23, "CommitmentProof"): of its presence
/// where it is there, and of its absence where not. Refused: `Empty`; `OtherKind`; `NothingThere` at height 0; `Core(BadName)`
/// exactly where no key has the path; `TooShort`; `Core(NoMemory)`.
#[tactic(auto, unfolding(crate::specs::Handles::Finds))]
pub fn view_proof(
    alloc: Global,
    view: &mut Handle,
    path: &[u8],
    proof: &mut [u8],
    size: &mut usize,
) -> Result<(), Refused>
    ensures kept { view.new.value ≡ view.old.value }
    ensures found { Finds (FindsProof path.now view.old.value) proof.old proof.new size.old size.new result }
{
    give(proof_in(alloc, view, path), proof, size)
}

#[tactic(auto, unfolding(crate::specs::Views::FindsProof))]
fn proof_in(alloc: Global, view: &mut Handle, path: &[u8]) -> Result<Bytes, Refused>
    ensures kept { view.new.value ≡ view.old.value }
    ensures found { FindsProof path.now view.old.value result }
{
    match view.take(alloc) {
        None => Err(Refused::Empty),
        Some(held) => {
            let found = proof_at(alloc, &held, path);
            view.set(alloc, held);
            found
        }
    }
}

fn proof_at(alloc: Global, held: &HandleValue, path: &[u8]) -> Result<Bytes, Refused>
    ensures { InView (IsProofAt path.now) (Some held.now) result }
{
    match held {
        HandleValue::View(view) if view.height() > 0 => proof_of(alloc, view, path),
        HandleValue::View(_) => Err(Refused::NothingThere),
        _ => Err(Refused::OtherKind),
    }
}

fn proof_of(alloc: Global, view: &View, path: &[u8]) -> Result<Bytes, Refused>
    requires { 0 < view.now.height }
    ensures { IsProofAt path.now view.now result }
{
    match key_of(alloc, path) {
        Ok(key) => match view.prove(alloc, &key) {
            Ok(proof) => Ok(proof),
            Err(refusal) => Err(Refused::Core(refusal)),
        },
        Err(refusal) => Err(Refused::Core(refusal)),
    }
}

/// The key that has this path. Refused: `BadName` exactly where none has it; `NoMemory`.
pub(crate) fn key_of(alloc: Global, bytes: &[u8]) -> Result<Key, Refusal>
    ensures ok { IfOk result (HasPath bytes.now) }
    ensures err { IfErr result (λ refusal. IsPathRefused bytes.now refusal) }
{
    match str::from_utf8(bytes) {
        Ok(text) => Key::parse(alloc, text),
        Err(_) => Err(Refusal::BadName),
    }
}

/// Makes the plan of what the chain of the second view is owed that is proved from the first (ICS 18, "Relayer algorithm"), in
/// a handle that holds nothing. Refused, by the first check that fails: `Full`; `Empty` and `OtherKind` where one of the others
/// holds no view; `Core(NoMemory)`.
#[tactic(auto, unfolding(crate::specs::Views::MakesPlan))]
pub fn make_plan(
    alloc: Global,
    from: &mut Handle,
    to: &mut Handle,
    plan: &mut Handle,
) -> Result<(), Refused>
    ensures from { from.new.value ≡ from.old.value }
    ensures to { to.new.value ≡ to.old.value }
    ensures made { MakesPlan from.old.value to.old.value plan.old.value plan.new.value result }
{
    if !plan.is_empty(alloc) {
        return Err(Refused::Full);
    }
    match from.take(alloc) {
        None => Err(Refused::Empty),
        Some(held) => {
            let answer = plan_at(alloc, &held, to, plan);
            from.set(alloc, held);
            answer
        }
    }
}

fn plan_at(
    alloc: Global,
    held: &HandleValue,
    to: &mut Handle,
    plan: &mut Handle,
) -> Result<(), Refused>
    requires { plan.old.value ≡ None }
    ensures kept { to.new.value ≡ to.old.value }
    ensures made { IsPlanOf (Some held.now) to.old.value plan.new.value result }
{
    match held {
        HandleValue::View(from) => plan_from(alloc, from, to, plan),
        _ => Err(Refused::OtherKind),
    }
}

fn plan_from(alloc: Global, from: &View, to: &mut Handle, plan: &mut Handle) -> Result<(), Refused>
    requires { plan.old.value ≡ None }
    ensures kept { to.new.value ≡ to.old.value }
    ensures made { IsPlanFrom from.now to.old.value plan.new.value result }
{
    match to.take(alloc) {
        None => Err(Refused::Empty),
        Some(held) => {
            let answer = plan_to(alloc, from, &held, plan);
            to.set(alloc, held);
            answer
        }
    }
}

fn plan_to(
    alloc: Global,
    from: &View,
    held: &HandleValue,
    place: &mut Handle,
) -> Result<(), Refused>
    requires { place.old.value ≡ None }
    ensures { IsPlanFrom from.now (Some held.now) place.new.value result }
{
    match held {
        HandleValue::View(to) => match plan(alloc, from, to) {
            Ok(messages) => put_new(alloc, place, HandleValue::Plan(messages)),
            Err(refusal) => Err(Refused::Core(refusal)),
        },
        _ => Err(Refused::OtherKind),
    }
}
