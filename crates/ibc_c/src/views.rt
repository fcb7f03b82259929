//! Views, and what is planned from two of them.

ghost use Rattle.std.specs.Prelude.{◌≡◌};
ghost use Rattle.ibc_calls.specs.CallAnswers.{Numbered};
ghost use Rattle.ibc_calls.specs.Views.{FindsRoot, MakesView, SharesView, TellsHeights};
ghost use Rattle.ibc_c.specs.Codes.{NumbersFound};
ghost use Rattle.ibc_c.specs.NumberedCalls.{NumbersPlan, NumbersProof, NumbersOwed};

use ibc_calls::{ViewHeights, number};
use ibc_handle::Handle;
use std::alloc::Global;

/// Makes the view of a ledger in an empty handle. As `make_view`.
#[unsafe(no_mangle)]
pub extern "C" fn ibcw_make_view(alloc: Global, ledger: &mut Handle, view: &mut Handle) -> u32
    ensures kept { ledger.new.value ≡ ledger.old.value }
    ensures made { Numbered (MakesView ledger.old.value view.old.value view.new.value) result }
{
    number(ibc_calls::make_view(alloc, ledger, view))
}

/// Puts the view that a handle holds into an empty handle too. As `share_view`.
#[unsafe(no_mangle)]
pub extern "C" fn ibcw_share_view(alloc: Global, view: &mut Handle, other: &mut Handle) -> u32
    ensures kept { view.new.value ≡ view.old.value }
    ensures made { Numbered (SharesView view.old.value other.old.value other.new.value) result }
{
    number(ibc_calls::share_view(alloc, view, other))
}

/// Tells the number of a view's chain, its height and its times. As `view_heights`.
#[unsafe(no_mangle)]
pub extern "C" fn ibcw_view_heights(
    alloc: Global,
    view: &mut Handle,
    heights: &mut ViewHeights,
) -> u32
    ensures kept { view.new.value ≡ view.old.value }
    ensures told { Numbered (TellsHeights view.old.value heights.old heights.new) result }
{
    number(ibc_calls::view_heights(alloc, view, heights))
}

/// Writes the root of a view's height. As `view_root`.
#[unsafe(no_mangle)]
pub extern "C" fn ibcw_view_root(
    alloc: Global,
    view: &mut Handle,
    root: &mut [u8],
    size: &mut usize,
) -> u32
    ensures kept { view.new.value ≡ view.old.value }
    ensures found { NumbersFound (FindsRoot view.old.value) root.old root.new size.old size.new result }
{
    number(ibc_calls::view_root(alloc, view, root, size))
}

/// Writes the bytes of the proof of what a view's height has at the path of a key. As `view_proof`.
#[unsafe(no_mangle)]
pub extern "C" fn ibcw_view_proof(
    alloc: Global,
    view: &mut Handle,
    path: &[u8],
    proof: &mut [u8],
    size: &mut usize,
) -> u32
    ensures kept { view.new.value ≡ view.old.value }
    ensures found { NumbersProof path.now view.old.value proof.old proof.new size.old size.new result }
{
    number(ibc_calls::view_proof(alloc, view, path, proof, size))
}

/// Makes the plan of what the chain of the second view is owed in an empty handle. As `make_plan`.
#[unsafe(no_mangle)]
pub extern "C" fn ibcw_make_plan(
    alloc: Global,
    from: &mut Handle,
    to: &mut Handle,
    plan: &mut Handle,
) -> u32
    ensures from { from.new.value ≡ from.old.value }
    ensures to { to.new.value ≡ to.old.value }
    ensures made { NumbersPlan from.old.value to.old.value plan.old.value plan.new.value result }
{
    number(ibc_calls::make_plan(alloc, from, to, plan))
}

/// Writes the bytes of a plan's message. As `plan_message`.
#[unsafe(no_mangle)]
pub extern "C" fn ibcw_plan_message(
    alloc: Global,
    plan: &mut Handle,
    index: u64,
    message: &mut [u8],
    size: &mut usize,
) -> u32
    ensures kept { plan.new.value ≡ plan.old.value }
    ensures found { NumbersOwed index plan.old.value message.old message.new size.old size.new result }
{
    number(ibc_calls::plan_message(alloc, plan, index, message, size))
}
