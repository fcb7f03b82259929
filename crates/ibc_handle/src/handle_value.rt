//! The kinds of values.

ghost use Rattle.std.specs.Prelude.{◌≡◌, IfOk, IfErr, Some};
ghost use Rattle.ibc_handle.specs.Joining.{MemberJoinsIfSameNumber, HoldsNoLedger, IsJoined, IsMemberJoined, JoinsIfSameNumber, value_after_join};
ghost use Rattle.ibc_handle.specs.declared.handle_value.HandleValue.TheVariants as held;

use crate::{NotJoined, WorldLedgers};
use ibc_ids::{Account, Bytes, ChannelId, Denom};
use ibc_ledger::{Ledger, View};
use ibc_machine::{Entry, Genesis};
use ibc_wire::Message;
use ibc_world_core::Audit;
use std::alloc::Global;
use std::mem::replace;
use std::sync::Arc;

/// A ledger of a world, and the number that the world's owner gave it.
#[derive(Drop)]
pub struct WorldLedger {
    pub number: u64,
    pub ledger: Ledger,
}

/// A value that a handle holds.
#[derive(Drop)]
pub enum HandleValue {
    /// How a world begins.
    Genesis(Genesis),
    /// Ledgers of one world.
    Ledgers(WorldLedgers),
    /// A ledger.
    Ledger(WorldLedger),
    /// What a chain proves at its last committed height. Several handles may hold one view.
    View(Arc<View, Global>),
    /// What a relayer owes a chain.
    Plan(Vec<Message>),
    /// Who holds how much of what.
    Balances(Vec<(Account, Denom, u128)>),
    /// The notes that came over each channel.
    Notes(Vec<(ChannelId, Vec<Bytes>)>),
    /// What the ledgers of a world hold.
    Audit(Audit),
    /// What a journal keeps of a world, in its order.
    Entries(Vec<Entry>),
}

impl HandleValue {
    // The value in place of what was there, which is let go by a call: its drop, written out, would take minutes to prove.
    pub(crate) fn put(&mut self, value: HandleValue)
        ensures { self.new ≡ value }
    {
        drop(replace(self, value));
    }

    // Takes the value out, and leaves an empty plan.
    fn take_out(&mut self, alloc: Global) -> HandleValue
        ensures { result ≡ self.old }
    {
        replace(self, HandleValue::Plan(Vec::new(alloc)))
    }

    // The ledger, or else the value.
    fn into_ledger(self) -> Result<WorldLedger, HandleValue>
        ensures ok { IfOk result (λ member. self ≡ held.Ledger member) }
        ensures err { IfErr result (λ other. (other ≡ self) × HoldsNoLedger self) }
    {
        match self {
            HandleValue::Ledger(member) => Ok(member),
            other => Err(other),
        }
    }

    // Moves the ledger out to others, where the value is a ledger of their world. Else it stays.
    pub(crate) fn join(&mut self, alloc: Global, all: &mut WorldLedgers) -> Result<(), NotJoined>
        requires { MemberJoinsIfSameNumber all.old (Some self.old) }
        ensures { IsJoined all.old (Some self.old) all.new (value_after_join result self.new) result }
    {
        match self.take_out(alloc).into_ledger() {
            Ok(member) => self.hand_over(all, member),
            Err(other) => {
                self.put(other);
                Err(NotJoined::OtherKind)
            }
        }
    }

    // Moves the ledger to others. Where it is refused, it is the value.
    fn hand_over(&mut self, all: &mut WorldLedgers, member: WorldLedger) -> Result<(), NotJoined>
        requires { JoinsIfSameNumber all.old member }
        ensures { IsMemberJoined all.old member all.new (value_after_join result self.new) result }
    {
        match all.join(member) {
            Ok(()) => Ok(()),
            Err(back) => {
                let (reason, member) = back;
                self.put(HandleValue::Ledger(member));
                Err(reason)
            }
        }
    }
}
