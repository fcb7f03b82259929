//! Why a journal isn't read to its end.

ghost use Rattle.std.specs.Prelude.{◌≡◌};
ghost use Rattle.ibc_node.specs.declared.fault.NodeFault.TheVariants.{Journal, NoMemory};
ghost use Rattle.ibc_node.specs.declared.unread.Unread.TheVariants.{Fault};
ghost use Rattle.ibc_node.specs.Faults.{fault_of, unread_fault};

use crate::NodeFault;
use ibc_journal::JournalFault;
use ibc_replay::Difference;
use std::alloc::AllocFailed;

/// Why a journal isn't read to its end.
#[derive(Drop)]
pub(crate) enum Unread {
    /// It can't be.
    Fault(NodeFault),
    /// An entry isn't as it is due.
    Differs(Difference),
}

impl From<NodeFault> for Unread {
    ghost from_gives = { λ fault why. why ≡ Fault fault };

    fn from(fault: NodeFault) -> Unread {
        Unread::Fault(fault)
    }
}

impl From<JournalFault> for Unread {
    ghost from_gives = { λ fault why. why ≡ Fault (Journal fault) };

    fn from(fault: JournalFault) -> Unread {
        Unread::Fault(NodeFault::Journal(fault))
    }
}

impl<T: Drop> From<AllocFailed<T>> for Unread {
    ghost from_gives = { λ _ why. why ≡ Fault NoMemory };

    fn from(_error: AllocFailed<T>) -> Unread {
        Unread::Fault(NodeFault::NoMemory)
    }
}

impl From<Unread> for NodeFault {
    ghost from_gives = { λ why fault. fault ≡ unread_fault why };

    fn from(why: Unread) -> NodeFault {
        match why {
            Unread::Fault(fault) => fault,
            Unread::Differs(difference) => fault_of(difference),
        }
    }
}

// The fault of who wants no more than the place.
fn fault_of(why: Difference) -> NodeFault
    ensures { result ≡ fault_of why }
{
    match why {
        Difference::NoGenesis => NodeFault::BadGenesis,
        Difference::NoMemory => NodeFault::NoMemory,
        Difference::At { place, .. } => NodeFault::OtherAnswer(place),
        Difference::UnknownChain { place, .. } => NodeFault::OtherAnswer(place),
    }
}
