//! The applications that channels are opened for.

ghost use Rattle.std.specs.Prelude.{◌≡◌, IfOk, IsOkUnless};
ghost use Rattle.ibc_script.specs.Applications.{port_of, order_of, version_of};

use crate::Fault;
use ibc_ids::{Name, PortId, Version};
use ibc_wire::Order;
use std::alloc::Global;

/// An application that the step `open` opens a channel for.
#[derive(Clone, Copy, Debug, PartialEq, Eq, Drop)]
pub enum Application {
    /// Notes.
    Note,
    /// Tokens of one denomination in a packet (ICS 20).
    Transfer,
    /// Tokens of several denominations in a packet, in this project's own version of ICS 20.
    TransferMany,
}

impl Application {
    /// The port of the application, the same on all chains. Fault: `NoMemory`.
    pub fn port(self, alloc: Global) -> Result<PortId, Fault>
        ensures port { IfOk result (λ port. port ≡ port_of self) }
        ensures memory { IsOkUnless result Fault.NoMemory }
    {
        match self {
            Application::Note => Name::parse(alloc, "note").map_err(Fault::of_refusal),
            Application::Transfer | Application::TransferMany => {
                Name::parse(alloc, "transfer").map_err(Fault::of_refusal)
            }
        }
    }

    /// The order of the application's channels.
    pub fn order(self) -> Order
        ensures { result ≡ order_of self }
    {
        match self {
            Application::Note => Order::Ordered,
            Application::Transfer | Application::TransferMany => Order::Unordered,
        }
    }

    /// The version of the application's channels. Fault: `NoMemory`.
    pub fn version(self, alloc: Global) -> Result<Version, Fault>
        ensures version { IfOk result (λ version. version ≡ version_of self) }
        ensures memory { IsOkUnless result Fault.NoMemory }
    {
        match self {
            Application::Note => Name::parse(alloc, "note-1").map_err(Fault::of_refusal),
            Application::Transfer => Name::parse(alloc, "ics20-1").map_err(Fault::of_refusal),
            Application::TransferMany => {
                Name::parse(alloc, "ics20-own-2").map_err(Fault::of_refusal)
            }
        }
    }
}
