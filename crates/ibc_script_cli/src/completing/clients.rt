//! Messages for clients.

ghost use Rattle.std.specs.Prelude.{◌≡◌, IfOk, IsOkUnless};
ghost use Rattle.ibc_script_cli.specs.Completing.{header_from, IsHeader, MakesClientMessage};
ghost use Rattle.ibc_script_cli.specs.Completers.{MakesUpdate, findings};

use super::Completer;
use crate::{Chains, CommittedBlock};
use ibc_ids::{ClientId, Key, Root};
use ibc_script::{ClientDraft, Fault};
use ibc_wire::{ClientState, CreateClient, Header, Message, UpdateClient};

/// The header of a chain that an update names: the true one of what was committed, and else one with time 0 and a zero
/// root.
fn header_from(chain: u8, height: u64, found: Option<CommittedBlock>) -> Header
    ensures { result ≡ header_from chain height found }
{
    match found {
        Some(block) => Header {
            chain,
            height,
            time: block.time,
            root: block.root,
        },
        None => Header {
            chain,
            height,
            time: 0,
            root: Root::from_bytes([0; 32]),
        },
    }
}

impl<C: Chains + Drop> Completer<'_, C> {
    /// The header that an update of a client on a chain names. Where there is no such client, it is an empty one of the
    /// chain itself.
    fn header(&self, on: u8, state: Option<ClientState>, height: u64) -> Header
        ensures { IsHeader (findings C.known self.now) on height state result }
    {
        match state {
            Some(state) => {
                let found = self.chains.block(state.chain, height);
                header_from(state.chain, height, found)
            }
            None => header_from(on, height, None),
        }
    }

    fn update_client(&self, on: u8, client: ClientId, height: u64) -> Result<Message, Fault>
        ensures made { IfOk result (MakesUpdate C.known self.now on client height) }
        ensures err { IsOkUnless result Fault.NoMemory }
    {
        let state = self.standing(on, Key::ClientState(client.clone()?))?;
        let header = self.header(on, state, height);
        Ok(Message::UpdateClient(UpdateClient { client, header }))
    }

    /// The message for clients that a step of a chain sends. Fault: `NoMemory`.
    pub fn client_message(&self, on: u8, draft: ClientDraft) -> Result<Message, Fault>
        ensures made { IfOk result (MakesClientMessage (findings C.known self.now) on draft) }
        ensures err { IsOkUnless result Fault.NoMemory }
    {
        match draft {
            ClientDraft::Create { of } => Ok(Message::CreateClient(CreateClient { chain: of })),
            ClientDraft::Update { client, height } => self.update_client(on, client, height),
        }
    }
}
