//! How the messages of clients are spelled behind their tag.

ghost use Rattle.ibc_message_codec.specs.ClientFronts.{create_client_fields, update_client_fields, create_client_at_front, update_client_at_front};

use crate::payload::Payload;
use ibc_ids::Refusal;
use ibc_wire::fields::{read_name, read_u8, write_name, write_u8};
use ibc_wire::{CreateClient, Header, UpdateClient, Wire};
use std::alloc::Global;

impl Payload for CreateClient {
    ghost fields = { create_client_fields };

    ghost front = { create_client_at_front };

    #[tactic(auto, unfolding(crate::specs::ClientFronts::create_client_at_front))]
    fn read(_alloc: Global, bytes: &[u8]) -> Result<(CreateClient, &[u8]), Refusal> {
        let (chain, rest) = read_u8(bytes)?;
        Ok((CreateClient { chain }, rest))
    }

    fn write(&self, out: &mut Vec<u8>) -> Result<(), Refusal> {
        write_u8(out, self.chain)
    }
}

impl Payload for UpdateClient {
    ghost fields = { update_client_fields };

    ghost front = { update_client_at_front };

    #[tactic(auto, unfolding(crate::specs::ClientFronts::update_client_at_front))]
    fn read(alloc: Global, bytes: &[u8]) -> Result<(UpdateClient, &[u8]), Refusal> {
        let (client, rest) = read_name(alloc, bytes)?;
        match Header::read(alloc, rest) {
            Ok((header, rest)) => Ok((UpdateClient { client, header }, rest)),
            Err(refusal) => Err(refusal),
        }
    }

    fn write(&self, out: &mut Vec<u8>) -> Result<(), Refusal> {
        write_name(out, &self.client)?;
        self.header.write(out)
    }
}
