//! How tokens are spelled.

ghost use Rattle.ibc_wire.specs.Spelling.{token_fields, tokens_fields};
ghost use Rattle.ibc_wire.specs.RecordFronts.{token_at_front, tokens_at_front};

use super::many::{read_many, write_many};
use crate::fields::{read_n16, read_name, read_u8, write_count, write_n16, write_name};
use crate::{Token, Tokens, Wire, is_rising};
use ibc_ids::Refusal;
use std::alloc::Global;

/// The most tokens of a message.
const MOST_TOKENS: u8 = 8;

impl Wire for Token {
    ghost fields = { token_fields };

    ghost front = { token_at_front };

    #[tactic(auto, unfolding(crate::specs::RecordFronts::token_at_front))]
    fn read(alloc: Global, bytes: &[u8]) -> Result<(Token, &[u8]), Refusal> {
        let (denom, rest) = read_name(alloc, bytes)?;
        let (amount, rest) = read_n16(rest)?;
        Ok((Token { denom, amount }, rest))
    }

    fn write(&self, out: &mut Vec<u8>) -> Result<(), Refusal> {
        write_name(out, &self.denom)?;
        write_n16(out, self.amount)
    }

    #[tactic(auto, using(crate::proofs::TokenReaders::token_reader))]
    fn lemma_reads_what_is_spelled() {}
}

impl Wire for Tokens {
    ghost fields = { tokens_fields };

    ghost front = { tokens_at_front };

    #[tactic(auto, unfolding(crate::specs::RecordFronts::tokens_at_front))]
    fn read(alloc: Global, bytes: &[u8]) -> Result<(Tokens, &[u8]), Refusal> {
        let (count, rest) = read_u8(bytes)?;
        if count < 1 || count > MOST_TOKENS {
            return Err(Refusal::BadMessage);
        }
        let (tokens, rest) = read_many::<Token>(alloc, rest, count)?;
        if is_rising(tokens.as_slice()) {
            Ok((Tokens::from_vec(tokens), rest))
        } else {
            Err(Refusal::BadMessage)
        }
    }

    fn write(&self, out: &mut Vec<u8>) -> Result<(), Refusal> {
        let tokens = self.as_slice();
        if !is_rising(tokens) {
            return Err(Refusal::BadMessage);
        }
        write_count(out, tokens.len(), 1, MOST_TOKENS)?;
        write_many(out, tokens)
    }

    #[tactic(auto, using(crate::proofs::TokenReaders::tokens_reader))]
    fn lemma_reads_what_is_spelled() {}
}
