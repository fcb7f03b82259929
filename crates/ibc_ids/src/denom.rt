//! What a denomination tells, and its hops.

ghost use Rattle.std.specs.Prelude.{◌≡◌, ◌↔◌, ◌≤◌, ◌++◌, length, IfOk, IsErrOf, IsOkUnless};
ghost use Rattle.ibc_ids.specs.Names.{is_base_denom, hop, IsTooLong, IsStripped, IsBehindHop, IsBehindSlash};
ghost use Rattle.ibc_ids.specs.declared.refusal.Refusal.TheVariants.{NoMemory};

use crate::forms::is_word;
use crate::kinds::DenomKind;
use crate::name::Name;
use crate::written::written;
use crate::{ChannelId, Denom, PortId, Refusal};
use std::alloc::Global;

impl Name<DenomKind> {
    /// Whether the denomination is a base one: no hop stands before it, since it came over no channel (ICS 20).
    pub fn is_base(&self) -> bool
        ensures { result ≡ is_base_denom self.now }
    {
        is_word(self.as_str().as_bytes(), 1, 64)
    }

    /// The denomination with a hop over the channel before it (ICS 20). Refused: `TooLarge` exactly where it would be
    /// longer than 256 bytes; `NoMemory`.
    #[tactic(auto, using(crate::proofs::Hops::hop_length, crate::proofs::Hops::hop_parts, crate::proofs::Hops::longer_is_one))]
    pub fn hop(&self, alloc: Global, port: &PortId, channel: &ChannelId) -> Result<Denom, Refusal>
        ensures ok { IfOk result (λ longer. longer ≡ hop port.now channel.now ++ self.now) }
        ensures too_large { IsErrOf result Refusal.TooLarge ↔ IsTooLong port.now channel.now self.now }
        ensures memory { length (hop port.now channel.now ++ self.now) ≤ 256 → IsOkUnless result NoMemory }
    {
        let port = port.as_str();
        let channel = channel.as_str();
        let denom = self.as_str();
        let length = port.len() + channel.len() + denom.len() + 2;
        if length > 256 {
            return Err(Refusal::TooLarge);
        }
        let text = written(alloc, length, format_args!("{port}/{channel}/{denom}"))?;
        Name::from_text(text)
    }

    /// The denomination without the channel's hop before it, or none where it didn't come over the channel (ICS 20).
    /// Refused: `NoMemory`.
    #[tactic(auto, using(crate::proofs::Hops::hop_parts, crate::proofs::Hops::rest_is_one))]
    pub fn strip(
        &self,
        alloc: Global,
        port: &PortId,
        channel: &ChannelId,
    ) -> Result<Option<Denom>, Refusal>
        ensures ok { IfOk result (λ rest. IsStripped port.now channel.now self.now rest) }
        ensures memory { IsOkUnless result NoMemory }
    {
        match behind_hop(self.as_str(), port.as_str(), channel.as_str()) {
            Some(denom) => Ok(Some(Name::parse(alloc, denom)?)),
            None => Ok(None),
        }
    }
}

/// What stands behind the channel's hop, where the denomination begins with it.
#[tactic(auto, using(crate::proofs::Hops::hop_parts, crate::proofs::Hops::not_over))]
fn behind_hop<'a>(denom: &'a str, port: &str, channel: &str) -> Option<&'a str>
    ensures { IsBehindHop port.now channel.now denom.now result }
{
    behind(behind(denom, port)?, channel)
}

/// What stands behind the front and a slash, where the text begins with them.
fn behind<'a>(text: &'a str, front: &str) -> Option<&'a str>
    ensures { IsBehindSlash front.now text.now result }
{
    text.strip_prefix(front)?.strip_prefix('/')
}
