//! The port of transfers and its versions.

ghost use Rattle.std.specs.Prelude.{◌≡◌, [], ◌∷◌, IfOk, IsOkUnless};
ghost use Rattle.std.specs.List.{list_any};
ghost use Rattle.ibc_ids.specs.Texts.{same_text};
ghost use Rattle.ibc_ids.specs.declared.refusal.Refusal.TheVariants.{NoMemory};
ghost use Rattle.ibc_machine.specs.ics20.TokenData as plain;
ghost use Rattle.ibc_machine.specs.ics20.Transfers as transfers;
ghost use Rattle.ibc_transfer.specs.TokenRefunds.{IsGoingBack};

use ibc_ids::{ChannelId, Denom, PortId, Refusal, Version};
use std::alloc::Global;

const PORT: &str = "transfer";

const ONE_TOKEN: &str = "ics20-1";

const SEVERAL_TOKENS: &str = "ics20-own-2";

/// Whether a port is this application's, `transfer`.
pub fn is_transfer_port(port: &PortId) -> bool
    ensures { result ≡ same_text port.now transfers.transfer_port }
{
    port.as_str() == PORT
}

/// Whether a channel's version is one of the two of transfers.
pub(crate) fn is_transfer_version(version: &Version) -> bool
    ensures { result ≡ list_any (same_text version.now) (plain.one_token ∷ plain.several_tokens ∷ []) }
{
    version.as_str() == ONE_TOKEN || version.as_str() == SEVERAL_TOKENS
}

/// The port of transfers. Refused: `NoMemory`.
pub fn transfer_port(alloc: Global) -> Result<PortId, Refusal>
    ensures ok { IfOk result (λ port. port ≡ transfers.transfer_port) }
    ensures err { IsOkUnless result NoMemory }
{
    PortId::parse(alloc, PORT)
}

/// The version of one token a packet.
pub(crate) fn one_token(alloc: Global) -> Result<Version, Refusal>
    ensures ok { IfOk result (λ version. version ≡ plain.one_token) }
    ensures err { IsOkUnless result NoMemory }
{
    Version::parse(alloc, ONE_TOKEN)
}

/// The version of several tokens a packet.
pub(crate) fn several_tokens(alloc: Global) -> Result<Version, Refusal>
    ensures ok { IfOk result (λ version. version ≡ plain.several_tokens) }
    ensures err { IsOkUnless result NoMemory }
{
    Version::parse(alloc, SEVERAL_TOKENS)
}

/// Whether a denomination came over a channel, and so goes back over it. Refused: `NoMemory`.
pub fn came_over(alloc: Global, channel: &ChannelId, denom: &Denom) -> Result<bool, Refusal>
    ensures ok { IfOk result (λ came. IsGoingBack channel.now denom.now came) }
    ensures err { IsOkUnless result NoMemory }
{
    let port = transfer_port(alloc)?;
    Ok(denom.strip(alloc, &port, channel)?.is_some())
}
