//! The steps that send tokens.

ghost use Rattle.std.specs.Prelude.{Some, codes, length, IfOk, IfErr, IsErrOf, IsTrue};
ghost use Rattle.serde_json.specs.View.{view};
ghost use Rattle.ibc_ids.specs.Names.{is_channel, is_receiver, is_user};
ghost use Rattle.ibc_wire.specs.Tokens.{is_listed};
ghost use Rattle.ibc_script.specs.Faults.{IsScriptFault, OnlyWhereNone};
ghost use Rattle.ibc_script.specs.ReadValues.{AreEachOf, AreNoTokens};
ghost use Rattle.ibc_script.specs.ScriptValues.{IsMemo, IsToken};
ghost use Rattle.ibc_script.specs.Scripts.{IsPacketAmong};
ghost use Rattle.ibc_script.specs.StepReading.{HasName, HasSending, HasTimeouts, IsPacketDraft, member_at};

use super::step_reader::StepReader;
use super::{item_amount, item_name, parse_name, read_amount};
use crate::Fault;
use crate::draft::PacketDraft;
use crate::members::{has_only, item_list, list, text, text_or_empty};
use ibc_ids::{ChannelId, Memo, Receiver, UserName};
use ibc_wire::{Token, Tokens, Transfer, TransferMany, is_listed};
use serde_json::Value;
use std::alloc::Global;

/// One token: `[denomination, amount]`, both texts.
fn read_token(alloc: Global, value: &Value) -> Result<Token, Fault>
    ensures token { IfOk result (λ token. IsToken token (Some (view value.now))) }
    ensures faults { IfErr result IsScriptFault }
    ensures bad { OnlyWhereNone result (λ token. IsToken token (Some (view value.now))) }
{
    let [denom, amount] = item_list(value)? else {
        return Err(Fault::BadScript);
    };
    let amount = item_amount(alloc, amount)?;
    let denom = item_name(alloc, denom)?;
    Ok(Token { denom, amount })
}

fn read_tokens(alloc: Global, values: &[Value]) -> Result<Tokens, Fault>
    ensures tokens { IfOk result (λ tokens. AreEachOf IsToken tokens values.now) }
    ensures listed { IfOk result (λ tokens. IsTrue (is_listed tokens)) }
    ensures faults { IfErr result IsScriptFault }
    ensures bad { IsErrOf result Fault.BadScript → AreNoTokens values.now }
{
    let mut tokens = Vec::with_capacity(alloc, values.len())?;
    for value in values {
        tokens.push(read_token(alloc, value)?)?;
    }
    if is_listed(tokens.as_slice()) {
        Ok(Tokens::from_vec(tokens))
    } else {
        Err(Fault::BadScript)
    }
}

/// What transfers of one token and of several have in common.
#[derive(Drop)]
struct Sending {
    timeout_height: u64,
    timeout_time: u64,
    channel: ChannelId,
    user: UserName,
    receiver: Receiver,
    memo: Memo,
}

impl StepReader<'_> {
    /// The memo of a transfer, the empty one where the step has none.
    fn memo(&self) -> Result<Memo, Fault>
        ensures memo { IfOk result (λ memo. IsMemo memo (member_at self.now (codes "memo"))) }
        ensures faults { IfErr result IsScriptFault }
        ensures bad { OnlyWhereNone result (λ memo. IsMemo memo (member_at self.now (codes "memo"))) }
    {
        parse_name(self.alloc, text_or_empty(self.object, "memo")?)
    }

    fn sending(&self) -> Result<Sending, Fault>
        ensures channel { IfOk result (λ s. HasName self.now (codes "channel") is_channel s.channel) }
        ensures user { IfOk result (λ s. HasName self.now (codes "user") is_user s.user) }
        ensures receiver { IfOk result (λ s. HasName self.now (codes "receiver") is_receiver s.receiver) }
        ensures memo { IfOk result (λ s. IsMemo s.memo (member_at self.now (codes "memo"))) }
        ensures timeouts { IfOk result (λ s. HasTimeouts self.now s.timeout_height s.timeout_time) }
        ensures faults { IfErr result IsScriptFault }
        ensures bad { OnlyWhereNone result (HasSending self.now) }
    {
        Ok(Sending {
            timeout_height: self.number("timeout_height")?,
            timeout_time: self.number("timeout_time")?,
            channel: self.name("channel")?,
            user: self.name("user")?,
            receiver: self.name("receiver")?,
            memo: self.memo()?,
        })
    }

    pub fn transfer(&self) -> Result<PacketDraft, Fault>
        ensures draft { IfOk result (IsPacketDraft self.now (codes "Transfer")) }
        ensures among { IfOk result (IsPacketAmong (length self.now.names.now)) }
        ensures faults { IfErr result IsScriptFault }
        ensures bad { OnlyWhereNone result (IsPacketDraft self.now (codes "Transfer")) }
    {
        has_only(
            self.object,
            &[
                "do",
                "on",
                "denom",
                "amount",
                "channel",
                "user",
                "receiver",
                "memo",
                "timeout_height",
                "timeout_time",
            ],
        )?;
        let amount = read_amount(self.alloc, text(self.object, "amount")?)?;
        let denom = self.name("denom")?;
        let sending = self.sending()?;
        Ok(PacketDraft::Transfer(Transfer {
            channel: sending.channel,
            user: sending.user,
            denom,
            amount,
            receiver: sending.receiver,
            memo: sending.memo,
            timeout_height: sending.timeout_height,
            timeout_time: sending.timeout_time,
        }))
    }

    pub fn transfer_many(&self) -> Result<PacketDraft, Fault>
        ensures draft { IfOk result (IsPacketDraft self.now (codes "TransferMany")) }
        ensures among { IfOk result (IsPacketAmong (length self.now.names.now)) }
        ensures faults { IfErr result IsScriptFault }
        ensures bad { OnlyWhereNone result (IsPacketDraft self.now (codes "TransferMany")) }
    {
        has_only(
            self.object,
            &[
                "do",
                "on",
                "tokens",
                "channel",
                "user",
                "receiver",
                "memo",
                "timeout_height",
                "timeout_time",
            ],
        )?;
        let tokens = read_tokens(self.alloc, list(self.object, "tokens")?)?;
        let sending = self.sending()?;
        let message = TransferMany {
            channel: sending.channel,
            user: sending.user,
            tokens,
            receiver: sending.receiver,
            memo: sending.memo,
            timeout_height: sending.timeout_height,
            timeout_time: sending.timeout_time,
        };
        Ok(PacketDraft::TransferMany(message))
    }
}
