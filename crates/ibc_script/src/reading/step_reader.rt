//! The members of a step.

ghost use Rattle.std.specs.Prelude.{◌≡◌, ◌≢◌, ◌≤◌, ◌<◌, Some, length, slice_get, false, true, IfOk, IfErr};
ghost use Rattle.std.proofs.Props.{props};
ghost use Rattle.ibc_script.specs.Faults.{IsScriptFault, OnlyWhereNone};
ghost use Rattle.ibc_script.specs.ScriptValues.{AreDifferent, IsNumber, IsPath, IsTurns};

use super::parse_name;
use crate::draft::ProofSource;
use crate::members::{item_text, list, number, text};
use crate::script::MOST_TURNS;
use crate::{Application, ChainName, Fault};
use ibc_ids::{Key, Name, NameKind};
use ibc_wire::Order;
use serde_json::Value;
use std::alloc::Global;

/// A step's object, and the names of the script's chains.
#[derive(Clone, Copy)]
pub struct StepReader<'v> {
    pub alloc: Global,
    pub names: &'v [ChainName],
    pub object: &'v Value,
    ghost few: { length names.now ≤ 8 },
    ghost different: { AreDifferent names.now } by { Prim.hlevel props },
}

// Whether a chain has this name.
fn is_named(known: &ChainName, name: &str) -> bool
    ensures same { result ≡ true → known.now ≡ name.now }
    ensures other { result ≡ false → known.now ≢ name.now }
{
    known.as_str() == name
}

impl StepReader<'_> {
    ghost use Rattle.ibc_script.specs.StepReading.{AreChainsAt, HasName, IsApplicationAt, IsChainAt, IsItemChain, IsOrderAt, IsSourceIn, member_at};

    /// The number of the chain of this name.
    pub fn chain_of(&self, name: &str) -> Result<u8, Fault>
        ensures named { IfOk result (λ chain. slice_get self.now.names.now chain ≡ Some name.now) }
        ensures among { IfOk result (λ chain. chain < length self.now.names.now) }
        ensures faults { IfErr result IsScriptFault }
        ensures bad { OnlyWhereNone result (λ chain. slice_get self.now.names.now chain ≡ Some name.now) }
    {
        for place in 0..self.names.len() {
            if is_named(&self.names[place], name) {
                return Ok(place as u8);
            }
        }
        Err(Fault::BadScript)
    }

    /// The number of the chain that a member names.
    pub fn chain(&self, member: &str) -> Result<u8, Fault>
        ensures chain { IfOk result (IsChainAt self.now member.now) }
        ensures among { IfOk result (λ chain. chain < length self.now.names.now) }
        ensures faults { IfErr result IsScriptFault }
        ensures bad { OnlyWhereNone result (IsChainAt self.now member.now) }
    {
        self.chain_of(text(self.object, member)?)
    }

    /// The number of the chain that an item of a list names.
    pub fn item_chain(&self, item: &Value) -> Result<u8, Fault>
        ensures chain { IfOk result (IsItemChain self.now item.now) }
        ensures among { IfOk result (λ chain. chain < length self.now.names.now) }
        ensures faults { IfErr result IsScriptFault }
        ensures bad { OnlyWhereNone result (IsItemChain self.now item.now) }
    {
        self.chain_of(item_text(item)?)
    }

    /// The numbers of the two different chains that a member names.
    pub fn two_chains(&self, member: &str) -> Result<(u8, u8), Fault>
        ensures chains { IfOk result (AreChainsAt self.now member.now) }
        ensures first { IfOk result (λ chains. chains.0 < length self.now.names.now) }
        ensures second { IfOk result (λ chains. chains.1 < length self.now.names.now) }
        ensures different { IfOk result (λ chains. chains.0 ≢ chains.1) }
        ensures faults { IfErr result IsScriptFault }
        ensures bad { OnlyWhereNone result (AreChainsAt self.now member.now) }
    {
        let [first, second] = list(self.object, member)? else {
            return Err(Fault::BadScript);
        };
        let first = self.item_chain(first)?;
        let second = self.item_chain(second)?;
        if first == second {
            return Err(Fault::BadScript);
        }
        Ok((first, second))
    }

    /// The number that a member is.
    pub fn number(&self, member: &str) -> Result<u64, Fault>
        ensures number { IfOk result (λ number. IsNumber number (member_at self.now member.now)) }
        ensures faults { IfErr result IsScriptFault }
        ensures bad { OnlyWhereNone result (λ number. IsNumber number (member_at self.now member.now)) }
    {
        number(self.object, member)
    }

    /// The number of turns that a member is, 1 to 1,000.
    pub fn turns(&self, member: &str) -> Result<u16, Fault>
        ensures turns { IfOk result (λ turns. IsTurns turns (member_at self.now member.now)) }
        ensures some { IfOk result (λ turns. 0 < turns) }
        ensures most { IfOk result (λ turns. turns ≤ 1000) }
        ensures faults { IfErr result IsScriptFault }
        ensures bad { OnlyWhereNone result (λ turns. IsTurns turns (member_at self.now member.now)) }
    {
        match u16::try_from(self.number(member)?) {
            Ok(turns) if (1..=MOST_TURNS).contains(&turns) => Ok(turns),
            _ => Err(Fault::BadScript),
        }
    }

    /// The name of a kind that a member is.
    pub fn name<K: NameKind>(&self, member: &str) -> Result<Name<K>, Fault>
        ensures name { IfOk result (λ name. HasName self.now member.now K.form name) }
        ensures faults { IfErr result IsScriptFault }
        ensures bad { OnlyWhereNone result (λ name. HasName self.now member.now K.form name) }
    {
        parse_name(self.alloc, text(self.object, member)?)
    }

    /// The key whose path a member is.
    pub fn key(&self, member: &str) -> Result<Key, Fault>
        ensures key { IfOk result (λ key. IsPath key (member_at self.now member.now)) }
        ensures faults { IfErr result IsScriptFault }
        ensures bad { OnlyWhereNone result (λ key. IsPath key (member_at self.now member.now)) }
    {
        match Key::parse(self.alloc, text(self.object, member)?) {
            Ok(key) => Ok(key),
            Err(refusal) => Err(Fault::of_refusal(refusal)),
        }
    }

    /// The order of a channel that a member names.
    pub fn order(&self, member: &str) -> Result<Order, Fault>
        ensures order { IfOk result (IsOrderAt self.now member.now) }
        ensures faults { IfErr result IsScriptFault }
        ensures bad { OnlyWhereNone result (IsOrderAt self.now member.now) }
    {
        match text(self.object, member)? {
            "ORDERED" => Ok(Order::Ordered),
            "UNORDERED" => Ok(Order::Unordered),
            _ => Err(Fault::BadScript),
        }
    }

    /// The application that a member names.
    pub fn application(&self, member: &str) -> Result<Application, Fault>
        ensures application { IfOk result (IsApplicationAt self.now member.now) }
        ensures faults { IfErr result IsScriptFault }
        ensures bad { OnlyWhereNone result (IsApplicationAt self.now member.now) }
    {
        match text(self.object, member)? {
            "note" => Ok(Application::Note),
            "transfer" => Ok(Application::Transfer),
            "transfer2" => Ok(Application::TransferMany),
            _ => Err(Fault::BadScript),
        }
    }

    /// The height from which proofs are taken: that of the member `height`, on the chain that `from` names.
    pub fn origin(&self) -> Result<ProofSource, Fault>
        ensures source { IfOk result (IsSourceIn self.now) }
        ensures among { IfOk result (λ from. from.chain < length self.now.names.now) }
        ensures faults { IfErr result IsScriptFault }
        ensures bad { OnlyWhereNone result (IsSourceIn self.now) }
    {
        Ok(ProofSource {
            chain: self.chain("from")?,
            height: self.number("height")?,
        })
    }
}
