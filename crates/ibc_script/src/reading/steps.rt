//! The steps of a script.

ghost use Rattle.std.specs.Prelude.{◌≤◌, codes, length, All, IfOk, IfErr, IsErrOf};
ghost use Rattle.ibc_script.specs.Faults.{IsScriptFault, OnlyWhereNone};
ghost use Rattle.ibc_script.specs.ReadValues.{AreEachOf, AreNoSteps};
ghost use Rattle.ibc_script.specs.ScriptValues.{AreDifferent, IsStepObject, IsText};
ghost use Rattle.ibc_script.specs.Scripts.{IsAmong, IsDraftAmong};
ghost use Rattle.ibc_script.specs.StepReading.{IsDraftIn, IsNoMessage, IsReadStep, member_at};

use super::step_reader::StepReader;
use crate::members::{has_only, optional_number, text};
use crate::script::MOST_STEPS;
use crate::{ChainName, Draft, Fault, Step};
use serde_json::Value;
use std::alloc::Global;

impl StepReader<'_> {
    fn block(&self) -> Result<Step, Fault>
        requires { IsText (codes "Block") (member_at self.now (codes "do")) }
        ensures step { IfOk result (IsReadStep self.now) }
        ensures among { IfOk result (IsAmong (length self.now.names.now)) }
        ensures faults { IfErr result IsScriptFault }
        ensures bad { OnlyWhereNone result (IsReadStep self.now) }
    {
        has_only(self.object, &["do", "on", "time"])?;
        Ok(Step::Block {
            on: self.chain("on")?,
            time: optional_number(self.object, "time")?,
        })
    }

    fn root(&self) -> Result<Step, Fault>
        requires { IsText (codes "root") (member_at self.now (codes "do")) }
        ensures step { IfOk result (IsReadStep self.now) }
        ensures among { IfOk result (IsAmong (length self.now.names.now)) }
        ensures faults { IfErr result IsScriptFault }
        ensures bad { OnlyWhereNone result (IsReadStep self.now) }
    {
        has_only(self.object, &["do", "on", "height"])?;
        Ok(Step::Root {
            on: self.chain("on")?,
            height: self.number("height")?,
        })
    }

    fn prove(&self) -> Result<Step, Fault>
        requires { IsText (codes "prove") (member_at self.now (codes "do")) }
        ensures step { IfOk result (IsReadStep self.now) }
        ensures among { IfOk result (IsAmong (length self.now.names.now)) }
        ensures faults { IfErr result IsScriptFault }
        ensures bad { OnlyWhereNone result (IsReadStep self.now) }
    {
        has_only(self.object, &["do", "on", "height", "path"])?;
        Ok(Step::Prove {
            on: self.chain("on")?,
            height: self.number("height")?,
            key: self.key("path")?,
        })
    }

    fn totals(&self) -> Result<Step, Fault>
        requires { IsText (codes "totals") (member_at self.now (codes "do")) }
        ensures step { IfOk result (IsReadStep self.now) }
        ensures among { IfOk result (IsAmong (length self.now.names.now)) }
        ensures faults { IfErr result IsScriptFault }
        ensures bad { OnlyWhereNone result (IsReadStep self.now) }
    {
        has_only(self.object, &["do", "on", "channel", "denom"])?;
        Ok(Step::Totals {
            on: self.chain("on")?,
            channel: self.name("channel")?,
            denom: self.name("denom")?,
        })
    }

    fn open(&self) -> Result<Step, Fault>
        requires { IsText (codes "open") (member_at self.now (codes "do")) }
        ensures step { IfOk result (IsReadStep self.now) }
        ensures among { IfOk result (IsAmong (length self.now.names.now)) }
        ensures faults { IfErr result IsScriptFault }
        ensures bad { OnlyWhereNone result (IsReadStep self.now) }
    {
        has_only(self.object, &["do", "chains", "app"])?;
        let (first, second) = self.two_chains("chains")?;
        Ok(Step::Open {
            first,
            second,
            application: self.application("app")?,
        })
    }

    fn relay(&self) -> Result<Step, Fault>
        requires { IsText (codes "relay") (member_at self.now (codes "do")) }
        ensures step { IfOk result (IsReadStep self.now) }
        ensures among { IfOk result (IsAmong (length self.now.names.now)) }
        ensures faults { IfErr result IsScriptFault }
        ensures bad { OnlyWhereNone result (IsReadStep self.now) }
    {
        has_only(self.object, &["do", "chains", "turns"])?;
        let (first, second) = self.two_chains("chains")?;
        Ok(Step::Relay {
            first,
            second,
            turns: self.turns("turns")?,
        })
    }

    /// The message of a step whose `do` is the name of one.
    fn draft(&self, kind: &str) -> Result<Draft, Fault>
        ensures draft { IfOk result (IsDraftIn self.now kind.now) }
        ensures among { IfOk result (IsDraftAmong (length self.now.names.now)) }
        ensures faults { IfErr result IsScriptFault }
        ensures bad { OnlyWhereNone result (IsDraftIn self.now kind.now) }
    {
        if kind.ends_with("Client") {
            self.client_draft(kind).map(Draft::Client)
        } else if kind.starts_with("Conn") {
            self.connection_draft(kind).map(Draft::Connection)
        } else if kind.starts_with("Chan") {
            self.channel_draft(kind).map(Draft::Channel)
        } else {
            self.packet_draft(kind).map(Draft::Packet)
        }
    }

    fn message(&self, kind: &str) -> Result<Step, Fault>
        requires { IsText kind.now (member_at self.now (codes "do")) }
        ensures step { IfOk result (IsReadStep self.now) }
        ensures among { IfOk result (IsAmong (length self.now.names.now)) }
        ensures faults { IfErr result IsScriptFault }
        ensures bad { IsErrOf result Fault.BadScript → IsNoMessage self.now }
    {
        Ok(Step::Message {
            on: self.chain("on")?,
            draft: self.draft(kind)?,
        })
    }

    fn step(&self) -> Result<Step, Fault>
        ensures step { IfOk result (IsReadStep self.now) }
        ensures among { IfOk result (IsAmong (length self.now.names.now)) }
        ensures faults { IfErr result IsScriptFault }
        ensures bad { OnlyWhereNone result (IsReadStep self.now) }
    {
        match text(self.object, "do")? {
            "Block" => self.block(),
            "root" => self.root(),
            "prove" => self.prove(),
            "totals" => self.totals(),
            "open" => self.open(),
            "relay" => self.relay(),
            kind => self.message(kind),
        }
    }
}

/// The steps of a script, each of which names chains of the script alone.
pub fn read_steps(alloc: Global, names: &[ChainName], values: &[Value]) -> Result<Vec<Step>, Fault>
    requires few { length names.now ≤ 8 }
    requires different { AreDifferent names.now }
    ensures steps { IfOk result (λ steps. AreEachOf (IsStepObject names.now) steps.items values.now) }
    ensures few { IfOk result (λ steps. length steps.items ≤ 10000) }
    ensures among { IfOk result (λ steps. All (IsAmong (length names.now)) steps.items) }
    ensures faults { IfErr result IsScriptFault }
    ensures bad { IsErrOf result Fault.BadScript → AreNoSteps names.now values.now }
{
    if values.len() > MOST_STEPS {
        return Err(Fault::BadScript);
    }
    let mut steps = Vec::with_capacity(alloc, values.len())?;
    for object in values {
        let reader = StepReader {
            alloc,
            names,
            object,
        };
        steps.push(reader.step()?)?;
    }
    Ok(steps)
}
