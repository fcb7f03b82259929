//! The steps that send messages for clients.

ghost use Rattle.std.specs.Prelude.{◌<◌, length, IfOk, IfErr, codes};
ghost use Rattle.ibc_script.specs.Faults.{IsScriptFault, OnlyWhereNone};
ghost use Rattle.ibc_script.specs.Scripts.{IsClientAmong};
ghost use Rattle.ibc_script.specs.StepReading.{IsClientDraft};

use super::step_reader::StepReader;
use crate::Fault;
use crate::draft::ClientDraft;
use crate::members::has_only;

impl StepReader<'_> {
    /// The message for clients of this kind.
    pub fn client_draft(&self, kind: &str) -> Result<ClientDraft, Fault>
        ensures draft { IfOk result (IsClientDraft self.now kind.now) }
        ensures among { IfOk result (IsClientAmong (length self.now.names.now)) }
        ensures faults { IfErr result IsScriptFault }
        ensures bad { OnlyWhereNone result (IsClientDraft self.now kind.now) }
    {
        match kind {
            "CreateClient" => self.create_client(),
            "UpdateClient" => self.update_client(),
            _ => Err(Fault::BadScript),
        }
    }

    fn create_client(&self) -> Result<ClientDraft, Fault>
        ensures draft { IfOk result (IsClientDraft self.now (codes "CreateClient")) }
        ensures among { IfOk result (IsClientAmong (length self.now.names.now)) }
        ensures faults { IfErr result IsScriptFault }
        ensures bad { OnlyWhereNone result (IsClientDraft self.now (codes "CreateClient")) }
    {
        has_only(self.object, &["do", "on", "of"])?;
        Ok(ClientDraft::Create {
            of: self.chain("of")?,
        })
    }

    fn update_client(&self) -> Result<ClientDraft, Fault>
        ensures draft { IfOk result (IsClientDraft self.now (codes "UpdateClient")) }
        ensures among { IfOk result (IsClientAmong (length self.now.names.now)) }
        ensures faults { IfErr result IsScriptFault }
        ensures bad { OnlyWhereNone result (IsClientDraft self.now (codes "UpdateClient")) }
    {
        has_only(self.object, &["do", "on", "client", "height"])?;
        Ok(ClientDraft::Update {
            height: self.number("height")?,
            client: self.name("client")?,
        })
    }
}
