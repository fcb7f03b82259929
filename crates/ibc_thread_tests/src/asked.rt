//! Chains that are asked by the calls of `Gate`.

use ibc_ids::{Bytes, ChannelId, Key, PortId, Refusal};
use ibc_ledger::StampedEntry;
use ibc_ledger_lock::{Gate, Receipt, WorldBrand};
use ibc_machine::{Event, Reply};
use ibc_merkle::Proof;
use ibc_relayer::plans;
use ibc_script::Fault;
use ibc_script_cli::{Chains, CommittedBlock, Race};
use ibc_script_worlds::ChainStarts;
use ibc_wire::{Message, Packet};
use std::alloc::{AllocError, Global};
use std::sync::Wait;

/// What a chain answered to an event, by the number of the chain.
#[derive(Drop)]
pub struct Answer {
    pub chain: u8,
    pub reply: Reply,
}

/// Chains that threads share, as the steps of a script see them, asked by the calls of `Gate`; their answers are kept.
#[derive(Drop)]
pub struct GatedChains<'g, R: Wait, G: Gate> {
    pub rt: &'g R,
    pub alloc: Global,
    pub gates: &'g [G],
    pub starts: ChainStarts,
    pub answers: Vec<Answer>,
}

/// Takes the steps of a script by the calls of `Gate`, and gives what was answered. Faults: those that stop a run.
pub fn take_steps<R: Wait, G: Gate>(
    rt: &R,
    alloc: Global,
    gates: &[G],
    race: Race,
) -> Result<Vec<Answer>, Fault> {
    let starts = match ChainStarts::of(alloc, race.genesis()) {
        Ok(starts) => starts,
        Err(error) => {
            drop(race);
            return Err(Fault::from(error));
        }
    };
    let asked = GatedChains {
        rt,
        alloc,
        gates,
        starts,
        answers: Vec::new(alloc),
    };
    let GatedChains { answers, .. } = race.run_on(asked)?;
    Ok(answers)
}

/// What receipts tell. Refused: `NoMemory`.
pub fn answers_of<W: WorldBrand>(
    alloc: Global,
    receipts: &[Receipt<W>],
) -> Result<Vec<Answer>, Refusal> {
    let mut answers = Vec::with_capacity(alloc, receipts.len())?;
    match push_answers(&mut answers, receipts) {
        Ok(()) => Ok(answers),
        Err(refusal) => {
            drop(answers);
            Err(refusal)
        }
    }
}

// Adds what receipts tell to other answers.
fn push_answers<W: WorldBrand>(
    answers: &mut Vec<Answer>,
    receipts: &[Receipt<W>],
) -> Result<(), Refusal> {
    for receipt in receipts {
        let chain = receipt.chain();
        let reply = receipt.reply().clone()?;
        answers.push(Answer { chain, reply })?;
    }
    Ok(())
}

// Keeps what a chain answered, and tells its reply.
fn keep(answers: &mut Vec<Answer>, chain: u8, reply: Reply) -> Result<Reply, Refusal> {
    let kept: Result<Reply, AllocError> = reply.clone();
    match answers.push(Answer { chain, reply }) {
        Ok(()) => Ok(kept?),
        Err(error) => {
            drop(kept);
            Err(Refusal::from(error))
        }
    }
}

// The time of the working block of a chain that began at a time, by its history.
fn time_in(start: u64, history: &[StampedEntry]) -> u64 {
    for stamped in history.iter().rev() {
        if let (Event::Block { next_time, .. }, Reply::Ok(_)) = (
            &stamped.entry.event,
            &stamped.entry.reply,
        ) {
            return *next_time;
        }
    }
    start
}

// A call of a function whose bounds this block assumes isn't covered by the borrow checker where a bound is `Sync`: so each
// method asks the gate itself.
impl<R: Wait, G: Gate> Chains for GatedChains<'_, R, G> {
    fn ask(&mut self, event: Event) -> Result<Reply, Refusal> {
        match event {
            Event::Message { chain, message } => match self.gates.get(usize::from(chain)) {
                Some(gate) => keep(&mut self.answers, chain, gate.submit(self.rt, message)),
                None => {
                    drop(message);
                    Ok(Reply::No(Refusal::UnknownChain))
                }
            },
            Event::Block { chain, next_time } => match self.gates.get(usize::from(chain)) {
                Some(gate) => keep(&mut self.answers, chain, gate.produce(self.rt, next_time)),
                None => Ok(Reply::No(Refusal::UnknownChain)),
            },
        }
    }

    fn value(&self, chain: u8, key: &Key) -> Result<Option<Bytes>, Refusal> {
        match self.gates.get(usize::from(chain)) {
            Some(gate) => gate.query(self.rt, key),
            None => Ok(None),
        }
    }

    fn packet(
        &self,
        chain: u8,
        port: &PortId,
        channel: &ChannelId,
        sequence: u64,
    ) -> Result<Option<Packet>, Refusal> {
        match self.gates.get(usize::from(chain)) {
            Some(gate) => gate.packet(self.rt, port, channel, sequence),
            None => Ok(None),
        }
    }

    fn ack(
        &self,
        chain: u8,
        port: &PortId,
        channel: &ChannelId,
        sequence: u64,
    ) -> Result<Option<Bytes>, Refusal> {
        match self.gates.get(usize::from(chain)) {
            Some(gate) => gate.ack(self.rt, port, channel, sequence),
            None => Ok(None),
        }
    }

    fn proof(&self, chain: u8, height: u64, key: &Key) -> Result<Option<Proof>, Refusal> {
        let Some(gate) = self.gates.get(usize::from(chain)) else {
            return Ok(None);
        };
        match gate.query_proof(self.rt, height, key) {
            Ok(proof) => Ok(Some(proof)),
            Err(Refusal::NoConsensus) => Ok(None),
            Err(refusal) => Err(refusal),
        }
    }

    fn block(&self, chain: u8, height: u64) -> Option<CommittedBlock> {
        let starts = &self.starts;
        let gate = self.gates.get(usize::from(chain))?;
        gate.events_from(self.rt, 0, |history| starts.block(chain, history, height))
    }

    fn working_time(&self, chain: u8) -> Result<u64, Refusal> {
        match (
            self.gates.get(usize::from(chain)),
            self.starts.times.get(usize::from(chain)),
        ) {
            (Some(gate), Some(start)) => {
                let start = *start;
                Ok(gate.events_from(self.rt, 0, |history| time_in(start, history)))
            }
            _ => Ok(0),
        }
    }

    fn plans(&self, first: u8, second: u8) -> Result<(Vec<Message>, Vec<Message>), Refusal> {
        match (
            self.gates.get(usize::from(first)),
            self.gates.get(usize::from(second)),
        ) {
            (Some(first), Some(second)) => plans(self.alloc, first.view(), second.view()),
            _ => Ok((Vec::new(self.alloc), Vec::new(self.alloc))),
        }
    }
}
