//! A node answers lines, in their order.

ghost use Rattle.std.specs.Prelude.{◌≡◌, ◌<◌, ◌≤◌, ◌-◌, [], length, nat_lt, true, IfOk, IsTrue, OnOk};
ghost use Rattle.std.specs.Io.KnownBytes.{Appends, Keeps};
ghost use Rattle.sqlite.specs.Held.{state};
ghost use Rattle.ibc_node.specs.Nodes.{node_waiting};
ghost use Rattle.ibc_node_lines.specs.Desks.{IsOnlyRead};
ghost use Rattle.ibc_node_lines.specs.OtherLines.{IsMistakenLine};
ghost use Rattle.ibc_node_lines.specs.Servers.{EndsWithAll, IsTextOrMistake, RunsByLine, Serves, Tells, TellsByLine, TellsFromStart, TellsOnLines, TellsTakenByLine, WritesBehind, WritesLines, WritesResumed};
ghost use Rattle.ibc_node_lines.specs.Sessions.{HasOneMore, IsFairLine};
ghost use Rattle.ibc_node_lines.specs.Told.{answers_of};

use crate::answers::{mistaken, resumed};
use crate::lines::lines_text;
use crate::questions::{question_of, tell};
use crate::{
    Desk, LineFault, NodeAction, NodeLine, NodeQuestion, NodeRequest, SingleSteps, read_request,
};
use ibc_machine::{Event, Genesis};
use ibc_node::{Node, NodeFault};
use ibc_script::{ChainName, Fault, Script, Step, read_script};
use ibc_script_worlds::ChainStarts;
use sqlite::Alter;
use std::alloc::Global;
use std::io::{BufRead, BufReader, Read, Write};

/// Answers each line of the input, in order, with a line. An answer is written after its entry is in the journal. Lines that have come
/// together share a commit, so many at most. So no answer waits for a line that hasn't come. At the end the node is given back: its journal
/// has all that its world keeps, and what was told of events is of that.
pub fn serve<S: Alter + Drop, R: Read + Drop, W: Write>(
    alloc: Global,
    node: Node<S>,
    input: BufReader<R>,
    output: &mut W,
    batch: usize,
) -> Result<Node<S>, NodeFault>
    ensures all { EndsWithAll (state S.Store) node result }
    ensures told { IfOk result (TellsFromStart (state S.Store) W.contents node output.old output.new) }
{
    let script = script_of(alloc, &node)?;
    let Script {
        genesis,
        names,
        steps,
    } = script;
    drop(steps);
    let server = server_of(alloc, node, genesis, names)?;
    let mut server = server;
    server.serve_all(input, output, batch)?;
    Ok(server.into_node())
}

// The script with no steps that the genesis of a node is.
fn script_of<S: Alter>(alloc: Global, node: &Node<S>) -> Result<Script, NodeFault> {
    match read_script(alloc, node.genesis()) {
        Ok(script) => Ok(script),
        Err(Fault::NoMemory) => Err(NodeFault::NoMemory),
        Err(_) => Err(NodeFault::BadGenesis),
    }
}

// What answers the lines of a node.
struct Server<S: Alter> {
    alloc: Global,
    desk: Desk<S>,
    names: Vec<ChainName>,
    steps: SingleSteps,
    number: u64,
    told: Vec<NodeLine>,
}

impl<S: Alter + Drop> Drop for Server<S> {
    fn drop(self) {
        let Server {
            alloc: _,
            desk: _,
            names: _,
            steps: _,
            number: _,
            told: _,
        } = self;
    }
}

fn server_of<S: Alter + Drop>(
    alloc: Global,
    node: Node<S>,
    genesis: Genesis,
    names: Vec<ChainName>,
) -> Result<Server<S>, NodeFault>
    ensures node { IfOk result (λ server. server.desk.node ≡ node) }
    ensures none { IfOk result (λ server. server.told.items ≡ []) }
{
    let starts = ChainStarts::of(alloc, &genesis);
    drop(genesis);
    let starts = starts?;
    let steps = SingleSteps::new(alloc, names.as_slice())?;
    Ok(Server {
        alloc,
        desk: Desk::new(alloc, node, starts),
        names,
        steps,
        number: 0,
        told: Vec::new(alloc),
    })
}

impl<S: Alter + Drop> Server<S> {
    // Its node.
    fn into_node(self) -> Node<S>
        ensures { result ≡ self.desk.node }
    {
        let Server {
            alloc: _,
            desk,
            names,
            steps,
            number: _,
            told,
        } = self;
        drop(names);
        drop(steps);
        drop(told);
        desk.into_node()
    }

    // Answers all lines.
    fn serve_all<R: Read + Drop, W: Write>(
        &mut self,
        input: BufReader<R>,
        output: &mut W,
        batch: usize,
    ) -> Result<(), NodeFault>
        ensures told { Tells (state S.Store) W.contents self.old output.old self.new output.new result }
        ensures none { OnOk result (node_waiting self.new.desk.node ≡ []) }
    {
        self.resume(output)?;
        self.serve_each(input, output, batch)?;
        self.settle(output)
    }

    // Answers line by line. The last answers may wait.
    fn serve_each<R: Read + Drop, W: Write>(
        &mut self,
        input: BufReader<R>,
        output: &mut W,
        batch: usize,
    ) -> Result<(), NodeFault>
        ensures { Serves (state S.Store) W.contents self.old output.old self.new output.new result }
    {
        let mut input = input;
        'lines: for _turn in 0..u64::MAX {
            if !self.answer_next(&mut input)? {
                return Ok(());
            }
            self.settle_if_due(&input, output, batch)?;
        }
        Ok(())
    }

    // Settles where as many lines wait as may share a commit, or where no whole line has come. Fewer may wait behind it.
    fn settle_if_due<R: Read, W: Write>(
        &mut self,
        input: &BufReader<R>,
        output: &mut W,
        batch: usize,
    ) -> Result<(), NodeFault>
        ensures serves { Serves (state S.Store) W.contents self.old output.old self.new output.new result }
        ensures few { OnOk result (length self.new.told.items ≤ batch - 1) }
    {
        if self.may_wait(input, batch) {
            return Ok(());
        }
        self.settle(output)
    }

    // Whether more lines may share the commit of those that wait, and a whole line has come.
    fn may_wait<R: Read>(&self, input: &BufReader<R>, batch: usize) -> bool
        ensures { IsTrue result → length self.now.told.items < batch }
    {
        if self.has_room(batch) {
            return input.buffer().contains(&b'\n');
        }
        false
    }

    // Whether more lines may share the commit of those that wait.
    fn has_room(&self, batch: usize) -> bool
        ensures { result ≡ nat_lt (length self.now.told.items) batch }
    {
        self.told.as_slice().len() < batch
    }

    // Answers the next line, if there is one.
    fn answer_next<R: Read>(&mut self, input: &mut BufReader<R>) -> Result<bool, NodeFault>
        ensures tells { OnOk result (TellsOnLines (state S.Store) self.old self.new) }
        ensures line { IfOk result (λ there. HasOneMore there self.old.told.items self.new.told.items) }
    {
        let mut line = Vec::new(self.alloc);
        if !read_line(input, &mut line)? {
            return Ok(false);
        }
        self.answer(line.as_slice())?;
        Ok(true)
    }

    // Tells where the node goes on.
    fn resume<W: Write>(&self, output: &mut W) -> Result<(), NodeFault>
        ensures { OnOk result (WritesResumed W.contents self.now.desk.node output.old output.new) }
    {
        let node = &self.desk.node;
        let text = resumed(self.alloc, node.entries(), node.log_place())?;
        write(output, text.as_str())
    }

    // Answers a line; the answer is told when its entry is in the journal.
    fn answer(&mut self, line: &[u8]) -> Result<(), NodeFault>
        ensures tells { OnOk result (TellsOnLines (state S.Store) self.old self.new) }
        ensures line { OnOk result (HasOneMore true self.old.told.items self.new.told.items) }
    {
        self.number = self.number.saturating_add(1);
        let told = self.line_for(line)?;
        self.told.push(told)?;
        Ok(())
    }

    // The answer to a line.
    fn line_for(&mut self, line: &[u8]) -> Result<NodeLine, NodeFault>
        ensures answers { IfOk result (TellsByLine (state S.Store) self.old.desk.node self.new.desk.node) }
        ensures told { self.new.told.items ≡ self.old.told.items }
        ensures fair { IfOk result IsFairLine }
    {
        match read_request(self.alloc, &self.steps, line) {
            Ok(request) => self.line_of(request),
            Err(why) => self.other(Err(why)),
        }
    }

    // The answer to what a line asks for.
    fn line_of(&mut self, request: NodeRequest) -> Result<NodeLine, NodeFault>
        ensures answers { IfOk result (TellsByLine (state S.Store) self.old.desk.node self.new.desk.node) }
        ensures told { self.new.told.items ≡ self.old.told.items }
        ensures fair { IfOk result IsFairLine }
    {
        match request {
            NodeRequest::Do { log_place, asked } => self.act(log_place, asked),
            NodeRequest::Tell(question) => self.tell(question),
        }
    }

    // Does what a line asks for, unless the place of a log that it names isn't above the last one.
    fn act(&mut self, log_place: u32, asked: NodeAction) -> Result<NodeLine, NodeFault>
        ensures answers { IfOk result (TellsByLine (state S.Store) self.old.desk.node self.new.desk.node) }
        ensures told { self.new.told.items ≡ self.old.told.items }
        ensures fair { IfOk result IsFairLine }
    {
        if self.has_come(log_place) {
            drop(asked);
            return self.again(log_place);
        }
        match asked {
            NodeAction::Event(event) => self.take(log_place, event),
            NodeAction::Step(step) => self.act_step(log_place, step),
        }
    }

    // Whether what came by this place of a log is answered.
    fn has_come(&self, log_place: u32) -> bool {
        0 < log_place && log_place <= self.desk.node.log_place()
    }

    // Tells what came of a line that had come before.
    fn again(&mut self, log_place: u32) -> Result<NodeLine, NodeFault>
        ensures answers { IfOk result (TellsByLine (state S.Store) self.old.desk.node self.new.desk.node) }
        ensures told { self.new.told.items ≡ self.old.told.items }
        ensures fair { IfOk result IsFairLine }
    {
        Ok(NodeLine::Answers(self.desk.node.again(log_place)?))
    }

    // Asks for an event.
    fn take(&mut self, log_place: u32, event: Event) -> Result<NodeLine, NodeFault>
        ensures answers { IfOk result (TellsByLine (state S.Store) self.old.desk.node self.new.desk.node) }
        ensures asked { TellsTakenByLine log_place self.old.desk.node event self.new.desk.node result }
        ensures told { self.new.told.items ≡ self.old.told.items }
        ensures fair { IfOk result IsFairLine }
    {
        Ok(NodeLine::Answers(self.desk.take(log_place, event)?))
    }

    // Takes a step.
    fn act_step(&mut self, log_place: u32, step: Step) -> Result<NodeLine, NodeFault>
        ensures answers { IfOk result (TellsByLine (state S.Store) self.old.desk.node self.new.desk.node) }
        ensures told { self.new.told.items ≡ self.old.told.items }
        ensures fair { IfOk result IsFairLine }
    {
        match question_of(step) {
            Ok(question) => self.tell(question),
            Err(step) => self.ask_by(log_place, step),
        }
    }

    // Takes a step that asks for events.
    fn ask_by(&mut self, log_place: u32, step: Step) -> Result<NodeLine, NodeFault>
        ensures answers { IfOk result (TellsByLine (state S.Store) self.old.desk.node self.new.desk.node) }
        ensures ran { IfOk result (RunsByLine (state S.Store) log_place step self.old self.new) }
        ensures told { self.new.told.items ≡ self.old.told.items }
        ensures fair { IfOk result IsFairLine }
    {
        Ok(NodeLine::Answers(self.desk.act(self.names.as_slice(), log_place, step)?))
    }

    // Answers a question.
    fn tell(&mut self, question: NodeQuestion) -> Result<NodeLine, NodeFault>
        ensures answers { IfOk result (TellsByLine (state S.Store) self.old.desk.node self.new.desk.node) }
        ensures read { OnOk result (IsOnlyRead (state S.Store) self.old.desk.node self.new.desk.node) }
        ensures told { self.new.told.items ≡ self.old.told.items }
        ensures fair { IfOk result IsFairLine }
    {
        let text = tell(self.alloc, &mut self.desk, question)?;
        self.other(text)
    }

    // A line that tells of no event: a text, or what is wrong with what was read.
    fn other(&self, text: Result<String, LineFault>) -> Result<NodeLine, NodeFault>
        ensures none { IfOk result (λ told. answers_of told ≡ []) }
        ensures text { IfOk result (IsTextOrMistake self.now.number text) }
    {
        match text {
            Ok(text) => Ok(NodeLine::Other(text)),
            Err(why) => self.mistake(why),
        }
    }

    // What is wrong with the line that was read last.
    fn mistake(&self, why: LineFault) -> Result<NodeLine, NodeFault>
        ensures { IfOk result (IsMistakenLine self.now.number why) }
    {
        match why {
            LineFault::NoMemory => Err(NodeFault::NoMemory),
            _ => Ok(NodeLine::Other(mistaken(self.alloc, self.number, why)?)),
        }
    }

    // Puts in what waits, and then writes the answers. Where anything was written, the journal has all that the world keeps.
    fn settle<W: Write>(&mut self, output: &mut W) -> Result<(), NodeFault>
        ensures told { WritesBehind (state S.Store) W.contents self.old output.old self.new output.new }
        ensures serves { Serves (state S.Store) W.contents self.old output.old self.new output.new result }
        ensures written { OnOk result (WritesLines W.contents self.old.told.items output.old output.new) }
        ensures none { OnOk result (node_waiting self.new.desk.node ≡ []) }
        ensures cleared { OnOk result (self.new.told.items ≡ []) }
    {
        self.desk.node.settle()?;
        self.write_told(output)?;
        self.told.clear();
        Ok(())
    }

    // Writes the lines that wait.
    fn write_told<W: Write>(&self, output: &mut W) -> Result<(), NodeFault>
        ensures { OnOk result (WritesLines W.contents self.now.told.items output.old output.new) }
    {
        let text = lines_text(self.alloc, self.told.as_slice())?;
        write(output, text.as_str())
    }
}

// Reads the next line. Whether there is one.
fn read_line<R: Read>(input: &mut BufReader<R>, line: &mut Vec<u8>) -> Result<bool, NodeFault> {
    match input.read_until(b'\n', line) {
        Ok(count) => Ok(count > 0),
        Err(error) => Err(NodeFault::of_input(&error)),
    }
}

/// Writes a text, and has it go out.
pub fn write<W: Write>(output: &mut W, text: &str) -> Result<(), NodeFault>
    ensures { OnOk result (Appends (W.contents output.old) (W.contents output.new) text.now) }
{
    match output.write_all(text.as_bytes()) {
        Ok(()) => flush(output),
        Err(error) => {
            let fault = NodeFault::of_output(&error);
            drop(error);
            Err(fault)
        }
    }
}

fn flush<W: Write>(output: &mut W) -> Result<(), NodeFault>
    ensures { Keeps (W.contents output.old) (W.contents output.new) }
{
    match output.flush() {
        Ok(()) => Ok(()),
        Err(error) => {
            let fault = NodeFault::of_output(&error);
            drop(error);
            Err(fault)
        }
    }
}
