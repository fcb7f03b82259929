//! A node goes on where its journal ends.

ghost use Rattle.std.specs.Prelude.{◌≡◌, [], pos, Ok, Some, option_copied, IfErr, IfOk, IsTrue, OnOk};
ghost use Rattle.sqlite.specs.State.{HasCleanDisk};
ghost use Rattle.sqlite.specs.WalFiles.{image_at};
ghost use Rattle.sqlite.specs.Files.{IsOpened, file_state};
ghost use Rattle.sqlite.specs.Held.{state};
ghost use Rattle.ibc_machine.specs.chain.Genesis.{genesis_state, is_allowed};
ghost use Rattle.ibc_replay.specs.Replays.{IsBeginning};
ghost use Rattle.ibc_journal.specs.Tables.{no_schema};
ghost use Rattle.ibc_journal.specs.Crashes.{LeavesBegun, LeavesNothing};
ghost use Rattle.ibc_node.specs.Marks.{IsMarked};
ghost use Rattle.ibc_node.specs.Nodes.{IsGenesisText, is_given, IsGiven, node_waiting, IsFirstStart};
ghost use Rattle.ibc_node.specs.Faults.{IsOfGenesis};
ghost use Rattle.ibc_journal.specs.Changes.{CommitsNoneOfEmpty, CrashLeaves};
ghost use Rattle.ibc_node.specs.Starts.{BeginsAtRest, BeginsWithGiven, FindsFiles, FindsRowsFrom, HasGenesisFrom, HasGenesisOn, HasJournalOn, IsAsCalm, IsGivenFrom, IsGivenOn, IsJournalOrEmpty, IsMarkedFrom, IsMarkedOn, IsNewStart, IsOfOtherBeginning, IsUnmarked, IsWorldOfText, RestartsFrom, RestartsOn, RestsOn, StartsAgain, StartsAsGiven, StartsAtRest, StartsMarked, StartsWithGenesis, StartsWithGiven, StaysCalm};
ghost use Rattle.ibc_node.specs.ReadBack.{DiffersUnlawful, MarksAll, ReplayFails, ReplaysJournal, RestsOnJournal, RestsWhereDiffers};

use crate::reading::{LogMark, Past, read_all};
use crate::unread::Unread;
use crate::{Node, NodeFault};
use ibc_journal::{Beginning, Cursor, FORMAT, Looks, begin, beginning_of, look};
use ibc_machine::Genesis;
use ibc_script::{Fault, Script, read_script};
use ibc_world_core::{World, lemma_what_every_world_keeps};
use sqlite::{Alter, Connection, FileFrom, FileStore, Start};
use std::alloc::Global;

/// A world where its journal ends, how the journal began, and which entries came by a log.
#[derive(Drop)]
pub(crate) struct GoingOn {
    pub genesis: Vec<u8>,
    pub world: World,
    pub end: Cursor,
    pub marks: Vec<LogMark>,
}

/// The node of the files at a path. `start` stands for what they hold. Where that is a journal, the world is its replay: nothing that was
/// committed before a restart is lost by it. Where the files have no table, a world begins with the genesis.
pub fn open_at<S: Start>(
    rt: &HostRuntime,
    path: &str,
    start: S,
    genesis: Option<&[u8]>,
) -> Result<Node<FileStore<FileFrom<S>>>, NodeFault>
    ensures restarted { RestartsFrom file_state (image_at S.Start) result }
    ensures genesis { HasGenesisFrom file_state (image_at S.Start) result }
    // A journal that began with another genesis than the one that is given is no node's.
    ensures asked { IsGivenFrom file_state (image_at S.Start) genesis.entry result }
    ensures marked { IsMarkedFrom file_state (image_at S.Start) result }
    ensures none { IfOk result (λ node. node_waiting node ≡ []) }
    // Of files whose rows alone are known, it isn't known that they have the tables.
    ensures rows { FindsRowsFrom file_state (image_at S.Start) genesis.entry result }
{
    let conn = connect(rt, path, start)?;
    open_node(rt.alloc(), conn, genesis)
}

// Opens the files at a path, or makes them.
fn connect<S: Start>(
    rt: &HostRuntime,
    path: &str,
    start: S,
) -> Result<Connection<FileStore<FileFrom<S>>>, NodeFault>
    ensures opened { IfOk result (λ conn. HasCleanDisk (file_state conn) → IsOpened conn) }
    ensures found { IfOk result (FindsFiles file_state (image_at S.Start)) }
{
    match Connection::open_from(rt, path, false, start) {
        Ok(conn) => Ok(conn),
        Err((error, _)) => Err(NodeFault::from(error)),
    }
}

/// The node of a journal, or of a new one that begins with the genesis. The journal is read and replayed, and each answer compared.
/// So its world is the replay of what the journal holds, with which the next one goes on.
pub fn open_node<S: Alter + Drop>(
    alloc: Global,
    conn: Connection<S>,
    genesis: Option<&[u8]>,
) -> Result<Node<S>, NodeFault>
    ensures restarted { RestartsOn (state S.Store) conn result }
    ensures rest { HasJournalOn (state S.Store) conn result }
    ensures begun { (state S.Store conn).now.schema ≡ no_schema → IfOk result IsFirstStart }
    ensures given { BeginsWithGiven (state S.Store) conn genesis.entry result }
    ensures new { BeginsAtRest (state S.Store) conn result }
    ensures genesis { HasGenesisOn (state S.Store) conn result }
    ensures asked { IsGivenOn (state S.Store) conn genesis.entry result }
    ensures marked { IsMarkedOn (state S.Store) conn result }
    ensures unmarked { (state S.Store conn).now.schema ≡ no_schema → IfOk result (IsMarked []) }
    ensures none { IfOk result (λ node. node_waiting node ≡ []) }
    ensures which { OnOk result (IsJournalOrEmpty (state S.Store conn)) }
    ensures calm { IfOk result (StaysCalm (state S.Store) conn) }
{
    let mut conn = conn;
    let start = start_of(alloc, &mut conn, genesis)?;
    let GoingOn {
        genesis,
        world,
        end,
        marks,
    } = start;
    Ok(Node {
        alloc,
        conn,
        genesis,
        world,
        end,
        marks,
        waiting: Vec::new(alloc),
    })
}

// Where the node of a connection goes on.
fn start_of<S: Alter>(
    alloc: Global,
    conn: &mut Connection<S>,
    genesis: Option<&[u8]>,
) -> Result<GoingOn, NodeFault>
    ensures restarted { StartsAgain (state S.Store) conn.old conn.new result }
    ensures rest { RestsOn (state S.Store) conn.old conn.new result }
    ensures begun { (state S.Store conn.old).now.schema ≡ no_schema → IfOk result IsNewStart }
    ensures given { StartsWithGiven (state S.Store) conn.old genesis.entry result }
    ensures new { StartsAtRest (state S.Store) conn.old conn.new result }
    ensures genesis { StartsWithGenesis (state S.Store) conn.old conn.new result }
    ensures asked { StartsAsGiven (state S.Store) conn.old conn.new genesis.entry result }
    ensures marked { StartsMarked (state S.Store) conn.old conn.new result }
    ensures unmarked { (state S.Store conn.old).now.schema ≡ no_schema → IfOk result IsUnmarked }
    ensures which { OnOk result (IsJournalOrEmpty (state S.Store conn.old)) }
    ensures calm { OnOk result (IsAsCalm (state S.Store conn.old) (state S.Store conn.new)) }
{
    let looks = look(alloc, conn)?;
    match looks {
        Looks::Empty => begin_with(alloc, conn, genesis.ok_or(NodeFault::NoGenesis)?),
        Looks::Journal => go_on(alloc, conn, genesis),
        Looks::OfFormat(format) => Err(NodeFault::OtherFormat(format)),
        Looks::Other => Err(NodeFault::NoJournal),
    }
}

/// A world with a new journal. Nothing is written where no world begins so.
pub(crate) fn begin_with<S: Alter>(
    alloc: Global,
    conn: &mut Connection<S>,
    genesis: &[u8],
) -> Result<GoingOn, NodeFault>
    ensures begun { IfOk result IsNewStart }
    ensures given { IfOk result (λ start. start.genesis.items ≡ genesis.now) }
    ensures new { StartsAtRest (state S.Store) conn.old conn.new result }
    ensures unmarked { IfOk result IsUnmarked }
    // After an error nothing is committed, as far as the connection is still open.
    ensures refused { CommitsNoneOfEmpty (state S.Store) conn.old conn.new result }
    ensures crash { CrashLeaves (state S.Store) conn.old conn.new (λ s. LeavesBegun s genesis.now) }
{
    let text = Vec::from_slice(alloc, genesis)?;
    let world = world_of(alloc, genesis)?;
    begin(conn, genesis)?;
    let end = Cursor::new(genesis);
    Ok(GoingOn {
        genesis: text,
        world,
        end,
        marks: Vec::new(alloc),
    })
}

// The world of a text's genesis in the beginning.
fn world_of(alloc: Global, text: &[u8]) -> Result<World, NodeFault>
    ensures world { IfOk result (IsWorldOfText text.now) }
    ensures faults { IfErr result IsOfGenesis }
{
    let genesis = genesis_of(alloc, text)?;
    let world = new_world(alloc, &genesis);
    drop(genesis);
    world
}

// The world of a genesis in the beginning.
fn new_world(alloc: Global, genesis: &Genesis) -> Result<World, NodeFault>
    ensures begins { IfOk result (IsBeginning (genesis_state genesis.now)) }
    ensures allowed { OnOk result (IsTrue (is_allowed (genesis_state genesis.now))) }
    ensures faults { IfErr result IsOfGenesis }
{
    match World::new(alloc, genesis) {
        Ok(world) => Ok(world),
        Err(refusal) => Err(NodeFault::of_refusal(refusal, NodeFault::BadGenesis)),
    }
}

/// The genesis of a script with no steps.
pub(crate) fn genesis_of(alloc: Global, text: &[u8]) -> Result<Genesis, NodeFault>
    ensures genesis { IfOk result (λ genesis. IsGenesisText text.now (genesis_state genesis)) }
    ensures faults { IfErr result IsOfGenesis }
{
    match read_script(alloc, text) {
        Ok(script) => genesis_alone(script),
        Err(Fault::NoMemory) => Err(NodeFault::NoMemory),
        Err(_) => Err(NodeFault::BadGenesis),
    }
}

// The genesis of a script, where it has no steps.
fn genesis_alone(script: Script) -> Result<Genesis, NodeFault>
    ensures genesis { IfOk result (λ genesis. genesis_state genesis ≡ genesis_state script.genesis) }
    ensures no_steps { OnOk result (script.steps.items ≡ []) }
    ensures faults { IfErr result (λ fault. fault ≡ NodeFault.BadGenesis) }
{
    let Script {
        genesis,
        names,
        steps,
    } = script;
    drop(names);
    if !steps.as_slice().is_empty() {
        drop(steps);
        drop(genesis);
        return Err(NodeFault::BadGenesis);
    }
    drop(steps);
    Ok(genesis)
}

/// A world that goes on with a journal. Fault: `OtherGenesis` where the journal began with another genesis than this; the first place
/// that is damaged or differs.
pub(crate) fn go_on<S: Alter>(
    alloc: Global,
    conn: &mut Connection<S>,
    genesis: Option<&[u8]>,
) -> Result<GoingOn, NodeFault>
    ensures restarted { StartsAgain (state S.Store) conn.old conn.new result }
    ensures rest { RestsOn (state S.Store) conn.old conn.new result }
    ensures genesis { StartsWithGenesis (state S.Store) conn.old conn.new result }
    ensures asked { StartsAsGiven (state S.Store) conn.old conn.new genesis.entry result }
    ensures marked { StartsMarked (state S.Store) conn.old conn.new result }
    ensures crash { CrashLeaves (state S.Store) conn.old conn.new LeavesNothing }
{
    let began = beginning_of(conn)?;
    judge(&began, genesis)?;
    let Beginning { format: _, genesis } = began;
    let past = replay_from(alloc, conn, genesis.as_slice())?;
    let Past { world, end, marks } = past;
    Ok(GoingOn {
        genesis,
        world,
        end,
        marks,
    })
}

/// Whether a journal is of this format, and began with the genesis that is given, where one is.
pub(crate) fn judge(began: &Beginning, genesis: Option<&[u8]>) -> Result<(), NodeFault>
    ensures asked { OnOk result (IsGiven (option_copied genesis.entry) began.now.genesis.items) }
    ensures numbered { OnOk result (began.now.format ≡ pos 1) }
    ensures faults { IfErr result (IsOfOtherBeginning genesis.entry began.now) }
{
    if began.format != i64::from(FORMAT) {
        return Err(NodeFault::OtherFormat(began.format));
    }
    if !is_given(genesis, began.genesis.as_slice()) {
        return Err(NodeFault::OtherGenesis);
    }
    Ok(())
}

// Whether a text is the one that is given, where one is.
fn is_given(genesis: Option<&[u8]>, text: &[u8]) -> bool
    ensures { result ≡ is_given (option_copied genesis.entry) text.now }
{
    match genesis {
        Some(given) => given == text,
        None => true,
    }
}

/// The world that is made again of a journal's entries, from a text's genesis.
pub(crate) fn replay_from<S: Alter>(
    alloc: Global,
    conn: &mut Connection<S>,
    genesis: &[u8],
) -> Result<Past, Unread>
    ensures restarted { ReplaysJournal (state S.Store) conn.old conn.new genesis.now result }
    ensures marked { MarksAll (state S.Store) conn.old conn.new genesis.now result }
    ensures differs { DiffersUnlawful (state S.Store) conn.old conn.new genesis.now result }
    ensures faults { ReplayFails (state S.Store) conn.old conn.new genesis.now result }
    ensures rest { RestsOnJournal (state S.Store) conn.old conn.new genesis.now result }
    ensures left { RestsWhereDiffers (state S.Store) conn.old conn.new genesis.now result }
    ensures crash { CrashLeaves (state S.Store) conn.old conn.new LeavesNothing }
{
    let world = world_of(alloc, genesis)?;
    let past = read_all(alloc, conn, genesis, world)?;
    lemma_what_every_world_keeps(&past.world);
    Ok(past)
}
