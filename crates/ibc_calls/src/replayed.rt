//! Ledgers that are made again of what a journal keeps.

ghost use Rattle.std.specs.Prelude.{◌≡◌, IfOk, IfErr, IfSome, IfNone, None, Some};
ghost use Rattle.ibc_ids.specs.declared.refusal.Refusal.TheVariants.{NoMemory};
ghost use Rattle.ibc_machine.specs.chain.Genesis.{genesis_state, is_allowed};
ghost use Rattle.ibc_handle.specs.declared.handle_value.HandleValue.TheVariants as kind;
ghost use Rattle.ibc_calls.specs.declared.answer.Refused.TheVariants.{Core, OtherKind};
ghost use Rattle.ibc_calls.specs.Handles.{IsMade};
ghost use Rattle.ibc_calls.specs.ReplayedLedgers.{AreOfAnswer, AreOfWorld, HasNoEntries, MakesReplayed, ReplaysIfAllowed, ReplaysOf, ReplaysValue, TellsDifference};

use crate::Refused;
use crate::handles::{put_new, write_out};
use ibc_entry_codec::EntryAnswer;
use ibc_handle::{Handle, HandleValue, WorldLedgers};
use ibc_ids::{Bytes, Refusal};
use ibc_machine::{Entry, Genesis};
use ibc_replay::{Answered, Difference, replay};
use ibc_wire::encode;
use ibc_world_core::World;
use std::alloc::Global;
use std::mem::replace;

/// Makes all ledgers of a genesis in a handle that holds nothing, as they stand behind entries that a journal kept, under a number by which the
/// caller tells worlds apart. They are the ledgers of a world of the genesis that kept just these entries, in their order. The genesis
/// stays. Refused, by the first check that fails: `Full` where the ledgers' handle holds something; `Empty` and `OtherKind` where the first
/// handle holds no genesis, or the second no entries: then the entries stay. Behind these the entries' handle is empty, whatever the answer:
/// `Core(BadMessage)` exactly where no world begins so; `OtherAnswer` where an entry has another answer than is due, and those
/// before it have the one that is: then its place is told, counted from 0, and the bytes of what is due are written where there is room, and their
/// number is told; `Core(UnknownChain)` where it is an event for a chain that the genesis hasn't: then its place alone is told;
/// `Core(NoMemory)`.
#[tactic(auto, unfolding(crate::specs::ReplayedLedgers::MakesReplayed))]
pub fn make_replayed(
    alloc: Global,
    genesis: &mut Handle,
    number: u64,
    entries: &mut Handle,
    ledgers: &mut Handle,
    place: &mut u64,
    due: &mut [u8],
    size: &mut usize,
) -> Result<(), Refused>
    ensures kept { genesis.new.value ≡ genesis.old.value }
    ensures made { MakesReplayed genesis.old.value number entries.old.value entries.new.value ledgers.old.value ledgers.new.value (record { place = place.old; bytes = due.old; size = size.old }) (record { place = place.new; bytes = due.new; size = size.new }) result }
{
    if !ledgers.is_empty(alloc) {
        return Err(Refused::Full);
    }
    match genesis.take(alloc) {
        None => Err(Refused::Empty),
        Some(held) => {
            let made = replay_at(alloc, &held, number, entries, ledgers, place, due, size);
            genesis.set(alloc, held);
            made
        }
    }
}

fn replay_at(
    alloc: Global,
    held: &HandleValue,
    number: u64,
    entries: &mut Handle,
    ledgers: &mut Handle,
    place: &mut u64,
    due: &mut [u8],
    size: &mut usize,
) -> Result<(), Refused>
    requires { ledgers.old.value ≡ None }
    ensures { ReplaysOf (Some held.now) number entries.old.value entries.new.value ledgers.new.value (record { place = place.old; bytes = due.old; size = size.old }) (record { place = place.new; bytes = due.new; size = size.new }) result }
{
    match held {
        HandleValue::Genesis(genesis) => {
            replay_value(alloc, genesis, number, entries, ledgers, place, due, size)
        }
        _ => Err(Refused::OtherKind),
    }
}

fn replay_value(
    alloc: Global,
    genesis: &Genesis,
    number: u64,
    entries: &mut Handle,
    ledgers: &mut Handle,
    place: &mut u64,
    due: &mut [u8],
    size: &mut usize,
) -> Result<(), Refused>
    requires { ledgers.old.value ≡ None }
    ensures { ReplaysValue (genesis_state genesis.now) number entries.old.value entries.new.value ledgers.new.value (record { place = place.old; bytes = due.old; size = size.old }) (record { place = place.new; bytes = due.new; size = size.new }) result }
{
    match take_entries(alloc, entries) {
        Ok(list) => replay_list(alloc, genesis, number, list, ledgers, place, due, size),
        Err(refused) => Err(refused),
    }
}

// Takes the entries out of a handle. Where it holds none, it stays as it is.
fn take_entries(alloc: Global, entries: &mut Handle) -> Result<Vec<Entry>, Refused>
    ensures list { IfOk result (λ list. entries.old.value ≡ Some (kind.Entries list)) }
    ensures left { IfOk result (λ list. entries.new.value ≡ None) }
    ensures none { IfErr result (HasNoEntries entries.old.value) }
    ensures stays { IfErr result (λ refused. entries.new.value ≡ entries.old.value) }
{
    match entries.take(alloc) {
        None => Err(Refused::Empty),
        Some(held) => {
            let mut held = held;
            match list_in(alloc, &mut held) {
                Some(list) => {
                    drop(held);
                    Ok(list)
                }
                None => {
                    entries.set(alloc, held);
                    Err(Refused::OtherKind)
                }
            }
        }
    }
}

// Takes the entries out of a value, if it has any.
fn list_in(alloc: Global, held: &mut HandleValue) -> Option<Vec<Entry>>
    ensures list { IfSome result (λ list. held.old ≡ kind.Entries list) }
    ensures none { IfNone result ((held.new ≡ held.old) × HasNoEntries (Some held.old) OtherKind) }
{
    match held {
        HandleValue::Entries(list) => Some(replace(list, Vec::new(alloc))),
        _ => None,
    }
}

fn replay_list(
    alloc: Global,
    genesis: &Genesis,
    number: u64,
    list: Vec<Entry>,
    ledgers: &mut Handle,
    place: &mut u64,
    due: &mut [u8],
    size: &mut usize,
) -> Result<(), Refused>
    requires { ledgers.old.value ≡ None }
    ensures { ReplaysIfAllowed (is_allowed (genesis_state genesis.now)) (genesis_state genesis.now) list.items number ledgers.new.value (record { place = place.old; bytes = due.old; size = size.old }) (record { place = place.new; bytes = due.new; size = size.new }) result }
{
    match replay(alloc, genesis, list) {
        Ok(world) => put_world(alloc, world, number, ledgers),
        Err(difference) => tell_difference(alloc, difference, place, due, size),
    }
}

// Puts the ledgers of a world into a handle that holds nothing. Refused: `Core(NoMemory)`.
fn put_world(alloc: Global, world: World, number: u64, ledgers: &mut Handle) -> Result<(), Refused>
    requires { ledgers.old.value ≡ None }
    ensures { IsMade (AreOfWorld world number) ledgers.new.value result }
{
    let all = WorldLedgers::of_world(world, number);
    put_new(alloc, ledgers, HandleValue::Ledgers(all))
}

// Tells why no world is made again of entries.
fn tell_difference(
    alloc: Global,
    difference: Difference,
    place: &mut u64,
    due: &mut [u8],
    size: &mut usize,
) -> Result<(), Refused>
    ensures { TellsDifference difference (record { place = place.old; bytes = due.old; size = size.old }) (record { place = place.new; bytes = due.new; size = size.new }) result }
{
    match difference {
        Difference::NoGenesis => Err(Refused::Core(Refusal::BadMessage)),
        Difference::NoMemory => Err(Refused::Core(Refusal::NoMemory)),
        Difference::UnknownChain { place: at, stored } => {
            drop(stored);
            *place = at as u64;
            Err(Refused::Core(Refusal::UnknownChain))
        }
        Difference::At {
            place: at,
            due: answered,
            stored,
        } => {
            drop(stored);
            let bytes = answer_bytes(alloc, answered)?;
            *place = at as u64;
            let _ = write_out(bytes.as_slice(), due, size);
            drop(bytes);
            Err(Refused::OtherAnswer)
        }
    }
}

// The bytes of an answer, or none where it has no spelling. Refused: `Core(NoMemory)`.
fn answer_bytes(alloc: Global, answered: Answered) -> Result<Bytes, Refused>
    ensures ok { IfOk result (AreOfAnswer answered) }
    ensures err { IfErr result (λ refused. refused ≡ Core NoMemory) }
{
    let Answered { reply, reading } = answered;
    let answer = EntryAnswer { reply, reading };
    let found = encode(alloc, &answer);
    drop(answer);
    match found {
        Ok(bytes) => Ok(Bytes::from_vec(bytes)),
        Err(Refusal::BadMessage) => Ok(Bytes::from_vec(Vec::new(alloc))),
        Err(_) => Err(Refused::Core(Refusal::NoMemory)),
    }
}
