//! The table as its callers see it.
ghost use Rattle.std.specs.Prelude.{◌≡◌, ◌+◌, ◌<◌, ◌≤◌, [], Some, None, IfOk, IfErr, IfSome, IfNone, IsSome, OnOk, OnSome, slice_index, IsOkUnless};
ghost use mathlib.Core.List.{IsPrefix};
ghost use Rattle.ibc_ids.specs.declared.refusal.Refusal.TheVariants.{NoMemory};
ghost use Rattle.ibc_ids.specs.Publications.{height_of};
ghost use Rattle.ibc_root_table.specs.Publications.{IsWithin};

use crate::knowledge::{PublicationTable, TableSeat};
use crate::row::{ROW_LEN, root_of, row_of};
use crate::shape::Shape;
use crate::steps::{
    Adopt, Count, CutReader, CutWriter, DraftPart, Hear, Look, LookFloor, Raise, RaiseFloor,
    ReadPart,
};
use atomic_table::Table;
use ibc_ids::{Refusal, Root};
use std::alloc::{AllocError, Global};
use std::marker::Model;

/// The table in which all chains of a process publish their heights. Contracts see which table it is, and its shape.
#[derive(Drop)]
pub struct RootTable {
    board: PublicationTable,
    shape: Shape,
}

impl Model for RootTable {
    ghost use Rattle.ibc_root_table.specs.Passes.{TableName};

    ghost Value = { TableName };

    ghost use Rattle.ibc_root_table.specs.TableFields.{name_of, IsTable};

    ghost view = { name_of };

    ghost invariant = { IsTable };
}

/// The right to read a table, and of a chain's own pass to publish.
/// Contracts see which publications it has seen; the code keeps no list of them.
#[derive(Drop)]
pub struct Pass {
    place: TableSeat,
    own: Option<u8>,
}

impl Model for Pass {
    ghost use Rattle.ibc_root_table.specs.Passes.{Sight};

    ghost Value = { Sight };

    ghost use Rattle.ibc_root_table.specs.TableFields.{sight_of, IsPass};

    ghost view = { sight_of };

    ghost invariant = { IsPass };
}

impl RootTable {
    ghost use Rattle.ibc_root_table.specs.Passes.{SamePass, KeepsOwn, AreDealt, own_chain, unused_pass};
    ghost use Rattle.ibc_root_table.specs.SeatSteps.{FloorLooked};
    ghost use Rattle.ibc_root_table.specs.TableFields.{IsPlaceOf, SamePlace};
    ghost use Rattle.ibc_root_table.specs.TableCalls.{IsNewTable, WritesFrom, IsLaid, PublishesNext, AddsOwn, HasRoom, IsTableFull, IsPublishedRow, OwnsFirst, IsNextRow, OnlyFloorsDiffer, IsLoadedRow, HearsOf};

    /// A table with no publications, the chains' own passes in their order, and then the passes that only read.
    /// There are 1 to 255 chains, each with a ring of at least one row.
    /// `NoMemory` where the words or the passes don't fit into memory.
    pub fn new(
        alloc: Global,
        chains: u8,
        readers: usize,
        window: u64,
        capacity: u64,
    ) -> Result<(RootTable, Vec<Pass>), Refusal>
        requires { (0 < chains) × (0 < window) }
        ensures ok { IfOk result (λ made. IsNewTable chains readers window capacity made.0 made.1.items) }
        ensures err { IsOkUnless result NoMemory }
    {
        let shape = Shape {
            chains,
            window,
            capacity,
        };
        let (table, place) = RootTable::lay(alloc, shape)?;
        let passes = table.deal(alloc, place, readers)?;
        Ok((table, passes))
    }

    // The table, and the seat that writes for all chains.
    fn lay(alloc: Global, shape: Shape) -> Result<(RootTable, TableSeat), AllocError>
        requires { (0 < shape.chains) × (0 < shape.window) }
        ensures { IfOk result (λ made. IsLaid shape made.0 made.1) }
    {
        let words = vec![in alloc; 0u64; shape.word_count()]?;
        let (board, place): (PublicationTable, TableSeat) = Table::of_words(
            alloc,
            words.as_slice(),
            &shape,
        )?;
        let table = RootTable { board, shape };
        Ok((table, place))
    }

    // The chains' own passes, and then the readers'.
    fn deal(
        &self,
        alloc: Global,
        mut place: TableSeat,
        readers: usize,
    ) -> Result<Vec<Pass>, AllocError>
        requires table { IsPlaceOf self.now place }
        requires view { WritesFrom self.now.shape 0 place }
        ensures { IfOk result (λ passes. AreDealt self.now.shape.chains readers self.now passes.items) }
    {
        let mut passes = Vec::new(alloc);
        for chain in 0..self.shape.chains {
            passes.push(self.own_pass(&mut place, chain))?;
        }
        'readers: for _ in 0..readers {
            passes.push(self.reading_pass(&mut place))?;
        }
        Ok(passes)
    }

    // The own pass of the seat's first chain, which the seat gives up.
    fn own_pass(&self, place: &mut TableSeat, chain: u8) -> Pass
        requires table { IsPlaceOf self.now place.old }
        requires view { (chain < self.now.shape.chains) × WritesFrom self.now.shape chain place.old }
        ensures place { SamePlace place.old place.new × WritesFrom self.now.shape (chain + 1) place.new }
        ensures pass { result ≡ unused_pass self.now (Some chain) }
    {
        Pass {
            place: self.board.shared.split_seat::<CutWriter>(place),
            own: Some(chain),
        }
    }

    fn reading_pass(&self, place: &mut TableSeat) -> Pass
        requires table { IsPlaceOf self.now place.old }
        requires view { place.old.me.0.seen ≡ [] }
        ensures place { SamePlace place.old place.new × (place.new.me ≡ place.old.me) }
        ensures pass { result ≡ unused_pass self.now None }
    {
        Pass {
            place: self.board.shared.split_seat::<CutReader>(place),
            own: None,
        }
    }

    /// How many heights the chain has published by now, 0 where the table has no such chain.
    pub fn published(&self, pass: &mut Pass, chain: u8) -> u64
        requires table { pass.old.table ≡ self.now }
        ensures pass { SamePass pass.old pass.new }
        ensures seen { IsPrefix pass.old.seen pass.new.seen }
        ensures own { KeepsOwn pass.old pass.new }
        ensures height { result ≡ height_of chain pass.new.seen }
        ensures most { result ≤ self.now.shape.capacity }
    {
        let place = &mut pass.place;
        if chain >= self.shape.chains {
            return 0;
        }
        self.board.shared.load::<Look>(place, usize::from(chain))
    }

    /// Publishes the next height of the pass's own chain, and answers that height.
    /// `TableFull` where the chain has published as many heights as it may, and then nothing has changed.
    pub fn publish(&self, pass: &mut Pass, root: Root, time: u64) -> Result<u64, Refusal>
        requires table { pass.old.table ≡ self.now }
        requires own { IsSome pass.old.own }
        ensures pass { SamePass pass.old pass.new }

        ensures seen { OnOk result (PublishesNext root time pass.old pass.new) }
        ensures own { OnOk result (AddsOwn root time pass.old pass.new) }
        ensures height { IfOk result (λ height. height ≡ height_of (own_chain pass.old) pass.new.seen) }
        ensures room { OnOk result (HasRoom self.now.shape pass.old) }

        ensures full { IfErr result (λ refusal. IsTableFull self.now.shape pass.old pass.new refusal) }
    {
        let Some(chain) = pass.own else {
            unreachable!();
        };
        let word = usize::from(chain);
        let place = &mut pass.place;
        let height = self.board.shared.load::<Count>(place, word);
        if height >= self.shape.capacity {
            return Err(Refusal::TableFull);
        }
        self.make_room(place, chain, height);
        self.store_row(place, chain, height, &row_of(&root, time));
        self.board.shared.store::<Raise>(place, word, height + 1);
        Ok(height + 1)
    }

    /// The root and the time of a height that the pass has seen, or nothing where the height is gone from the
    /// window (ICS 2, "Consensus state").
    pub fn row(&self, pass: &mut Pass, chain: u8, height: u64) -> Option<(Root, u64)>
        requires table { pass.old.table ≡ self.now }
        requires seen { (0 < height) × (height ≤ height_of chain pass.old.seen) }
        ensures pass { SamePass pass.old pass.new }
        ensures seen { IsPrefix pass.old.seen pass.new.seen }
        ensures own { KeepsOwn pass.old pass.new }

        ensures row { IfSome result (λ row. IsPublishedRow pass.new.seen chain height row.0 row.1) }
        ensures kept { OnSome result (height_of chain pass.new.seen < height + self.now.shape.window) }
        ensures gone { IfNone result (height + self.now.shape.window ≤ height_of chain pass.new.seen + 1) }
    {
        let place = &mut pass.place;
        let row = self.load_row(place, chain, height - 1);
        let floor = self.load_floor(place, chain);
        if floor >= height {
            return None;
        }
        Some((root_of(&row), row[4]))
    }

    // Raises the floor, so that the ring has a slot for the next row.
    fn make_room(&self, place: &mut TableSeat, chain: u8, row: u64)
        requires table { IsPlaceOf self.now place.old }
        requires own { OwnsFirst self.now.shape chain place.old }
        requires row { (row ≡ height_of chain place.old.me.0.seen) × (row < self.now.shape.capacity) }
        ensures same { OnlyFloorsDiffer place.old place.new }
        ensures room { row + 1 ≤ slice_index place.new.me.0.floors chain + self.now.shape.window }
    {
        if row < self.shape.window {
            return;
        }
        let floor = row - self.shape.window + 1;
        let word = self.shape.floor_word(chain);
        self.board.shared.store::<RaiseFloor>(place, word, floor);
    }

    // The chain's floor, by a look at the table as it is.
    fn load_floor(&self, place: &mut TableSeat, chain: u8) -> u64
        requires table { IsPlaceOf self.now place.old }
        requires chain { chain < self.now.shape.chains }
        ensures same { SamePlace place.old place.new }
        ensures floor { FloorLooked chain place.old.me result place.new.me }
    {
        let word = self.shape.floor_word(chain);
        self.board.shared.load::<LookFloor>(place, word)
    }

    // Stores the next row of the seat's first chain, which nobody reads yet.
    fn store_row(&self, place: &mut TableSeat, chain: u8, row: u64, words: &[u64; ROW_LEN])
        requires table { IsPlaceOf self.now place.old }
        requires own { OwnsFirst self.now.shape chain place.old }
        requires row { IsNextRow self.now.shape chain row place.old }
        requires room { row + 1 ≤ slice_index place.old.me.0.floors chain + self.now.shape.window }
        ensures same { SamePlace place.old place.new }
        ensures draft { place.new.me ≡ (record place.old.me.0 { draft = words.now }, place.old.me.1) }
    {
        for part in 0..ROW_LEN {
            let word = self.shape.row_word(chain, row, part);
            self.board
                .shared
                .store::<DraftPart>(place, word, words[part]);
        }
    }

    // Loads a row that the seat has seen.
    fn load_row(&self, place: &mut TableSeat, chain: u8, row: u64) -> [u64; ROW_LEN]
        requires table { IsPlaceOf self.now place.old }
        requires row { chain < self.now.shape.chains }
        ensures same { OnlyFloorsDiffer place.old place.new }
        ensures words { IsLoadedRow chain row place.old result place.new }
    {
        let mut words = [0; ROW_LEN];
        for part in 0..ROW_LEN {
            let word = self.shape.row_word(chain, row, part);
            words[part] = self.board.shared.load::<ReadPart>(place, word);
        }
        words
    }

    /// Afterwards the two passes have seen the same publications, and each of them all that either had seen.
    pub fn meet(&self, first: &mut Pass, second: &mut Pass)
        requires tables { (first.old.table ≡ self.now) × (second.old.table ≡ self.now) }
        ensures passes { SamePass first.old first.new × SamePass second.old second.new }
        ensures same { first.new.seen ≡ second.new.seen }
        ensures first { IsPrefix first.old.seen first.new.seen }
        ensures second { IsPrefix second.old.seen second.new.seen }
        ensures own { KeepsOwn first.old first.new × KeepsOwn second.old second.new }
    {
        let shared = &self.board.shared;
        self.tell(&mut first.place, &mut second.place);
        shared.load::<Look>(&mut second.place, 0);
        self.tell(&mut second.place, &mut first.place);
        shared.load::<Adopt>(&mut first.place, 0);
    }

    /// A pass that has seen less takes over just what the leader has seen.
    pub fn follow(&self, leader: &mut Pass, follower: &mut Pass)
        requires tables { (leader.old.table ≡ self.now) × (follower.old.table ≡ self.now) }
        requires behind { IsPrefix follower.old.seen leader.old.seen }
        ensures leader { leader.new ≡ leader.old }
        ensures pass { SamePass follower.old follower.new }
        ensures seen { follower.new.seen ≡ leader.old.seen }
        ensures own { KeepsOwn follower.old follower.new }
    {
        self.tell(&mut leader.place, &mut follower.place);
        self.board.shared.load::<Adopt>(&mut follower.place, 0);
    }

    /// What a pass has seen is of the table's chains, none of which has published more than it may.
    pub fn lemma_holds_what_is_seen(&self, pass: &Pass)
        requires { pass.now.table ≡ self.now }
        ensures { IsWithin self.now.shape pass.now.seen }
    {
        let _place = &pass.place;
    }

    // One seat hears what another has seen.
    fn tell(&self, from: &mut TableSeat, to: &mut TableSeat)
        requires tables { (from.old.table_id ≡ self.now.id) × (to.old.table_id ≡ self.now.id) }
        ensures from { SamePlace from.old from.new × (from.new.me ≡ from.old.me) }
        ensures to { HearsOf from.old to.old to.new }
    {
        let teller = self.board.shared.split_seat::<CutReader>(from);
        self.board.shared.join_seat::<Hear>(to, teller);
    }
}
