//! Ledgers meet, so that all have seen the same publications.

ghost use Rattle.std.specs.Prelude.{◌≡◌, ◌<◌, length};
ghost use Rattle.ibc_machine.specs.ledger.Ledgers.{SeesMore};
ghost use Rattle.ibc_refinement.specs.Meetings.{HaveMet, FirstHaveSeen};
ghost use Rattle.ibc_world_core.specs.WorldModel.{ledgers_alone, AllAtTable, HaveSeenMore, FirstAreLedgers, AllAtTableOf, AreOfEachChain, HaveSeenNoMore};

use ibc_ledger::Ledger;

/// All ledgers meet; there is at least one. Afterwards they have seen the same publications, and each of them all that any
/// had seen.
pub fn meet_all(ledgers: &mut [Ledger])
    requires some { 0 < length ledgers.old }
    requires tables { AllAtTableOf ledgers.old ledgers.old }
    requires chains { AreOfEachChain ledgers.old }
    ensures met { HaveMet (ledgers_alone ledgers.old) (ledgers_alone ledgers.new) }
    ensures tables { AllAtTableOf ledgers.old ledgers.new }
{
    if let Some((leader, others)) = ledgers.split_first_mut() {
        meet_each(leader, others);
        follow_each(others, leader);
        leader.lemma_is_its_history();
    }
}

// The leader meets each of the others, which are then behind it.
fn meet_each(leader: &mut Ledger, others: &mut [Ledger])
    requires { AllAtTable leader.old.table others.old }
    ensures table { leader.new.table ≡ leader.old.table }
    ensures leader { SeesMore leader.old.ledger leader.new.ledger }
    ensures others { HaveSeenMore leader.old.table others.old others.new }
    ensures behind { HaveSeenNoMore leader.new others.new }
{
    for index in 0..others.len() {
        leader.meet(&mut others[index]);
    }
}

// Each of the others, which are behind the leader, takes over just what the leader has seen.
fn follow_each(others: &mut [Ledger], leader: &mut Ledger)
    requires tables { AllAtTable leader.old.table others.old }
    requires behind { HaveSeenNoMore leader.old others.old }
    ensures leader { leader.new ≡ leader.old }
    ensures others { HaveSeenMore leader.old.table others.old others.new }
    ensures seen { FirstHaveSeen (length others.new) leader.old.ledger.seen (ledgers_alone others.new) }
    ensures are { FirstAreLedgers (length others.new) (ledgers_alone others.new) }
{
    for index in 0..others.len() {
        others[index].follow(leader);
        others[index].lemma_is_its_history();
    }
}
