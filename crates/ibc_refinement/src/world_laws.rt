//! Why a world of ledgers is a run of the machine.

ghost use Rattle.ibc_refinement.specs.World.{NewIsWorld, OrderIsRun};
ghost use Rattle.ibc_refinement.specs.Steps.{StepIsKept, StepsRefine};
ghost use Rattle.ibc_refinement.specs.Meetings.{AllMeetTheFirst, MeetingEndsStep, NothingDoneIsStep, StepsGoOn};

/// The ledgers of a genesis that have no entries are a world.
pub fn lemma_a_new_world_is_one()
    ensures { NewIsWorld }
{}

/// A world's kept order is a run of the machine since genesis.
pub fn lemma_the_order_is_a_run()
    ensures { OrderIsRun }
{}

/// A world that went on by an event is a world.
pub fn lemma_a_step_keeps_the_world()
    ensures { StepIsKept }
{}

/// A world that went on by events went on in the machine by these events, with the same replies.
pub fn lemma_runs_refine()
    ensures { StepsRefine }
{}

/// The ledgers have met where the first has seen more and the others just what it has seen.
pub fn lemma_all_meet_the_first()
    ensures { AllMeetTheFirst }
{}

/// An event that was put to a ledger is a step of the world once all ledgers have met.
pub fn lemma_a_meeting_ends_a_step()
    ensures { MeetingEndsStep }
{}

/// An event with which nothing is done is a step too.
pub fn lemma_nothing_done_is_a_step()
    ensures { NothingDoneIsStep }
{}

/// One step more is behind the others.
pub fn lemma_steps_go_on()
    ensures { StepsGoOn }
{}
