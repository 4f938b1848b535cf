//! What holds of every run of the plain machine. Each function does nothing: what it ensures is the law.
ghost use Rattle.kb_world.specs.RunLaws.{RunsAreGood, GoodIsOwned, EqualsShowEqual, BranchesMeet, NoneForeign, UnfusedRunsOn, UnlostRunsOn, ShelvesAreOld, ReturnsMeet, OneBeyond, PartsAnswer, MembersAreDeclared, QueuesAreSpelled};
ghost use Rattle.kb_world.specs.RunReplies.{RepliesAreOne, WholeHaveOne, PartsAreDetermined, RepliesTellAll, OpeningsChoose, UnfusedIsDisarmed, BegunIsFront, ScriptsHaveReplies, FewRows, ScriptsAreAnswered, PlainRunsAnswer, RunsBegin, RunsAreDetermined};

/// Every run comes to a state in which the chain is lawful and each device meets it.
pub fn runs_are_good()
    ensures { RunsAreGood }
{}

/// In such a state each device's acknowledged operations stand once and in order in the chain and then in its journal.
pub fn runs_are_owned()
    ensures { GoodIsOwned }
{}

/// Two open devices with empty queues that know one revision show one tree.
pub fn equals_show_equal()
    ensures { EqualsShowEqual }
{}

/// The branch of an open device can be merged into each revision from the known one on.
pub fn branches_meet()
    ensures { BranchesMeet }
{}

/// No journal that an opening may find is another device's, or apart from the chain.
pub fn none_foreign()
    ensures { NoneForeign }
{}

/// Where no statement arms a disk, no reply tells that one stopped.
pub fn unfused_runs_on()
    ensures { UnfusedRunsOn }
{}

/// Where no statement arms a link, no reply tells that one lost a put.
pub fn unlost_runs_on()
    ensures { UnlostRunsOn }
{}

/// What the shelf keeps of a device goes no further than what was acknowledged.
pub fn shelves_are_old()
    ensures { ShelvesAreOld }
{}

/// Where it goes as far, the journal that a restore makes of it meets the chain, and nothing that was acknowledged is lost
/// or stands twice.
pub fn returns_meet()
    ensures { ReturnsMeet }
{}

/// Beyond the known revision at most one revision is the device's, and the queue begins with what it holds.
pub fn one_beyond()
    ensures { OneBeyond }
{}

/// Each part has an answer in every state that a run comes to.
pub fn parts_answer()
    ensures { PartsAnswer }
{}

/// All members are declared devices.
pub fn members_are_declared()
    ensures { MembersAreDeclared }
{}

/// Statements have one list of replies and one state that they come to, where no disk stops and no blocks of one hash differ.
pub fn replies_are_one()
    ensures { RepliesAreOne }
{}

/// Where no disk stopped, each device has one journal that an opening may find.
pub fn whole_have_one()
    ensures { WholeHaveOne }
{}

/// From each state a part has one reply and leads to one state, but for stops, collisions, and the journal that an opening finds.
pub fn parts_are_determined()
    ensures { PartsAreDetermined }
{}

/// Every reply of a part, also one that tells of a stop or a collision, leads to one state.
pub fn replies_tell_all()
    ensures { RepliesTellAll }
{}

/// An opening does what it would do if the journal that it finds were the only one.
pub fn openings_choose()
    ensures { OpeningsChoose }
{}

/// A run without fuses comes to states in which no disk is armed.
pub fn unfused_is_disarmed()
    ensures { UnfusedIsDisarmed }
{}

/// What a run has replied wherever it is cut off are the first of the replies, up to a stop or a collision.
pub fn begun_is_front()
    ensures { BegunIsFront }
{}

/// Each script has replies.
pub fn scripts_have_replies()
    ensures { ScriptsHaveReplies }
{}

/// The trees of a run have so few rows that each conflicted name is a name.
pub fn rows_are_few()
    ensures { FewRows }
{}

/// Each script has its replies, and no others but for stops and collisions.
pub fn scripts_are_answered()
    ensures { ScriptsAreAnswered }
{}

/// The operations of every journal can be spelled, and fit an area of the disk.
pub fn queues_are_spelled()
    ensures { QueuesAreSpelled }
{}

/// A run without a stop and a collision gives the replies of its statements.
pub fn plain_runs_answer()
    ensures { PlainRunsAnswer }
{}

/// Runs that are whole, and those that want of memory ended, are begun in this sense.
pub fn runs_begin()
    ensures { RunsBegin }
{}

/// Without a fuse and a collision the statements determine the replies and the state.
pub fn runs_are_determined()
    ensures { RunsAreDetermined }
{}
