//! The laws of trees, updates and packets, over the definitions of `ax_tree` alone. Each is the contract of a function
//! with an empty body; its statement stands in `specs/Laws.antt`, or beside it in `TreeLaws`, `MarkLaws` or `PacketLaws`.
#![tactic(auto)]

ghost use Rattle.ax_laws.specs.TreeLaws.{EachTreeIsAFiniteMap, EachFiniteMapIsOneTree};
ghost use Rattle.ax_laws.specs.Laws.{RefusalsSeeShapeAlone, EachUpdateIsAccepted, UpdateSeesParentsAlone, ListedAreReached, TestsAreSets};
ghost use Rattle.ax_laws.specs.Laws.{EachUpdateKeepsStep, EachEditKeepsStep, EachTouchKeepsStep, EachDeliveryKeepsStep};
ghost use Rattle.ax_laws.specs.Laws.{EachBundleGivesTheSource, BrokenBundleIsCompleted};
ghost use Rattle.ax_laws.specs.MarkLaws.{EachBundleTakesAllMarks};
ghost use Rattle.ax_laws.specs.Laws.{EachJournalKeepsStep, PacketsOfJournalAreGood, FrontOfGoodIsGood, PassLeavesLongerListFitting, OtherEntriesLeaveListFitting};
ghost use Rattle.ax_laws.specs.PacketLaws.{EachPacketTellsItsSource};

/// Each well formed tree is a finite map of the written definition.
pub fn each_tree_is_a_finite_map()
    ensures { EachTreeIsAFiniteMap }
{}

/// Each such map is shown by one well formed tree, and by no other.
pub fn each_finite_map_is_one_tree()
    ensures { EachFiniteMapIsOneTree }
{}

/// An update's refusal, and root and parents of its result, depend on the tree's root and parents alone, and the order of
/// the result's children on that order too.
pub fn refusals_see_shape_alone()
    ensures { RefusalsSeeShapeAlone }
{}

/// The update at a node of the source is accepted by each tree with the client's shape.
pub fn each_update_is_accepted()
    ensures { EachUpdateIsAccepted }
{}

/// It depends on the client's root and on the parent of each id alone.
pub fn update_sees_parents_alone()
    ensures { UpdateSeesParentsAlone }
{}

/// The listed nodes are the reached ones, as a least set, in pre-order.
pub fn listed_are_reached()
    ensures { ListedAreReached }
{}

/// The tests for plain and closed say what the sets say.
pub fn tests_are_sets()
    ensures { TestsAreSets }
{}

/// An update keeps a receiver in step.
pub fn each_update_keeps_step()
    ensures { EachUpdateKeepsStep }
{}

/// An accepted edit keeps a receiver in step.
pub fn each_edit_keeps_step()
    ensures { EachEditKeepsStep }
{}

/// A touch keeps a receiver in step.
pub fn each_touch_keeps_step()
    ensures { EachTouchKeepsStep }
{}

/// A delivery keeps a receiver in step.
pub fn each_delivery_keeps_step()
    ensures { EachDeliveryKeepsStep }
{}

/// A bundle gives the source, and leaves no mark and no flag.
pub fn each_bundle_gives_the_source()
    ensures { EachBundleGivesTheSource }
{}

/// The updates of a bundle take all marks.
pub fn each_bundle_takes_all_marks()
    ensures { EachBundleTakesAllMarks }
{}

/// A bundle that was broken off is completed.
pub fn broken_bundle_is_completed()
    ensures { BrokenBundleIsCompleted }
{}

/// After each journal the receiver is in step with the source.
pub fn each_journal_keeps_step()
    ensures { EachJournalKeepsStep }
{}

/// The packets of each journal are good.
pub fn packets_of_journal_are_good()
    ensures { PacketsOfJournalAreGood }
{}

/// A front of a good list is good.
pub fn front_of_good_is_good()
    ensures { FrontOfGoodIsGood }
{}

/// A pass leaves a journal that the longer list fits.
pub fn pass_leaves_longer_list_fitting()
    ensures { PassLeavesLongerListFitting }
{}

/// Every other entry leaves a journal that the list fits.
pub fn other_entries_leave_list_fitting()
    ensures { OtherEntriesLeaveListFitting }
{}

/// Of a list of packets that fits a journal, the joined slips of the first k tell the journal's source as it was when the
/// k-th packet was made.
pub fn each_packet_tells_its_source()
    ensures { EachPacketTellsItsSource }
{}
