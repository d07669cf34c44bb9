//! Laws of noted sets. Each function does nothing and takes no memory; its contract is the law.

ghost use Rattle.pl_novel.specs.Laws.{NewSetsAreNovel, NotingIsSeeing, NothingIsSeen};

use pl_task::Task;

/// Where the sets of the states seen are noted, and no others, a state has a set that is not noted exactly
/// where it is new under the width.
pub fn new_sets_are_novel(_task: &Task)
    ensures novel { NewSetsAreNovel _task.now }
{}

/// Where the sets of the states seen are noted and no others, the same holds once a state is noted, which is
/// then seen too. It holds at first, where no state is seen.
pub fn noting_is_seeing(_task: &Task)
    ensures seeing { NotingIsSeeing _task.now }
    ensures none { NothingIsSeen _task.now }
{}
