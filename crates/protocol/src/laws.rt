// The laws over lines of calls, as a theorem of every lock rule.
ghost use Rattle.std.specs.Prelude.{◌≡◌, List, length};
ghost use Rattle.protocol.specs.Laws.{LawsHold};
ghost use Rattle.protocol.specs.Served.{Served};
ghost use Rattle.protocol.specs.declared.words.Task.{Task};

use rules::LockRule;

// After every line of calls from an accepted making, all of the laws hold, whatever the plan, the room and the calls.
pub fn laws_hold<R: LockRule>()
    ensures { (rule : R) → LawsHold (R.meaning rule) }
{}

// The served word, the places and the running task agree, whatever the 16 task records.
pub fn served_agrees()
    ensures { (tasks : List Task) → length tasks ≡ 16 → Served tasks }
{}
