// What is asked of an accepted plan.
ghost use Rattle.std.specs.Prelude.{◌≡◌, ℕ, length, nat_lt, All};
ghost use Rattle.plans.specs.Ceilings.{ceiling};
ghost use Rattle.plans.specs.Plans.{contents};
ghost use Rattle.protocol.specs.Machine.{any, is_use};
ghost use Rattle.charts.specs.Users.{entry, highest_user, HasEntry};

use crate::chart::{Chart, MODES};
use plans::{MOST_OBJECTS, NO_TASK, Plan, Use};
use rules::LockRule;

// The table of who may lock what, from one walk of the uses.
pub(crate) fn users_of(uses: &[Use]) -> [[u8; MODES]; MOST_OBJECTS]
    requires { All HasEntry uses.now }
    ensures { (object mode : ℕ) → entry result object mode ≡ highest_user uses.now object mode }
{
    let mut users = [[NO_TASK; MODES]; MOST_OBJECTS];
    for u in uses {
        let (object, mode) = (usize::from(u.object), usize::from(u.mode));
        users[object][mode] = u.task.min(users[object][mode]);
    }
    users
}

impl Chart {
    pub fn plan(&self) -> &Plan
        ensures { result.now ≡ self.now.plan }
    {
        &self.plan
    }

    pub fn has_task(&self, task: u8) -> bool
        ensures { result ≡ nat_lt task (length (contents self.now.plan).rows) }
    {
        usize::from(task) < self.plan.rows().len()
    }

    pub fn has_object(&self, object: u8) -> bool
        ensures { result ≡ nat_lt object (length (contents self.now.plan).objects) }
    {
        usize::from(object) < self.plan.objects().len()
    }

    pub fn has_use(&self, task: u8, object: u8, mode: u8) -> bool
        ensures { result ≡ any (is_use task object mode) (contents self.now.plan).uses }
    {
        self.plan.uses().contains(&Use { task, object, mode })
    }

    // The highest task that may lock the object in the mode, also where the table has no place for them: then nobody may.
    fn user(&self, object: u8, mode: u8) -> u8
        ensures { result ≡ highest_user (contents self.now.plan).uses object mode }
    {
        self.users
            .get(usize::from(object))
            .and_then(|tasks| tasks.get(usize::from(mode)))
            .copied()
            .unwrap_or(NO_TASK)
    }

    // The highest task that a lock of the object can keep waiting. The uses are not gone through again.
    pub fn ceiling<R: LockRule>(&self, rule: &R, object: u8, held: u8) -> u8
        ensures { result ≡ ceiling (R.meaning rule.now) (contents self.now.plan).uses object held }
    {
        (0..rule.modes())
            .filter(|wanted| rule.clashes(held, *wanted))
            .map(|wanted| self.user(object, wanted))
            .fold(NO_TASK, u8::min)
    }
}
