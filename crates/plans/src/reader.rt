// Reading a plan from bytes. docs/PLAN.md has the format.
ghost use Rattle.std.specs.Prelude.{◌≡◌, ℕ, ◌≤◌, List, []};
ghost use Rattle.plans.specs.Reading.{Read, read_value, read_object, read_row, read_use, read_some, read_short, read_objects, read_rows, read_uses, read_plan, read_whole, last_row, is_bad, is_there};
ghost use Rattle.plans.specs.Results.{Reads, ReadsBy, and_rest};
ghost use Rattle.plans.specs.Plans.{contents};
ghost use Rattle.plans.specs.Written.{AcceptedExactly, AcceptedWhole};

use crate::parts::{Object, Row, Use};
use crate::plan::{MOST_OBJECTS, MOST_TASKS, MOST_USES, Plan};
use crate::refusal::Refusal;
use arrayvec::ArrayVec;
use rules::LockRule;

// What was read and the bytes after it, or the first fault.
type Read<'a, T> = Result<(T, &'a [u8]), Refusal>;

// So many elements of a section, each read after those before it.
fn read_some<T, const N: usize, F>(count: usize, bytes: &[u8], read: F) -> Read<'_, ArrayVec<T, N>>
where
    T: Copy + Default,
    F: for<'b> Fn(&[T], &'b [u8]) -> Read<'b, T>,
    requires room { count ≤ N }
    requires callable { F.IsAlwaysCallable read }
    ensures { (one : List T → List ℕ → Read T) → ReadsBy F.Fn read one → Reads (and_rest (λ v. v.items)) result (read_some one count [] bytes.now) }
{
    let mut items = ArrayVec::new();
    let mut rest = bytes;
    for _ in 0..count {
        let (item, after) = read(&items, rest)?;
        items.push(item);
        rest = after;
    }
    Ok((items, rest))
}

// A section of 1 to N elements, after a count of one byte.
fn read_short<T, const N: usize, F>(bytes: &[u8], read: F) -> Read<'_, ArrayVec<T, N>>
where
    T: Copy + Default,
    F: for<'b> Fn(&[T], &'b [u8]) -> Read<'b, T>,
    requires { F.IsAlwaysCallable read }
    ensures { (one : List T → List ℕ → Read T) → ReadsBy F.Fn read one → Reads (and_rest (λ v. v.items)) result (read_short one N bytes.now) }
{
    let [count, rest @ ..] = bytes else {
        return Err(Refusal::PlanEnds);
    };
    let count = usize::from(*count);
    if count < 1 || N < count {
        return Err(Refusal::CountOutOfLimits);
    }
    read_some(count, rest, read)
}

// A signed number in four bytes, the highest first.
fn read_value(bytes: &[u8]) -> Read<'_, i32>
    ensures { Reads (and_rest (λ z. z)) result (read_value bytes.now) }
{
    let [a, b, c, d, rest @ ..] = bytes else {
        return Err(Refusal::PlanEnds);
    };
    Ok((i32::from_be_bytes([*a, *b, *c, *d]), rest))
}

// An object: its four start values.
fn read_object(bytes: &[u8]) -> Read<'_, Object>
    ensures { Reads (and_rest (λ o. o)) result (read_object bytes.now) }
{
    let (a, rest) = read_value(bytes)?;
    let (b, rest) = read_value(rest)?;
    let (c, rest) = read_value(rest)?;
    let (d, rest) = read_value(rest)?;
    let start = [a, b, c, d];
    Ok((Object { start }, rest))
}

fn read_objects(bytes: &[u8]) -> Read<'_, ArrayVec<Object, MOST_OBJECTS>>
    ensures { Reads (and_rest (λ v. v.items)) result (read_objects bytes.now) }
{
    read_short(bytes, |_, rest| read_object(rest))
}

fn is_bad(row: Row) -> bool
    ensures { result ≡ is_bad row }
{
    row.period == 0 || row.budget == 0 || row.period < row.budget
}

// The period that the next row may not fall below: 0 before the first row.
fn last_period(rows: &[Row]) -> u16
    ensures { result ≡ (last_row rows.now).period }
{
    rows.last().map_or(0, |row| row.period)
}

// A row, after the rows before it: its period, then its budget.
fn read_row<'a>(before: &[Row], bytes: &'a [u8]) -> Read<'a, Row>
    ensures { Reads (and_rest (λ row. row)) result (read_row before.now bytes.now) }
{
    let [a, b, c, d, rest @ ..] = bytes else {
        return Err(Refusal::PlanEnds);
    };
    let row = Row {
        period: u16::from_be_bytes([*a, *b]),
        budget: u16::from_be_bytes([*c, *d]),
    };
    if is_bad(row) {
        return Err(Refusal::BadRow);
    }
    if row.period < last_period(before) {
        return Err(Refusal::PeriodFalls);
    }
    Ok((row, rest))
}

fn read_rows(bytes: &[u8]) -> Read<'_, ArrayVec<Row, MOST_TASKS>>
    ensures { Reads (and_rest (λ v. v.items)) result (read_rows bytes.now) }
{
    read_short(bytes, read_row)
}

// How many tasks, objects and modes a use may name.
#[derive(Drop)]
struct Counts {
    tasks: usize,
    objects: usize,
    modes: u8,
}

impl Counts {
    fn has(&self, u: Use) -> bool
        ensures { result ≡ is_there self.now.tasks self.now.objects self.now.modes u }
    {
        usize::from(u.task) < self.tasks
            && usize::from(u.object) < self.objects
            && u.mode < self.modes
    }

    // A use, after the uses before it: its task, its object, its mode.
    fn read_use<'a>(&self, before: &[Use], bytes: &'a [u8]) -> Read<'a, Use>
        ensures { Reads (and_rest (λ u. u)) result (read_use self.now.tasks self.now.objects self.now.modes before.now bytes.now) }
    {
        let [task, object, mode, rest @ ..] = bytes else {
            return Err(Refusal::PlanEnds);
        };
        let found = Use {
            task: *task,
            object: *object,
            mode: *mode,
        };
        if !self.has(found) {
            return Err(Refusal::UseNotThere);
        }
        if before.contains(&found) {
            return Err(Refusal::UseAgain);
        }
        Ok((found, rest))
    }

    fn read_uses<'a>(&self, bytes: &'a [u8]) -> Read<'a, ArrayVec<Use, MOST_USES>>
        ensures { Reads (and_rest (λ v. v.items)) result (read_uses self.now.tasks self.now.objects self.now.modes bytes.now) }
    {
        let [high, low, rest @ ..] = bytes else {
            return Err(Refusal::PlanEnds);
        };
        let count = usize::from(u16::from_be_bytes([*high, *low]));
        if MOST_USES < count {
            return Err(Refusal::CountOutOfLimits);
        }
        read_some(count, rest, |before, rest| self.read_use(before, rest))
    }
}

impl Plan {
    // The plan at the front of the input, and the input after it.
    #[tactic(auto, using(crate::proofs::Written::accepted_exactly))]
    pub fn read<'a, R: LockRule>(rule: &R, input: &'a [u8]) -> Result<(Plan, &'a [u8]), Refusal>
        ensures answer { Reads (and_rest contents) result (read_plan (R.meaning rule.now) input.now) }
        ensures law { AcceptedExactly (R.meaning rule.now) input.now }
    {
        let (objects, rest) = read_objects(input)?;
        let (rows, rest) = read_rows(rest)?;
        let there = Counts {
            tasks: rows.len(),
            objects: objects.len(),
            modes: rule.modes(),
        };
        let (uses, rest) = there.read_uses(rest)?;
        let plan = Plan {
            objects,
            rows,
            uses,
        };
        Ok((plan, rest))
    }

    // The plan, where it is all of the input.
    #[tactic(auto, using(crate::proofs::Written::accepted_whole))]
    pub fn read_whole<R: LockRule>(rule: &R, input: &[u8]) -> Result<Plan, Refusal>
        ensures answer { Reads contents result (read_whole (R.meaning rule.now) input.now) }
        ensures law { AcceptedWhole (R.meaning rule.now) input.now }
    {
        let (plan, rest) = Plan::read(rule, input)?;
        if !rest.is_empty() {
            return Err(Refusal::BytesAfterPlan);
        }
        Ok(plan)
    }
}
