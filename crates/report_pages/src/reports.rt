// The report on a rule byte and a plan. docs/REPORT.md shows its form.
ghost use Rattle.std.specs.Prelude.{◌≡◌, ◌<◌, length, OnOk, MatchResult, Some};
ghost use Rattle.plans.specs.Ceilings.{ceiling, ceiling_reason, bound, bound_reason};
ghost use Rattle.pages.specs.Pages.{text_of};
ghost use Rattle.report_pages.specs.Accepted.{rule_of, plan_of, name_of, accepted_text};
ghost use Rattle.report_pages.specs.Reports.{values_text, objects_text, ceiling_because, ceiling_line, ceilings_text, bound_because, ReasonThere, bounds_text, refusal_words, refused_text, report_text};

use crate::accepted::Accepted;
use crate::sink::Sink;
use pages::Page;
use plans::{Bound, Ceiling, Object, Plan, Refusal, Row, Use};
use rules::{LockRule, NumberedRule};
use std::fmt;
use std::fmt::{Formatter, Write};

fn name(rule: NumberedRule) -> &'static str
    ensures { result.now ≡ name_of rule }
{
    match rule {
        NumberedRule::Exclusive => "exclusive",
        NumberedRule::ReadWrite => "read/write",
    }
}

fn add_values<S: Sink>(sink: &mut S, object: &Object) -> Result<(), S::Error>
    ensures { OnOk result (S.adds sink.old (values_text object.now) sink.new) }
{
    let [a, b, c, d] = object.start;
    sink.add_number(a)?;
    sink.add_after(" ", b)?;
    sink.add_after(" ", c)?;
    sink.add_after(" ", d)
}

// Why the ceiling is what it is.
fn add_ceiling_reason<S: Sink>(sink: &mut S, reason: Option<Use>) -> Result<(), S::Error>
    ensures { OnOk result (S.adds sink.old (ceiling_because reason) sink.new) }
{
    match reason {
        Some(u) => {
            sink.add_count("task ", u.task)?;
            sink.add_count(" may want it in mode ", u.mode)?;
            sink.add("\n")
        }
        None => sink.add("no task wants it in a mode that clashes\n"),
    }
}

// A plan's numbers are small: each `as` below is proved to lose no bit.
// Each table has a loop of its own: a closure for its line, given to one function, would say again what the loop's body promises.
impl Accepted {
    fn add_objects<S: Sink>(&self, sink: &mut S) -> Result<(), S::Error>
        ensures { OnOk result (S.adds sink.old (objects_text (plan_of self.now).objects) sink.new) }
    {
        sink.add("\nobject  start values\n")?;
        for (number, object) in self.plan.objects().iter().enumerate() {
            sink.add_column(6, number as u16)?;
            add_values(sink, object)?;
            sink.add("\n")?;
        }
        Ok(())
    }

    // The ceiling of an object and a mode that are there.
    fn ceiling(&self, object: usize, mode: usize) -> Ceiling
        requires object { object < length (plan_of self.now).objects }
        requires mode { mode < (rule_of self.now).modes }
        ensures value { result.value ≡ ceiling (rule_of self.now) (plan_of self.now).uses object mode }
        ensures reason { result.reason ≡ ceiling_reason (rule_of self.now) (plan_of self.now).uses object mode }
    {
        self.plan.ceiling(&self.rule, object, mode).unwrap()
    }

    fn add_ceiling<S: Sink>(&self, sink: &mut S, object: usize, mode: u8) -> Result<(), S::Error>
        requires object { object < length (plan_of self.now).objects }
        requires mode { mode < (rule_of self.now).modes }
        ensures { OnOk result (S.adds sink.old (ceiling_line (rule_of self.now) (plan_of self.now).uses object mode) sink.new) }
    {
        let ceiling = self.ceiling(object, usize::from(mode));
        sink.add_column(6, object as u16)?;
        sink.add_column(4, u16::from(mode))?;
        sink.add_column(7, u16::from(ceiling.value))?;
        add_ceiling_reason(sink, ceiling.reason)
    }

    fn add_ceilings<S: Sink>(&self, sink: &mut S) -> Result<(), S::Error>
        ensures { OnOk result (S.adds sink.old (ceilings_text (rule_of self.now) (plan_of self.now)) sink.new) }
    {
        sink.add("\nobject  mode  ceiling  because\n")?;
        // By number, since a ceiling is asked for by the numbers of an object and a mode.
        for object in 0..self.plan.objects().len() {
            for mode in 0..self.rule.modes() {
                self.add_ceiling(sink, object, mode)?;
            }
        }
        Ok(())
    }

    // The bound of a task that is there.
    fn bound(&self, task: usize) -> Bound
        requires { task < length (plan_of self.now).rows }
        ensures value { result.value ≡ bound (rule_of self.now) (plan_of self.now) task }
        ensures reason { result.reason ≡ bound_reason (rule_of self.now) (plan_of self.now) task }
        ensures there { ReasonThere (rule_of self.now) (plan_of self.now) result.reason }
    {
        self.plan.bound(&self.rule, task).unwrap()
    }

    // Why the bound is what it is: the lock by which a lower task can hold the task up.
    fn add_bound_reason<S: Sink>(&self, sink: &mut S, reason: Option<Use>) -> Result<(), S::Error>
        requires { ReasonThere (rule_of self.now) (plan_of self.now) reason }
        ensures { OnOk result (S.adds sink.old (bound_because (rule_of self.now) (plan_of self.now).uses reason) sink.new) }
    {
        match reason {
            Some(u) => {
                let ceiling = self.ceiling(usize::from(u.object), usize::from(u.mode));
                sink.add_count("task ", u.task)?;
                sink.add_count(" may hold object ", u.object)?;
                sink.add_count(" in mode ", u.mode)?;
                sink.add_count(", ceiling ", ceiling.value)?;
                sink.add("\n")
            }
            None => sink.add("no lower task can hold it up\n"),
        }
    }

    fn add_bounds<S: Sink>(&self, sink: &mut S) -> Result<(), S::Error>
        ensures { OnOk result (S.adds sink.old (bounds_text (rule_of self.now) (plan_of self.now)) sink.new) }
    {
        sink.add("\ntask  period  budget  bound  because\n")?;
        for (task, row) in self.plan.rows().iter().enumerate() {
            let bound = self.bound(task);
            sink.add_column(4, task as u16)?;
            sink.add_column(6, row.period)?;
            sink.add_column(6, row.budget)?;
            sink.add_column(5, bound.value)?;
            self.add_bound_reason(sink, bound.reason)?;
        }
        Ok(())
    }

    // The rule's name and the three tables.
    fn add_to<S: Sink>(&self, sink: &mut S) -> Result<(), S::Error>
        ensures { OnOk result (S.adds sink.old (accepted_text self.now) sink.new) }
    {
        sink.add("rule: ")?;
        sink.add(name(self.rule))?;
        sink.add("\n")?;
        self.add_objects(sink)?;
        self.add_ceilings(sink)?;
        self.add_bounds(sink)
    }

    fn read(input: &[u8]) -> Result<Accepted, Refusal>
        ensures { MatchResult result (λ accepted. report_text input.now ≡ accepted_text accepted) (λ why. report_text input.now ≡ refused_text why) }
    {
        let [number, bytes @ ..] = input else {
            return Err(Refusal::NumberNotThere);
        };
        let rule = NumberedRule::try_from(i64::from(*number))?;
        let plan = Plan::read_whole(&rule, bytes)?;
        Ok(Accepted { rule, plan })
    }
}

// What a refusal of a rule or a plan means.
fn refusal_words(refusal: Refusal) -> &'static str
    ensures { result.now ≡ refusal_words refusal }
{
    match refusal {
        Refusal::PlanEnds => "the plan ends before its last section does",
        Refusal::CountOutOfLimits => "a count is outside its limits",
        Refusal::BadRow => "a period or a budget is 0, or a budget is above its period",
        Refusal::PeriodFalls => "a period is smaller than that of the row before",
        Refusal::UseNotThere => "a use names a task, an object or a mode that is not there",
        Refusal::UseAgain => "the same use stands twice",
        Refusal::BytesAfterPlan => "there are bytes after the plan",
        Refusal::NumberNotThere => "there is no such rule",
        // The other refusals are of calls, tapes and sheets.
        _ => "not a fault of a plan",
    }
}

fn add_refused<S: Sink>(sink: &mut S, refusal: Refusal) -> Result<(), S::Error>
    ensures { OnOk result (S.adds sink.old (refused_text refusal) sink.new) }
{
    sink.add_count("refused ", refusal.number())?;
    sink.add(": ")?;
    sink.add(refusal_words(refusal))?;
    sink.add("\n")
}

fn add_report<S: Sink>(sink: &mut S, input: &[u8]) -> Result<(), S::Error>
    ensures { OnOk result (S.adds sink.old (report_text input.now) sink.new) }
{
    match Accepted::read(input) {
        Ok(accepted) => accepted.add_to(sink),
        Err(refusal) => add_refused(sink, refusal),
    }
}

// The report on a rule byte and a plan, or one line that says why there is none.
pub fn page_on(input: &[u8]) -> Page
    ensures { text_of result ≡ report_text input.now }
{
    let mut page = Page::empty();
    let Ok(()) = add_report(&mut page, input);
    page
}

// The report on a rule byte and a plan, to be printed.
#[derive(Clone, Copy)]
pub struct Report<'a> {
    pub input: &'a [u8],
}

impl fmt::Display for Report<'_> {
    ghost output = { λ report. Some (report_text report.input.now) };

    fn fmt<W: Write>(&self, f: &mut Formatter<W>) -> fmt::Result {
        add_report(f, self.input)
    }
}
