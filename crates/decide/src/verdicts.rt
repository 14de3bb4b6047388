// The last pass over the states: commands, practice marks and the tally.
ghost use Rattle.std.specs.Prelude.{◌≡◌, not, ◌&&◌, [], ℕ, ◌<◌, ◌≤◌, get_or, length};
ghost use Rattle.laws.specs.Entry.{highest};
ghost use Rattle.model.specs.Held.{plan_in};
ghost use Rattle.model.specs.Command.{choice};
ghost use Rattle.model.specs.Practice.{mark_of};
ghost use Rattle.tables.specs.Meaning.{lent, option_of};
ghost use Rattle.tables.specs.Spans.{span_at};
ghost use Rattle.choice.specs.Within.{members};
ghost use Rattle.nets.specs.Nets.{practised};
ghost use Rattle.decide.specs.Verdicts.{numbered, unless_lost, is_other, practice_of, one_more, Low, added, StateJudged, StatesJudged};

use crate::Tally;
use choice::choosing::choose;
use choice::state_set::StateSet;
use nets::propagations::has_practice;
use tables::entries::{HIGHEST, put, put_option};
use tables::sound_plan::SoundPlan;
use tables::spans::Span;

// What a state's practice comes to: the columns of the tally, in their order.
#[derive(Clone, Copy, Debug, PartialEq, Eq)]
pub enum Practice {
    Holds,
    Fails,
    Missing,
}

// A place of the tally.
#[derive(Clone, Copy, Debug, PartialEq, Eq)]
pub struct Place {
    pub lost: bool,
    pub practice: Practice,
}

// The states whose entry is a number.
pub fn numbered(table: &[u16]) -> StateSet<'_>
    ensures { (result.table.now ≡ table.now) × (result.limit ≡ highest) }
{
    StateSet {
        table,
        limit: HIGHEST,
    }
}

// The command of a state, of which `span` was read: none where it is lost.
#[tactic(auto, unfolding(crate::specs::Verdicts::unless_lost))]
fn command_of(checked: &SoundPlan, span: Span, lost: &StateSet, is_lost: bool) -> Option<usize>
    requires { (span.first ≤ span.end) × (span.end ≤ checked.now.plan.size.m) × (checked.now.plan.size.n ≤ length lost.now.table.now) }
    ensures { let T = lent checked.now.plan in
        (s : ℕ) → s < T.size.n → span ≡ span_at T s
        → option_of result ≡ unless_lost is_lost (choice (plan_in T) (members lost.now) s) }
{
    if is_lost {
        return None;
    }
    choose(&checked.outcome_lists(), span, lost)
}

// Whether the state, of which `span` was read, is a fault: it is safe, and the command chosen there is not the practice that it has. The
// practice is tried first, so another command is chosen only if the practice has a lost outcome.
fn is_fault(span: Span, is_lost: bool, command: Option<usize>) -> bool
    requires { span.first ≤ span.end }
    ensures { result ≡ (not is_lost && (practised span && is_other command span.practice)) }
{
    !is_lost && has_practice(span) && command != Some(span.practice)
}

// A state's practice mark (rule V13).
// A number and no enum: it is an entry of a table that C lends, and rule V13 goes by it (`mark_of`).
fn mark_of(fails: bool, fault: bool) -> usize
    ensures { result ≡ mark_of fails fault }
{
    usize::from(fails) + 2 * usize::from(fault)
}

fn practice_of(given: bool, fails: bool) -> Practice
    ensures { result ≡ practice_of given fails }
{
    if !given {
        return Practice::Missing;
    }
    if fails {
        Practice::Fails
    } else {
        Practice::Holds
    }
}

// Judges state s: writes its command and its mark, and answers its place in the tally.
#[tactic(auto, using(choice::proofs::Taken::span_inside))]
fn judge(
    checked: &SoundPlan,
    lost: &StateSet,
    commands: &mut [u16],
    marks: &mut [u16],
    s: usize,
) -> Place
    requires s_in_bounds { s < checked.now.plan.size.n }
    requires n_in_bounds { let n = checked.now.plan.size.n in
        (n ≤ length lost.now.table.now) × (n ≤ length commands.old) × (n ≤ length marks.old) }
    ensures { StateJudged (plan_in (lent checked.now.plan)) (members lost.now) (numbered marks.old s) s
        commands.old marks.old result commands.new marks.new }
{
    let span = checked.span(s);
    let is_lost = lost.contains(s);
    let fails = numbered(marks).contains(s);
    let command = command_of(checked, span, lost, is_lost);
    put_option(commands, s, command);
    let fault = is_fault(span, is_lost, command);
    put(marks, s, mark_of(fails, fault));
    Place {
        lost: is_lost,
        practice: practice_of(has_practice(span), fails),
    }
}

// A row of the tally, with one more in a column where the state belongs to the row. Each count is made anew at a place of its own: a store
// at a place that is known only when the code runs would have every turn wait for the copy of the one before.
fn add_in_row(row: [u16; 3], here: bool, practice: Practice) -> [u16; 3]
    requires { Low row }
    ensures { result ≡ one_more row here practice }
{
    [
        row[0] + u16::from(here && practice == Practice::Holds),
        row[1] + u16::from(here && practice == Practice::Fails),
        row[2] + u16::from(here && practice == Practice::Missing),
    ]
}

// One more at a place of the tally.
fn add(tally: Tally, place: Place) -> Tally
    requires { Low (get_or tally 0 []) × Low (get_or tally 1 []) }
    ensures { result ≡ added tally place }
{
    [
        add_in_row(tally[0], !place.lost, place.practice),
        add_in_row(tally[1], place.lost, place.practice),
    ]
}

// Judges every state, and answers the tally.
pub fn judge_all(
    checked: &SoundPlan,
    lost: &StateSet,
    commands: &mut [u16],
    marks: &mut [u16],
) -> Tally
    requires n_in_bounds { let n = checked.now.plan.size.n in
        (n ≤ length lost.now.table.now) × (n ≤ length commands.old) × (n ≤ length marks.old) }
    ensures { StatesJudged (plan_in (lent checked.now.plan)) (members lost.now) checked.now.plan.size.n
        commands.old marks.old result commands.new marks.new }
{
    let mut tally = [[0; 3]; 2];
    for s in 0..checked.plan.size.n {
        let place = judge(checked, lost, commands, marks, s);
        // By way of `next`: an array that is passed on by value gets no proof where the call's result is laid in it again.
        let next = add(tally, place);
        tally = next;
    }
    tally
}
