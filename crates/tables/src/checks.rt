// The parts of the test for sound tables.
ghost use Rattle.std.specs.Prelude.{◌≡◌, List, ℕ, ◌<◌, ◌≤◌, ◌+◌, ◌-◌, leb, length};
ghost use Rattle.laws.specs.Sets.{every};
ghost use Rattle.model.specs.SoundTest.{size_sound, tables_long, row_sound, after, lists_sound};
ghost use Rattle.tables.specs.declared.Row.{Row};
ghost use Rattle.tables.specs.Meaning.{held, lent, numbers};
ghost use Rattle.tables.specs.Spans.{span_sound};
ghost use Rattle.tables.specs.ListTables.{table_of};
ghost use Rattle.tables.specs.Lasts.{list_below};

use crate::lengths::long_enough;
use crate::list_table::ListTable;
use crate::rising::rises_below;
use crate::spans::{Span, not_idle, span_at};
use crate::{Plan, Row, Size};

#[tactic(auto, unfolding(model::specs::SoundTest::size_sound))]
pub fn size_sound(size: Size) -> bool
    ensures { result ≡ size_sound (numbers size) }
{
    1 <= size.n
        && size.n <= Size::STATES
        && size.m <= Size::COMMANDS
        && size.t <= Size::OUTCOMES
        && size.start < size.n
}

// No table is too short.
pub fn long(plan: &Plan) -> bool
    ensures { result ≡ tables_long (lent plan.now) }
{
    long_enough(
        plan.size,
        plan.rows.len(),
        plan.firsts.len(),
        plan.outcomes.len(),
    )
}

#[tactic(auto, unfolding(crate::specs::Spans::span_sound))]
fn span_sound(span: Span, m: usize) -> bool
    ensures { result ≡ span_sound span m }
{
    span.first <= span.end
        && span.end <= m
        && span.kind <= 2
        && not_idle(span.kind, span.end - span.first, span.practice)
}

pub fn rows_sound(plan: &Plan) -> bool
    requires { plan.now.size.n ≤ length plan.now.rows.now }
    ensures { result ≡ every (row_sound (lent plan.now)) plan.now.size.n }
{
    for s in 0..plan.size.n {
        let span = span_at(plan.size, plan.rows, s);
        if !span_sound(span, plan.size.m) {
            return false;
        }
    }
    true
}

// At least so many places from `from` up to `to`.
fn at_least(least: usize, from: usize, to: usize) -> bool
    ensures { result ≡ leb (after least from) to }
{
    if to < from {
        return false;
    }
    least <= to - from
}

// List i has at least so many entries, they rise, and are below n.
fn list_sound(least: usize, n: usize, lists: &ListTable, i: usize) -> bool
    requires { i < lists.now.count }
    ensures { result ≡ list_below least n (table_of lists.now) i }
{
    let from = lists.start(i);
    let to = lists.start(i + 1);
    if !at_least(least, from, to) {
        return false;
    }
    if lists.end < to {
        return false;
    }
    rises_below(n, lists.entries, from, to)
}

fn each_list_sound(least: usize, n: usize, lists: &ListTable) -> bool
    ensures { result ≡ every (list_below least n (table_of lists.now)) lists.now.count }
{
    for i in 0..lists.count {
        if !list_sound(least, n, lists, i) {
            return false;
        }
    }
    true
}

// A list table whose lists begin at place 0, have at least so many entries each, and rise; the entries are below n.
pub fn lists_sound(least: usize, n: usize, lists: &ListTable) -> bool
    ensures { result ≡ lists_sound least n (table_of lists.now) }
{
    if lists.start(0) != 0 {
        return false;
    }
    each_list_sound(least, n, lists)
}
