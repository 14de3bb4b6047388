// What is read of a state at once, and the tests on it. Only the planner's own crates call this.
ghost use Rattle.std.specs.Prelude.{◌≡◌, ◌||◌, List, ℕ, ◌<◌, ◌≤◌, ltb, eqb, length};
ghost use Rattle.laws.specs.Entry.{FFFF};
ghost use Rattle.model.specs.File.{not_idle};
ghost use Rattle.tables.specs.declared.Row.{Row};
ghost use Rattle.tables.specs.Meaning.{held};
ghost use Rattle.tables.specs.Spans.{field_with, span_of, span_at, failing_span};

use crate::entries::{NONE, start_of};
use crate::rows::row_at;
use crate::sound_plan::SoundPlan;
use crate::{Row, Size};

// A state's kind and practice, and where its commands begin and end.
// That `first` is at most `end` is no part of the type: the soundness test makes spans of rows that break it, and a second type would double
// the functions on spans.
#[derive(Clone, Copy)]
pub struct Span {
    // A number and no enum, here and elsewhere, and `practice` a number and no Option: before the soundness test a lent row may have any, and the definitions (`failing_at`, `Sound`) go by it.
    pub kind: usize,
    pub first: usize,
    pub end: usize,
    pub practice: usize,
}

// Whether the state counts as failing: by its kind, or, if it is ordinary, for want of commands, since then nobody can move the chamber.
pub fn is_failing(span: Span) -> bool
    ensures { result ≡ failing_span span }
{
    if span.kind == 0 {
        return span.end <= span.first;
    }
    span.kind == 1
}

// A state's span: its row, and where its commands end.
fn span_of(row: Row, end: usize) -> Span
    ensures { result ≡ span_of row end }
{
    Span {
        kind: usize::from(row.kind),
        first: usize::from(row.first),
        end,
        practice: usize::from(row.practice),
    }
}

// The commands of state s end where those of the next state begin, and the last ones at m.
// Size and rows, and no `Plan`: its clause promises the span whatever first outcomes and outcomes there are.
pub fn span_at(size: Size, rows: &[Row], s: usize) -> Span
    requires { (s < size.n) × (size.n ≤ length rows.now) }
    ensures { (F O : List ℕ) → result ≡ span_at (held size rows.now F O) s }
{
    let row = row_at(rows, s);
    if size.n <= s + 1 {
        return span_of(row, size.m);
    }
    let next = row_at(rows, s + 1);
    span_of(row, usize::from(next.first))
}

impl SoundPlan<'_> {
    ghost use Rattle.std.specs.Prelude.{◌≡◌, ◌<◌};
    ghost use Rattle.model.specs.Places.{first_outcome};
    ghost use Rattle.tables.specs.Meaning.{lent};
    ghost use Rattle.tables.specs.Spans.{span_at};

    // What is read of state s at once.
    pub fn span(&self, s: usize) -> Span
        requires { s < self.now.plan.size.n }
        ensures { result ≡ span_at (lent self.now.plan) s }
    {
        span_at(self.plan.size, self.plan.rows, s)
    }

    // Where the outcomes of command c begin; for c = m, where the last ones end.
    pub fn first_outcome(&self, c: usize) -> usize
        ensures { result ≡ first_outcome (lent self.now.plan) c }
    {
        let size = self.plan.size;
        start_of(self.plan.firsts, size.m, size.t, c)
    }
}

// Only a state of kind 0 has commands.
fn kind_fits(kind: usize, count: usize) -> bool
    ensures { result ≡ (eqb kind 0 || eqb count 0) }
{
    kind == 0 || count == 0
}

// The practice is none or a command.
fn practice_fits(practice: usize, count: usize) -> bool
    ensures { result ≡ (eqb practice FFFF || ltb practice count) }
{
    practice == NONE || practice < count
}

// No commands under kind 1 or 2, and a practice that fits: what refusal 7 asks for.
pub fn not_idle(kind: usize, count: usize, practice: usize) -> bool
    ensures { result ≡ not_idle (field_with kind count practice) }
{
    kind_fits(kind, count) && practice_fits(practice, count)
}
