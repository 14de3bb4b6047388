// The test for sound tables, and a plan that has passed it.
ghost use Rattle.std.specs.Prelude.{◌≡◌, true, ◌↔◌, false, MatchResult};
ghost use Rattle.tables.specs.Meaning.{lent};
ghost use Rattle.tables.specs.declared.Refusal.TheVariants.{Unsound};
ghost use Rattle.model.specs.Sound.{Sound};
ghost use Rattle.model.specs.SoundTest.{sound};

use crate::list_table::ListTable;
use crate::spans::span_at;
use crate::{Plan, Refusal, checks};

// A plan that has passed the test. What is read of it is in range, so the functions that take one ask for nothing else.
#[derive(Clone, Copy)]
pub struct SoundPlan<'a> {
    pub plan: Plan<'a>,
    pub ghost sounds: { sound (lent plan) ≡ true },
}

impl<'a> Plan<'a> {
    // Whether size record and tables are a plan that some file gives, and no table is shorter than its count (refusal 10 where not).
    // Ruled out: passing tables that no file gives, and failing a plan for what stands past its counts.
    pub fn is_sound(&self) -> bool
        ensures computed { result ≡ sound (lent self.now) }
        ensures meant { (result ≡ true) ↔ Sound (lent self.now) }
    {
        if !checks::size_sound(self.size) {
            return false;
        }
        if !checks::long(self) {
            return false;
        }
        let span = span_at(self.size, self.rows, 0);
        if span.first != 0 {
            return false;
        }
        if !checks::rows_sound(self) {
            return false;
        }
        let lists = ListTable {
            count: self.size.m,
            end: self.size.t,
            firsts: self.firsts,
            entries: self.outcomes,
        };
        checks::lists_sound(1, self.size.n, &lists)
    }

    // The plan as one that has passed the test, or refusal 10.
    pub fn sound(&self) -> Result<SoundPlan<'a>, Refusal>
        ensures { MatchResult result (λ p. p.plan ≡ self.now) (λ r. (r ≡ Unsound) × (sound (lent self.now) ≡ false)) }
    {
        if !self.is_sound() {
            return Err(Refusal::Unsound);
        }
        Ok(SoundPlan { plan: *self })
    }
}
