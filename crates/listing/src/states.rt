// The lines of the states, from what deciding left.
ghost use Rattle.tables.specs.Meaning.{lent};
ghost use Rattle.listing.specs.Holds.{Holds};

use choice::choosing::command_hit;
use choice::state_set::StateSet;
use listing_text::Output;
use tables::entries::HIGHEST;
use tables::sound_plan::SoundPlan;

// The least mark that tells of a fault.
// A number: marks are entries of the table that deciding leaves (`mark_of` of decide).
const FAULT: u16 = 2;

// A sound plan and the tables that deciding left for it.
#[derive(Clone, Copy)]
pub struct Decided<'a> {
    pub checked: SoundPlan<'a>,
    pub ranks: &'a [u16],
    pub commands: &'a [u16],
    pub marks: &'a [u16],
    pub ghost holds: { Holds (lent checked.plan) ranks.now commands.now marks.now },
}

impl Decided<'_> {
    ghost use Rattle.std.specs.Prelude.{◌≡◌, ◌+◌, ◌*◌, ◌<◌, ◌≤◌, IfSome};
    ghost use Rattle.laws.specs.Lists.{tabulate, joined};
    ghost use Rattle.model.specs.Practice.{fault_outcome};
    ghost use Rattle.model.specs.Held.{plan_in};
    ghost use Rattle.model.specs.Listing.{state_line};
    ghost use Rattle.tables.specs.Meaning.{option_of};
    ghost use Rattle.listing_text.specs.Puts.{Room, Put};

    // At a fault, which the mark tells of, the lowest outcome of the practice that is lost.
    fn fault_outcome(&self, s: usize) -> Option<usize>
        requires { s < self.now.checked.plan.size.n }
        ensures named { option_of result ≡ fault_outcome (plan_in (lent self.now.checked.plan)) s }
        ensures fits { IfSome result (λ x. x < 1000000) }
    {
        let mark = self.marks[s];
        if mark < FAULT {
            return None;
        }
        let span = self.checked.span(s);
        let lost = StateSet {
            table: self.ranks,
            limit: HIGHEST,
        };
        command_hit(
            &self.checked.outcome_lists(),
            &lost,
            span.first + span.practice,
        )
    }

    fn list_state(&self, s: usize, out: &mut Output)
        requires { (s < self.now.checked.plan.size.n) × Room out.old 35 }
        ensures wrote { Put out.old (state_line (plan_in (lent self.now.checked.plan)) s) out.new }
        ensures ends { out.new.place ≤ out.old.place + 35 }
    {
        let kind = self.checked.span(s).kind;
        let outcome = self.fault_outcome(s);
        out.put_state_line(
            s,
            kind,
            self.ranks[s],
            self.commands[s],
            self.marks[s],
            outcome,
        );
    }

    pub fn list_states(&self, out: &mut Output)
        requires { Room out.old (self.now.checked.plan.size.n * 35) }
        ensures { let T = lent self.now.checked.plan in
            Put out.old (joined (tabulate (state_line (plan_in T)) 0 T.size.n)) out.new }
    {
        for s in 0..self.checked.plan.size.n {
            self.list_state(s, out);
        }
    }
}
