// The lines of the listing. Only the planner's own crates call these: each asks that its longest line fits.
ghost use Rattle.std.specs.Prelude.{◌≡◌, [], ◌∷◌, ◌+◌, ◌<◌, ◌≤◌, IfSome};
ghost use Rattle.model.specs.Plan.{Plan};
ghost use Rattle.model.specs.Search.{Result};
ghost use Rattle.model.specs.Listing.{refusal_text, plan_line, state_line, tally_line, start_line};
ghost use Rattle.tables.specs.Meaning.{numbers, refusal_of, option_of};
ghost use Rattle.listing_text.specs.Listed.{Listed};
ghost use Rattle.listing_text.specs.Puts.{Room, Lent, Put};

use crate::Output;
use crate::letters::{kind_letter, verdict_letter};
use tables::{Refusal, Size};

const END: u8 = b'\n';

impl Output<'_> {
    pub fn put_refusal(&mut self, refusal: Refusal)
        requires { Room self.old 15 }
        ensures wrote { Put self.old (refusal_text (refusal_of refusal)) self.new }
        ensures ends { self.new.place ≤ self.old.place + 15 }
    {
        self.put_word(b"refused");
        self.put_number(u32::from(refusal) as usize);
        self.put_byte(END);
    }

    pub fn put_plan_line(&mut self, size: Size)
        requires { (Room self.old 26) × (size.n < 1000000) × (size.m < 1000000) × (size.t < 1000000) }
        ensures wrote { Put self.old (plan_line (numbers size)) self.new }
        ensures ends { self.new.place ≤ self.old.place + 26 }
    {
        self.put_word(b"plan");
        self.put_three(size.n, size.m, size.t);
        self.put_byte(END);
    }

    // The line of state s, from its kind, deciding's entries for it, and the outcome that is named if it is a fault. The numbers stay
    // parameters: they are one line's, each of another table.
    pub fn put_state_line(
        &mut self,
        s: usize,
        kind: usize,
        rank: u16,
        command: u16,
        mark: u16,
        outcome: Option<usize>,
    )
        requires { (Room self.old 35) × (s < 1000000) × IfSome outcome (λ x. x < 1000000) }
        ensures wrote { (P : Plan) → Listed P s kind rank command mark (option_of outcome)
            → Put self.old (state_line P s) self.new }
        ensures lent { Lent self.old self.new }
        ensures ends { self.new.place ≤ self.old.place + 35 }
    {
        self.put_decimal(s);
        self.put_letter(kind_letter(kind));
        self.put_verdict(rank);
        self.put_entry(command);
        self.put_marks(mark, outcome);
        self.put_byte(END);
    }

    pub fn put_tally_line(&mut self, safe: [u16; 3], lost: [u16; 3])
        requires { Room self.old 50 }
        ensures wrote { Put self.old (tally_line (safe ∷ lost ∷ [])) self.new }
        ensures ends { self.new.place ≤ self.old.place + 50 }
    {
        self.put_word(b"tally");
        self.put_row(safe);
        self.put_letter(b'/');
        self.put_row(lost);
        self.put_byte(END);
    }

    // The start, and the search's verdict and rounds from it.
    pub fn put_start_line(&mut self, start: usize, lost: bool, rounds: usize)
        requires { (Room self.old 22) × (start < 1000000) × (rounds < 1000000) }
        ensures wrote { (R : Result) → R.lost ≡ lost → R.rounds ≡ rounds
            → Put self.old (start_line start R) self.new }
        ensures ends { self.new.place ≤ self.old.place + 22 }
    {
        self.put_word(b"start");
        self.put_number(start);
        self.put_letter(verdict_letter(lost));
        self.put_number(rounds);
        self.put_byte(END);
    }
}
