// Words with a space before each.
ghost use Rattle.std.specs.Prelude.{[], ◌∷◌, ◌+◌, ◌%◌, ◌<◌, ◌≤◌, eqb, get_or, IfSome};
ghost use Rattle.laws.specs.Entry.{from_entry};
ghost use Rattle.laws.specs.Sets.{found};
ghost use Rattle.model.specs.Listing.{decimal, verdict_letter, number_or_dash, practice_letter, fault_sign};
ghost use Rattle.tables.specs.Meaning.{option_of};
ghost use Rattle.listing_text.specs.Puts.{Room, Put};
ghost use Rattle.listing_text.specs.Words.{spaced};

use crate::Output;
use crate::letters::{practice_letter, verdict_letter};

// The entry for none, as it stands in a table.
const NONE: u16 = tables::entries::NONE as u16;

impl Output<'_> {
    pub(crate) fn put_letter(&mut self, letter: u8)
        requires { Room self.old 2 }
        ensures wrote { Put self.old (spaced ((letter ∷ []) ∷ [])) self.new }
        ensures ends { self.new.place ≤ self.old.place + 2 }
    {
        self.put_word(&[b' ', letter]);
    }

    pub(crate) fn put_number(&mut self, x: usize)
        requires { (Room self.old 7) × (x < 1000000) }
        ensures wrote { Put self.old (spaced (decimal x ∷ [])) self.new }
        ensures ends { self.new.place ≤ self.old.place + 7 }
    {
        self.put_byte(b' ');
        self.put_decimal(x);
    }

    pub(crate) fn put_three(&mut self, x: usize, y: usize, z: usize)
        requires { (Room self.old 21) × (x < 1000000) × (y < 1000000) × (z < 1000000) }
        ensures wrote { Put self.old (spaced (decimal x ∷ decimal y ∷ decimal z ∷ [])) self.new }
        ensures ends { self.new.place ≤ self.old.place + 21 }
    {
        self.put_number(x);
        self.put_number(y);
        self.put_number(z);
    }

    // A row of the tally.
    pub(crate) fn put_row(&mut self, row: [u16; 3])
        requires { Room self.old 21 }
        ensures wrote { Put self.old
            (spaced (decimal (get_or row 0 0) ∷ decimal (get_or row 1 0) ∷ decimal (get_or row 2 0) ∷ [])) self.new }
        ensures ends { self.new.place ≤ self.old.place + 21 }
    {
        let [holding, failing, none] = row;
        self.put_three(
            usize::from(holding),
            usize::from(failing),
            usize::from(none),
        );
    }

    // An entry's number, or a dash for none.
    pub(crate) fn put_entry(&mut self, e: u16)
        requires { Room self.old 7 }
        ensures wrote { Put self.old (spaced (number_or_dash (from_entry e) ∷ [])) self.new }
        ensures ends { self.new.place ≤ self.old.place + 7 }
    {
        if e == NONE {
            self.put_letter(b'-');
        } else {
            self.put_number(usize::from(e));
        }
    }

    // The verdict that follows from a rank's entry, and the rank.
    pub(crate) fn put_verdict(&mut self, rank: u16)
        requires { Room self.old 9 }
        ensures wrote { Put self.old
            (spaced (verdict_letter (found (from_entry rank)) ∷ number_or_dash (from_entry rank) ∷ [])) self.new }
        ensures ends { self.new.place ≤ self.old.place + 9 }
    {
        self.put_letter(verdict_letter(rank != NONE));
        self.put_entry(rank);
    }

    // The sign of a fault and the outcome that is named there, or a dot where none is.
    fn put_fault(&mut self, outcome: Option<usize>)
        requires { (Room self.old 8) × IfSome outcome (λ x. x < 1000000) }
        ensures wrote { Put self.old (spaced (fault_sign (option_of outcome) ∷ [])) self.new }
        ensures ends { self.new.place ≤ self.old.place + 8 }
    {
        match outcome {
            None => self.put_letter(b'.'),
            Some(x) => {
                self.put_letter(b'!');
                self.put_decimal(x);
            }
        }
    }

    // What is said of the practice: whether it fails, by the mark, and the fault.
    pub(crate) fn put_marks(&mut self, mark: u16, outcome: Option<usize>)
        requires { (Room self.old 10) × IfSome outcome (λ x. x < 1000000) }
        ensures wrote { Put self.old
            (spaced (practice_letter (eqb (mark % 2) 1) ∷ fault_sign (option_of outcome) ∷ [])) self.new }
        ensures ends { self.new.place ≤ self.old.place + 10 }
    {
        self.put_letter(practice_letter(mark));
        self.put_fault(outcome);
    }
}
