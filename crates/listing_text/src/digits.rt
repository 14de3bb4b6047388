// Decimal digits, by division (rule L5).
ghost use Rattle.std.specs.Prelude.{◌≡◌, ◌+◌, ◌<◌, ◌≤◌};
ghost use Rattle.model.specs.Listing.{last_digit, decimal};
ghost use Rattle.listing_text.specs.Puts.{Room, Put};

use crate::Output;

// The least number of two digits.
const TWO_DIGITS: usize = 10;

fn last_digit(x: usize) -> u8
    ensures { result ≡ last_digit x }
{
    b'0' + (x % 10) as u8
}

impl Output<'_> {
    // A number of at most six digits. Each call leaves one digit fewer, so it calls itself at most five times.
    pub(crate) fn put_decimal(&mut self, x: usize)
        requires { (Room self.old 6) × (x < 1000000) }
        ensures wrote { Put self.old (decimal x) self.new }
        ensures ends { self.new.place ≤ self.old.place + 6 }
    {
        if x >= TWO_DIGITS {
            self.put_decimal(x / 10);
        }
        self.put_byte(last_digit(x));
    }
}
