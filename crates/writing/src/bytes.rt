// The bytes lent, and how far they are written.
ghost use Rattle.std.specs.Prelude.{[], ◌∷◌, ◌*◌, length};
ghost use Rattle.laws.specs.Entry.{two, twos};
ghost use Rattle.writing.specs.Puts.{Room, Put};

#[derive(Drop)]
pub struct Output<'a> {
    pub bytes: &'a mut [u8],
    pub place: usize,
}

impl Output<'_> {
    pub fn put_byte(&mut self, x: u8)
        requires { Room self.old 1 }
        ensures { Put self.old (x ∷ []) self.new }
    {
        self.bytes[self.place] = x;
        self.place += 1;
    }

    // A number in two bytes, highest byte first.
    pub fn put_number(&mut self, x: u16)
        requires { Room self.old 2 }
        ensures { Put self.old (two x []) self.new }
    {
        let [high, low] = x.to_be_bytes();
        self.put_byte(high);
        self.put_byte(low);
    }

    // Numbers one after another.
    pub fn put_numbers(&mut self, numbers: &[u16])
        requires { Room self.old (length numbers.now * 2) }
        ensures { Put self.old (twos numbers.now []) self.new }
    {
        for &x in numbers {
            self.put_number(x);
        }
    }
}
