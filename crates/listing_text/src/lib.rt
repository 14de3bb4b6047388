// The text of the listing: its lines, put one behind another into bytes that the caller lends.
#![tactic(auto)]

ghost use Rattle.std.specs.Prelude.{[], ◌∷◌, length};
ghost use Rattle.listing_text.specs.Puts.{Room, Put};

mod digits;
mod letters;
mod lines;
#[cfg(test)]
mod tests;
mod words;

// The bytes lent, and how far they are written.
#[derive(Drop)]
pub struct Output<'a> {
    pub bytes: &'a mut [u8],
    pub place: usize,
}

impl Output<'_> {
    fn put_byte(&mut self, byte: u8)
        requires { Room self.old 1 }
        ensures { Put self.old (byte ∷ []) self.new }
    {
        self.bytes[self.place] = byte;
        self.place += 1;
    }

    fn put_word(&mut self, word: &[u8])
        requires { Room self.old (length word.now) }
        ensures { Put self.old word.now self.new }
    {
        let end = self.place + word.len();
        self.bytes[self.place..end].copy_from_slice(word);
        self.place = end;
    }
}
