// The listing of a plan file, as text.
#![tactic(auto)]

ghost use Rattle.std.specs.Prelude.{◌≡◌, ◌≤◌, take};
ghost use Rattle.model.specs.Listing.{max_listing, listing};
ghost use Rattle.listing_text.specs.Puts.{Room, Put};
ghost use Rattle.listing.specs.Texts.{blank, text_of};

use crate::file::list_file;
use listing_text::Output;
use tables::Refusal;

mod file;
mod plan;
mod states;

// The longest input that is read.
pub const LIMIT: usize = 65536;

// A text: its first `length` bytes.
#[derive(Clone, Copy)]
pub struct Text {
    pub bytes: [u8; Text::ROOM],
    pub length: usize,
}

impl Text {
    // The bytes that hold every listing.
    pub const ROOM: usize = 65536;

    pub fn new() -> Text
        ensures { result ≡ blank }
    {
        Text {
            bytes: [0; Text::ROOM],
            length: 0,
        }
    }

    pub fn as_bytes(&self) -> &[u8]
        requires { self.now.length ≤ max_listing }
        ensures { result.now ≡ take self.now.length self.now.bytes }
    {
        &self.bytes[..self.length]
    }
}

// A longer input is refused before it is read.
fn write_listing(input: &[u8], out: &mut Output)
    requires { Room out.old max_listing }
    ensures { Put out.old (listing input.now) out.new }
{
    if LIMIT < input.len() {
        out.put_refusal(Refusal::Limit);
    } else {
        list_file(input, out);
    }
}

// What the listing program prints for an input; the bytes past the text are zero. Ruled out: text that begins as a listing though
// reading refuses the file, and a line that is not of the file's plan.
pub fn text_of(input: &[u8]) -> Text
    ensures text { result ≡ text_of (listing input.now) }
{
    let mut text = Text::new();
    let mut out = Output {
        bytes: &mut text.bytes,
        place: 0,
    };
    write_listing(input, &mut out);
    text.length = out.place;
    text
}
