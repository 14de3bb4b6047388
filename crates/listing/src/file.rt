// A file and its listing.
ghost use Rattle.model.specs.File.{read};
ghost use Rattle.model.specs.Listing.{max_listing, answer_text};
ghost use Rattle.listing_text.specs.Puts.{Room, Put};

use crate::plan::list_plan;
use listing_text::Output;
use tables::sound_plan::SoundPlan;
use tables::{Plan, Row, Size};

// The file's listing, or the line of its refusal. The tables it is read into are of the limits' lengths, which hold every plan.
pub fn list_file(file: &[u8], out: &mut Output)
    requires { Room out.old max_listing }
    ensures { Put out.old (answer_text (read file.now)) out.new }
{
    let mut rows = [Row::BLANK; Size::STATES];
    let mut firsts = [0; Size::COMMANDS];
    let mut outcomes = [0; Size::OUTCOMES];
    match reading::read(file, &mut rows, &mut firsts, &mut outcomes) {
        Err(refusal) => out.put_refusal(refusal),
        Ok(size) => {
            let plan = Plan {
                size,
                rows: &rows,
                firsts: &firsts,
                outcomes: &outcomes,
            };
            list_plan(&SoundPlan { plan }, out);
        }
    }
}
