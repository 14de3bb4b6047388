// The field walker: the whole file, and how far it has come in it. Its step is thin; the work is check_frame's.
ghost use Rattle.model.specs.Refusal.{answer};
ghost use Rattle.model.specs.File.{field};
ghost use Rattle.reading.specs.Meaning.{Within, Walks, bytes_from, after_field};

use crate::bytes::Mark;
use crate::frame::check_frame;
use tables::Refusal;

#[derive(Clone, Copy)]
pub struct FieldWalker<'a> {
    pub file: &'a [u8],
    pub mark: Mark,
}

impl FieldWalker<'_> {
    // The field that the walker has come to, with the tag that is due: the mark past it, or the refusal. This is the way to every field.
    pub fn next(self, due: u8) -> Result<Mark, Refusal>
        requires { Within self.file.now self.mark }
        ensures { Walks self.entry.file.now result
            (answer (after_field self.entry.file.now self.entry.mark) (field due (bytes_from self.entry.file.now self.entry.mark))) }
    {
        check_frame(self.file, self.mark, due)
    }
}
