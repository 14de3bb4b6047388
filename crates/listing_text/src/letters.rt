// The letters of a state's line.
ghost use Rattle.std.specs.Prelude.{◌≡◌, [], ◌∷◌, ◌%◌, eqb};
ghost use Rattle.model.specs.Listing.{kind_letter, verdict_letter, practice_letter};

#[tactic(auto, unfolding(model::specs::Listing::kind_letter))]
pub fn kind_letter(kind: usize) -> u8
    ensures { result ∷ [] ≡ kind_letter kind }
{
    match kind {
        0 => b'o',
        1 => b'f',
        _ => b'r',
    }
}

#[tactic(auto, unfolding(model::specs::Listing::verdict_letter))]
pub fn verdict_letter(lost: bool) -> u8
    ensures { result ∷ [] ≡ verdict_letter lost }
{
    if lost { b'L' } else { b'S' }
}

// The practice fails where the mark is odd.
#[tactic(auto, unfolding(model::specs::Listing::practice_letter))]
pub fn practice_letter(mark: u16) -> u8
    ensures { result ∷ [] ≡ practice_letter (eqb (mark % 2) 1) }
{
    if mark % 2 == 1 { b'F' } else { b'H' }
}
