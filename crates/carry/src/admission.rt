// What carrying back is refused with.
ghost use Rattle.std.specs.Prelude.{◌≡◌};
ghost use Rattle.model.specs.Carry.{carried, carry_sound, carrying};
ghost use Rattle.tables.specs.Meaning.{answered};

use tables::rising::rises_below;
use tables::{Refusal, Size};

// Whether the number of old states, the map and the length of the trimmed table fit together.
#[tactic(auto, using(crate::proofs::Replying::fits_is))]
fn fits(n: usize, olds: &[u16], entries: usize) -> bool
    ensures { result ≡ carry_sound n olds.now entries }
{
    1 <= n && n <= Size::STATES && olds.len() <= entries && rises_below(n, olds, 0, olds.len())
}

// Refusal 10, then 9: `places` says how many places are lent.
#[tactic(auto, using(crate::proofs::Replying::admitting))]
pub fn admit(n: usize, olds: &[u16], table: &[u16], places: usize) -> Result<(), Refusal>
    ensures { answered (λ _. carried n olds.now table.now) result ≡ carrying n olds.now table.now places }
{
    if !fits(n, olds, table.len()) {
        return Err(Refusal::Unsound);
    }
    if places < n {
        return Err(Refusal::Cramped);
    }
    Ok(())
}
