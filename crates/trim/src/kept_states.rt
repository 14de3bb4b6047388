// The states that are kept.
ghost use Rattle.std.specs.Prelude.{◌≡◌};
ghost use Rattle.model.specs.Held.{tree_of};
ghost use Rattle.model.specs.Trim.{map_of};
ghost use Rattle.tables.specs.Meaning.{lent};

use tables::sound_plan::SoundPlan;

// The states of a sound plan that are kept, by their old numbers: state i of the trimmed plan is state `olds[i]` of this one.
#[derive(Clone, Copy)]
pub struct KeptStates<'a> {
    pub checked: &'a SoundPlan<'a>,
    pub olds: &'a [u16],
    pub ghost map: { olds.now ≡ map_of (tree_of (lent checked.now.plan)) },
}
