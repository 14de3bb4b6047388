// A sound plan laid out in tables of numbers, as the two turns read it.
ghost use Rattle.contest.specs.Laid.{Laid};

use tables::sound_plan::SoundPlan;

// A state is failing where `seeds` has 0; its commands are those from `froms` up to `tos`.
#[derive(Clone, Copy)]
pub struct LaidPlan<'a> {
    pub checked: SoundPlan<'a>,
    pub seeds: &'a [u16],
    pub froms: &'a [u16],
    pub tos: &'a [u16],
    pub ghost laid: { Laid checked.plan.size seeds.now froms.now tos.now checked.plan.firsts.now checked.plan.outcomes.now },
}
