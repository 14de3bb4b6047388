// The listing of a sound plan.
ghost use Rattle.std.specs.Prelude.{◌++◌, ◌+◌, ◌*◌};
ghost use Rattle.laws.specs.Lists.{tabulate, joined};
ghost use Rattle.model.specs.Held.{tree_of, plan_in};
ghost use Rattle.model.specs.Practice.{tally};
ghost use Rattle.model.specs.Search.{search};
ghost use Rattle.model.specs.Listing.{max_listing, plan_text, state_line, tally_line, start_line};
ghost use Rattle.tables.specs.Meaning.{lent};
ghost use Rattle.listing_text.specs.Puts.{Room, Put};

use crate::states::Decided;
use listing_text::Output;
use tables::Size;
use tables::sound_plan::SoundPlan;

// What deciding says of the plan: the lines of the states, and the tally's.
fn list_verdicts(checked: &SoundPlan, out: &mut Output)
    requires { Room out.old (checked.now.plan.size.n * 35 + 50) }
    ensures { let T = lent checked.now.plan in
        Put out.old (joined (tabulate (state_line (plan_in T)) 0 T.size.n) ++ tally_line (tally (plan_in T))) out.new }
{
    let mut ranks = [0; Size::STATES];
    let mut commands = [0; Size::STATES];
    let mut marks = [0; Size::STATES];
    let mut scratch = [0; Size::STATES];
    let decision = decide::decide(
        &checked.plan,
        &mut ranks,
        &mut commands,
        &mut marks,
        &mut scratch,
    );
    let decided = Decided {
        checked: *checked,
        ranks: &ranks,
        commands: &commands,
        marks: &marks,
    };
    decided.list_states(out);
    let [safe, lost] = decision.unwrap();
    out.put_tally_line(safe, lost);
}

// The last line: the search from the plan's own start.
fn list_start(checked: &SoundPlan, out: &mut Output)
    requires { Room out.old 22 }
    ensures { let T = lent checked.now.plan in
        Put out.old (start_line T.size.start (search (plan_in T) T.size.start)) out.new }
{
    let mut commands = [0; Size::STATES];
    let mut scratch = [0; Size::STATES];
    let start = checked.plan.size.start;
    let found = search::search(&checked.plan, start, &mut commands, &mut scratch).unwrap();
    out.put_start_line(start, found.lost, found.rounds);
}

pub fn list_plan(checked: &SoundPlan, out: &mut Output)
    requires { Room out.old max_listing }
    ensures { Put out.old (plan_text (tree_of (lent checked.now.plan))) out.new }
{
    out.put_plan_line(checked.plan.size);
    list_verdicts(checked, out);
    list_start(checked, out);
}
