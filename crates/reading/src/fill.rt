// The filling pass, over a file that the judging pass has let through.
ghost use Rattle.std.specs.Prelude.{◌≡◌, ◌+◌, ◌<◌, ◌≤◌, length, drop};
ghost use Rattle.laws.specs.Lists.{joined};
ghost use Rattle.laws.specs.Writes.{put_all};
ghost use Rattle.model.specs.File.{state_values};
ghost use Rattle.model.specs.Tables.{all_commands, row_with, rows_from, firsts_from};
ghost use Rattle.tables.specs.Meaning.{row_of, rows_of};
ghost use Rattle.reading.specs.Meaning.{bytes_from, moved};
ghost use Rattle.reading.specs.Filling.{commands_in, commands_at, states_in, states_mark, past_commands, Room, StatesRoom};

use crate::bytes::{Mark, byte, entry, number};
use tables::Row;
use tables::entries::put;
use tables::rows::put_row;

// Commands and outcomes in one loop, `left` outcomes of a command being still to come: so the next place does not wait for a length that
// was read.
// The new form is no plainer: two loops, one in the other, would have two ends to prove.
fn fill_commands(
    file: &[u8],
    count: usize,
    from: Mark,
    firsts: &mut [u16],
    outcomes: &mut [u16],
) -> Mark
    requires { Room (length file.now) (length firsts.old) (length outcomes.old) from (commands_in count (bytes_from file.now from)) }
    ensures firsts { firsts.new
        ≡ put_all firsts.old from.m (firsts_from from.t (commands_in count (bytes_from file.now from))) }
    ensures outcomes { outcomes.new
        ≡ put_all outcomes.old from.t (joined (commands_in count (bytes_from file.now from))) }
    ensures mark { result ≡ past_commands from (commands_in count (bytes_from file.now from)) }
{
    let end = from.m + count;
    let mut at = from.at;
    let mut m = from.m;
    let mut t = from.t;
    let mut left = 0;
    loop {
        if left == 0 {
            if end <= m {
                return Mark { at, m, t };
            }
            left = number(file, at, 1) / 2;
            put(firsts, m, t);
            at += 3;
            m += 1;
        } else {
            outcomes[t] = entry(file, at, 0);
            at += 2;
            t += 1;
            left -= 1;
        }
    }
}

// The row of the state at a mark.
// The cast loses nothing, which is proved; `try_from` and `unwrap` would say the same in more words.
fn row_in(file: &[u8], k: Mark) -> Row
    requires { (7 < length (bytes_from file.now k)) × (k.m < 65536) }
    ensures { row_of result ≡ row_with k.m (state_values (bytes_from file.now k)) }
{
    Row {
        kind: u16::from(byte(file, k.at, 3)),
        first: k.m as u16,
        practice: entry(file, k.at, 6),
    }
}

// The commands of the state at a mark.
fn fill_state(file: &[u8], k: Mark, firsts: &mut [u16], outcomes: &mut [u16]) -> Mark
    requires { (k.at + 8 ≤ length file.now)
        × Room (length file.now) (length firsts.old) (length outcomes.old) (moved k 8) (commands_at file.now k) }
    ensures firsts { firsts.new
        ≡ put_all firsts.old k.m (firsts_from k.t (commands_at file.now k)) }
    ensures outcomes { outcomes.new ≡ put_all outcomes.old k.t (joined (commands_at file.now k)) }
    ensures mark { result ≡ past_commands (moved k 8) (commands_at file.now k) }
{
    let count = number(file, k.at, 4);
    fill_commands(file, count, k.moved(8), firsts, outcomes)
}

pub fn fill_states(
    file: &[u8],
    n: usize,
    rows: &mut [Row],
    firsts: &mut [u16],
    outcomes: &mut [u16],
)
    requires { StatesRoom (length file.now) (length rows.old) (length firsts.old) (length outcomes.old) 0 states_mark
        (states_in n (drop 7 file.now)) }
    ensures rows { rows_of rows.new
        ≡ put_all (rows_of rows.old) 0 (rows_from 0 (states_in n (drop 7 file.now))) }
    ensures firsts { firsts.new
        ≡ put_all firsts.old 0 (firsts_from 0 (all_commands (states_in n (drop 7 file.now)))) }
    ensures outcomes { outcomes.new
        ≡ put_all outcomes.old 0 (joined (all_commands (states_in n (drop 7 file.now)))) }
{
    let mut k = Mark { at: 7, m: 0, t: 0 };
    for i in 0..n {
        put_row(rows, i, row_in(file, k));
        k = fill_state(file, k, firsts, outcomes);
    }
}
