// Entries of a table: reading and storing one, and where the lists that lie in a table begin. Only the planner's own crates call this.
ghost use Rattle.std.specs.Prelude.{◌≡◌, ◌<◌, ◌≤◌, length, get_or, set, IfSome};
ghost use Rattle.laws.specs.Filled.{Filled, FilledRange};
ghost use Rattle.laws.specs.Starts.{start_of};
ghost use Rattle.laws.specs.Entry.{entry};
ghost use Rattle.tables.specs.Meaning.{option_of};

// The entry for none, hexadecimal FFFF. A test for none compares the entry with it: an Option made first would be tested in the same way.
pub const NONE: usize = 65535;

// The highest number that an entry holds beside it. A set that a table holds up to this limit is of the states that have a number.
pub const HIGHEST: usize = NONE - 1;

// How many bytes an entry has where a plan is lent as bytes.
pub const ENTRY_BYTES: usize = 2;

// The entry at place i.
pub fn at(table: &[u16], i: usize) -> usize
    requires { i < length table.now }
    ensures { result ≡ get_or table.now i 0 }
{
    usize::from(table[i])
}

// Stores x at place i.
// A cast that a proof shows to lose nothing stays `as`, here and elsewhere: `try_from` and `unwrap` would say the same in more words.
// A table that is written is a parameter of its own, here and in the crates above (decision 69).
pub fn put(table: &mut [u16], i: usize, x: usize)
    requires { (i < length table.old) × (x < 65536) }
    ensures { table.new ≡ set table.old i x }
{
    table[i] = x as u16;
}

// Stores a number below FFFF at place i, or the entry for none.
pub fn put_option(table: &mut [u16], i: usize, x: Option<usize>)
    requires i_in_bounds { i < length table.old }
    requires fits { IfSome x (λ v. v < 65536) }
    ensures { table.new ≡ set table.old i (entry (option_of x)) }
{
    put(table, i, x.unwrap_or(NONE));
}

// Stores x at each place from a on, below e.
pub fn fill_range(table: &mut [u16], a: usize, e: usize, x: usize)
    requires { (a ≤ e) × (e ≤ length table.old) × (x < 65536) }
    ensures { FilledRange a e x table.old table.new }
{
    table[a..e].fill(x as u16);
}

// Stores x at each place below n.
pub fn fill(table: &mut [u16], n: usize, x: usize)
    requires { (n ≤ length table.old) × (x < 65536) }
    ensures { Filled n (λ _. x) table.old table.new }
{
    fill_range(table, 0, n, x);
}

// Where part i of a table starts that is cut into `count` parts, and the part before it ends.
pub fn start_of(starts: &[u16], count: usize, end: usize, i: usize) -> usize
    requires { count ≤ length starts.now }
    ensures { result ≡ start_of starts.now count end i }
{
    if i < count {
        return at(starts, i);
    }
    end
}
