// Where the entries go.
ghost use Rattle.std.specs.Prelude.{◌≤◌, length, get_or};
ghost use Rattle.laws.specs.Placed.{RisingPlaces, Placed};

// Entry i of the table goes to the place that entry i of `olds` names.
pub fn place_all(olds: &[u16], table: &[u16], places: &mut [u16])
    requires { (length olds.now ≤ length table.now) × RisingPlaces (length olds.now) olds.now (length places.old) }
    ensures { Placed (length olds.now) olds.now (λ i. get_or table.now i 0) places.old
        places.new }
{
    for (i, &old) in olds.iter().enumerate() {
        places[usize::from(old)] = table[i];
    }
}
