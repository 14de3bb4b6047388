// Whether plans are the same up to their counts.
// No derive for plans: what stands past the counts does not matter.
use tables::Plan;

fn same_start<T: PartialEq>(a: &[T], b: &[T], n: usize) -> bool {
    n <= a.len() && n <= b.len() && &a[..n] == &b[..n]
}

pub fn same_plans(a: &Plan, b: &Plan) -> bool {
    a.size == b.size
        && same_start(a.rows, b.rows, a.size.n)
        && same_start(a.firsts, b.firsts, a.size.m)
        && same_start(a.outcomes, b.outcomes, a.size.t)
}
