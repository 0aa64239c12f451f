// The program's arguments as numbers.
ghost use Rattle.std.specs.Prelude.{◌<◌, ◌≤◌, IfSome};

use std::env::Env;

// The longest run that can be asked for.
pub const RUN_LIMIT: usize = 999999999999;

// An argument that is a number from 1 to `most`.
pub fn number<R: Env>(rt: &R, i: usize, most: usize) -> Option<usize>
    ensures { IfSome result (λ n. (0 < n) × (n ≤ most)) }
{
    arguments::number(rt, i, &mut [0; 20]).filter(|&n| 0 < n && n <= most)
}

// The only argument: how many turns.
pub fn turns<R: Env>(rt: &R) -> Option<usize>
    ensures { IfSome result (λ n. (0 < n) × (n ≤ 999_999_999_999)) }
{
    if arguments::count(rt) != 2 {
        return None;
    }
    number(rt, 1, RUN_LIMIT)
}

// The only two arguments: how many flows or bytes, from 1 to `most`, and how many turns.
pub fn size_and_turns<R: Env>(rt: &R, most: usize) -> Option<(usize, usize)>
    ensures { IfSome result (λ r. (0 < r.0) × (r.0 ≤ most) × (0 < r.1) × (r.1 ≤ 999_999_999_999)) }
{
    if arguments::count(rt) != 3 {
        return None;
    }
    Some((number(rt, 1, most)?, number(rt, 2, RUN_LIMIT)?))
}
