// Readings for the weighings of sizes: doses 1, 2, 3, .., grams 1, 1 + 1/64, 1 + 2/64, .., and the groups in turn. There are 520 of
// each, of which a call is lent as many as it is to have; of fixed size, as a caller in C has them.
ghost use Rattle.std.specs.Prelude.{◌≡◌, length};

pub const READINGS: usize = 520;

pub fn rising(step: f64) -> [f64; READINGS]
    ensures { 520 ≡ length result }
{
    let mut out = [0.0; READINGS];
    let mut x = 1.0;
    for place in out.iter_mut() {
        *place = x;
        x += step;
    }
    out
}

// Reading i is of group i, i less the number of groups, .., whichever is one.
pub fn in_turn(group_count: usize) -> [usize; READINGS]
    ensures { 520 ≡ length result }
{
    let mut out = [0; READINGS];
    for (i, group) in out.iter_mut().enumerate() {
        *group = i.checked_rem(group_count).unwrap_or(0);
    }
    out
}
