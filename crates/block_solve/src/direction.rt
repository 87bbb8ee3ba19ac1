// The damped direction. The groups' blocks are eliminated one by one, the fixed system that is left is
// solved, and each group's effects follow from it.
#![tactic(auto, using(linalg::specs::laws::Loops::loops), unfolding(crate::specs::laws::Steps::direction_steps))]

ghost use Rattle.std.specs.Prelude.{◌≡◌, ◌<◌, length};
ghost use Rattle.block_solve.specs.Direction.{damped_fixed, group_of, eliminated_of, solved_of, is_direction, left_in};

use crate::normal::BlockNormal;
use group_blocks::{Group, Shape, Solution, damped, write_direction};
use linalg::elimination::{System, solve};

// After the groups: the fixed system that is left, and each group's solution. There is no heap, so there are 32 places.
#[derive(Clone, Copy)]
struct Eliminated {
    s: System,
    solved: [Solution; 32],
}

impl BlockNormal {
    fn damped_fixed(&self, shape: Shape, damping: f64) -> System
        ensures { result ≡ damped_fixed self.now shape.p damping }
    {
        let mut a = self.fixed;
        for i in 0..shape.p {
            a[i * 4 + i] = damped(self.fixed[i * 4 + i], damping);
        }
        System {
            a,
            b: self.fixed_rhs,
        }
    }

    // Group g's part, its block damped, out of the flat arrays.
    fn group(&self, g: usize, damping: f64) -> Group
        requires { g < 32 }
        ensures { result ≡ group_of self.now g damping }
    {
        let m = g * 4;
        let y = g * 2;
        let c = g * 8;
        Group {
            block: [
                [damped(self.random[m], damping), self.random[m + 1]],
                [self.random[m + 2], damped(self.random[m + 3], damping)],
            ],
            rhs: (self.random_rhs[y], self.random_rhs[y + 1]),
            cross: [
                (self.cross[c], self.cross[c + 1]),
                (self.cross[c + 2], self.cross[c + 3]),
                (self.cross[c + 4], self.cross[c + 5]),
                (self.cross[c + 6], self.cross[c + 7]),
            ],
        }
    }

    // None at a pivot that is exactly zero.
    fn eliminate_groups(&self, shape: Shape, damping: f64) -> Option<Eliminated>
        ensures { result ≡ eliminated_of self.now shape.p shape.k shape.group_count damping }
    {
        let none = Solution {
            pair: (0.0, 0.0),
            columns: [(0.0, 0.0); 4],
        };
        let mut e = Eliminated {
            s: self.damped_fixed(shape, damping),
            solved: [none; 32],
        };
        for g in 0..shape.group_count {
            let group = self.group(g, damping);
            let solution = group.solve(shape)?;
            group.reduce(&mut e.s, shape, &solution);
            e.solved[g] = solution;
        }
        Some(e)
    }

    // Whether there is a direction for p curve values, k effects and groups groups, whatever they are, so no Shape; it is then in out.
    // A zero pivot and arguments that do not fit leave out as it was.
    // A flag beside the lent list: of an Option<&[f64]> that lends it back, what out ends as takes an ensures*, which has no proof here.
    pub fn solve(
        self,
        p: usize,
        k: usize,
        group_count: usize,
        damping: f64,
        out: &mut [f64],
    ) -> bool
        ensures { (result ≡ is_direction (solved_of self p k group_count damping (length out.old))) × (out.new ≡ left_in (solved_of self p k group_count damping (length out.old)) out.old) }
    {
        let Some(shape) = Shape::new(p, k, group_count) else {
            return false;
        };
        if out.len() != shape.size() {
            return false;
        }
        let Some(e) = self.eliminate_groups(shape, damping) else {
            return false;
        };
        let Some(x) = solve(e.s, p) else {
            return false;
        };
        write_direction(out, shape, x, &e.solved)
    }
}
