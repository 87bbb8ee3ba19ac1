// The direction group by group: a group's block, damped and solved; the fixed system less what it takes up; and
// its effects. block_solve puts these together.
#![tactic(auto, using(linalg::specs::laws::Loops::loops), unfolding(crate::specs::laws::Steps::group_steps, crate::specs::laws::Steps::component_steps))]

ghost use Rattle.std.specs.Prelude.{◌≡◌, ◌+◌, ◌*◌, ◌≤◌, ◌<◌, ◌↔◌, IsSome, IfSome, IsTrue, length};
ghost use Rattle.math.specs.Basic.{is_finite};
ghost use Rattle.math.specs.Lists.{every};
ghost use Rattle.group_blocks.specs.Groups.{fits, damped_at, dot_of_effects, solved_columns, solution_of, reduce_row, reduce_by};
ghost use Rattle.group_blocks.specs.Components.{columns_times, effects_of, components_of};

use linalg::elimination::System;
use linalg::pair::solve_pair;

// How many curve values, effects of a group and groups there are: p, k and group_count.
#[derive(Clone, Copy)]
pub struct Shape {
    pub p: usize,
    pub k: usize,
    pub group_count: usize,
    ghost four_values: { p ≤ 4 },
    ghost an_effect: { 1 ≤ k },
    ghost two_effects: { k ≤ 2 },
    ghost groups_32: { group_count ≤ 32 },
}

impl Shape {
    // None for sizes that there is no place for.
    pub fn new(p: usize, k: usize, group_count: usize) -> Option<Shape>
        ensures fits { IsSome result ↔ IsTrue (fits p k group_count) }
        ensures same { IfSome result (λ s. (s.p ≡ p) × (s.k ≡ k) × (s.group_count ≡ group_count)) }
    {
        if p > 4 || k < 1 || k > 2 || group_count > 32 {
            return None;
        }
        Some(Shape { p, k, group_count })
    }

    // How many components a direction has.
    pub fn size(self) -> usize
        ensures { result ≡ self.p + self.group_count * self.k }
    {
        self.p + self.group_count * self.k
    }
}

// One group's part of the normal blocks: its block, damped, its right-hand side, and its cross block, a row for
// each curve value. There is no heap, so each has as many places as the largest fit needs.
#[derive(Clone, Copy)]
pub struct Group {
    pub block: [[f64; 2]; 2],
    pub rhs: (f64, f64),
    pub cross: [(f64, f64); 4],
}

// The block solved for the right-hand side, and for each row of the cross block, with as many places.
#[derive(Clone, Copy)]
pub struct Solution {
    pub pair: (f64, f64),
    pub columns: [(f64, f64); 4],
}

// A diagonal entry, damped by a share of itself, or of 1e-8 where that is more.
pub fn damped(x: f64, damping: f64) -> f64
    ensures { result ≡ damped_at damping x }
{
    x + damping * math::max(x, 1e-8)
}

// A row of k numbers times a column. k is a count, and with one effect the second product is left out,
// which `re_cov::dot` always adds.
fn dot(k: usize, row: (f64, f64), column: (f64, f64)) -> f64
    ensures { result ≡ dot_of_effects k row column }
{
    let t = 0.0 + row.0 * column.0;
    if k == 1 { t } else { t + row.1 * column.1 }
}

impl Group {
    fn columns(&self, shape: Shape) -> Option<[(f64, f64); 4]>
        ensures { result ≡ solved_columns shape.k shape.p self.now }
    {
        let mut w = [(0.0, 0.0); 4];
        // By index: w is written beside the rows that are read, and of `iter_mut` under `zip` nothing is known to a proof.
        for j in 0..shape.p {
            let (a, b) = self.cross[j];
            w[j] = solve_pair(shape.k, self.block, a, b)?;
        }
        Some(w)
    }

    // None at a pivot that is exactly zero.
    pub fn solve(&self, shape: Shape) -> Option<Solution>
        ensures { result ≡ solution_of shape.k shape.p self.now }
    {
        let (x, y) = self.rhs;
        let pair = solve_pair(shape.k, self.block, x, y)?;
        let columns = self.columns(shape)?;
        Some(Solution { pair, columns })
    }

    fn reduce_row(&self, s: &mut System, shape: Shape, solution: &Solution, i: usize)
        requires { i < shape.p }
        ensures { s.new ≡ reduce_row shape.k shape.p self.now solution.now i s.old }
    {
        let row = self.cross[i];
        // By index: row i of the flat a is written, as above.
        for j in 0..shape.p {
            s.a[i * 4 + j] -= dot(shape.k, row, solution.columns[j]);
        }
        s.b[i] -= dot(shape.k, row, solution.pair);
    }

    // The fixed system less the cross block times the solved columns, its right-hand side less it times the pair.
    pub fn reduce(&self, s: &mut System, shape: Shape, solution: &Solution)
        ensures { s.new ≡ reduce_by shape.k shape.p self.now solution.now s.old }
    {
        for i in 0..shape.p {
            self.reduce_row(s, shape, solution, i);
        }
    }
}

impl Solution {
    // The columns times the fixed values x, from 0 on.
    #[tactic(auto, using(crate::proofs::Laws::columns_zip))]
    fn columns_times(&self, shape: Shape, x: [f64; 4]) -> (f64, f64)
        ensures { result ≡ columns_times self.now.columns x shape.p }
    {
        let mut t = (0.0, 0.0);
        for (&(a, b), &v) in self.columns[..shape.p].iter().zip(&x) {
            t = (t.0 + a * v, t.1 + b * v);
        }
        t
    }
}

// One group's effects, into its part of the direction.
#[tactic(auto, using(crate::proofs::Laws::effects_take))]
fn write_effects(out: &mut [f64], x: f64, y: f64)
    requires { (1 ≤ length out.old) × (length out.old ≤ 2) }
    ensures { out.new ≡ effects_of (length out.old) x y }
{
    let n = out.len();
    out.copy_from_slice(&[x, y][..n]);
}

// The direction, from the fixed values x and the groups' solutions; whether each of its components is finite, which is
// solve's own answer in block_solve: asked there it would be the same line, and the edit non_finite_component stands here.
#[tactic(auto, using(linalg::specs::laws::Loops::loops, crate::proofs::Laws::parts), unfolding(crate::specs::laws::Steps::component_steps))]
pub fn write_direction(out: &mut [f64], shape: Shape, x: [f64; 4], solved: &[Solution; 32]) -> bool
    requires { length out.old ≡ shape.p + shape.group_count * shape.k }
    ensures written { out.new ≡ components_of shape.p shape.k shape.group_count x solved.now }
    ensures finite { result ≡ every is_finite out.new }
{
    let p = shape.p;
    let k = shape.k;
    out[..p].copy_from_slice(&x[..p]);
    // By index: each turn lends another part of out, where its group's effects stand.
    for g in 0..shape.group_count {
        let at = p + g * k;
        let v = solved[g].pair;
        let t = solved[g].columns_times(shape, x);
        write_effects(&mut out[at..at + k], v.0 - t.0, v.1 - t.1);
    }
    math::all_finite(out)
}
