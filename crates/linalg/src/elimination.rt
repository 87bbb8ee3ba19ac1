// Gaussian elimination with partial pivoting and back substitution, for at most four equations.
#![tactic(auto, using(crate::specs::laws::Loops::loops), unfolding(crate::specs::laws::Steps::elimination_steps))]

ghost use Rattle.std.specs.Prelude.{◌≡◌, ◌+◌, ◌≤◌, ◌<◌, get_or};
ghost use Rattle.std.specs.Float.{nan};
ghost use Rattle.math.specs.Loops.{span};
ghost use Rattle.linalg.specs.Elimination.{pivot_of, swap_of, clear_row, column_of, less_known, back_of, eliminate_of, solve_of};

// a x = b; of n equations the first n rows and columns count. Row i of a stands at 4 i: a is flat, as a fit's
// fixed block is, which it is made from.
#[derive(Clone, Copy)]
pub struct System {
    pub a: [f64; 16],
    pub b: [f64; 4],
}

// n beside a System, and `n ≤ 4` at each step: a struct of both would have to say of each change that n stays, and `solve` takes any n.
impl System {
    // The row of the largest entry in column i from the diagonal down; of equals the first.
    fn pivot_row(&self, n: usize, i: usize) -> usize
        requires { (n ≤ 4) × (i < n) }
        ensures { (result < n) × (result ≡ pivot_of n self.now.a i) }
    {
        let mut best = i;
        // By index: column i of a, four places on from row to row, and the answer is a row.
        for r in i + 1..n {
            if math::abs(self.a[best * 4 + i]) < math::abs(self.a[r * 4 + i]) {
                best = r;
            }
        }
        best
    }

    fn swap_rows(&mut self, n: usize, i: usize, q: usize)
        requires { (n ≤ 4) × ((i < n) × (q < n)) }
        ensures { self.new ≡ swap_of n i q self.old }
    {
        // By index: `swap` takes two places of one list; `swap_with_slice` would need the rows lent apart, whichever stands first.
        for j in 0..n {
            self.a.swap(i * 4 + j, q * 4 + j);
        }
        self.b.swap(i, q);
    }

    // Row r less (its entry / the pivot) times the pivot row i.
    fn clear_row(&mut self, n: usize, i: usize, r: usize)
        requires { (n ≤ 4) × ((i < n) × (r < n)) }
        ensures { self.new ≡ clear_row n i r self.old }
    {
        let f = self.a[r * 4 + i] / self.a[i * 4 + i];
        // By index: both rows lie in one list, the one read and the other written.
        for j in i..n {
            self.a[r * 4 + j] -= f * self.a[i * 4 + j];
        }
        self.b[r] -= f * self.b[i];
    }

    // Column i's pivot brought to the diagonal and the rows below it cleared; none where the pivot is exactly zero.
    fn clear_column(mut self, n: usize, i: usize) -> Option<System>
        requires { (n ≤ 4) × (i < n) }
        ensures { result ≡ column_of n i self }
    {
        let q = self.pivot_row(n, i);
        self.swap_rows(n, i, q);
        if self.a[i * 4 + i] == 0.0 {
            return None;
        }
        for r in i + 1..n {
            self.clear_row(n, i, r);
        }
        Some(self)
    }

    // The right-hand side of row i less the entries after the diagonal times the values x that are known.
    #[tactic(auto, using(crate::proofs::Rows::known_zip))]
    fn less_row(&self, n: usize, i: usize, x: &[f64; 4]) -> f64
        requires { (n ≤ 4) × (i < n) }
        ensures { result ≡ span (less_known self.now.a x.now i) (i + 1) n (get_or self.now.b i nan) }
    {
        let mut v = self.b[i];
        for (&a, &y) in self.a[i * 4 + i + 1..i * 4 + n].iter().zip(&x[i + 1..n]) {
            v -= a * y;
        }
        v
    }

    // From the last row up; +0 in the places after the first n.
    fn back_substitute(&self, n: usize) -> [f64; 4]
        requires { n ≤ 4 }
        ensures { result ≡ back_of n self.now }
    {
        let mut x = [0.0; 4];
        for i in (0..n).rev() {
            x[i] = self.less_row(n, i, &x) / self.a[i * 4 + i];
        }
        x
    }
}

fn eliminate(mut s: System, n: usize) -> Option<[f64; 4]>
    requires { n ≤ 4 }
    ensures { result ≡ eliminate_of n s }
{
    for i in 0..n {
        s = s.clear_column(n, i)?;
    }
    Some(s.back_substitute(n))
}

// The first n equations solved; none at a pivot that is exactly zero, and for more than four equations.
pub fn solve(s: System, n: usize) -> Option<[f64; 4]>
    ensures { result ≡ solve_of n s }
{
    if n > 4 { None } else { eliminate(s, n) }
}
