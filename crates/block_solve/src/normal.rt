// The normal blocks of at most four curve values, two effects and 32 groups.
#![tactic(auto, using(math::specs::laws::Loops::iter_none, math::specs::laws::Loops::iter_more, crate::specs::laws::Blocks::adds_to_each, crate::specs::laws::Blocks::reading_lent), unfolding(crate::specs::Blocks::products_of, crate::specs::Blocks::multiples_of, crate::specs::laws::Steps::normal_steps))]

ghost use Rattle.std.specs.Prelude.{◌≡◌, ◌+◌, ◌*◌, ◌≤◌, ◌<◌, length};
ghost use Rattle.block_solve.specs.Blocks.{products_of, multiples_of};
ghost use Rattle.block_solve.specs.Normal.{empty_of, add_reading, accumulate_of, times_of, prior_group, prior_of};

// fixed: 4 by 4. For each group, cross: 4 by 2, random: 2 by 2, random_rhs: 2. All row after row, in the flat
// arrays that document 01 names.
#[derive(Clone, Copy)]
pub struct BlockNormal {
    pub fixed: [f64; 16],
    pub cross: [f64; 256],
    pub random: [f64; 128],
    pub fixed_rhs: [f64; 4],
    pub random_rhs: [f64; 64],
}

// The products of two lists, added to the rows of a block that begins at from, stride places to a row. By index, into
// the flat arrays; inlined, so that a stride is a constant where it is called.
#[inline(always)]
fn add_products(blocks: &mut [f64], from: usize, stride: usize, rows: &[f64], columns: &[f64])
    requires { (length columns.now ≤ stride) × (from + length rows.now * stride ≤ length blocks.old) }
    ensures { blocks.new ≡ products_of (λ i. from + i * stride) (length rows.now) rows.now (length columns.now) columns.now blocks.old }
{
    for (i, a) in rows.iter().enumerate() {
        for (j, b) in columns.iter().enumerate() {
            blocks[from + i * stride + j] += a * b;
        }
    }
}

// The multiples of a list by y, added from the place from on.
#[inline(always)]
fn add_multiples(list: &mut [f64], from: usize, factors: &[f64], y: f64)
    requires { from + length factors.now ≤ length list.old }
    ensures { list.new ≡ multiples_of (λ i. from + i) (length factors.now) factors.now y list.old }
{
    for (i, a) in factors.iter().enumerate() {
        list[from + i] += a * y;
    }
}

// Row i of m times one group's effects, a list: `group_blocks::dot` takes pairs, and `re_cov::dot` two products always.
#[tactic(auto, using(crate::proofs::Rows::times_zip))]
fn times(m: [[f64; 2]; 2], i: usize, b: &[f64]) -> f64
    requires { (i < 2) × (length b.now ≤ 2) }
    ensures { result ≡ times_of m i b.now }
{
    let mut t = 0.0;
    for (&x, &a) in b.iter().zip(&m[i]) {
        t += a * x;
    }
    t
}

impl BlockNormal {
    pub fn new() -> BlockNormal
        ensures { result ≡ empty_of }
    {
        BlockNormal {
            fixed: [0.0; 16],
            cross: [0.0; 256],
            random: [0.0; 128],
            fixed_rhs: [0.0; 4],
            random_rhs: [0.0; 64],
        }
    }

    // What one reading of a group adds, in place: f has the gradients by the curve values, r those by the effects,
    // y is the residual.
    pub fn add_reading(&mut self, group: usize, f: &[f64], r: &[f64], y: f64)
        requires { (group < 32) × ((length f.now ≤ 4) × (length r.now ≤ 2)) }
        ensures { self.new ≡ add_reading group (length f.now) f.now (length r.now) r.now y self.old }
    {
        add_products(&mut self.fixed, 0, 4, f, f);
        add_multiples(&mut self.fixed_rhs, 0, f, y);
        add_products(&mut self.cross, group * 8, 2, f, r);
        add_products(&mut self.random, group * 4, 2, r, r);
        add_multiples(&mut self.random_rhs, group * 2, r, y);
    }

    // The same by value, for any sizes: a reading for which there is no place adds nothing.
    // Document 01 names this form; a fit adds its readings in place.
    pub fn accumulate(
        mut self,
        group: usize,
        p: usize,
        f: [f64; 4],
        k: usize,
        r: [f64; 2],
        y: f64,
    ) -> BlockNormal
        ensures { result ≡ accumulate_of group p f k r y self }
    {
        if group < 32 && p <= 4 && k <= 2 {
            self.add_reading(group, &f[..p], &r[..k], y);
        }
        self
    }

    // Group g's block gets the inverse, and its right-hand side loses the inverse times the group's effects b. By index,
    // into the flat arrays.
    fn add_group_prior(&mut self, g: usize, inverse: [[f64; 2]; 2], b: &[f64])
        requires { (g < 32) × (length b.now ≤ 2) }
        ensures { self.new ≡ prior_group inverse g (length b.now) b.now self.old }
    {
        for i in 0..b.len() {
            for j in 0..b.len() {
                self.random[g * 4 + i * 2 + j] += inverse[i][j];
            }
            self.random_rhs[g * 2 + i] -= times(inverse, i, b);
        }
    }

    // Each group's block gets the covariance's inverse, and its right-hand side loses the inverse
    // times its effects b. Effects for which there is no place add nothing.
    pub fn add_prior(
        mut self,
        k: usize,
        group_count: usize,
        inverse: [[f64; 2]; 2],
        b: &[f64],
    ) -> BlockNormal
        ensures { result ≡ prior_of k group_count inverse b.now self }
    {
        if k <= 2 && group_count <= 32 && b.len() == group_count * k {
            // By index: g is a place in the flat arrays too, and k may be 0 here, where `chunks_exact` stops.
            for g in 0..group_count {
                let from = g * k;
                self.add_group_prior(g, inverse, &b[from..from + k]);
            }
        }
        self
    }
}
