// The rules of 3, 5, 7, 9 and 11 points for the weight exp(-z^2/2).
ghost use Rattle.std.specs.Prelude.{◌≡◌, ◌+◌, ◌≤◌, take, drop};
ghost use Rattle.quadrature.specs.Rules.{points_of, all_points, gh_rule};

// Each node with its weight: z = sqrt(2) * x, with x a root for the weight exp(-x^2); the weights sum to 1. Pairs and no `Point`s:
// 35 times `Point { z: .., w: .. }` would be no plainer to read as a table. The five rules stand in one list, so that the archive
// holds no table of addresses, which a linker or loader would have to write.
const GH: [(f64, f64); 35] = [
    // 3 points
    (-1.7320508075688772, 0.16666666666666669),
    (0.0, 0.6666666666666665),
    (1.7320508075688772, 0.16666666666666669),
    // 5 points
    (-2.8569700138728056, 0.011257411327720693),
    (-1.3556261799742659, 0.2220759220056126),
    (0.0, 0.5333333333333333),
    (1.3556261799742659, 0.2220759220056126),
    (2.8569700138728056, 0.011257411327720693),
    // 7 points
    (-3.7504397177257425, 0.0005482688559722182),
    (-2.3667594107345416, 0.03075712396758651),
    (-1.1544053947399682, 0.24012317860501273),
    (0.0, 0.45714285714285713),
    (1.1544053947399682, 0.24012317860501273),
    (2.3667594107345416, 0.03075712396758651),
    (3.7504397177257425, 0.0005482688559722182),
    // 9 points
    (-4.512745863399783, 2.2345844007746576e-5),
    (-3.2054290028564703, 0.0027891413212317653),
    (-2.07684797867783, 0.04991640676521791),
    (-1.0232556637891326, 0.2440975028949394),
    (0.0, 0.4063492063492064),
    (1.0232556637891326, 0.2440975028949394),
    (2.07684797867783, 0.04991640676521791),
    (3.2054290028564703, 0.0027891413212317653),
    (4.512745863399783, 2.2345844007746576e-5),
    // 11 points
    (-5.188001224374871, 8.121849790214923e-7),
    (-3.9361666071299766, 0.00019567193027122338),
    (-2.8651231606436456, 0.006720285235537264),
    (-1.876035020154846, 0.06613874607105782),
    (-0.9288689973810641, 0.24224029987396992),
    (0.0, 0.3694083694083694),
    (0.9288689973810641, 0.24224029987396992),
    (1.876035020154846, 0.06613874607105782),
    (2.8651231606436456, 0.006720285235537264),
    (3.9361666071299766, 0.00019567193027122338),
    (5.188001224374871, 8.121849790214923e-7),
];

// A node and its weight.
#[derive(Clone, Copy)]
pub struct Point {
    pub z: f64,
    pub w: f64,
}

// n points of the list. Not inlined: of the arms of `rule` the compiler would make a table of addresses again.
#[inline(never)]
fn part(from: usize, n: usize) -> &'static [(f64, f64)]
    requires { from + n ≤ 35 }
    ensures { result.now ≡ take n (drop from all_points) }
{
    &GH[from..from + n]
}

// The points of the rule of an order; none where there is no such rule.
fn rule(order: usize) -> &'static [(f64, f64)]
    ensures { result.now ≡ points_of order }
{
    match order {
        3 => part(0, 3),
        5 => part(3, 5),
        7 => part(8, 7),
        9 => part(15, 9),
        11 => part(24, 11),
        _ => part(0, 0),
    }
}

// The i-th point of the rule of an order; NaNs where there is none, and no Option: it answers for every i,
// and a sum over a rule asks for the rule's own points alone.
pub fn gh_rule(order: usize, i: usize) -> Point
    ensures { result ≡ gh_rule order i }
{
    let (z, w) = rule(order).get(i).copied().unwrap_or((f64::NAN, f64::NAN));
    Point { z, w }
}
