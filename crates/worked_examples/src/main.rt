// Executes document 01's weighings and fdlibm comparisons, a line for each with `ok` or `WRONG`.
#![tactic(auto)]

mod calls;
mod elementary;
mod readings;
mod rows;
mod say;
mod sizes;

use std::io;

fn main(rt: HostRuntime) -> io::Result<()> {
    let mut out = rt.stdout();
    rows::weigh_rows(&mut out)?;
    sizes::weigh_sizes(&mut out)?;
    elementary::weigh_exp(&mut out)?;
    elementary::weigh_ln(&mut out)
}
