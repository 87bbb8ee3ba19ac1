// Reads the decimals of standard input, one a line, and writes the bits of each, or its fault. What
// it must write was made by Python's `float`, which rounds correctly.
#![tactic(auto)]

use read_decimal::read_decimal;
use replay_cases::lines::{LONGEST, Lines};
use std::io;
use std::io::Write;

fn answer<W: Write>(out: &mut W, line: &[u8]) -> io::Result<()> {
    match read_decimal(line) {
        Ok(x) => writeln!(out, "{:016x}", math::words::bits_of(x)),
        Err(e) => writeln!(out, "fault {}", e.number()),
    }
}

fn main(rt: HostRuntime) -> io::Result<()> {
    let mut out = rt.stdout();
    let mut buf = [0u8; LONGEST];
    let mut lines = Lines::new(rt.stdin(), &mut buf);
    // The range's end shows that the loop ends; no input has so many lines.
    for _ in 0..u64::MAX {
        match lines.advance() {
            Some(Ok(())) => answer(&mut out, lines.line())?,
            Some(Err(_)) => {}
            None => break,
        }
    }
    Ok(())
}
