// A line of what the program writes: a weighing in the document's words, and whether it came out.
use std::fmt::Display;
use std::io;
use std::io::Write;

pub fn say<W: Write, D: Display + Drop>(out: &mut W, weighing: D, holds: bool) -> io::Result<()> {
    let verdict = if holds { "ok" } else { "WRONG" };
    writeln!(out, "{weighing}: {verdict}")
}
