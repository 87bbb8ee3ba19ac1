// Runs the command `refit` on the files of data/, and writes what it writes: reports and pictures, and why a run is refused.
#![tactic(auto)]

use refit_command::{PICTURE, command};
use std::io::{Stdout, Write};
use std::rt::Files;
use std::{fs, io};

// A command line whose words each end with a 0, with spaces for the zeros.
fn headed(mut out: Stdout, words: &[u8]) -> io::Result<()> {
    out.write_all(b"\n$ refit ")?;
    for b in words {
        out.write_all(&[if *b == 0 { b' ' } else { *b }])?;
    }
    out.write_all(b"\n")
}

fn shown<R: Files + AllocGlobal>(rt: &R, out: Stdout, words: &[u8]) -> io::Result<()> {
    headed(out, words)?;
    command(rt, words, out, out)
}

// Of the picture that a run wrote, at most so many bytes.
fn picture<R: Files + AllocGlobal>(rt: &R, mut out: Stdout, most: usize) -> io::Result<()> {
    let svg = fs::read(rt, "picture.svg")?;
    out.write_all(&svg.as_slice()[..svg.len().min(most)])
}

// docs/fits-beside-r.md has these.
fn beside_r<R: Files + AllocGlobal>(rt: &R, out: Stdout) -> io::Result<()> {
    shown(rt, out, b"loblolly.csv\0--curve\0SSasymp\0")?;
    shown(rt, out, b"puromycin.csv\0--curve\0SSmicmen\0")?;
    shown(rt, out, b"dnase.csv\0")?;
    Ok(())
}

// Made-up readings, as a spreadsheet writes them: a byte order mark, carriage returns, semicolons, a header; and a comment.
fn a_machine<R: Files + AllocGlobal>(rt: &R, out: Stdout) -> io::Result<()> {
    shown(
        rt,
        out,
        b"machine.csv\0--curve\0SSmicmen\0--svg\0picture.svg\0",
    )?;
    picture(rt, out, PICTURE)?;
    Ok(())
}

// From the rate where the curve takes its logarithm, so that it explains nothing; and with quadrature.
fn warned<R: Files + AllocGlobal>(rt: &R, out: Stdout) -> io::Result<()> {
    shown(
        rt,
        out,
        b"--curve\0SSasymp\0--start\0175.8,31,0.0009259427\0--svg\0picture.svg\0",
    )?;
    // Up to the title.
    picture(rt, out, 365)?;
    shown(
        rt,
        out,
        b"machine.csv\0--curve\0SSfpl\0--effect\0B\0--quadrature\03\0--reml\0",
    )?;
    Ok(())
}

fn refused<R: Files + AllocGlobal>(rt: &R, out: Stdout) -> io::Result<()> {
    shown(rt, out, b"density_first.csv\0")?;
    shown(rt, out, b"hash.csv\0")?;
    shown(rt, out, b"comma.csv\0")?;
    // No bytes, and a byte order mark alone: there is no line that could be named.
    shown(rt, out, b"empty.csv\0")?;
    shown(rt, out, b"mark.csv\0")?;
    shown(rt, out, b"--ml\0machine.csv\0--reml\0")?;
    shown(rt, out, b"machine.csv\0--start\01,2\0")?;
    shown(rt, out, b"--effect\0K\0")?;
    Ok(())
}

fn words<R: Files + AllocGlobal>(rt: &R, out: Stdout) -> io::Result<()> {
    shown(rt, out, b"--version\0")?;
    shown(rt, out, b"-h\0")?;
    Ok(())
}

fn main(rt: HostRuntime) -> io::Result<()> {
    let out = rt.stdout();
    beside_r(&rt, out)?;
    a_machine(&rt, out)?;
    warned(&rt, out)?;
    refused(&rt, out)?;
    words(&rt, out)
}
