// Reads small tables, good and bad, into lists of four readings and two canisters, and writes for
// each its fault, line, readings and canisters.
#![tactic(auto)]

use read_table::read_table;
use std::io;
use std::io::Write;
use text_buffer::Span;

fn shown<W: Write>(out: &mut W, text: &[u8]) -> io::Result<()> {
    let mut doses = [0.0; 4];
    let mut grams = [0.0; 4];
    let mut groups = [0; 4];
    let mut names = [Span { start: 0, stop: 0 }; 2];
    let (fault, read) = match read_table(text, &mut doses, &mut grams, &mut groups, &mut names) {
        Ok(read) => (0, read),
        Err(e) => (e.fault.number(), e.read),
    };
    writeln!(
        out,
        "{fault} {} {} {}",
        read.lines, read.count, read.canisters
    )
}

fn good<W: Write>(out: &mut W) -> io::Result<()> {
    shown(out, b"1 2 a\n2 3 b\n3,4,a\n")?;
    shown(out, b"dose;grams;canister\n1;2;a\r\n\n  # note\n2 ; 3 ; a")?;
    shown(
        out,
        b"\"dose\"\t\"grams\"\t\"can\"\n1.5\t\"2.5\"\t\"red-1\"\n",
    )?;
    shown(out, b"1 2 a\n1 2 b\n1 2 a\n1 2 b")?;
    // A byte order mark, and names that are no known words or stand in their columns.
    shown(out, b"\xef\xbb\xbfAGE,\"Height (m)\",whatever\n1,2,a\n")?;
    shown(out, b"\xef\xbb\xbf1 2 a\n")?;
    Ok(())
}

fn bad<W: Write>(out: &mut W) -> io::Result<()> {
    shown(out, b"1 2\n")?;
    shown(out, b"1 2 a b\n")?;
    shown(out, b"1 2 a\n\nx 2 a\n")?;
    shown(out, b"1 x a\n")?;
    shown(out, b"1234567890123456 2 a\n")?;
    shown(out, b"1 1e99 a\n")?;
    shown(out, b"1 2 a!\n")?;
    shown(out, b"1 2 \"\"\n")?;
    shown(out, b"1 2 a\n1 2 a\n1 2 a\n1 2 a\n1 2 a\n")?;
    shown(out, b"1 2 a\n1 2 b\n1 2 c\n")?;
    shown(out, b"")?;
    shown(out, b"dose grams can\ndose grams can\n")?;
    shown(out, b"1,,a\n")?;
    shown(out, b"1 2 a,\n")?;
    Ok(())
}

// A `#` that begins no line: in a name, in quotes, and behind a reading.
fn hashes<W: Write>(out: &mut W) -> io::Result<()> {
    shown(out, b"1,2,blue#1\n1,2,blue#2\n")?;
    shown(out, b"1,2,\"blue#1\"\n")?;
    shown(out, b"1 2 a\n1 2 a # last\n")?;
    Ok(())
}

// Decimal commas, and lines that have none.
fn commas<W: Write>(out: &mut W) -> io::Result<()> {
    shown(out, b"1,5;2,5;a\n")?;
    shown(out, b"118;30,5\n")?;
    shown(out, b"1,5\t2\ta\n")?;
    shown(out, b"1,5 2,5 a\n")?;
    shown(out, b"\"1,5\";2;a\n")?;
    shown(out, b"1;\"2,5\";a\n")?;
    shown(out, b"1 , 2 , a\n")?;
    shown(out, b"1,2\n")?;
    shown(out, b"1,5,2,5,a\n")?;
    shown(out, b"1 2,a\n")?;
    Ok(())
}

// Headers whose names are known words in another order.
fn headers<W: Write>(out: &mut W) -> io::Result<()> {
    shown(out, b"\"density\",\"conc\",\"Run\"\n1,2,a\n")?;
    shown(out, b"tree,circumference,x\n1,2,a\n")?;
    shown(out, b"a,b,grams\n1,2,a\n")?;
    shown(out, b"# note\n\ngrams dose canister\n")?;
    shown(out, b"dosage,gram,can\n1,2,a\n")?;
    // Of a name the letters that it begins with count.
    shown(out, b"x,dose2,run-1\n1,2,a\n")?;
    shown(out, b"dose2,x,run-1\n1,2,a\n")?;
    Ok(())
}

fn main(rt: HostRuntime) -> io::Result<()> {
    let mut out = rt.stdout();
    good(&mut out)?;
    bad(&mut out)?;
    hashes(&mut out)?;
    commas(&mut out)?;
    headers(&mut out)
}
