// The command `refit`: see `refit help`. The work is done by the crate refit_run, on slices; here are the words, the files, and
// what is written where.
#![tactic(auto)]

pub mod starts;

ghost use Rattle.std.specs.Prelude.{◌≤◌, length, IfOk};

use crate::starts::read_starts;
use read_table::TableError;
use read_table::fault::TableFault;
use refit_options::options::{Asked, Command, Fit, OptionError, OptionFault, Page, Task};
use refit_run::readings::{CANISTERS, READINGS, Readings};
use std::io::{Read, Write};
use std::rt::Files;
use std::{fs, io, str};
use text_buffer::{Span, Text};

// A file has at most so many bytes; a longer one is told by the byte after them.
const LONGEST: usize = 65536;

const FILE: usize = LONGEST + 1;

// The room for a report, for a picture, for the help and for a fault in words: of a fixed size, as what writes into it
// allocates nothing.
const REPORT: usize = 131072;

pub const PICTURE: usize = 131072;

const HELP: usize = 65536;

const WORDS: usize = 4096;

// R's data set Orange.
const ORANGE: &[u8] =
    b"# R's data set Orange: the age in days (dose), the circumference in mm (grams), the tree (canister).\nage,circumference,tree\n118,30,1\n484,58,1\n664,87,1\n1004,115,1\n1231,120,1\n1372,142,1\n1582,145,1\n118,33,2\n484,69,2\n664,111,2\n1004,156,2\n1231,172,2\n1372,203,2\n1582,203,2\n118,30,3\n484,51,3\n664,75,3\n1004,108,3\n1231,115,3\n1372,139,3\n1582,140,3\n118,32,4\n484,62,4\n664,112,4\n1004,167,4\n1231,179,4\n1372,209,4\n1582,214,4\n118,30,5\n484,49,5\n664,81,5\n1004,125,5\n1231,142,5\n1372,174,5\n1582,177,5\n";

// The runtime, and the writers for what is asked for and for faults.
#[derive(Drop)]
struct Console<'a, R, O: Write, E: Write> {
    rt: &'a R,
    out: O,
    err: E,
}

// What a run is asked for, the name that faults of its readings are told with, and the picture's.
#[derive(Clone, Copy)]
struct Job<'a> {
    task: Task,
    source: &'a [u8],
    svg: Option<&'a [u8]>,
}

// The start values by hand.
fn given<'a>(fit: Fit<'a>) -> Result<Option<[f64; 4]>, OptionError<'a>> {
    let Some(word) = fit.start else {
        return Ok(None);
    };
    match read_starts(word, fit.settings.curve.n_params()) {
        Some(starts) => Ok(Some(starts)),
        None => Err(OptionError {
            word,
            fault: OptionFault::WrongStarts,
        }),
    }
}

fn job_of<'a>(fit: Fit<'a>) -> Result<Job<'a>, OptionError<'a>> {
    let task = Task {
        settings: fit.settings,
        given: given(fit)?,
        example: fit.file.is_none(),
        picture: fit.svg.is_some(),
    };
    Ok(Job {
        task,
        source: fit.file.unwrap_or(b"the example"),
        svg: fit.svg,
    })
}

// A system's reason in words, without the number that std puts after them.
fn without_number(reason: &str) -> &str {
    match reason.split_once(" (os error ") {
        Some((words, _)) => words,
        None => reason,
    }
}

// A file's name, which std takes as text.
fn path(name: &[u8]) -> io::Result<&str> {
    match str::from_utf8(name) {
        Ok(text) => Ok(text),
        Err(_) => Err(io::Error::new(
            io::ErrorKind::InvalidInput,
            "the file's name is no UTF-8 text",
        )),
    }
}

// The line of a fault; a text without lines has none.
fn line_of(e: TableError) -> Option<u64> {
    if e.read.lines == 0 {
        None
    } else {
        Some(e.read.lines)
    }
}

// A file's first bytes, as many as there is room for, and how many they are. By hand: read_to_end wants a Vec, and
// read_exact fails at an end before the room is full.
fn read_file<R: Files>(rt: &R, name: &[u8], text: &mut [u8]) -> io::Result<usize>
    ensures { IfOk result (λ n. n ≤ length text.new) }
{
    let mut file = fs::open(rt, path(name)?)?;
    let mut done = 0usize;
    while done < text.len() {
        let n = file.read(&mut text[done..])?;
        if n == 0 {
            break;
        }
        done += n;
    }
    Ok(done)
}

impl<'a, R: Files + AllocGlobal, O: Write, E: Write> Console<'a, R, O, E> {
    // `refit: `, what is at fault, `: ` and the fault in words.
    fn complain(&mut self, what: &[u8], words: &[u8]) -> io::Result<()> {
        self.err.write_all(b"refit: ")?;
        self.err.write_all(what)?;
        self.err.write_all(b": ")?;
        self.err.write_all(words)?;
        self.err.write_all(b"\n")
    }

    // `refit: `, the file's name and the system's reason.
    fn fail(&mut self, name: &[u8], error: io::Error) -> io::Result<()> {
        let reason = format!(in self.rt.alloc(); "{error}")?;
        self.complain(name, without_number(reason.as_str()).as_bytes())
    }

    // `refit: `, what is at fault and what is written of it.
    fn complain_in<F: FnOnce(&mut Text<'_>)>(&mut self, what: &[u8], write: F) -> io::Result<()>
        requires { F.IsAlwaysCallable write }
    {
        let mut room = [0u8; WORDS];
        let mut words = Text::new(&mut room);
        write(&mut words);
        self.complain(what, words.written())
    }

    fn complain_of_word(&mut self, e: OptionError<'_>) -> io::Result<()> {
        self.complain_in(e.word, |words| {
            refit_options::options::fault(words, e.fault)
        })
    }

    fn complain_of_line(
        &mut self,
        name: &[u8],
        line: Option<u64>,
        fault: TableFault,
    ) -> io::Result<()> {
        self.complain_in(name, |words| {
            refit_options::words::line_fault(words, line, fault)
        })
    }

    fn print(&mut self, page: Page) -> io::Result<()> {
        match page {
            Page::Help => {
                let mut room = [0u8; HELP];
                let mut help = Text::new(&mut room);
                refit_options::help::help(&mut help);
                self.out.write_all(help.written())
            }
            Page::Version => self.out.write_all(b"refit 0.1.0, of Kemroul\n"),
        }
    }

    // The picture goes to the file that was named.
    fn save(&mut self, name: &[u8], svg: &[u8]) -> io::Result<()> {
        match path(name).and_then(|name| fs::write(self.rt, name, svg)) {
            Err(e) => self.fail(name, e),
            Ok(()) => {
                self.out.write_all(b"\nThe picture is in ")?;
                self.out.write_all(name)?;
                self.out.write_all(b"\n")
            }
        }
    }

    fn picture(&mut self, name: &[u8], svg: &Text<'_>) -> io::Result<()> {
        if svg.is_full() {
            return self.complain(b"--svg", b"the picture is too large; none was written");
        }
        if svg.written().is_empty() {
            return self.complain(
                b"--svg",
                b"no picture was written: there is no fit, or the readings span no range that can be drawn",
            );
        }
        self.save(name, svg.written())
    }

    fn show(&mut self, svg_name: Option<&[u8]>, out: &Text<'_>, svg: &Text<'_>) -> io::Result<()> {
        if out.is_full() {
            return self.complain(b"report", b"it is too long to be printed");
        }
        if let Err(e) = self.out.write_all(out.written()) {
            return self.fail(b"standard output", e);
        }
        match svg_name {
            Some(name) => self.picture(name, svg),
            None => Ok(()),
        }
    }

    // The report and the picture of readings.
    fn refit(&mut self, job: &Job<'_>, readings: &Readings<'_>) -> io::Result<()> {
        let mut out = [0u8; REPORT];
        let mut svg = [0u8; PICTURE];
        let mut report = Text::new(&mut out);
        let mut picture = Text::new(&mut svg);
        match refit_run::run(&job.task, readings, &mut report, &mut picture) {
            Err(fault) => self.complain_of_line(job.source, None, fault),
            Ok(()) => self.show(job.svg, &report, &picture),
        }
    }

    fn from_text(&mut self, job: &Job<'_>, text: &[u8]) -> io::Result<()> {
        let mut doses = [0.0; READINGS];
        let mut grams = [0.0; READINGS];
        let mut groups = [0; READINGS];
        let mut names = [Span { start: 0, stop: 0 }; CANISTERS];
        match read_table::read_table(text, &mut doses, &mut grams, &mut groups, &mut names) {
            Err(e) => self.complain_of_line(job.source, line_of(e), e.fault),
            Ok(read) => {
                let readings = Readings {
                    text,
                    doses: &doses[..read.count],
                    grams: &grams[..read.count],
                    groups: &groups[..read.count],
                    names: &names,
                    canisters: read.canisters,
                };
                self.refit(job, &readings)
            }
        }
    }

    // The whole file, or the reason why it is not read.
    fn from_file(&mut self, job: &Job<'_>, name: &[u8]) -> io::Result<()> {
        let mut text = [0u8; FILE];
        match read_file(self.rt, name, &mut text) {
            Err(e) => self.fail(name, e),
            Ok(n) if n > LONGEST => self.complain(
                name,
                b"the file is longer than 65536 bytes, or was not read whole",
            ),
            Ok(n) => self.from_text(job, &text[..n]),
        }
    }

    fn fits(&mut self, fit: Fit<'_>) -> io::Result<()> {
        match (job_of(fit), fit.file) {
            (Err(e), _) => self.complain_of_word(e),
            (Ok(job), Some(name)) => self.from_file(&job, name),
            (Ok(job), None) => self.from_text(&job, ORANGE),
        }
    }
}

// What the words ask for, each of which ends with a 0.
fn asked(words: &[u8]) -> Result<Command<'_>, OptionError<'_>> {
    words
        .split_inclusive(|b| *b == 0)
        .try_fold(Asked::nothing(), |asked, word| {
            asked.next(word.strip_suffix(&[0]).unwrap_or(word))
        })?
        .last()
}

// What is asked for goes to `out`, a fault to `err`.
pub fn command<R: Files + AllocGlobal, O: Write + Drop, E: Write + Drop>(
    rt: &R,
    words: &[u8],
    out: O,
    err: E,
) -> io::Result<()> {
    let mut console = Console { rt, out, err };
    match asked(words) {
        Err(e) => console.complain_of_word(e),
        Ok(Command::Prints(page)) => console.print(page),
        Ok(Command::Fits(fit)) => console.fits(fit),
    }
}

#[cfg(test)]
mod tests {
    use super::*;
    use std::test::Fail;

    // The name and the system's reason, without the number that std puts after it.
    #[test]
    fn tells_of_a_missing_file(rt: HostRuntime) -> Result<(), Fail> {
        let mut to = Console {
            rt: &rt,
            out: Vec::new(rt.alloc()),
            err: Vec::new(rt.alloc()),
        };
        let mut text = [0u8; 16];
        match read_file(&rt, b"no/such/file", &mut text) {
            Ok(_) => assert!(rt; false, "a file that is not there was read"),
            Err(e) => to.fail(b"no/such/file", e)?,
        }
        assert!(rt; to.out.is_empty());
        assert!(rt;
            to.err.as_slice() == b"refit: no/such/file: No such file or directory\n".as_slice()
        );
        Ok(())
    }
}
