// Every line of an input, judged and counted.
ghost use Rattle.std.specs.Prelude.{◌≡◌, ◌<◌, ◌≤◌, length, map, IfSome, IfOk, IfErr};
ghost use Rattle.replay_cases.specs.Counts.{operations_of};

use crate::lines::{LONGEST, Lines};
use crate::tally::{Operation, ROOM, Tally, Verdict, verdict_of};
use crate::words::Words;
use std::alloc::{AllocError, Global};
use std::io;
use std::io::{BufRead, Read};

// The place of the operation of this name.
fn place_of(operations: &[Operation], name: &[u8]) -> Option<usize>
    ensures { IfSome result (λ op. op < length operations.now) }
{
    operations
        .iter()
        .position(|operation| operation.name.as_bytes() == name)
}

// A judge reads the rest of a line after the operation's name and says whether what is computed
// agrees with what is stored; a line that it does not read to its end is malformed.
fn verdict<J: Fn(&str, &mut Words<'_>) -> Option<bool>>(
    line: &[u8],
    operations: &[Operation],
    judge: &J,
) -> Verdict
    requires { J.IsAlwaysCallable judge.now }
{
    let mut words = Words::new(line);
    let Some(op) = words.word().and_then(|name| place_of(operations, name)) else {
        return Verdict::Malformed;
    };
    let agrees = judge(operations[op].name, &mut words);
    verdict_of(op, words.end().and(agrees))
}

// Each line of the input, judged and counted. What the counts come to, it does not state: what a judge answers is known of no line.
pub fn replay_lines<R: Read + Drop, J: Fn(&str, &mut Words<'_>) -> Option<bool>>(
    input: R,
    names: &[&'static str],
    judge: J,
) -> Tally
    requires judge { J.IsAlwaysCallable judge }
    requires names { length names.now ≤ ROOM }
    ensures names { map (λ o. o.name) (operations_of result) ≡ names.now }
{
    let mut tally = Tally::of_names(names);
    let mut buf = [0u8; LONGEST];
    let mut lines = Lines::new(input, &mut buf);
    // The range's end shows that the loop ends; no input has so many lines.
    for number in 1..u64::MAX {
        match lines.advance() {
            Some(Ok(())) => {
                let verdict = verdict(lines.line(), tally.operations(), &judge);
                tally.count(number, verdict);
            }
            Some(Err(_)) => tally.count_unread(),
            None => break,
        }
    }
    tally
}

// The same without a condition on the names: more than a tally has room for are refused. Nothing is taken from the allocator.
pub fn replay<B: BufRead + Drop, J: Fn(&str, &mut Words<'_>) -> Option<bool>>(
    alloc: Global,
    input: B,
    names: &[&'static str],
    judge: J,
) -> Result<Tally, AllocError>
    requires { J.IsAlwaysCallable judge }
    ensures names { IfOk result (λ t. map (λ o. o.name) (operations_of t) ≡ names.now) }
    ensures refused { IfErr result (λ _. ROOM < length names.now) }
{
    if names.len() > ROOM {
        return Err(AllocError);
    }
    Ok(replay_lines(input, names, judge))
}

// A whole program: its input replayed, and the tally printed. It states nothing: std's contracts say neither what the input
// holds nor what was printed.
pub fn replay_and_print<P: Print, R: Read + Drop, J: Fn(&str, &mut Words<'_>) -> Option<bool>>(
    rt: &P,
    input: R,
    names: &[&'static str],
    judge: J,
) -> io::Result<()>
    requires judge { J.IsAlwaysCallable judge }
    requires names { length names.now ≤ ROOM }
{
    let tally = replay_lines(input, names, judge);
    print!(rt; "{tally}")
}

// The same of standard input; too many names end it with an error. It states nothing either.
pub fn replay_input<R: Input + Print + AllocGlobal, J: Fn(&str, &mut Words<'_>) -> Option<bool>>(
    rt: &R,
    names: &[&'static str],
    judge: J,
) -> io::Result<()>
    requires { J.IsAlwaysCallable judge }
{
    let tally = replay(rt.alloc(), rt.reader(), names, judge)?;
    print!(rt; "{tally}")
}

#[cfg(test)]
mod tests {
    use super::*;
    use std::alloc::{Alloc, Allocator};
    use std::fmt::Display;
    use std::io::{ErrorKind, Input, Print};
    use std::test::Fail;

    // A judge of lines `NAME 1`.
    fn says_one(_name: &str, words: &mut Words<'_>) -> Option<bool> {
        words.says(1u64)
    }

    #[test]
    fn counts_each_line(rt: HostRuntime) {
        let input: &[u8] = b"a 1\nb 2\na\nc 1\na 1\nb 1";
        let tally = replay_lines(input, &["a", "b"], says_one);
        assert!(rt; tally.operations().len() == 2, "two operations");
        let a = tally.operations()[0];
        assert!(rt; a.lines == 2);
        assert!(rt; a.agree == 2);
        let b = tally.operations()[1];
        assert!(rt; b.lines == 1);
        assert!(rt; b.first_differs == Some(2));
        assert!(rt; tally.malformed == 2);
        assert!(rt; tally.first_malformed == Some(3));
        assert!(rt; tally.unread == 1);
    }

    #[test]
    fn counts_or_refuses(rt: HostRuntime) -> Result<(), Fail> {
        let input: &[u8] = b"a 1\nb 2\na\n";
        let tally = replay(rt.alloc(), input, &["a", "b"], says_one)?;
        assert!(rt; tally.operations().len() == 2, "two operations");
        let a = tally.operations()[0];
        assert!(rt; a.agree == 1);
        let b = tally.operations()[1];
        assert!(rt; b.first_differs == Some(2));
        assert!(rt; tally.malformed == 1);
        assert!(rt; replay(rt.alloc(), input, &["a"; ROOM + 1], says_one).is_err());
        Ok(())
    }

    // Its standard input is `a 1`, and it takes no other text than that input's tally.
    #[derive(Drop)]
    struct Console {
        alloc: Global,
    }

    impl Alloc for Console {
        type A = Global;

        fn alloc(&self) -> Global {
            self.alloc
        }
    }

    impl Input for Console {
        type Reader = &'static [u8];

        fn read_line<A: Allocator + Clone>(&self, buf: &mut String<A>) -> io::Result<usize> {
            self.reader().read_line(buf)
        }

        fn lines<A: Allocator>(&self, alloc: A) -> io::Lines<&'static [u8], A> {
            self.reader().lines(alloc)
        }

        fn reader(&self) -> &'static [u8] {
            b"a 1\n"
        }
    }

    impl Print for Console {
        fn print<D: Display + Drop>(&self, value: D) -> io::Result<()> {
            let text = format!(in self.alloc; "{value}")?;
            self.write_all(text.as_bytes())
        }

        fn println<D: Display + Drop>(&self, value: D) -> io::Result<()> {
            self.print(value)
        }

        fn write_all(&self, bytes: &[u8]) -> io::Result<()> {
            if bytes != b"a: 1 of 1 agree\nmalformed: 0\n".as_slice() {
                return Err(io::Error::from(ErrorKind::InvalidData));
            }
            Ok(())
        }
    }

    #[test]
    fn prints_what_it_counts(rt: HostRuntime) -> Result<(), Fail> {
        let console = Console { alloc: rt.alloc() };
        replay_input(&console, &["a"], says_one)?;
        replay_and_print(&console, console.reader(), &["a"], says_one)?;
        let other = replay_input(&console, &["b"], says_one);
        assert!(rt; other.is_err_and(|e| e.kind() == ErrorKind::InvalidData));
        let refused = replay_input(&console, &["a"; ROOM + 1], says_one);
        assert!(rt; refused.is_err_and(|e| e.kind() == ErrorKind::OutOfMemory));
        Ok(())
    }
}
