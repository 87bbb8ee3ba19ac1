// refit: see `refit help`. Here its words are put together; the crate refit_command does what they ask.
#![tactic(auto)]

ghost use Rattle.std.specs.Prelude.{◌≤◌, length, IfSome};

use std::env::FillError;
use std::io;
use std::io::Write;
use std::rt::Env;

// The words' room, in bytes: of a fixed size, as what reads them allocates nothing.
const WORDS: usize = 65536;

// How many bytes the words take, with a 0 after each; none where there is no room for them.
fn gathered<R: Env>(rt: &R, words: &mut [u8]) -> Option<usize>
    ensures { IfSome result (λ n. n ≤ length words.new) }
{
    let mut at = 0usize;
    for i in 1..usize::MAX {
        match rt.arg(i, &mut words[at..]) {
            Ok(n) if at + n < words.len() => at += n + 1,
            Ok(_) | Err(FillError::TooLong) => return None,
            Err(FillError::NotPresent) => break,
        }
    }
    Some(at)
}

fn main(rt: HostRuntime) -> io::Result<()> {
    let mut words = [0u8; WORDS];
    match gathered(&rt, &mut words) {
        Some(n) => refit_command::command(&rt, &words[..n], rt.stdout(), rt.stderr()),
        None => rt
            .stderr()
            .write_all(b"refit: the command line is too long\n"),
    }
}
