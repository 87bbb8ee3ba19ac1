// An input line by line, through a buffer that the caller lends. Files of any size work, and nothing here has a heap.
ghost use Rattle.std.specs.Prelude.{◌≡◌, ◌≢◌, ◌+◌, ◌-◌, ◌≤◌, ◌<◌, ◌==◌, length, take, drop, slice_range, All, Ok, IfOk, IfSome};
ghost use Rattle.std.specs.List.{position};
ghost use Rattle.std.specs.Io.KnownBytes.{ReadConsumes};

use memchr::memchr;
use std::io;
use std::io::{ErrorKind, Read};

// The bytes that a line may have, its end among them: the length of the buffer that the replays lend.
pub const LONGEST: usize = 65536;

// Why a line is not handed out.
#[derive(Clone, Copy, Debug, PartialEq, Eq)]
pub enum Fault {
    NoEnd,
    TooLong,
    // The input could not be read, and no line follows.
    Unread,
}

impl From<io::Error> for Fault {
    fn from(_e: io::Error) -> Fault
        ensures { result ≡ Fault.Unread }
    {
        Fault::Unread
    }
}

// Where the input stands.
#[derive(Clone, Copy, Debug, PartialEq, Eq)]
enum Place {
    LineStart,
    // Within a line that is too long.
    LongLine,
    End,
}

// buf[from..to] is read and not handed out, and buf[start..end] is the line.
#[derive(Drop)]
pub struct Lines<'a, R> {
    input: R,
    buf: &'a mut [u8],
    start: usize,
    end: usize,
    from: usize,
    to: usize,
    place: Place,
    ghost line: { start ≤ end },
    ghost line_in_bounds: { end ≤ length buf.now },
    ghost ahead: { from ≤ to },
    ghost ahead_in_bounds: { to ≤ length buf.now },
}

// How many bytes stand before the first newline.
fn end_of_line(bytes: &[u8]) -> Option<usize>
    ensures { result ≡ position (λ b. b == 10) bytes.now }
{
    memchr(b'\n', bytes)
}

// The bytes from `from` to `to`, moved to the buffer's start.
fn move_down(buf: &mut [u8], from: usize, to: usize)
    requires ordered { from ≤ to }
    requires within { to ≤ length buf.old }
    ensures room { length buf.new ≡ length buf.old }
    ensures front { take (to - from) buf.new ≡ slice_range buf.old from to }
{
    if from > 0 {
        buf.copy_within(from..to, 0);
    }
}

// One read, behind the bytes that are held.
fn read_behind<R: Read>(input: &mut R, buf: &mut [u8], held: usize) -> io::Result<usize>
    requires { held ≤ length buf.old }
    ensures room { length buf.new ≡ length buf.old }
    ensures front { take held buf.new ≡ take held buf.old }
    ensures fits { IfOk result (λ n. held + n ≤ length buf.new) }
    ensures bytes { ReadConsumes (R.remaining input.old) (R.remaining input.new) result (drop held buf.new) }
{
    input.read(&mut buf[held..])
}

impl<'a, R: Read> Lines<'a, R> {
    ghost use Rattle.std.specs.Prelude.{◌≡◌, ◌≢◌, ◌∷◌, [], ◌++◌, ◌≤◌, ◌<◌, ◌==◌, length, take, All, Some, None, Ok, Err, true, false, IfOk, IfErr, IfSome, drop, option_map, ◌+◌};
    ghost use Rattle.std.specs.List.{position};
    ghost use Rattle.std.specs.Io.{StartsWith};
    ghost use Rattle.std.specs.Io.KnownBytes.{Keeps, IsAtEnd};
    ghost use Rattle.std.specs.Io.BufRead.{take_through, drop_through, DropsThrough};
    ghost use Rattle.replay_cases.specs.Lines.{held, line, bytes_ahead, bytes_left, room, IsOver};

    // Lines longer than the buffer are not handed out.
    pub fn new(input: R, buf: &'a mut [u8]) -> Self
        ensures bytes { bytes_left R.remaining result ≡ R.remaining input }
        ensures room { room result ≡ length buf.old }
    {
        Lines {
            input,
            buf,
            start: 0,
            end: 0,
            from: 0,
            to: 0,
            place: Place::LineStart,
        }
    }

    // The line that `advance` came to, without its end.
    pub fn line(&self) -> &[u8]
        ensures { result.now ≡ line self.now }
    {
        &self.buf[self.start..self.end]
    }

    fn held(&self) -> &[u8]
        ensures { result.now ≡ held self.now }
    {
        &self.buf[self.from..self.to]
    }

    // Goes on behind n bytes of what is held.
    fn pass(&mut self, n: usize)
        requires { n ≤ length (held self.old) }
        ensures room { room self.new ≡ room self.old }
        ensures place { self.new.place ≡ self.old.place }
        ensures input { self.new.input ≡ self.old.input }
        ensures line { line self.new ≡ line self.old }
        ensures held { held self.new ≡ drop n (held self.old) }
    {
        self.from += n;
    }

    // The line is what is held before byte `len`, which is its end.
    fn hand_out(&mut self, len: usize)
        requires { len < length (held self.old) }
        ensures room { room self.new ≡ room self.old }
        ensures place { self.new.place ≡ self.old.place }
        ensures input { self.new.input ≡ self.old.input }
        ensures line { line self.new ≡ take len (held self.old) }
        ensures held { held self.new ≡ drop (len + 1) (held self.old) }
    {
        self.start = self.from;
        self.end = self.from + len;
        self.pass(len + 1);
    }

    // One read more, behind what is held, which comes to the buffer's start. Whether the input may go on.
    fn fill(&mut self) -> Result<bool, Fault>
        ensures room { room self.new ≡ room self.old }
        ensures place { self.new.place ≡ self.old.place }
        ensures held { StartsWith (held self.new) (held self.old) }
        ensures bytes { Keeps (bytes_ahead R.remaining self.old) (bytes_ahead R.remaining self.new) }
        ensures end { result ≡ Ok false → (held self.new ≡ held self.old) × IsAtEnd (R.remaining self.new.input) }
        ensures ended { result ≢ Err Fault.NoEnd }
        ensures full { result ≡ Err Fault.TooLong → (held self.new ≡ held self.old) × (length (held self.old) ≡ room self.old) }
    {
        let held = self.to - self.from;
        if held == self.buf.len() {
            return Err(Fault::TooLong);
        }
        move_down(self.buf, self.from, self.to);
        self.from = 0;
        self.to = held;
        match read_behind(&mut self.input, self.buf, held) {
            Ok(n) => {
                self.to = held + n;
                Ok(n > 0)
            }
            Err(e) if e.kind() == ErrorKind::Interrupted => Ok(true),
            Err(_) => Err(Fault::Unread),
        }
    }

    // To the end of a line that is too long. Whether it has one.
    fn skip_line(&mut self) -> Result<bool, Fault>
        ensures room { room self.new ≡ room self.old }
        ensures bytes { result ≡ Ok true → Keeps (option_map (drop_through 10) (bytes_ahead R.remaining self.old)) (bytes_ahead R.remaining self.new) }
        ensures end { result ≡ Ok false → IsAtEnd (option_map (drop_through 10) (bytes_ahead R.remaining self.old)) }
        ensures fault { IfErr result (λ e. e ≡ Fault.Unread) }
    {
        for _ in 0..u64::MAX {
            if let Some(len) = end_of_line(self.held()) {
                self.pass(len + 1);
                return Ok(true);
            }
            self.pass(self.held().len());
            // A buffer of no bytes holds no line: a fault, lest it be found without end.
            if !self.fill().or(Err(Fault::Unread))? {
                return Ok(false);
            }
        }
        Err(Fault::Unread)
    }

    // How many bytes the next line has before its end, all of them held; `None` where there is no next line.
    fn read_line(&mut self) -> Result<Option<usize>, Fault>
        ensures room { room self.new ≡ room self.old }
        ensures bytes { Keeps (bytes_ahead R.remaining self.old) (bytes_ahead R.remaining self.new) }
        ensures line { IfOk result (λ o. IfSome o (λ n. position (λ b. b == 10) (held self.new) ≡ Some n)) }
        ensures end { result ≡ Ok None → IsAtEnd (bytes_ahead R.remaining self.new) }
        ensures no_end { result ≡ Err Fault.NoEnd → (0 < length (held self.new)) × All (λ b. b ≢ 10) (held self.new) × IsAtEnd (R.remaining self.new.input) }
        ensures too_long { result ≡ Err Fault.TooLong → All (λ b. b ≢ 10) (held self.new) × (length (held self.new) ≡ room self.old) }
    {
        let mut len = 0;
        for _ in 0..u64::MAX {
            if let Some(more) = end_of_line(&self.held()[len..]) {
                return Ok(Some(len + more));
            }
            len = self.held().len();
            if !self.fill()? {
                return if len == 0 {
                    Ok(None)
                } else {
                    Err(Fault::NoEnd)
                };
            }
        }
        Err(Fault::Unread)
    }

    // Goes on to where a line starts, unless the input ends before.
    fn skip_long_line(&mut self) -> Result<bool, Fault>
        ensures room { room self.new ≡ room self.old }
        ensures bytes { result ≡ Ok true → Keeps (bytes_left R.remaining self.old) (bytes_ahead R.remaining self.new) }
        ensures end { result ≡ Ok false → IsAtEnd (bytes_left R.remaining self.old) }
        ensures fault { IfErr result (λ e. e ≡ Fault.Unread) }
    {
        if self.place == Place::LongLine {
            return self.skip_line();
        }
        Ok(true)
    }

    // Hands out the next line, if there is one.
    fn next_line(&mut self) -> Result<Option<()>, Fault>
        ensures room { room self.new ≡ room self.old }
        ensures line { result ≡ Ok (Some tt) → IfSome (bytes_left R.remaining self.old) (λ xs. take_through 10 xs ≡ line self.new ++ 10 ∷ []) }
        ensures fits { result ≡ Ok (Some tt) → length (line self.new) < room self.new }
        ensures rest { result ≡ Ok (Some tt) → DropsThrough (bytes_left R.remaining self.old) (bytes_ahead R.remaining self.new) 10 }
        ensures end { result ≡ Ok None → IsAtEnd (bytes_left R.remaining self.old) }
        ensures no_end { result ≡ Err Fault.NoEnd → IfSome (bytes_left R.remaining self.old) (λ xs. (0 < length xs) × All (λ b. b ≢ 10) xs) }
        ensures too_long { result ≡ Err Fault.TooLong → IfSome (bytes_left R.remaining self.old) (λ xs. (room self.old ≤ length xs) × All (λ b. b ≢ 10) (take (room self.old) xs)) }
        ensures rest_too_long { result ≡ Err Fault.TooLong → Keeps (bytes_left R.remaining self.old) (bytes_ahead R.remaining self.new) }
    {
        if !self.skip_long_line()? {
            return Ok(None);
        }
        let Some(len) = self.read_line()? else {
            return Ok(None);
        };
        self.hand_out(len);
        Ok(Some(()))
    }

    // Goes to the next line; `None` where there is none.
    pub fn advance(&mut self) -> Option<Result<(), Fault>>
        ensures room { room self.new ≡ room self.old }
        ensures line { result ≡ Some (Ok tt) → IfSome (bytes_left R.remaining self.old) (λ xs. take_through 10 xs ≡ line self.new ++ 10 ∷ []) }
        ensures fits { result ≡ Some (Ok tt) → length (line self.new) < room self.new }
        ensures rest { result ≡ Some (Ok tt) → DropsThrough (bytes_left R.remaining self.old) (bytes_left R.remaining self.new) 10 }
        ensures end { result ≡ None → IsAtEnd (bytes_left R.remaining self.old) }
        ensures no_end { result ≡ Some (Err Fault.NoEnd) → IfSome (bytes_left R.remaining self.old) (λ xs. (0 < length xs) × All (λ b. b ≢ 10) xs) }
        ensures too_long { result ≡ Some (Err Fault.TooLong) → IfSome (bytes_left R.remaining self.old) (λ xs. (room self.old ≤ length xs) × All (λ b. b ≢ 10) (take (room self.old) xs)) }
        ensures rest_too_long { result ≡ Some (Err Fault.TooLong) → DropsThrough (bytes_left R.remaining self.old) (bytes_left R.remaining self.new) 10 }
        ensures last { result ≢ Some (Ok tt) → result ≢ Some (Err Fault.TooLong) → IsOver self.new }
        ensures over { IsOver self.old → result ≡ None }
    {
        if self.place == Place::End {
            return None;
        }
        let line = self.next_line();
        self.place = match line {
            Ok(Some(())) => Place::LineStart,
            Err(Fault::TooLong) => Place::LongLine,
            _ => Place::End,
        };
        line.transpose()
    }
}

#[cfg(test)]
mod tests {
    use super::*;

    #[test]
    fn hands_out_each_line(rt: HostRuntime) {
        let input: &[u8] = b"abc\n\nabcd\ne\nf";
        let mut buf = [0; 4];
        let mut lines = Lines::new(input, &mut buf);
        assert!(rt; lines.advance() == Some(Ok(())));
        assert!(rt; lines.line() == b"abc".as_slice());
        assert!(rt; lines.advance() == Some(Ok(())));
        assert!(rt; lines.line() == b"".as_slice());
        assert!(rt; lines.advance() == Some(Err(Fault::TooLong)));
        assert!(rt; lines.advance() == Some(Ok(())));
        assert!(rt; lines.line() == b"e".as_slice());
        assert!(rt; lines.advance() == Some(Err(Fault::NoEnd)));
        assert!(rt; lines.advance() == None);
    }

    // Gives a byte a read, every other read interrupted, and fails after the last byte.
    #[derive(Drop)]
    struct Slow<'a> {
        bytes: &'a [u8],
        interrupted: bool,
    }

    impl Read for Slow<'_> {
        fn read(&mut self, buf: &mut [u8]) -> io::Result<usize> {
            self.interrupted = !self.interrupted;
            if self.interrupted {
                return Err(io::Error::from(ErrorKind::Interrupted));
            }
            if self.bytes.is_empty() {
                return Err(io::Error::from(ErrorKind::ConnectionReset));
            }
            let n = buf.len().min(1);
            self.bytes.read(&mut buf[..n])
        }
    }

    fn read_once<R: Read>(input: &mut R) -> Result<usize, Fault> {
        let mut byte = [0; 1];
        Ok(input.read(&mut byte)?)
    }

    #[test]
    fn a_failed_read_is_unread(rt: HostRuntime) {
        let mut input = Slow {
            bytes: b"a",
            interrupted: true,
        };
        assert!(rt; read_once(&mut input) == Ok(1));
        assert!(rt; read_once(&mut input) == Err(Fault::Unread));
        let e = io::Error::from(ErrorKind::ConnectionReset);
        assert!(rt; Fault::from(e) == Fault::Unread);
    }

    #[test]
    fn reads_byte_by_byte(rt: HostRuntime) {
        let input = Slow {
            bytes: b"ab\nlonger\n\ncd",
            interrupted: false,
        };
        let mut buf = [0; 4];
        let mut lines = Lines::new(input, &mut buf);
        assert!(rt; lines.advance() == Some(Ok(())));
        assert!(rt; lines.line() == b"ab".as_slice());
        assert!(rt; lines.advance() == Some(Err(Fault::TooLong)));
        assert!(rt; lines.advance() == Some(Ok(())));
        assert!(rt; lines.line() == b"".as_slice());
        assert!(rt; lines.advance() == Some(Err(Fault::Unread)));
        assert!(rt; lines.advance() == None);
    }

    // Has an end before its last bytes, as a terminal that goes on.
    #[derive(Drop)]
    struct Terminal<'a> {
        before: &'a [u8],
        after: &'a [u8],
        ended: bool,
    }

    impl Read for Terminal<'_> {
        fn read(&mut self, buf: &mut [u8]) -> io::Result<usize> {
            if !self.before.is_empty() {
                return self.before.read(buf);
            }
            if !self.ended {
                self.ended = true;
                return Ok(0);
            }
            self.after.read(buf)
        }
    }

    #[test]
    fn reads_no_more_after_an_end(rt: HostRuntime) {
        let mut buf = [0; 4];
        let long = Terminal {
            before: b"abcdef",
            after: b"g\n",
            ended: false,
        };
        let mut lines = Lines::new(long, &mut buf);
        assert!(rt; lines.advance() == Some(Err(Fault::TooLong)));
        assert!(rt; lines.advance() == None);
        assert!(rt; lines.advance() == None);
    }

    #[test]
    fn reads_no_more_after_a_line_without_an_end(rt: HostRuntime) {
        let mut buf = [0; 4];
        let short = Terminal {
            before: b"ab",
            after: b"c\n",
            ended: false,
        };
        let mut lines = Lines::new(short, &mut buf);
        assert!(rt; lines.advance() == Some(Err(Fault::NoEnd)));
        assert!(rt; lines.advance() == None);
    }

    // Such a buffer holds no line.
    #[test]
    fn ends_without_a_buffer(rt: HostRuntime) {
        let input: &[u8] = b"a\n";
        let mut buf = [0; 0];
        let mut lines = Lines::new(input, &mut buf);
        assert!(rt; lines.advance() == Some(Err(Fault::TooLong)));
        assert!(rt; lines.advance() == Some(Err(Fault::Unread)));
        assert!(rt; lines.advance() == None);
    }
}
