// What a replay counts and prints.
ghost use Rattle.std.specs.Prelude.{◌≡◌, ◌≤◌, ◌<◌, if◌then◌else◌, map, replicate, length, Some, None, IfOk, IfErr};
ghost use Rattle.std.specs.Option.{option_or};
ghost use Rattle.replay_cases.specs.Tally.{verdict_of};
ghost use Rattle.replay_cases.specs.declared.tally.TheConstants.{ROOM};

use std::alloc::{AllocError, Global};
use std::fmt;

// What a line comes to: the operation's place, and whether the answers agree.
#[derive(Clone, Copy, Debug, PartialEq, Eq)]
pub enum Verdict {
    Agrees(usize),
    Differs(usize),
    Malformed,
}

// Of a line of operation `op`, by whether the answers agree, which a malformed line does not say. `op` is a place and no
// kind: which operations there are, each program says.
pub fn verdict_of(op: usize, agrees: Option<bool>) -> Verdict
    ensures { result ≡ verdict_of op agrees }
{
    match agrees {
        Some(true) => Verdict::Agrees(op),
        Some(false) => Verdict::Differs(op),
        None => Verdict::Malformed,
    }
}

// The lines of an operation, and how many agreed.
#[derive(Clone, Copy, Debug)]
pub struct Operation {
    pub name: &'static str,
    pub lines: u64,
    pub agree: u64,
    pub first_differs: Option<u64>,
    ghost sound: { agree ≤ lines },
}

impl Operation {
    ghost use Rattle.replay_cases.specs.Counts.{counts_of, no_lines, agreed, differed};

    pub fn new(name: &'static str) -> Self
        ensures name { result.name ≡ name.entry }
        ensures counts { counts_of result ≡ no_lines }
    {
        Operation {
            name,
            lines: 0,
            agree: 0,
            first_differs: None,
        }
    }

    // With line `number`, which is one of this operation.
    fn counted(mut self, number: u64, agrees: bool) -> Self
        ensures name { result.name ≡ self.name }
        ensures counts { counts_of result ≡ (if agrees then agreed (counts_of self) else differed number (counts_of self)) }
    {
        self.lines = self.lines.saturating_add(1);
        if agrees {
            self.agree = self.agree.saturating_add(1);
        } else {
            self.first_differs = self.first_differs.or(Some(number));
        }
        self
    }
}

// `exp: 4499 of 4499 agree`, and the first line that differs, if there is one.
impl fmt::Display for Operation {
    fn fmt<W: fmt::Write>(&self, f: &mut fmt::Formatter<W>) -> fmt::Result {
        writeln!(f, "{}: {} of {} agree", self.name, self.agree, self.lines)?;
        if let Some(number) = self.first_differs {
            writeln!(f, "{} first differs in line {number}", self.name)?;
        }
        Ok(())
    }
}

// The most operations of a tally. They stand in an array and no `Vec`, so that a tally is copied and `of_names` can't fail. The
// array's length is no const parameter: the kit proves nothing of one whose elements hold references, as the names are.
pub const ROOM: usize = 16;

#[derive(Clone, Copy, Debug)]
pub struct Tally {
    room: [Operation; ROOM],
    // How many of the room's places are operations; they come first.
    used: usize,
    pub malformed: u64,
    pub first_malformed: Option<u64>,
    // Lines without an end or too long, and a failed read.
    pub unread: u64,
    // Of an array behind a `&mut` no proof knows the length.
    ghost places: { length room ≡ ROOM },
    ghost fits: { used ≤ ROOM },
}

impl Tally {
    ghost use Rattle.replay_cases.specs.Counts.{operations_of, counts_of, no_lines, count_up, counts_after, is_malformed};

    // More names than there is room for are refused. Nothing is taken from the allocator: a tally that is copied owns no memory.
    pub fn new(alloc: Global, names: &[&'static str]) -> Result<Self, AllocError>
        ensures names { IfOk result (λ t. map (λ o. o.name) (operations_of t) ≡ names.now) }
        ensures counts { IfOk result (λ t. map counts_of (operations_of t) ≡ replicate (length names.now) no_lines) }
        ensures malformed { IfOk result (λ t. t.malformed ≡ 0) }
        ensures first { IfOk result (λ t. t.first_malformed ≡ None) }
        ensures unread { IfOk result (λ t. t.unread ≡ 0) }
        ensures refused { IfErr result (λ _. ROOM < length names.now) }
    {
        if names.len() > ROOM {
            return Err(AllocError);
        }
        Ok(Tally::of_names(names))
    }

    // Of names that fit, and so it can't fail.
    pub fn of_names(names: &[&'static str]) -> Self
        requires { length names.now ≤ ROOM }
        ensures names { map (λ o. o.name) (operations_of result) ≡ names.now }
        ensures counts { map counts_of (operations_of result) ≡ replicate (length names.now) no_lines }
        ensures malformed { result.malformed ≡ 0 }
        ensures first { result.first_malformed ≡ None }
        ensures unread { result.unread ≡ 0 }
    {
        let mut room = [Operation::new(""); ROOM];
        for (i, name) in names.iter().enumerate() {
            room[i] = Operation::new(name);
        }
        Tally {
            room,
            used: names.len(),
            malformed: 0,
            first_malformed: None,
            unread: 0,
        }
    }

    // Of each name one, in the order of the names.
    pub fn operations(&self) -> &[Operation]
        ensures { result.now ≡ operations_of self.now }
    {
        &self.room[..self.used]
    }

    // The line of this number, counted.
    #[tactic(auto, using(crate::proofs::Counts::counting))]
    pub fn count(&mut self, number: u64, verdict: Verdict)
        ensures names { map (λ o. o.name) (operations_of self.new) ≡ map (λ o. o.name) (operations_of self.old) }
        ensures counts { map counts_of (operations_of self.new) ≡ counts_after number verdict (map counts_of (operations_of self.old)) }
        ensures malformed { self.new.malformed ≡ (if is_malformed (length (operations_of self.old)) verdict then count_up self.old.malformed else self.old.malformed) }
        ensures first { self.new.first_malformed ≡ (if is_malformed (length (operations_of self.old)) verdict then option_or self.old.first_malformed (Some number) else self.old.first_malformed) }
        ensures unread { self.new.unread ≡ self.old.unread }
    {
        match verdict {
            Verdict::Agrees(op) if op < self.used => {
                self.room[op] = self.operations()[op].counted(number, true)
            }
            Verdict::Differs(op) if op < self.used => {
                self.room[op] = self.operations()[op].counted(number, false)
            }
            _ => {
                self.malformed = self.malformed.saturating_add(1);
                self.first_malformed = self.first_malformed.or(Some(number));
            }
        }
    }

    pub fn count_unread(&mut self)
        ensures operations { operations_of self.new ≡ operations_of self.old }
        ensures malformed { self.new.malformed ≡ self.old.malformed }
        ensures first { self.new.first_malformed ≡ self.old.first_malformed }
        ensures unread { self.new.unread ≡ count_up self.old.unread }
    {
        self.unread = self.unread.saturating_add(1);
    }
}

// Each operation, then `malformed: 0`, and what else went wrong, if anything did.
impl fmt::Display for Tally {
    fn fmt<W: fmt::Write>(&self, f: &mut fmt::Formatter<W>) -> fmt::Result {
        for operation in self.operations() {
            write!(f, "{operation}")?;
        }
        writeln!(f, "malformed: {}", self.malformed)?;
        if let Some(number) = self.first_malformed {
            writeln!(f, "malformed first in line {number}")?;
        }
        if self.unread > 0 {
            writeln!(f, "lines that could not be read: {}", self.unread)?;
        }
        Ok(())
    }
}

#[cfg(test)]
mod tests {
    use super::*;
    use std::test::Fail;

    #[test]
    fn begins_with_no_lines(rt: HostRuntime) {
        let tally = Tally::of_names(&["a", "b", "c"]);
        assert!(rt; tally.operations().len() == 3);
        assert!(rt; tally.unread == 0);
        let none = Tally::of_names(&[]);
        assert!(rt; none.operations().is_empty());
    }

    // There is room for none, and for as many names as `ROOM` says.
    #[test]
    fn begins_or_refuses(rt: HostRuntime) -> Result<(), Fail> {
        let none = Tally::new(rt.alloc(), &[])?;
        assert!(rt; none.operations().is_empty());
        let most = Tally::new(rt.alloc(), &["a"; ROOM])?;
        assert!(rt; most.operations().len() == 16);
        assert!(rt; Tally::new(rt.alloc(), &["a"; ROOM + 1]).is_err());
        Ok(())
    }

    // The first stays as it was.
    #[test]
    fn counts_on_in_a_copy(rt: HostRuntime) {
        let first = Tally::of_names(&["a"]);
        let mut copy = first;
        copy.count(1, Verdict::Agrees(0));
        copy.count(2, Verdict::Malformed);
        assert!(rt; copy.operations().len() == 1);
        assert!(rt; copy.operations()[0].lines == 1);
        assert!(rt; copy.malformed == 1);
        assert!(rt; first.operations().len() == 1);
        assert!(rt; first.operations()[0].lines == 0);
        assert!(rt; first.malformed == 0);
    }
}
