// The words of a line, read one after the other. `None` is a fault; a caller reads all that a line
// should hold with `?`, and asks for its end last.
ghost use Rattle.std.specs.Prelude.{◌≡◌, ℕ, Bool, nat_eq, List, Option, ◌+◌, ◌≤◌, ◌↔◌, ◌==◌, Some, None, IsSome, IfSome, OnSome, length, take, drop, option_map, option_and_then};
ghost use Rattle.std.specs.List.{position};
ghost use Rattle.replay_cases.specs.Words.{elements, cut, first_word, after_word, after_words, after_values, values_put, list_of, list_put, places, said, said_list};
ghost use Rattle.replay_cases.specs.Digits.{whole_number_of, float_of};
ghost use Rattle.replay_cases.specs.Same.{same_bits};

use crate::digits::{float_of, whole_number};
use crate::same::same_float;
use std::marker::Model;

// What a word can say.
pub trait Value: Copy {
    ghost value_of: { List ℕ → Option Self };

    ghost same: { Self → Self → Bool };

    fn from_word(word: &[u8]) -> Option<Self>
        ensures { result ≡ value_of word.now };

    fn is_same(self, other: Self) -> bool
        ensures { result ≡ same self other };
}

impl Value for f64 {
    ghost value_of = { float_of };

    ghost same = { same_bits };

    fn from_word(word: &[u8]) -> Option<f64> {
        float_of(word)
    }

    fn is_same(self, other: f64) -> bool {
        same_float(self, other)
    }
}

impl Value for u64 {
    ghost value_of = { whole_number_of };

    ghost same = { nat_eq };

    fn from_word(word: &[u8]) -> Option<u64> {
        whole_number(word)
    }

    fn is_same(self, other: u64) -> bool {
        self == other
    }
}

// A count or an index.
impl Value for usize {
    ghost value_of = { whole_number_of };

    ghost same = { nat_eq };

    fn from_word(word: &[u8]) -> Option<usize> {
        whole_number(word).map(|n| n as usize)
    }

    fn is_same(self, other: usize) -> bool {
        self == other
    }
}

fn first_space(line: &[u8]) -> Option<usize>
    ensures { result ≡ position (λ b. b == 32) line.now }
{
    line.iter().position(|&b| b == b' ')
}

// The first word, up to a space or the end, and what is left after the space.
fn split_word(line: &[u8]) -> (&[u8], Option<&[u8]>)
    ensures word { result.0.now ≡ (cut line.now).0 }
    ensures after { option_map (λ r. r.now) result.1 ≡ (cut line.now).1 }
{
    match first_space(line) {
        Some(end) => (&line[..end], Some(&line[end + 1..])),
        None => (line, None),
    }
}

// The bytes that are still to be read; `None` past the last word.
#[derive(Drop)]
pub struct Words<'a> {
    rest: Option<&'a [u8]>,
}

impl<'a> Model for Words<'a> {
    ghost use Rattle.std.specs.Prelude.{Option, List, ℕ, option_map};

    ghost Value = { Option (List ℕ) };

    ghost view = { λ w. option_map (λ r. r.now) w.rest };
}

impl<'a> Words<'a> {
    pub fn new(line: &'a [u8]) -> Self
        ensures { result ≡ Some line.now }
    {
        Words { rest: Some(line) }
    }

    // The next word, up to a space or the line's end. An empty word is a fault.
    #[tactic(auto, unfolding(crate::specs::Words::first_word, crate::specs::Words::after_word))]
    pub fn word(&mut self) -> Option<&'a [u8]>
        ensures value { option_map (λ w. w.now) result ≡ first_word self.old }
        ensures rest { self.new ≡ after_word self.old }
    {
        let (word, after) = split_word(self.rest?);
        self.rest = after;
        if word.is_empty() { None } else { Some(word) }
    }

    // The next word, which must be `name`.
    pub fn named(&mut self, name: &[u8]) -> Option<()>
        ensures value { IsSome result ↔ (first_word self.old ≡ Some name.now) }
        ensures rest { self.new ≡ after_word self.old }
    {
        let word = self.word()?;
        (word == name).then_some(())
    }

    // The number or the float that the next word says.
    pub fn value<T: Value>(&mut self) -> Option<T>
        ensures value { result ≡ option_and_then T.value_of (first_word self.old) }
        ensures rest { self.new ≡ after_word self.old }
    {
        let word = self.word()?;
        T::from_word(word)
    }

    // As many values as `out` has places, put there.
    #[tactic(auto, using(crate::proofs::Elements::reading))]
    pub fn values<T: Value>(&mut self, out: &mut [T]) -> Option<()>
        ensures value { option_map (λ _. out.new) result ≡ elements T.value_of (length out.old) self.old }
        ensures out { out.new ≡ values_put T.value_of out.old self.old }
        ensures rest { OnSome result (self.new ≡ after_words (length out.old) self.old) }
        ensures left { self.new ≡ after_values T.value_of (length out.old) self.old }
    {
        for x in out.iter_mut() {
            *x = self.value()?;
        }
        Some(())
    }

    // A list: its length, which must be at most that of `out`, and its elements, put at the start of `out`. Answers how many
    // there are.
    #[tactic(auto, using(crate::proofs::Elements::after_one_more), unfolding(crate::specs::Words::list_of))]
    pub fn list_into<T: Value>(&mut self, out: &mut [T]) -> Option<usize>
        ensures value { option_map (λ n. take n out.new) result ≡ list_of T.value_of (length out.old) self.old }
        ensures bound { IfSome result (λ n. n ≤ length out.new) }
        ensures out { out.new ≡ list_put T.value_of out.old self.old }
        ensures behind { drop (places (length out.old) self.old) out.new ≡ drop (places (length out.old) self.old) out.old }
        ensures rest { IfSome result (λ n. self.new ≡ after_words (n + 1) self.old) }
        ensures left { self.new ≡ after_values T.value_of (places (length out.old) self.old) (after_word self.old) }
    {
        let len = self.value::<usize>()?;
        if len > out.len() {
            return None;
        }
        self.values(&mut out[..len])?;
        Some(len)
    }

    // The same, and answers the list itself. What `out` holds then, `list_into` says: here `out` is still lent, and std's `Rests`, which
    // speaks of it afterwards, is proved by hand alone.
    pub fn list<'b, T: Value>(&mut self, out: &'b mut [T]) -> Option<&'b [T]>
        ensures value { option_map (λ l. l.now) result ≡ list_of T.value_of (length out.old) self.old }
        ensures rest { IfSome result (λ l. self.new ≡ after_words (length l.now + 1) self.old) }
        ensures left { self.new ≡ after_values T.value_of (places (length out.old) self.old) (after_word self.old) }
    {
        let len = self.list_into(out)?;
        Some(&out[..len])
    }

    // Whether the next word says this value.
    pub fn says<T: Value>(&mut self, value: T) -> Option<bool>
        ensures value { result ≡ option_map (λ x. T.same x value) (option_and_then T.value_of (first_word self.old)) }
        ensures rest { self.new ≡ after_word self.old }
    {
        let said = self.value::<T>()?;
        Some(said.is_same(value))
    }

    // Whether the next words say these values.
    #[tactic(auto, using(crate::proofs::Saying::saying))]
    pub fn says_each<T: Value>(&mut self, values: &[T]) -> Option<bool>
        ensures value { result ≡ said T.value_of T.same values.now self.old }
        ensures rest { OnSome result (self.new ≡ after_words (length values.now) self.old) }
    {
        let mut same = true;
        for x in values {
            same &= self.says(*x)?;
        }
        Some(same)
    }

    // Whether the next words say this list; a list of another length is a fault.
    #[tactic(auto, using(crate::proofs::Elements::after_one_more), unfolding(crate::specs::Words::said_list))]
    pub fn says_list<T: Value>(&mut self, values: &[T]) -> Option<bool>
        ensures value { result ≡ said_list T.value_of T.same values.now self.old }
        ensures rest { OnSome result (self.new ≡ after_words (length values.now + 1) self.old) }
    {
        let len = self.value::<usize>()?;
        if len != values.len() {
            return None;
        }
        self.says_each(values)
    }

    // Whether every word has been read.
    pub fn end(&self) -> Option<()>
        ensures { IsSome result ↔ (self.now ≡ None) }
    {
        self.rest.is_none().then_some(())
    }
}
