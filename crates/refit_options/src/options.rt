// The words of the command line, one after the other.
ghost use Rattle.std.specs.Prelude.{◌≡◌};
ghost use Rattle.text_buffer.specs.Text.{wrote};
ghost use Rattle.refit_options.specs.Options.{refused_word, is_flag, flag_named, order_named, ends_in_svg, nothing_asked, said_in, awaited_of, file_of, flag_from, next_word, effect_place_in, command_at_end, option_fault_text};

use crate::words::{curve_named, is_name, place_of};
use curves::Curve;
use text_buffer::Text;
use text_lines::same::{is_among, same_word};

// Why a word is refused.
#[derive(Clone, Copy, Debug, PartialEq, Eq)]
pub enum OptionFault {
    NoSuchOption,
    WordMissing,
    NoSuchCurve,
    NoSuchValue,
    NotOfTheCurve,
    NotAnOrder,
    SecondFile,
    NotSvg,
    SaidBefore,
    WrongStarts,
}

#[derive(Clone, Copy)]
pub struct OptionError<'a> {
    pub word: &'a [u8],
    pub fault: OptionFault,
}

// What an option wants in the word after it.
#[derive(Clone, Copy, Debug, PartialEq, Eq)]
pub enum Wanted {
    Curve,
    Effect,
    Quadrature,
    Svg,
    Start,
}

#[derive(Clone, Copy, Debug, PartialEq, Eq)]
pub enum Page {
    Help,
    Version,
}

// The options: one that wants a word, restricted or plain maximum likelihood, and one that asks for a page.
#[derive(Clone, Copy, Debug, PartialEq, Eq)]
pub enum Flag {
    Wants(Wanted),
    Reml(bool),
    Prints(Page),
}

const FLAGS: [Flag; 9] = [
    Flag::Wants(Wanted::Curve),
    Flag::Wants(Wanted::Effect),
    Flag::Wants(Wanted::Quadrature),
    Flag::Wants(Wanted::Svg),
    Flag::Wants(Wanted::Start),
    Flag::Reml(true),
    Flag::Reml(false),
    Flag::Prints(Page::Help),
    Flag::Prints(Page::Version),
];

// How the readings are fitted: the curve, the place of the effect among its values, restricted or plain maximum likelihood,
// as a bool as the library takes it, and the order of quadrature.
#[derive(Clone, Copy)]
pub struct Settings {
    pub curve: Curve,
    pub place: usize,
    pub reml: bool,
    pub n_agq: u64,
}

// A fit of the readings of a file, or of the example; the picture's name, and start values by hand.
#[derive(Clone, Copy)]
pub struct Fit<'a> {
    pub settings: Settings,
    pub file: Option<&'a [u8]>,
    pub svg: Option<&'a [u8]>,
    pub start: Option<&'a [u8]>,
}

// What a run is asked for: how the readings are fitted, from which start values by hand, whether the readings are the
// example, and whether a picture is asked for. A Subject has the curve and the place too: svg_axes, whose it is, knows no
// settings.
#[derive(Clone, Copy)]
pub struct Task {
    pub settings: Settings,
    pub given: Option<[f64; 4]>,
    pub example: bool,
    pub picture: bool,
}

#[derive(Clone, Copy)]
pub enum Command<'a> {
    Prints(Page),
    Fits(Fit<'a>),
}

// What the words so far ask for. `awaits`: the last one is an option that wants a word.
#[derive(Clone, Copy)]
pub struct Asked<'a> {
    pub awaits: Option<(Wanted, &'a [u8])>,
    pub page: Option<Page>,
    pub curve: Option<Curve>,
    pub effect: Option<&'a [u8]>,
    pub reml: Option<bool>,
    pub n_agq: Option<u64>,
    pub file: Option<&'a [u8]>,
    pub svg: Option<&'a [u8]>,
    pub start: Option<&'a [u8]>,
}

fn refused<'a>(word: &'a [u8], fault: OptionFault) -> Result<Asked<'a>, OptionError<'a>>
    ensures { result ≡ refused_word word.entry fault }
{
    Err(OptionError { word, fault })
}

fn is_flag(flag: Flag, word: &[u8]) -> bool
    ensures { result ≡ is_flag word.now flag }
{
    match flag {
        Flag::Wants(Wanted::Curve) => same_word(b"--curve", word),
        Flag::Wants(Wanted::Effect) => same_word(b"--effect", word),
        Flag::Wants(Wanted::Quadrature) => same_word(b"--quadrature", word),
        Flag::Wants(Wanted::Svg) => same_word(b"--svg", word),
        Flag::Wants(Wanted::Start) => same_word(b"--start", word),
        Flag::Reml(true) => same_word(b"--reml", word),
        Flag::Reml(false) => same_word(b"--ml", word),
        Flag::Prints(Page::Help) => is_among(&[b"--help", b"-h", b"help"], word),
        Flag::Prints(Page::Version) => same_word(b"--version", word),
    }
}

// The option that a word is; std's `find`, as in `curve_named`, each over a list of its own.
#[tactic(auto, unfolding(crate::specs::Options::flag_named))]
fn flag_of(word: &[u8]) -> Option<Flag>
    ensures { result ≡ flag_named word.now }
{
    FLAGS.iter().copied().find(|flag| is_flag(*flag, word))
}

// An order of quadrature: a whole number of one or two digits, at most 11.
#[tactic(auto, unfolding(crate::specs::Options::order_named))]
fn order_of(word: &[u8]) -> Option<u64>
    ensures { result ≡ order_named word.now }
{
    let n = match word {
        [b] if b.is_ascii_digit() => u64::from(*b - b'0'),
        [a, b] if a.is_ascii_digit() && b.is_ascii_digit() => {
            u64::from(*a - b'0') * 10 + u64::from(*b - b'0')
        }
        _ => return None,
    };
    if n <= 11 { Some(n) } else { None }
}

// A name before .svg.
#[tactic(auto, unfolding(crate::specs::Options::ends_in_svg))]
fn ends_in_svg(word: &[u8]) -> bool
    ensures { result ≡ ends_in_svg word.now }
{
    word.len() > 4 && same_word(b".svg", &word[word.len() - 4..])
}

impl<'a> Asked<'a> {
    pub fn nothing() -> Asked<'a>
        ensures { result ≡ nothing_asked }
    {
        Asked {
            awaits: None,
            page: None,
            curve: None,
            effect: None,
            reml: None,
            n_agq: None,
            file: None,
            svg: None,
            start: None,
        }
    }

    // Whether an option was said, of those that may be said once; the two methods are one.
    fn said(self, flag: Flag) -> bool
        ensures { result ≡ said_in self.entry flag }
    {
        match flag {
            Flag::Wants(Wanted::Curve) => self.curve.is_some(),
            Flag::Wants(Wanted::Effect) => self.effect.is_some(),
            Flag::Wants(Wanted::Quadrature) => self.n_agq.is_some(),
            Flag::Wants(Wanted::Svg) => self.svg.is_some(),
            Flag::Wants(Wanted::Start) => self.start.is_some(),
            Flag::Reml(_) => self.reml.is_some(),
            Flag::Prints(_) => false,
        }
    }

    // The word that an option wants.
    #[tactic(auto, unfolding(crate::specs::Options::awaited_of))]
    fn awaited(mut self, wanted: Wanted, word: &'a [u8]) -> Result<Asked<'a>, OptionError<'a>>
        ensures { result ≡ awaited_of self.entry wanted word.entry }
    {
        self.awaits = None;
        match wanted {
            Wanted::Curve => {
                self.curve = curve_named(word);
                if self.curve.is_none() {
                    return refused(word, OptionFault::NoSuchCurve);
                }
            }
            Wanted::Effect => {
                if !is_name(word) {
                    return refused(word, OptionFault::NoSuchValue);
                }
                self.effect = Some(word);
            }
            Wanted::Quadrature => {
                self.n_agq = order_of(word);
                if self.n_agq.is_none() {
                    return refused(word, OptionFault::NotAnOrder);
                }
            }
            Wanted::Svg => {
                if !ends_in_svg(word) {
                    return refused(word, OptionFault::NotSvg);
                }
                self.svg = Some(word);
            }
            Wanted::Start => self.start = Some(word),
        }
        Ok(self)
    }

    // A word that is no option: the file's name.
    #[tactic(auto, unfolding(crate::specs::Options::file_of))]
    fn file(mut self, word: &'a [u8]) -> Result<Asked<'a>, OptionError<'a>>
        ensures { result ≡ file_of self.entry word.entry }
    {
        if word.is_empty() || word[0] == b'-' {
            return refused(word, OptionFault::NoSuchOption);
        }
        if self.file.is_some() {
            return refused(word, OptionFault::SecondFile);
        }
        self.file = Some(word);
        Ok(self)
    }

    // A word that is an option.
    #[tactic(auto, unfolding(crate::specs::Options::flag_from))]
    fn flag(mut self, flag: Flag, word: &'a [u8]) -> Result<Asked<'a>, OptionError<'a>>
        ensures { result ≡ flag_from self.entry flag word.entry }
    {
        if self.said(flag) {
            return refused(word, OptionFault::SaidBefore);
        }
        match flag {
            Flag::Wants(wanted) => self.awaits = Some((wanted, word)),
            Flag::Reml(reml) => self.reml = Some(reml),
            Flag::Prints(page) => self.page = Some(page),
        }
        Ok(self)
    }

    // One word more.
    #[tactic(auto, unfolding(crate::specs::Options::next_word))]
    pub fn next(self, word: &'a [u8]) -> Result<Asked<'a>, OptionError<'a>>
        ensures { result ≡ next_word self.entry word.entry }
    {
        if let Some((wanted, _)) = self.awaits {
            return self.awaited(wanted, word);
        }
        match flag_of(word) {
            Some(flag) => self.flag(flag, word),
            None => self.file(word),
        }
    }

    // The place of the effect among the curve's values: the first if none was said.
    #[tactic(auto, unfolding(crate::specs::Options::effect_place_in))]
    fn place(self, curve: Curve) -> Result<usize, OptionError<'a>>
        ensures { result ≡ effect_place_in self.entry curve }
    {
        let Some(word) = self.effect else {
            return Ok(0);
        };
        place_of(curve, word).ok_or(OptionError {
            word,
            fault: OptionFault::NotOfTheCurve,
        })
    }

    // After the last word.
    #[tactic(auto, unfolding(crate::specs::Options::command_at_end))]
    pub fn last(self) -> Result<Command<'a>, OptionError<'a>>
        ensures { result ≡ command_at_end self.entry }
    {
        if let Some((_, word)) = self.awaits {
            return Err(OptionError {
                word,
                fault: OptionFault::WordMissing,
            });
        }
        let curve = self.curve.unwrap_or(Curve::Sslogis);
        let place = self.place(curve)?;
        if let Some(page) = self.page {
            return Ok(Command::Prints(page));
        }
        let settings = Settings {
            curve,
            place,
            reml: self.reml.unwrap_or(false),
            n_agq: self.n_agq.unwrap_or(1),
        };
        Ok(Command::Fits(Fit {
            settings,
            file: self.file,
            svg: self.svg,
            start: self.start,
        }))
    }
}

#[tactic(auto, unfolding(text_buffer::specs::Text::joined, crate::specs::Options::option_fault_text))]
fn fault_words(fault: OptionFault) -> &'static [u8]
    ensures { result.now ≡ option_fault_text fault }
{
    match fault {
        OptionFault::NoSuchOption => b"no such option; 'refit help' tells them",
        OptionFault::WordMissing => {
            b"this option wants a word after it; 'refit help' tells which"
        }
        OptionFault::NoSuchCurve => {
            b"no such curve; there are SSlogis, SSasymp, SSmicmen and SSfpl"
        }
        OptionFault::NoSuchValue => {
            b"no curve has a value of this name; 'refit help' tells the names"
        }
        OptionFault::NotOfTheCurve => {
            b"the effect is not a value of the curve; 'refit help' tells the names"
        }
        OptionFault::NotAnOrder => b"the order of quadrature is a whole number from 0 to 11",
        OptionFault::SecondFile => b"a second file; one file is read at a time",
        OptionFault::NotSvg => b"the picture's name must end in .svg",
        OptionFault::SaidBefore => { b"this option was given before, or one that contradicts it" }
        OptionFault::WrongStarts => {
            b"--start wants as many numbers as the curve has values, with commas between them and points for decimals, as in 200,725,350"
        }
    }
}

// A fault of the command line in words.
pub fn fault(out: &mut Text<'_>, fault: OptionFault)
    ensures { out.new ≡ wrote out.old (option_fault_text fault) }
{
    out.put(fault_words(fault));
}
