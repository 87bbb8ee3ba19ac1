// Text for a person, written into a lent buffer. What does not fit is told: a text that is full stays full, and whoever
// reads it asks once, at the end. Numbers and words have functions that write them, and no `Display`, which says the bytes only
// where all of them fit; `wrote` says too what a full buffer holds.
#![tactic(auto)]

ghost use Rattle.std.specs.Prelude.{◌≡◌, ◌∷◌, []};
ghost use Rattle.std.proofs.Math.Seq.{slice};
ghost use Rattle.text_buffer.specs.Text.{empty, full, text, whole_text, wrote};

// A part of a text, by where it begins and ends; no slice, of which a contract would tell the bytes and not where they stand,
// as read_table's does of each name.
#[derive(Clone, Copy, Debug, PartialEq, Eq)]
pub struct Span {
    pub start: usize,
    pub stop: usize,
}

impl Span {
    // The part, cut to what the text has.
    pub fn of(self, text: &[u8]) -> &[u8]
        ensures { result.now ≡ slice self.start self.stop text.now }
    {
        let head = &text[..self.stop.min(text.len())];
        &head[self.start.min(head.len())..]
    }
}

// A lent buffer and not a String: but for refit's words of a system's error, nothing here has a heap.
// `at` lies past the buffer's end once something did not fit: what fills the buffer to its end has fitted. No model: one would
// hide from whoever lent the buffer what it holds after the text has ended (`lent` of specs/laws/Text.antt).
pub struct Text<'a> {
    out: &'a mut [u8],
    at: usize,
}

// Whoever lent the buffer finds in it what the text held.
impl Drop for Text<'_> {
    fn drop(self)
        ensures { self.exit.0.now ≡ self.entry.out.now }
    {
        let Text { out: _out, at: _at } = self;
    }
}

impl<'a> Text<'a> {
    pub fn new(out: &'a mut [u8]) -> Text<'a>
        ensures { result ≡ empty out.entry }
    {
        Text { out, at: 0 }
    }

    pub fn written(&self) -> &[u8]
        ensures { result.now ≡ text self.now }
    {
        &self.out[..self.at.min(self.out.len())]
    }

    // Whether something did not fit.
    pub fn is_full(&self) -> bool
        ensures { result ≡ full self.now }
    {
        self.out.len() < self.at
    }

    // As much of the text as fits.
    #[tactic(auto, unfolding(crate::specs::Text::wrote))]
    pub fn put(&mut self, text: &[u8])
        ensures { self.new ≡ wrote self.old text.now }
    {
        if self.out.len() < self.at {
            return;
        }
        let n = text.len().min(self.out.len() - self.at);
        self.out[self.at..self.at + n].copy_from_slice(&text[..n]);
        self.at = if n < text.len() {
            self.out.len() + 1
        } else {
            self.at + n
        };
    }

    pub fn byte(&mut self, b: u8)
        ensures { self.new ≡ wrote self.old (b ∷ []) }
    {
        self.put(&[b]);
    }

    // A whole number in decimal digits.
    pub fn whole(&mut self, n: u64)
        ensures { self.new ≡ wrote self.old (whole_text n) }
    {
        self.put(itoa::Buffer::new().format(n).as_bytes());
    }
}
