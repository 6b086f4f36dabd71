// The answers of the calls, and what a refusal tells: number, text and place.

#![tactic(auto)]

ghost use Rattle.std.specs.Prelude.{◌≡◌};
ghost use Rattle.answers.specs.Told.{told};

// Why a call was refused, with the shape's, range's, block's, output's, rule's or line's number, each from 1.
#[derive(Clone, Copy)]
pub enum Refusal {
    Length(u64),
    Crossed(u64, u64),
    TooLarge(u64, u64),
    Disagree(u64, u64),
    Total(u64),
    Work,
    Output(u64),
    Counts,
    Rule(u64),
    Join(u64),
    Line(u64),
    Size,
    Mark,
    Range(u64),
    Pairs,
}

// Whether a text fits a shape.
#[derive(Clone, Copy)]
pub enum Fit {
    Fits,
    Unfit,
}

// What the quick sweep finds: places, written to the output, or that there cannot be a common text; each with the looks
// made.
#[derive(Clone, Copy)]
pub enum Swept {
    Places(u64),
    Cannot(u64),
}

// The verdict of the quick sweep on a pair of a tray.
#[derive(Clone, Copy)]
pub enum SweepVerdict {
    Places,
    Cannot,
}

// The answer record of a pair of a tray: the verdict, or its refusal, and the looks made, 0 where it is refused.
#[derive(Clone, Copy)]
pub struct AnswerRecord {
    pub verdict: Result<SweepVerdict, Refusal>,
    pub looks: u64,
}

// What narrowing finds: the narrowed shapes, written to the outputs, or that no pair of texts satisfies the relation.
// Neither has a value, so that an Option would say less than the two names.
#[derive(Clone, Copy)]
pub enum Narrowed {
    Narrow,
    None,
}

// How a run of rules ends: with stable shapes or in none; each with the applications made, so that neither is an
// absence.
#[derive(Clone, Copy)]
pub enum Ended {
    Stable(u64),
    None(u64),
}

// What the run of a book answers of a text: the name of its group, and how the group ends. Past the last text, and
// where the book is refused, the name is 0, stable with no applications.
#[derive(Clone, Copy)]
pub struct TextRan {
    pub group: u64,
    pub ended: Ended,
}

// How the run of a book ends: it is accepted or refused; then a record for each text, and up to eight of no text. The
// records stand beside a refusal too, as `RunPromise` says of them.
#[derive(Clone, Copy)]
pub struct Ran {
    pub checked: Result<(), Refusal>,
    pub texts: [TextRan; 8],
}

// A character index in a text, from 1: neither a length, nor an offset, nor a block's number.
#[derive(Clone, Copy)]
pub struct Index {
    pub at: u64,
}

// Where a mark first starts in the texts of a shape: in none of them, or in some, or in all, each with the least and
// the greatest index.
#[derive(Clone, Copy)]
pub enum Sought {
    Nowhere,
    InSome(Index, Index),
    InAll(Index, Index),
}

impl Refusal {
    // Its number, text and place.
    fn told(self) -> (u64, u64, u64)
        ensures { result ≡ ((told self).number, (told self).text, (told self).place) }
    {
        match self {
            Refusal::Length(shape) => (1, shape, 0),
            Refusal::Crossed(shape, block) => (2, shape, block),
            Refusal::TooLarge(shape, block) => (10, shape, block),
            Refusal::Disagree(shape, block) => (11, shape, block),
            Refusal::Total(shape) => (3, shape, 0),
            Refusal::Work => (4, 0, 0),
            Refusal::Output(output) => (5, output, 0),
            Refusal::Counts => (6, 0, 0),
            Refusal::Rule(rule) => (7, 0, rule),
            Refusal::Join(rule) => (12, 0, rule),
            Refusal::Line(line) => (8, 0, line),
            Refusal::Size => (9, 0, 0),
            Refusal::Mark => (13, 0, 0),
            Refusal::Range(range) => (14, range, 0),
            Refusal::Pairs => (15, 0, 0),
        }
    }

    pub fn number(self) -> u64
        ensures { result ≡ (told self).number }
    {
        self.told().0
    }

    pub fn text(self) -> u64
        ensures { result ≡ (told self).text }
    {
        self.told().1
    }

    pub fn place(self) -> u64
        ensures { result ≡ (told self).place }
    {
        self.told().2
    }
}
