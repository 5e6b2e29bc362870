//! The words of the language, and a line cut into words.
ghost use Rattle.std.specs.Prelude.{◌<◌, All, IfNone, IsTrue};

use crate::faults::{Fault, LineFault};
use std::alloc::{AllocError, Global};
use std::{fmt, str};

/// How a word of the language is written: the word, and what stands behind it.
#[derive(Clone, Copy)]
pub struct Usage {
    pub word: &'static str,
    pub behind: &'static str,
}

impl fmt::Display for Usage {
    fn fmt<W: fmt::Write>(&self, f: &mut fmt::Formatter<W>) -> fmt::Result {
        write!(f, "{} {}", self.word, self.behind)
    }
}

/// Things that are each written with a word of the language.
pub trait Vocabulary: Copy + 'static {
    /// All of them that have a word.
    fn all() -> &'static [Self];

    fn usage(self) -> Usage;
}

/// The one that is written with this word.
// One function where FromStr would need an impl for each.
pub fn named<V: Vocabulary>(word: &str) -> Option<V> {
    V::all()
        .iter()
        .copied()
        .find(|one| one.usage().word == word)
}

/// Whether it is one of the fifteen words of the language.
pub fn is_taken(word: &str) -> bool {
    named::<Kind>(word).is_some() || named::<Part>(word).is_some()
}

/// The five kinds of lines.
#[derive(Clone, Copy, Debug)]
pub enum Kind {
    System,
    Partition,
    Task,
    Channel,
    Window,
}

impl Vocabulary for Kind {
    fn all() -> &'static [Kind] {
        &[
            Kind::System,
            Kind::Partition,
            Kind::Task,
            Kind::Channel,
            Kind::Window,
        ]
    }

    fn usage(self) -> Usage {
        let (word, behind) = match self {
            Kind::System => ("system", "TICKS"),
            Kind::Partition => ("partition", "NAME"),
            Kind::Task => ("task", "NAME"),
            Kind::Channel => ("channel", "NAME"),
            Kind::Window => ("window", "PARTITION TICKS"),
        };
        Usage { word, behind }
    }
}

impl Kind {
    /// The parts that such a line may have.
    pub fn parts(self) -> &'static str {
        match self {
            Kind::Partition => "program or pages",
            Kind::Task => "priority, period, deadline or lates",
            Kind::Channel => "from, to, bytes or places",
            Kind::System | Kind::Window => "nothing more",
        }
    }
}

/// The parts of lines, and the ticks of a system or window line.
#[derive(Clone, Copy, Debug)]
pub enum Part {
    Program,
    Pages,
    Priority,
    Period,
    Deadline,
    Lates,
    From,
    To,
    Bytes,
    Places,
    Ticks,
}

impl Vocabulary for Part {
    /// Ticks stand without a word of their own.
    fn all() -> &'static [Part] {
        &[
            Part::Program,
            Part::Pages,
            Part::Priority,
            Part::Period,
            Part::Deadline,
            Part::Lates,
            Part::From,
            Part::To,
            Part::Bytes,
            Part::Places,
        ]
    }

    fn usage(self) -> Usage {
        let (word, behind) = match self {
            Part::Program => ("program", "FILE"),
            Part::Pages => ("pages", "N"),
            Part::Priority => ("priority", "N"),
            Part::Period => ("period", "N"),
            Part::Deadline => ("deadline", "N"),
            Part::Lates => ("lates", "N"),
            Part::From => ("from", "PARTITION"),
            Part::To => ("to", "PARTITION"),
            Part::Bytes => ("bytes", "N"),
            Part::Places => ("places", "N"),
            Part::Ticks => ("ticks", "N"),
        };
        Usage { word, behind }
    }
}

/// A word of a text, and the heap for copies of it.
#[derive(Clone, Copy)]
pub struct Word<'a> {
    heap: Global,
    pub text: &'a str,
}

impl Word<'_> {
    /// The word again, for what is said of it.
    pub fn copy(self) -> Result<String, AllocError> {
        String::from_str(self.heap, self.text)
    }
}

/// Whether it is a blank or printable ASCII.
fn is_text(b: u8) -> bool
    ensures ascii { IsTrue result → b < 128 }
{
    matches!(b, b' ' | b'\t' | b'\r' | 0x21..=0x7e)
}

/// Whether no word goes on with it: it is a blank, or begins a comment.
fn ends_word(b: u8) -> bool {
    matches!(b, b' ' | b'\t' | b'\r' | b'#')
}

/// The first byte that is no text.
fn no_text(bytes: &[u8]) -> Option<u8>
    ensures ascii { IfNone result (All (λ b. b < 128) bytes.now) }
{
    bytes.iter().copied().find(|b| !is_text(*b))
}

/// What these bytes say.
fn said(bytes: &[u8]) -> Result<&str, LineFault> {
    match no_text(bytes) {
        Some(b) => Err(LineFault::NoText(b)),
        None => Ok(str::from_utf8(bytes).unwrap()),
    }
}

/// The words of a line, up to its comment.
pub fn words_of(heap: Global, line: &[u8]) -> Result<Vec<Word<'_>>, Fault> {
    let mut words = Vec::new(heap);
    let mut rest = line;
    // Stays a loop: so blanks and a comment are passed once, and only what a word says is looked at again.
    while let [first, more @ ..] = rest {
        match *first {
            b'#' => break,
            b' ' | b'\t' | b'\r' => rest = more,
            _ => {
                let end = 1
                    + more
                        .iter()
                        .position(|b| ends_word(*b))
                        .unwrap_or(more.len());
                let text = said(&rest[..end])?;
                words.push(Word { heap, text })?;
                rest = &rest[end..];
            }
        }
    }
    Ok(words)
}
