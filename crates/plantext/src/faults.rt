//! What can be wrong in a text, and how it is said.
use crate::words::{Kind, Part, Vocabulary};
use std::alloc::AllocError;
use thiserror::Error;

/// A fault of a line as a whole.
#[derive(Debug, Drop, Error)]
pub enum LineFault {
    #[error("a byte 0x{0:02x} that is no text; outside comments write printable ASCII")]
    NoText(u8),
    #[error("unknown word \"{0}\"; a line begins with system, partition, task, channel or window")]
    UnknownWord(String),
    #[error("the first line must be the system's; write system TICKS above, as in system 16")]
    SystemNotFirst,
    #[error("a second system line; write one, and write it first")]
    SecondSystem,
    #[error("too many partitions; write at most 32")]
    TooManyPartitions,
    #[error("too many tasks in partition \"{0}\"; write at most 16")]
    TooManyTasks(String),
    #[error("too many channels; write at most 128")]
    TooManyChannels,
    #[error("too many windows; write at most 256")]
    TooManyWindows,
    #[error("a task line outside a partition; write it under the line of its partition")]
    TaskOutside,
    #[error("the number of ticks is missing; write {usage}", usage = .0.usage())]
    TicksMissing(Kind),
    #[error("\"{word}\" is too much; write {usage}", word = .1, usage = .0.usage())]
    TooMuch(Kind, String),
}

/// A fault of a name.
#[derive(Debug, Drop, Error)]
pub enum NameFault {
    #[error("the name is missing; write {usage}", usage = .0.usage())]
    Missing(Kind),
    #[error("\"{0}\" is no name; write a letter, then letters, digits, - or _, at most 32, and no word of the language")]
    NoName(String),
    #[error("there is a {word} \"{name}\" already, in line {line}; choose another name", word = .kind.usage().word)]
    Taken {
        kind: Kind,
        name: String,
        line: usize,
    },
    #[error("there is no partition \"{0}\" above; write its partition line first")]
    NoPartitions(String),
    /// `above` has the names that stand above, with commas between them.
    #[error("there is no partition \"{name}\" above; write one of {above}")]
    NoPartition {
        name: String,
        above: String,
    },
}

/// A fault of a part, or of a number.
#[derive(Debug, Drop, Error)]
pub enum PartFault {
    #[error("unknown word \"{word}\" in a {line} line; write {parts}", word = .1, line = .0.usage().word, parts = .0.parts())]
    UnknownWord(Kind, String),
    #[error("{word} stands twice; write it once", word = .0.usage().word)]
    Twice(Part),
    #[error("nothing stands behind {word}; write {usage}", word = .0.usage().word, usage = .0.usage())]
    NothingBehind(Part),
    #[error("\"{0}\" is no number; write digits, or 0x and hexadecimal digits, with _ only between digits")]
    NoNumber(String),
    #[error("{what} {word} is out of range; write {low} to {high}", what = .part.usage().word)]
    OutOfRange {
        part: Part,
        word: String,
        low: u32,
        high: u32,
    },
    #[error("{word} is missing; write {usage}", word = .0.usage().word, usage = .0.usage())]
    Missing(Part),
    #[error("the partition has no memory; write program FILE, pages N, or both")]
    NoMemory,
    #[error("deadline {deadline} is above period {period}; write 1 to {period}")]
    DeadlineAbovePeriod {
        deadline: u32,
        period: u32,
    },
}

/// A fault of a program's file.
#[derive(Debug, Drop, Error)]
pub enum FileFault {
    #[error("file \"{0}\" cannot be read; its name is taken from the folder of this text")]
    Unreadable(String),
    #[error("file \"{file}\" has {bytes} bytes, but {pages} pages have {room}; write pages {needed} or more", room = u32::from(*.pages) * 4096, needed = .bytes.div_ceil(4096))]
    AbovePages {
        file: String,
        bytes: usize,
        pages: u16,
    },
    #[error("file \"{file}\" has {bytes} bytes; a partition has at most 1048576")]
    TooLong {
        file: String,
        bytes: usize,
    },
    #[error("file \"{0}\" is empty; write pages N")]
    Empty(String),
}

/// What the whole text lacks.
#[derive(Clone, Copy, Debug, Error)]
pub enum Lack {
    #[error("there is no system line; write system TICKS first")]
    System,
    #[error("there is no partition; write a partition line")]
    Partition,
    #[error("there is no window; write a window line")]
    Window,
}

/// What is wrong.
#[derive(Debug, Drop, Error)]
pub enum Fault {
    #[error(transparent)]
    Line(#[from] LineFault),
    #[error(transparent)]
    Name(#[from] NameFault),
    #[error(transparent)]
    Part(#[from] PartFault),
    #[error(transparent)]
    File(#[from] FileFault),
    #[error(transparent)]
    Lack(#[from] Lack),
    /// The heap is full.
    #[error("no memory is left; run mkplan where there is more")]
    Heap(#[from(alloc)] AllocError),
}

/// What is wrong, and in which line, counted from 1.
#[derive(Debug, Drop, Error)]
#[error("{line}: {fault}")]
pub struct Wrong {
    pub line: usize,
    pub fault: Fault,
}
