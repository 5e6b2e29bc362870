//! What each kind of line says.
ghost use Rattle.std.specs.Prelude.{◌≡◌, ℕ, ◌+◌, ◌*◌, ◌<◌, ◌≤◌, IfOk, Some, None, vec_len};
ghost use Rattle.plantext.specs.Numerals.{numeral};

use crate::faults::{Fault, FileFault, LineFault, NameFault, PartFault};
use crate::names::{Name, Named, checked, find};
use crate::numbers::{NumberError, number_within};
use crate::plans::{Memory, Plan};
use crate::words::{Kind, Part, Word, named};
use model::plan::{Channel, Task, Window};
use std::alloc::Global;

/// A line that says something: its number, counted from 1, its kind, and the words behind the first.
#[derive(Clone, Copy)]
pub struct Line<'a> {
    pub number: usize,
    pub kind: Kind,
    pub rest: &'a [Word<'a>],
}

impl<'a> Line<'a> {
    /// The name of a line, its second word, which is new among the others.
    pub fn name<T>(self, others: &[Named<T>]) -> Result<Name, Fault> {
        let word = self.rest.first().ok_or(NameFault::Missing(self.kind))?;
        let text = checked(word)?;
        match find(others, word.text) {
            Some(i) => Err(NameFault::Taken {
                kind: self.kind,
                name: text,
                line: others[i].name.line,
            }
            .into()),
            None => Ok(Name {
                text,
                line: self.number,
            }),
        }
    }

    /// The ticks of a line, its last word, with so many words between the first and it.
    fn ticks(self, between: usize, low: u32, high: u32) -> Result<u32, Fault>
        ensures bound { IfOk result (λ n. (low ≤ n) × (n ≤ high)) }
    {
        let word = self
            .rest
            .get(between)
            .ok_or(LineFault::TicksMissing(self.kind))?;
        let ticks = number_for(Part::Ticks, word, low, high)?;
        match self.rest.get(between + 1) {
            Some(word) => Err(LineFault::TooMuch(self.kind, word.copy()?).into()),
            None => Ok(ticks),
        }
    }

    /// Takes the parts of a line, the words behind its name, from left to right.
    fn parts<P: Parts>(self, parts: &mut P) -> Result<(), Fault> {
        let mut words = self.rest.iter().skip(1);
        while let Some(first) = words.next() {
            parts.take(Said {
                kind: self.kind,
                first,
                behind: words.next(),
            })?;
        }
        Ok(())
    }
}

/// The number that a word says for a part of this range.
fn number_for(part: Part, word: &Word, low: u32, high: u32) -> Result<u32, Fault>
    ensures value { IfOk result (λ n. numeral word.now.text.now ≡ Some n) }
    ensures bound { IfOk result (λ n. (low ≤ n) × (n ≤ high)) }
{
    match number_within(word.text, low, high) {
        Ok(n) => Ok(n),
        Err(NumberError::NoNumber) => Err(PartFault::NoNumber(word.copy()?).into()),
        Err(NumberError::OutOfRange) => Err(PartFault::OutOfRange {
            part,
            word: word.copy()?,
            low,
            high,
        }
        .into()),
    }
}

/// A part as it stands in a line: the word that begins it, and the word behind that if there is one.
#[derive(Clone, Copy)]
struct Said<'a> {
    kind: Kind,
    first: &'a Word<'a>,
    behind: Option<&'a Word<'a>>,
}

impl<'a> Said<'a> {
    fn part(self) -> Option<Part> {
        named(self.first.text)
    }

    /// The fault of a word that begins no part of such a line.
    fn unknown(self) -> Result<(), Fault> {
        Err(PartFault::UnknownWord(self.kind, self.first.copy()?).into())
    }

    /// Puts what the word behind a part says in the part's place, which is still empty.
    fn put<T: Drop, F: FnOnce(&Word) -> Result<T, Fault>>(
        self,
        part: Part,
        place: &mut Option<T>,
        read: F,
    ) -> Result<(), Fault>
        requires { F.IsAlwaysCallable read }
    {
        if place.is_some() {
            return Err(PartFault::Twice(part).into());
        }
        let word = self.behind.ok_or(PartFault::NothingBehind(part))?;
        *place = Some(read(word)?);
        Ok(())
    }
}

/// What the parts of a line say, as far as it was read.
trait Parts {
    /// Takes the next part.
    fn take(&mut self, said: Said) -> Result<(), Fault>;
}

/// `system TICKS`
pub fn system_line(line: Line) -> Result<u16, Fault>
    ensures bound { IfOk result (λ s. 16 ≤ s) }
{
    Ok(line.ticks(0, 16, 65535)? as u16)
}

/// `window PARTITION TICKS`
pub fn window_line(line: Line, plan: &Plan) -> Result<Window, Fault>
    ensures whose { IfOk result (λ w. w.partition < vec_len plan.now.partitions) }
    ensures bound { IfOk result (λ w. (plan.now.system < w.ticks) × (w.ticks ≤ 1000000)) }
{
    let word = line.rest.first().ok_or(NameFault::Missing(line.kind))?;
    let partition = plan.partition_named(word)?;
    let ticks = line.ticks(1, u32::from(plan.system) + 1, 1_000_000)?;
    Ok(Window { partition, ticks })
}

#[derive(Default, Drop)]
struct MemoryParts {
    program: Option<String>,
    pages: Option<u16>,
}

impl Parts for MemoryParts {
    fn take(&mut self, said: Said) -> Result<(), Fault> {
        match said.part() {
            Some(part @ Part::Program) => {
                said.put(part, &mut self.program, |word| Ok(word.copy()?))
            }
            Some(part @ Part::Pages) => said.put(part, &mut self.pages, |word| {
                Ok(number_for(part, word, 1, 256)? as u16)
            }),
            _ => said.unknown(),
        }
    }
}

/// `partition NAME`, with `program FILE`, `pages N`, or both
pub fn partition_line(line: Line) -> Result<Memory, Fault> {
    let mut parts = MemoryParts::default();
    line.parts(&mut parts)?;
    let MemoryParts { program, pages } = parts;
    match (program, pages) {
        (Some(file), pages) => Ok(Memory::Program { file, pages }),
        (None, Some(pages)) => Ok(Memory::Zeros(pages)),
        (None, None) => Err(PartFault::NoMemory.into()),
    }
}

#[derive(Clone, Copy, Default)]
struct TaskParts {
    priority: Option<u8>,
    period: Option<u32>,
    deadline: Option<u32>,
    lates: Option<u8>,
}

impl Parts for TaskParts {
    fn take(&mut self, said: Said) -> Result<(), Fault> {
        match said.part() {
            Some(part @ Part::Priority) => said.put(part, &mut self.priority, |word| {
                Ok(number_for(part, word, 0, 255)? as u8)
            }),
            Some(part @ Part::Period) => said.put(part, &mut self.period, |word| {
                number_for(part, word, 1, 100_000_000)
            }),
            Some(part @ Part::Deadline) => said.put(part, &mut self.deadline, |word| {
                number_for(part, word, 1, 100_000_000)
            }),
            Some(part @ Part::Lates) => said.put(part, &mut self.lates, |word| {
                Ok(number_for(part, word, 0, 255)? as u8)
            }),
            _ => said.unknown(),
        }
    }
}

/// `task NAME`, with `priority N`, `period N`, `deadline N`, `lates N`
pub fn task_line(line: Line) -> Result<Task, Fault>
    ensures bound { IfOk result (λ t. t.deadline ≤ t.period) }
{
    let mut parts = TaskParts::default();
    line.parts(&mut parts)?;
    let priority = parts.priority.ok_or(PartFault::Missing(Part::Priority))?;
    let period = parts.period.ok_or(PartFault::Missing(Part::Period))?;
    let deadline = parts.deadline.ok_or(PartFault::Missing(Part::Deadline))?;
    let lates = parts.lates.ok_or(PartFault::Missing(Part::Lates))?;
    if deadline > period {
        return Err(PartFault::DeadlineAbovePeriod { deadline, period }.into());
    }
    Ok(Task {
        priority,
        period,
        deadline,
        lates,
    })
}

#[derive(Clone, Copy)]
struct ChannelParts<'a> {
    plan: &'a Plan,
    from: Option<u8>,
    to: Option<u8>,
    bytes: Option<u16>,
    places: Option<u8>,
}

impl<'a> Parts for ChannelParts<'a> {
    fn take(&mut self, said: Said) -> Result<(), Fault> {
        let plan = self.plan;
        match said.part() {
            Some(part @ Part::From) => said.put(
                part,
                &mut self.from,
                |word| plan.partition_named(word),
            ),
            Some(part @ Part::To) => said.put(
                part,
                &mut self.to,
                |word| plan.partition_named(word),
            ),
            Some(part @ Part::Bytes) => said.put(part, &mut self.bytes, |word| {
                Ok(number_for(part, word, 0, 1024)? as u16)
            }),
            Some(part @ Part::Places) => said.put(part, &mut self.places, |word| {
                Ok(number_for(part, word, 0, 64)? as u8)
            }),
            _ => said.unknown(),
        }
    }
}

/// `channel NAME`, with `from PARTITION`, `to PARTITION`, `bytes N`, `places N`
pub fn channel_line(line: Line, plan: &Plan) -> Result<Channel, Fault> {
    let mut parts = ChannelParts {
        plan,
        from: None,
        to: None,
        bytes: None,
        places: None,
    };
    line.parts(&mut parts)?;
    let from = parts.from.ok_or(PartFault::Missing(Part::From))?;
    let to = parts.to.ok_or(PartFault::Missing(Part::To))?;
    let bytes = parts.bytes.ok_or(PartFault::Missing(Part::Bytes))?;
    let places = parts.places.ok_or(PartFault::Missing(Part::Places))?;
    Ok(Channel {
        from,
        to,
        bytes,
        places,
    })
}

/// How many pages a memory has that holds a file of so many bytes, if the line says `pages` or not.
pub fn fitting(heap: Global, file: &str, bytes: usize, pages: Option<u16>) -> Result<u16, Fault>
    ensures fits { IfOk result (λ p. bytes ≤ p * 4096) }
    ensures asked { IfOk result (λ p. (q : ℕ) → pages ≡ Some q → p ≡ q) }
    ensures least { IfOk result (λ p. pages ≡ None → p * 4096 < bytes + 4096) }
{
    if bytes > 1_048_576 {
        let file = String::from_str(heap, file)?;
        return Err(FileFault::TooLong { file, bytes }.into());
    }
    match pages {
        None if bytes == 0 => Err(FileFault::Empty(String::from_str(heap, file)?).into()),
        None => Ok(bytes.div_ceil(4096) as u16),
        Some(pages) if bytes > usize::from(pages) * 4096 => {
            let file = String::from_str(heap, file)?;
            Err(FileFault::AbovePages { file, bytes, pages }.into())
        }
        Some(pages) => Ok(pages),
    }
}
