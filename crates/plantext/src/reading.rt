//! A whole text, line by line.
use crate::faults::{Fault, Lack, LineFault, Wrong};
use crate::lines::{Line, channel_line, partition_line, system_line, task_line, window_line};
use crate::names::Named;
use crate::plans::{Partition, Plan};
use crate::words::{Kind, named, words_of};
use std::alloc::Global;

/// What the lines up to the first fault say, and that fault. A partition's file may have one too: it stands before this.
#[derive(Drop)]
pub struct Outcome {
    pub plan: Plan,
    pub end: Result<(), Wrong>,
}

impl Named<Partition> {
    /// Takes a task's line.
    fn task(&mut self, line: Line) -> Result<(), Fault> {
        if self.item.tasks.len() >= 16 {
            return Err(LineFault::TooManyTasks(self.name.text.clone()?).into());
        }
        let name = line.name(self.item.tasks.as_slice())?;
        let item = task_line(line)?;
        self.item.tasks.push(Named { name, item })?;
        Ok(())
    }
}

impl Plan {
    /// Takes a partition's line.
    fn partition(&mut self, line: Line) -> Result<(), Fault> {
        if self.partitions.len() >= 32 {
            return Err(LineFault::TooManyPartitions.into());
        }
        let name = line.name(self.partitions.as_slice())?;
        let memory = partition_line(line)?;
        let tasks = Vec::new(*self.partitions.allocator());
        let item = Partition { memory, tasks };
        self.partitions.push(Named { name, item })?;
        Ok(())
    }

    /// Takes a channel's line.
    fn channel(&mut self, line: Line) -> Result<(), Fault> {
        if self.channels.len() >= 128 {
            return Err(LineFault::TooManyChannels.into());
        }
        let name = line.name(self.channels.as_slice())?;
        let item = channel_line(line, self)?;
        self.channels.push(Named { name, item })?;
        Ok(())
    }

    /// Takes a window's line.
    fn window(&mut self, line: Line) -> Result<(), Fault> {
        if self.windows.len() >= 256 {
            return Err(LineFault::TooManyWindows.into());
        }
        let window = window_line(line, self)?;
        self.windows.push(window)?;
        Ok(())
    }

    /// Takes a line, with the kind of the last one that said something.
    fn line(&mut self, line: Line, last: Option<Kind>) -> Result<(), Fault> {
        match (line.kind, last) {
            (Kind::System, None) => {
                self.system = system_line(line)?;
                Ok(())
            }
            (Kind::System, Some(_)) => Err(LineFault::SecondSystem.into()),
            (_, None) => Err(LineFault::SystemNotFirst.into()),
            (Kind::Partition, Some(_)) => self.partition(line),
            (Kind::Task, Some(Kind::Partition | Kind::Task)) => match self.partitions.last_mut() {
                Some(partition) => partition.task(line),
                None => Err(LineFault::TaskOutside.into()),
            },
            (Kind::Task, Some(_)) => Err(LineFault::TaskOutside.into()),
            (Kind::Channel, Some(_)) => self.channel(line),
            (Kind::Window, Some(_)) => self.window(line),
        }
    }
}

#[derive(Drop)]
struct Reader {
    heap: Global,
    /// The kind of the last line that said something.
    last: Option<Kind>,
    plan: Plan,
}

impl Reader {
    fn line(&mut self, number: usize, text: &[u8]) -> Result<(), Fault> {
        let words = words_of(self.heap, text)?;
        let [first, rest @ ..] = words.as_slice() else {
            return Ok(());
        };
        let Some(kind) = named(first.text) else {
            return Err(LineFault::UnknownWord(first.copy()?).into());
        };
        self.plan.line(Line { number, kind, rest }, self.last)?;
        self.last = Some(kind);
        Ok(())
    }

    /// What the text lacks as a whole.
    fn lack(&self) -> Result<(), Lack> {
        if self.last.is_none() {
            Err(Lack::System)
        } else if self.plan.partitions.is_empty() {
            Err(Lack::Partition)
        } else if self.plan.windows.is_empty() {
            Err(Lack::Window)
        } else {
            Ok(())
        }
    }

    fn text(&mut self, text: &[u8]) -> Result<(), Wrong> {
        let mut line = 1;
        let lines = text
            .strip_suffix(b"\n")
            .unwrap_or(text)
            .split(|b| *b == b'\n');
        for (i, text) in lines.enumerate() {
            line = i + 1;
            self.line(line, text)
                .map_err(|fault| Wrong { line, fault })?;
        }
        self.lack().map_err(|lack| Wrong {
            line,
            fault: lack.into(),
        })
    }
}

/// Reads a text up to its first fault.
pub fn read(heap: Global, text: &[u8]) -> Outcome {
    let mut reader = Reader {
        heap,
        last: None,
        plan: Plan::new(heap),
    };
    let end = reader.text(text);
    Outcome {
        plan: reader.plan,
        end,
    }
}
