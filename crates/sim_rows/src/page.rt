//! A file of rows. A row is a line `== NAME`, remarks, a line `-- WORDS`, the text, a line `-- STATUS` and the answer, in
//! which empty lines do not count. Below a line `-- STATUS at the end` stand the last lines of an answer alone. Lines between
//! `\repeat COUNT` and `\end` stand so many times. In the place of a line `\file NAME` stands the file of this name, as it is.
use crate::line::append_line;
use crate::row::{Row, Tells};
use std::alloc::{AllocError, Global};
use std::fs::Files;
use std::{fs, io, mem};

/// The part of a row that is being read.
#[derive(Clone, Copy, PartialEq, Eq)]
enum Part {
    /// No row has begun.
    Outside,
    Remarks,
    Text,
    Answer,
}

/// Lines that stand several times.
#[derive(Drop)]
struct Block {
    times: u32,
    lines: Vec<String>,
}

/// The rows read so far, and the row that is being read.
#[derive(Drop)]
struct Page {
    rows: Vec<Row>,
    part: Part,
    name: String,
    words: String,
    text: Vec<u8>,
    status: Option<u8>,
    tells: Tells,
    /// What the lines of the part say.
    said: Vec<u8>,
    block: Option<Block>,
}

/// The rows of a file. The files that they name are read.
pub fn rows_of<R: Files + AllocGlobal>(rt: &R, file: &str) -> io::Result<Vec<Row>> {
    let mut page = Page::new(rt.alloc());
    for line in file.lines() {
        page.read(rt, line)?;
    }
    page.close(rt.alloc())?;
    Ok(page.rows)
}

impl Page {
    fn new(alloc: Global) -> Page {
        Page {
            rows: Vec::new(alloc),
            part: Part::Outside,
            name: String::new(alloc),
            words: String::new(alloc),
            text: Vec::new(alloc),
            status: None,
            tells: Tells::Whole,
            said: Vec::new(alloc),
            block: None,
        }
    }

    /// Takes the next line of the file.
    fn read<R: Files + AllocGlobal>(&mut self, rt: &R, line: &str) -> io::Result<()> {
        let alloc = rt.alloc();
        if let Some(name) = line.strip_prefix("== ") {
            self.close(alloc)?;
            self.name = String::from_str(alloc, name)?;
            self.part = Part::Remarks;
            return Ok(());
        }
        match (self.part, line.strip_prefix("--")) {
            (Part::Remarks, Some(words)) => {
                self.words = String::from_str(alloc, words)?;
                self.part = Part::Text;
                Ok(())
            }
            (Part::Text, Some(status)) => {
                self.text = mem::replace(&mut self.said, Vec::new(alloc));
                self.read_status(status);
                self.part = Part::Answer;
                Ok(())
            }
            (Part::Answer, _) if line.is_empty() => Ok(()),
            (Part::Text | Part::Answer, _) => self.say(rt, line),
            _ => Ok(()),
        }
    }

    /// Takes the status, and how much of the answer is told.
    fn read_status(&mut self, said: &str) {
        let (status, tells) = match said.strip_suffix(" at the end") {
            Some(status) => (status, Tells::End),
            None => (said, Tells::Whole),
        };
        self.status = status.trim().parse().ok();
        self.tells = tells;
    }

    /// Takes a line of a text or an answer, or the file that stands in its place.
    fn say<R: Files + AllocGlobal>(&mut self, rt: &R, line: &str) -> io::Result<()> {
        match line.strip_prefix("\\file ") {
            Some(name) => self.said.extend_from_slice(fs::read(rt, name)?.as_slice())?,
            None => self.say_line(rt.alloc(), line)?,
        }
        Ok(())
    }

    // Takes a line that stands for itself, or is of a block.
    fn say_line(&mut self, alloc: Global, line: &str) -> Result<(), AllocError> {
        if let Some(times) = line.strip_prefix("\\repeat ") {
            self.block = Some(Block {
                times: times.parse().unwrap_or(0),
                lines: Vec::new(alloc),
            });
            return Ok(());
        }
        match self.block.take() {
            None => append_line(alloc, line.as_bytes(), 0, &mut self.said),
            Some(block) if line == "\\end" => self.repeat(alloc, &block),
            Some(mut block) => {
                block.lines.push(String::from_str(alloc, line)?)?;
                self.block = Some(block);
                Ok(())
            }
        }
    }

    fn repeat(&mut self, alloc: Global, block: &Block) -> Result<(), AllocError> {
        for turn in 0..block.times {
            for line in block.lines.iter() {
                append_line(
                    alloc,
                    line.as_bytes(),
                    turn.saturating_add(1),
                    &mut self.said,
                )?;
            }
        }
        Ok(())
    }

    /// Ends the row that is being read, if one is.
    fn close(&mut self, alloc: Global) -> Result<(), AllocError> {
        if self.part != Part::Outside {
            self.rows.push(Row {
                name: mem::replace(&mut self.name, String::new(alloc)),
                words: mem::replace(&mut self.words, String::new(alloc)),
                text: mem::replace(&mut self.text, Vec::new(alloc)),
                status: self.status.take(),
                tells: self.tells,
                answer: mem::replace(&mut self.said, Vec::new(alloc)),
            })?;
        }
        self.part = Part::Outside;
        Ok(())
    }
}
