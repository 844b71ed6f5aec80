// Lines that were tried, and how many were told otherwise.
use anyhow::Result;

/// What a line asks for, and what it says is to be told: nothing where it has no ` = `.
#[derive(Clone, Copy)]
pub struct Case<'a> {
    pub asked: &'a str,
    pub wanted: &'a str,
}

/// How many lines of a file came, and of all files how many asked and were told otherwise.
#[derive(Clone, Copy)]
pub struct Tally {
    lines: u64,
    asked: u64,
    otherwise: u64,
}

impl Tally {
    pub fn new() -> Tally {
        Tally {
            lines: 0,
            asked: 0,
            otherwise: 0,
        }
    }

    /// Another file begins: its lines are counted from 1.
    pub fn begin_file(&mut self) {
        self.lines = 0;
    }

    /// Counts a line. None where it is empty or a comment.
    pub fn take<'a>(&mut self, line: &'a str) -> Option<Case<'a>> {
        self.lines = self.lines.saturating_add(1);
        if line.is_empty() || line.starts_with("#") {
            return None;
        }
        self.asked = self.asked.saturating_add(1);
        match line.split_once(" = ") {
            Some((asked, wanted)) => Some(Case { asked, wanted }),
            None => Some(Case {
                asked: line,
                wanted: "",
            }),
        }
    }

    /// Compares what was told of the last line; prints it where it isn't what is wanted.
    pub fn hear<R: Print + Alloc>(
        &mut self,
        rt: &R,
        file: &str,
        told: &str,
        wanted: &str,
    ) -> Result<()> {
        if told != wanted {
            self.otherwise = self.otherwise.saturating_add(1);
            let number = self.lines;
            println!(rt; "{file}:{number}: {told}")?;
        }
        Ok(())
    }

    /// Prints how many lines were tried.
    pub fn print<R: Print + Alloc>(&self, rt: &R) -> Result<()> {
        let Tally {
            asked,
            otherwise,
            ..
        } = *self;
        println!(rt; "{asked} lines, {otherwise} of them told otherwise")?;
        Ok(())
    }
}
