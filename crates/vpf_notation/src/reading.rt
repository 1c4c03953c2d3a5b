//! Files of cases.

use crate::case::{Case, Run, texts_of};
use crate::fault::{Fault, Why};
use crate::lines::{Others, read_word};
use std::alloc::{AllocError, Global};

/// A further line of a text, behind its `|`: as it is behind a blank, or behind a star in words that are put together.
fn read_more(alloc: Global, run: &mut Run, text: &str) -> Result<(), Why> {
    match text.strip_prefix('*') {
        Some(words) => run.put_words(alloc, words),
        None => run.put_line(text.strip_prefix(' ').unwrap_or(text)),
    }
}

/// A line that tells words, or what comes of them; nothing where it is none.
fn read_run(alloc: Global, case: &mut Case, line: usize, text: &str) -> Option<Result<(), Why>> {
    if let Some(words) = text.strip_prefix('>') {
        return Some(case.ask(alloc, line, words));
    }
    if let Some(answer) = text.strip_prefix("= ") {
        return Some(case.last_run().and_then(|run| run.answer(answer)));
    }
    let more = text.strip_prefix('|')?;
    Some(case.last_run().and_then(|run| read_more(alloc, run, more)))
}

/// A line within a case.
fn read_within(
    alloc: Global,
    case: &mut Case,
    others: Others<'_>,
    line: usize,
    text: &str,
) -> Result<(), Why> {
    if let Some(cells) = text.strip_prefix(' ') {
        return case.put_row(alloc, cells);
    }
    case.end_table(alloc)?;
    match read_run(alloc, case, line, text) {
        Some(read) => read,
        None if text.is_empty() => Ok(()),
        None => read_word(alloc, case, others, text),
    }
}

/// A text that is read line by line.
#[derive(Drop)]
struct Reader<'a> {
    alloc: Global,
    elsewhere: &'a [Case],
    cases: Vec<Case>,
    case: Option<Case>,
}

impl<'a> Reader<'a> {
    /// Ends the case that is being told, where one is.
    fn end_case(&mut self) -> Result<(), Why> {
        if let Some(mut case) = self.case.take() {
            case.end_table(self.alloc)?;
            self.cases.push(case)?;
        }
        Ok(())
    }

    /// Begins a case.
    fn begin_case(&mut self, line: usize, title: &str) -> Result<(), Why> {
        self.end_case()?;
        self.case = Some(Case::new(self.alloc, line, title)?);
        Ok(())
    }

    /// Any line.
    fn read_line(&mut self, line: usize, text: &str) -> Result<(), Why> {
        if let Some(title) = text.strip_prefix("# ") {
            return self.begin_case(line, title);
        }
        let others = Others {
            elsewhere: self.elsewhere,
            before: &self.cases,
        };
        match &mut self.case {
            Some(case) => read_within(self.alloc, case, others, line, text),
            None if text.is_empty() => Ok(()),
            None => Err(Why::NoCase),
        }
    }
}

/// The first words of any case that have no answer.
fn first_unanswered(cases: &[Case]) -> Result<(), Fault> {
    for case in cases {
        for run in &case.runs {
            if run.status.is_none() {
                return Err(Fault {
                    line: run.line,
                    why: Why::NoAnswer,
                });
            }
        }
    }
    Ok(())
}

/// The cases of a text. A line `use NAME` takes the files of the case of that name, which stands before it or elsewhere.
pub fn read_cases(alloc: Global, text: &str, elsewhere: &[Case]) -> Result<Vec<Case>, Fault> {
    let mut reader = Reader {
        alloc,
        elsewhere,
        cases: Vec::new(alloc),
        case: None,
    };
    let mut line = 0usize;
    for text in text.lines() {
        line = line.saturating_add(1);
        if let Err(why) = reader.read_line(line, text) {
            return Err(Fault { line, why });
        }
    }
    if let Err(why) = reader.end_case() {
        return Err(Fault { line, why });
    }
    first_unanswered(&reader.cases)?;
    Ok(reader.cases)
}

/// The tags that a text lists.
pub fn read_tags(alloc: Global, text: &str) -> Result<Vec<String>, AllocError> {
    texts_of(alloc, text)
}
