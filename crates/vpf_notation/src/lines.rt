//! The lines of a case that tell its files.

use crate::case::{Case, Side};
use crate::fault::Why;
use crate::tables::{Table, place_of};
use crate::words::{split_bytes, split_texts};
use std::alloc::Global;

/// The cases whose files a case may take.
#[derive(Clone, Copy)]
pub struct Others<'a> {
    /// Those of other files.
    pub elsewhere: &'a [Case],
    /// Those before it in its own.
    pub before: &'a [Case],
}

/// The case of this name among these.
fn called<'a>(cases: &'a [Case], name: &str) -> Option<&'a Case> {
    cases.iter().find(|case| case.title.as_str() == name)
}

impl<'a> Others<'a> {
    /// The case of this name.
    fn called(self, name: &str) -> Result<&'a Case, Why> {
        match called(self.before, name) {
            Some(case) => Ok(case),
            None => called(self.elsewhere, name).ok_or(Why::NoFiles),
        }
    }
}

/// What stands before ` =` and behind it.
fn sides(line: &str) -> Result<(&str, &str), Why> {
    match line.split_once(" = ") {
        Some(sides) => Ok(sides),
        None => match line.strip_suffix(" =") {
            Some(front) => Ok((front, "")),
            None => Err(Why::Form),
        },
    }
}

/// The one text of words.
fn one(alloc: Global, words: &str) -> Result<String, Why> {
    let mut texts = split_texts(alloc, words)?;
    match texts.pop() {
        Some(text) if texts.is_empty() => Ok(text),
        _ => Err(Why::Form),
    }
}

/// The two texts of words.
fn two(alloc: Global, words: &str) -> Result<(String, String), Why> {
    let mut texts = split_texts(alloc, words)?;
    match (texts.pop(), texts.pop()) {
        (Some(last), Some(first)) if texts.is_empty() => Ok((first, last)),
        _ => Err(Why::Form),
    }
}

/// The number of a text.
fn number(text: &str) -> Result<usize, Why> {
    text.parse::<usize>().map_err(|_| Why::Number)
}

/// `use NAME`
fn use_case(alloc: Global, case: &mut Case, others: Others<'_>, name: &str) -> Result<(), Why> {
    let other = others.called(name)?;
    case.files.put_all(&other.files)?;
    for table in &other.tables {
        case.put_table(table.copied(alloc)?)?;
    }
    Ok(())
}

/// `makes NAME`
fn make_all(case: &mut Case, others: Others<'_>, name: &str) -> Result<(), Why> {
    let other = others.called(name)?;
    Ok(case.made.put_all(&other.files)?)
}

/// `table FILE = HEADER`
fn begin_table(alloc: Global, case: &mut Case, rest: &str) -> Result<(), Why> {
    let (name, header) = sides(rest)?;
    let table = Table::new(alloc, &one(alloc, name)?, header)?;
    case.begin(Side::Before, table);
    Ok(())
}

/// `head FILE = HEADER`
fn set_header(alloc: Global, case: &mut Case, rest: &str) -> Result<(), Why> {
    let (name, header) = sides(rest)?;
    let at = place_of(&case.tables, &one(alloc, name)?)?;
    case.tables[at].set_header(alloc, header)?;
    case.tables[at].put_into(alloc, &mut case.files)
}

/// `row FILE K = CELLS`, or `row FILE + = CELLS`
fn set_row(alloc: Global, case: &mut Case, front: &str, cells: &str) -> Result<(), Why> {
    let (name, k) = two(alloc, front)?;
    let at = place_of(&case.tables, &name)?;
    match k.as_str() {
        "+" => case.tables[at].push(alloc, cells)?,
        digits => case.tables[at].set(alloc, number(digits)?, cells)?,
    }
    case.tables[at].put_into(alloc, &mut case.files)
}

/// `row FILE -`
fn leave_row(alloc: Global, case: &mut Case, front: &str) -> Result<(), Why> {
    let at = place_of(&case.tables, &one(alloc, front)?)?;
    case.tables[at].pop()?;
    case.tables[at].put_into(alloc, &mut case.files)
}

/// `row FILE ..`
fn change_row(alloc: Global, case: &mut Case, rest: &str) -> Result<(), Why> {
    match rest.strip_suffix(" -") {
        Some(front) if !front.contains(" = ") => leave_row(alloc, case, front),
        _ => {
            let (front, cells) = sides(rest)?;
            set_row(alloc, case, front, cells)
        }
    }
}

/// `file FILE = BYTES`
fn put_file(alloc: Global, case: &mut Case, rest: &str) -> Result<(), Why> {
    let (name, bytes) = sides(rest)?;
    let bytes = split_bytes(alloc, bytes)?;
    Ok(case.files.put(&one(alloc, name)?, bytes)?)
}

/// These bytes, with others in their place from an offset on.
fn damaged(alloc: Global, bytes: &[u8], at: usize, new: &[u8]) -> Result<Vec<u8>, Why> {
    let Some(end) = at.checked_add(new.len()) else {
        return Err(Why::PastEnd);
    };
    match (bytes.get(..at), bytes.get(end..)) {
        (Some(front), Some(back)) => {
            let mut whole = Vec::from_slice(alloc, front)?;
            whole.extend_from_slice(new)?;
            whole.extend_from_slice(back)?;
            Ok(whole)
        }
        _ => Err(Why::PastEnd),
    }
}

/// `bytes FILE AT = BYTES`
fn damage(alloc: Global, case: &mut Case, rest: &str) -> Result<(), Why> {
    let (front, new) = sides(rest)?;
    let (name, at) = two(alloc, front)?;
    let new = split_bytes(alloc, new)?;
    let Some(old) = case.files.get(&name) else {
        return Err(Why::NoFile);
    };
    let bytes = damaged(alloc, old, number(&at)?, &new)?;
    Ok(case.files.put(&name, bytes)?)
}

/// `cut FILE AT`
fn cut(alloc: Global, case: &mut Case, rest: &str) -> Result<(), Why> {
    let (name, at) = two(alloc, rest)?;
    let Some(old) = case.files.get(&name) else {
        return Err(Why::NoFile);
    };
    let Some(front) = old.get(..number(&at)?) else {
        return Err(Why::PastEnd);
    };
    let bytes = Vec::from_slice(alloc, front)?;
    Ok(case.files.put(&name, bytes)?)
}

/// `absent FILE`
fn leave_out(alloc: Global, case: &mut Case, rest: &str) -> Result<(), Why> {
    match case.files.remove(&one(alloc, rest)?) {
        true => Ok(()),
        false => Err(Why::NoFile),
    }
}

/// `made NAME = BYTES`, or `made NAME table = HEADER`
fn put_made(alloc: Global, case: &mut Case, front: &str, rest: &str) -> Result<(), Why> {
    match front.strip_suffix(" table") {
        Some(name) => {
            let table = Table::new(alloc, &one(alloc, name)?, rest)?;
            case.begin(Side::Made, table);
            Ok(())
        }
        None => {
            let bytes = split_bytes(alloc, rest)?;
            Ok(case.made.put(&one(alloc, front)?, bytes)?)
        }
    }
}

/// `made NAME like FILE`
fn make_like(alloc: Global, case: &mut Case, name: &str, file: &str) -> Result<(), Why> {
    let Some(old) = case.files.get(&one(alloc, file)?) else {
        return Err(Why::NoFile);
    };
    let bytes = Vec::from_slice(alloc, old)?;
    Ok(case.made.put(&one(alloc, name)?, bytes)?)
}

/// `made NAME ..`
fn make(alloc: Global, case: &mut Case, rest: &str) -> Result<(), Why> {
    match (sides(rest), rest.split_once(" like ")) {
        (Ok((front, rest)), _) => put_made(alloc, case, front, rest),
        (Err(_), Some((name, file))) => make_like(alloc, case, name, file),
        (Err(why), None) => Err(why),
    }
}

/// A word that stands alone.
fn alone(rest: &str) -> Result<bool, Why> {
    match rest {
        "" => Ok(true),
        _ => Err(Why::Form),
    }
}

/// A line that changes the tables of a case, by its first word.
fn change_tables(
    alloc: Global,
    case: &mut Case,
    others: Others<'_>,
    word: &str,
    rest: &str,
) -> Result<(), Why> {
    match word {
        "use" => use_case(alloc, case, others, rest),
        "table" => begin_table(alloc, case, rest),
        "head" => set_header(alloc, case, rest),
        "row" => change_row(alloc, case, rest),
        "makes" => make_all(case, others, rest),
        _ => change_files(alloc, case, word, rest),
    }
}

/// A line that changes the files of a case, by its first word.
fn change_files(alloc: Global, case: &mut Case, word: &str, rest: &str) -> Result<(), Why> {
    match word {
        "file" => put_file(alloc, case, rest),
        "bytes" => damage(alloc, case, rest),
        "cut" => cut(alloc, case, rest),
        "absent" => leave_out(alloc, case, rest),
        "made" => make(alloc, case, rest),
        _ => change_ways(case, word, rest),
    }
}

/// A line that says in which ways a case is asked.
fn change_ways(case: &mut Case, word: &str, rest: &str) -> Result<(), Why> {
    match word {
        "memory" => case.memory = alone(rest)?,
        "once" => case.once = alone(rest)?,
        _ => return Err(Why::Unknown),
    }
    Ok(())
}

/// A line of a case that begins with a word.
pub fn read_word(
    alloc: Global,
    case: &mut Case,
    others: Others<'_>,
    line: &str,
) -> Result<(), Why> {
    let (word, rest) = line.split_once(' ').unwrap_or((line, ""));
    change_tables(alloc, case, others, word, rest)
}
