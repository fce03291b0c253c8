//! Changes of one line of a journal.

use std::alloc::{AllocError, Global};

/// A journal's text with one line changed: what the change is called, how many of its first lines it has in common with the
/// journal, and whether each of its lines is an event's.
#[derive(Drop)]
pub(crate) struct Change {
    pub(crate) name: String,
    pub(crate) text: String,
    pub(crate) kept: usize,
    pub(crate) is_journal: bool,
}

// The words of each kind, in groups. A line stays an event's if a word is exchanged within its group: these kinds of
// events have the same numbers behind them.
const KINDS: [&[&[&str]]; 3] = [
    &[
        &["miss", "look", "enter", "leave"],
        &["take", "put"],
        &["step"],
        &["call"],
        &["end"],
    ],
    &[&[
        "ok",
        "pool-access",
        "exists",
        "unit-state",
        "not-migratable",
        "absent",
        "mutex-locked",
        "not-owner",
        "eventual-set",
        "future-full",
        "rw-held",
        "rw-full",
        "not-holder",
    ]],
    &[&["done", "asked", "access", "own"]],
];

// Whether one of the groups has this word.
fn is_of(groups: &[&[&str]], word: &str) -> bool {
    groups.iter().any(|group| group.contains(&word))
}

/// The parts of a text between separators.
pub(crate) fn parts<'a>(
    alloc: Global,
    text: &'a str,
    separator: &str,
) -> Result<Vec<&'a str>, AllocError> {
    let mut parts = Vec::new(alloc);
    for part in text.split(separator) {
        parts.push(part)?;
    }
    Ok(parts)
}

// Appends lines.
fn push_lines(text: &mut String, lines: &[&str]) -> Result<(), AllocError> {
    for line in lines {
        writeln!(text, "{line}")?;
    }
    Ok(())
}

// The text of the lines, with the new ones in the place of `count` of them, from line `at` on.
fn replaced(
    alloc: Global,
    lines: &[&str],
    at: usize,
    count: usize,
    new: &[&str],
) -> Result<String, AllocError> {
    let mut text = String::new(alloc);
    for (number, line) in lines.iter().enumerate() {
        if number == at {
            push_lines(&mut text, new)?;
        }
        if number < at || number - at >= count {
            writeln!(text, "{line}")?;
        }
    }
    Ok(text)
}

// The words with another in the place of word `at`, as a line.
fn with_word(alloc: Global, words: &[&str], at: usize, new: &str) -> Result<String, AllocError> {
    let mut line = String::new(alloc);
    for (number, word) in words.iter().enumerate() {
        if number > 0 {
            line.push(' ')?;
        }
        line.push_str(if number == at { new } else { word })?;
    }
    Ok(line)
}

// The number that is one less, as a word.
fn less(alloc: Global, n: u64) -> Result<String, AllocError> {
    if n == 0 {
        return String::from_str(alloc, "-1");
    }
    format!(in alloc; "{}", n - 1)
}

// The changes of a journal's lines that were found, and the line that is changed next.
#[derive(Drop)]
struct Changing<'a> {
    alloc: Global,
    lines: &'a [&'a str],
    line: usize,
    found: Vec<Change>,
}

impl Changing<'_> {
    // Adds a change: it has new lines in the place of `count`, and its first `kept` lines in common with the journal.
    fn push(
        &mut self,
        name: String,
        count: usize,
        new: &[&str],
        kept: usize,
        is_journal: bool,
    ) -> Result<(), AllocError> {
        let text = replaced(self.alloc, self.lines, self.line, count, new)?;
        self.found.push(Change {
            name,
            text,
            kept,
            is_journal,
        })?;
        Ok(())
    }

    // Adds the change of a word to another.
    fn push_word(
        &mut self,
        words: &[&str],
        at: usize,
        new: &str,
        is_journal: bool,
    ) -> Result<(), AllocError> {
        let number = self.line.saturating_add(1);
        let changed = with_word(self.alloc, words, at, new)?;
        let name = format!(in self.alloc; "{number}: {changed}")?;
        self.push(name, 1, &[changed.as_str()], self.line, is_journal)
    }

    // Adds the changes of a number to one less and to one more.
    fn push_number(&mut self, words: &[&str], at: usize, n: u64) -> Result<(), AllocError> {
        let less = less(self.alloc, n)?;
        self.push_word(words, at, &less, n > 0)?;
        let more = format!(in self.alloc; "{}", n.saturating_add(1))?;
        self.push_word(words, at, &more, true)
    }

    // Adds the changes of a word to each other one of its kind.
    fn push_others(
        &mut self,
        words: &[&str],
        at: usize,
        groups: &[&[&str]],
        word: &str,
    ) -> Result<(), AllocError> {
        for group in groups {
            let is_journal = group.contains(&word);
            for new in *group {
                if *new != word {
                    self.push_word(words, at, new, is_journal)?;
                }
            }
        }
        Ok(())
    }

    // Adds each change of one word of the line: a number is one less or one more, another word is each other one of its kind.
    fn push_words(&mut self, words: &[&str]) -> Result<(), AllocError> {
        for (at, word) in words.iter().enumerate() {
            if let Ok(n) = word.parse::<u64>() {
                self.push_number(words, at, n)?;
            }
            for groups in KINDS {
                if is_of(groups, word) {
                    self.push_others(words, at, groups, word)?;
                }
            }
        }
        Ok(())
    }

    // Adds the changes of the whole line: it is dropped, doubled, and changes places with the next.
    fn push_line(&mut self, own: &str, next: Option<&str>) -> Result<(), AllocError> {
        let number = self.line.saturating_add(1);
        let name = format!(in self.alloc; "drop {number}")?;
        self.push(name, 1, &[], self.line, true)?;
        let name = format!(in self.alloc; "double {number}")?;
        self.push(name, 1, &[own, own], number, true)?;
        if let Some(next) = next {
            let name = format!(in self.alloc; "swap {number}")?;
            self.push(name, 2, &[next, own], self.line, true)?;
        }
        Ok(())
    }
}

/// All changes of one line of a journal.
pub(crate) fn changes(alloc: Global, lines: &[&str]) -> Result<Vec<Change>, AllocError> {
    let mut changes = Changing {
        alloc,
        lines,
        line: 0,
        found: Vec::new(alloc),
    };
    for own in lines {
        let next = lines.get(changes.line.saturating_add(1)).copied();
        changes.push_line(own, next)?;
        let words = parts(alloc, own, " ")?;
        changes.push_words(&words)?;
        changes.line = changes.line.saturating_add(1);
    }
    Ok(changes.found)
}
