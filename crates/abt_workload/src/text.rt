//! Lines, words and numbers of a text.

ghost use Rattle.std.specs.Prelude.{◌≡◌, ◌<◌, ◌≤◌, ◌+◌, ◌∷◌, ◌==◌, ℕ, [], true, false, None, Some, codes, drop, if◌then◌else◌, map, length, slice_index, take, IfSome, IfNone, IfOk, OnOk};
ghost use Rattle.std.specs.Str.{is_utf8};
ghost use Rattle.abt_machine.specs.Spelling.{has_control, is_separator, lines_of, words_of};
ghost use Rattle.abt_machine.specs.Faults.{begins_comment, is_skipped};
ghost use Rattle.abt_machine.specs.Grammar.{format_in, format_of};
ghost use Rattle.abt_workload.specs.Bytes.{IsClean, ends_word, is_printable};
ghost use Rattle.abt_workload.specs.Slots.{number_in};

use crate::forms::is;
use abt_machine::{Format, Want};

// The place of the first line feed, or the length if there is none.
fn line_end(text: &[u8]) -> usize
    ensures bound { result ≤ length text.now }
    ensures at { result < length text.now → (slice_index text.now result == 10) ≡ true }
    ensures before { (j : ℕ) → j < result → (slice_index text.now j == 10) ≡ false }
{
    for (k, b) in text.iter().enumerate() {
        if *b == b'\n' {
            return k;
        }
    }
    text.len()
}

/// The first line, and what follows its line feed.
pub fn first_line(text: &[u8]) -> (&[u8], &[u8])
    requires { 0 < length text.now }
    ensures line { lines_of text.now ≡ result.0.now ∷ lines_of result.1.now }
    ensures shorter { length result.1.now < length text.now }
{
    cut_at(text, line_end(text))
}

// The line that ends at this place, and what follows its line feed.
fn cut_at(text: &[u8], end: usize) -> (&[u8], &[u8])
    requires some { 0 < length text.now }
    requires bound { end ≤ length text.now }
    requires at { end < length text.now → (slice_index text.now end == 10) ≡ true }
    requires before { (j : ℕ) → j < end → (slice_index text.now j == 10) ≡ false }
    ensures line { lines_of text.now ≡ result.0.now ∷ lines_of result.1.now }
    ensures shorter { length result.1.now < length text.now }
    ensures cut { result.0.now ≡ take end text.now }
{
    if end < text.len() {
        (&text[..end], &text[end + 1..])
    } else {
        (text, &[])
    }
}

fn is_separator(b: u8) -> bool
    ensures { result ≡ is_separator b }
{
    b == b' ' || b == b'\t'
}

// The place of the first byte that is not a separator, or the length if there is none.
fn word_start(text: &[u8]) -> usize
    ensures bound { result ≤ length text.now }
    ensures at { result < length text.now → is_separator (slice_index text.now result) ≡ false }
    ensures before { (j : ℕ) → j < result → is_separator (slice_index text.now j) ≡ true }
{
    for (k, b) in text.iter().enumerate() {
        if !is_separator(*b) {
            return k;
        }
    }
    text.len()
}

// The place of the first separator, or the length if there is none.
fn word_end(line: &[u8]) -> usize
    ensures bound { result ≤ length line.now }
    ensures at { result < length line.now → is_separator (slice_index line.now result) ≡ true }
    ensures before { (j : ℕ) → j < result → is_separator (slice_index line.now j) ≡ false }
{
    for (k, b) in line.iter().enumerate() {
        if is_separator(*b) {
            return k;
        }
    }
    line.len()
}

/// The first word of a line, and what follows it, if the line has a word.
pub(crate) fn first_word(line: &[u8]) -> Option<(&[u8], &[u8])>
    ensures none { IfNone result (words_of line.now ≡ []) }
    ensures word { IfSome result (λ cut. words_of line.now ≡ cut.0.now ∷ words_of cut.1.now) }
    ensures shorter { IfSome result (λ cut. length cut.1.now < length line.now) }
{
    let line = &line[word_start(line)..];
    if line.is_empty() {
        return None;
    }
    let end = word_end(line);
    Some((&line[..end], &line[end..]))
}

/// The first line of a text, what follows its line feed, and whether it is known that the line is UTF-8 without a control
/// character other than a tab.
#[derive(Clone, Copy)]
pub(crate) struct Cut<'a> {
    pub(crate) line: &'a [u8],
    pub(crate) after: &'a [u8],
    pub(crate) is_clean: bool,
}

/// Cuts off the first line and finds its words, in place of those that were there, in one pass over its bytes.
pub(crate) fn cut_line<'a>(text: &'a [u8], words: &mut Vec<&'a [u8]>) -> Result<Cut<'a>, Want>
    requires { 0 < length text.now }
    ensures line { IfOk result (λ cut. lines_of text.entry.now ≡ cut.line.now ∷ lines_of cut.after.now) }
    ensures shorter { IfOk result (λ cut. length cut.after.now < length text.entry.now) }
    ensures words { IfOk result (λ cut. map (λ w. w.now) words.new.items ≡ words_of cut.line.now) }
    ensures clean { IfOk result (λ cut. cut.is_clean ≡ true → IsClean cut.line.now) }
{
    words.clear();
    let mut is_clean = true;
    let mut at = word_start(text);
    while line_goes_on(text, at) {
        let (length, is_printable) = word_length(&text[at..]);
        let end = at + length;
        words.push(&text[at..end])?;
        is_clean = is_clean && is_printable;
        at = end + word_start(&text[end..]);
    }
    let (line, after) = cut_at(text, at);
    Ok(Cut {
        line,
        after,
        is_clean,
    })
}

// Whether the first line goes on at this place.
fn line_goes_on(text: &[u8], at: usize) -> bool
    ensures goes_on { result ≡ true → (at < length text.now) × ((slice_index text.now at == 10) ≡ false) }
    ensures ends { result ≡ false → at < length text.now → (slice_index text.now at == 10) ≡ true }
{
    match text.get(at) {
        None => false,
        Some(b) => *b != b'\n',
    }
}

// The place of the first separator or line feed, or the length if there is none; and whether all bytes before it are known to
// be printable ones of ASCII.
fn word_length(text: &[u8]) -> (usize, bool)
    ensures bound { result.0 ≤ length text.now }
    ensures at { result.0 < length text.now → ends_word (slice_index text.now result.0) ≡ true }
    ensures before { (j : ℕ) → j < result.0 → ends_word (slice_index text.now j) ≡ false }
    ensures printable { result.1 ≡ true → (j : ℕ) → j < result.0 → is_printable (slice_index text.now j) ≡ true }
{
    let end = printable_end(text);
    match text.get(end) {
        None => (end, true),
        Some(b) => {
            if ends_word(*b) {
                (end, true)
            } else {
                (any_end(text), false)
            }
        }
    }
}

// The place of the first byte that is not a printable one of ASCII, or the length if there is none.
fn printable_end(text: &[u8]) -> usize
    ensures bound { result ≤ length text.now }
    ensures before { (j : ℕ) → j < result → is_printable (slice_index text.now j) ≡ true }
{
    for (k, b) in text.iter().enumerate() {
        if !is_printable(*b) {
            return k;
        }
    }
    text.len()
}

// The place of the first separator or line feed, or the length if there is none.
fn any_end(text: &[u8]) -> usize
    ensures bound { result ≤ length text.now }
    ensures at { result < length text.now → ends_word (slice_index text.now result) ≡ true }
    ensures before { (j : ℕ) → j < result → ends_word (slice_index text.now j) ≡ false }
{
    for (k, b) in text.iter().enumerate() {
        if ends_word(*b) {
            return k;
        }
    }
    text.len()
}

fn is_printable(b: u8) -> bool
    ensures { result ≡ is_printable b }
{
    b > b' ' && b < 127
}

fn ends_word(b: u8) -> bool
    ensures { result ≡ ends_word b }
{
    b == b'\n' || is_separator(b)
}

/// Finds the words of a line, in place of those that were there.
pub(crate) fn words<'a>(line: &'a [u8], words: &mut Vec<&'a [u8]>) -> Result<(), Want>
    ensures { OnOk result (map (λ w. w.now) words.new.items ≡ words_of line.entry.now) }
{
    words.clear();
    let mut rest = line;
    while let Some((word, after)) = first_word(rest) {
        words.push(word)?;
        rest = after;
    }
    Ok(())
}

/// The words that follow the first k.
pub(crate) fn words_after<'a, 'b>(words: &'a [&'b [u8]], k: usize) -> &'a [&'b [u8]]
    ensures { map (λ w. w.now) result.now ≡ drop k (map (λ w. w.now) words.now) }
{
    if k < words.len() { &words[k..] } else { &[] }
}

// The format that a line says, if it is not skipped.
fn format_in(line: &[u8]) -> Option<Format>
    ensures { result ≡ (if is_skipped (words_of line.now) then None else Some (format_in (words_of line.now))) }
{
    let (first, rest) = first_word(line)?;
    if begins_comment(first) {
        return None;
    }
    if !is(first, "abt") {
        return Some(Format::One);
    }
    match first_word(rest) {
        None => Some(Format::One),
        Some((second, rest)) => {
            if first_word(rest).is_some() {
                Some(Format::One)
            } else {
                Some(format_named(second))
            }
        }
    }
}

// The format of a line whose words are `abt` and this one.
fn format_named(word: &[u8]) -> Format
    ensures { result ≡ format_in (codes "abt" ∷ word.now ∷ []) }
{
    if is(word, "3") {
        Format::Three
    } else if is(word, "2") {
        Format::Two
    } else {
        Format::One
    }
}

/// The format of a text, by the first line that is not skipped: the first format, unless that line says another one.
pub fn format_of(text: &[u8]) -> Format
    ensures { result ≡ format_of (lines_of text.now) }
{
    let mut rest = text;
    while !rest.is_empty() {
        let (line, after) = first_line(rest);
        if let Some(format) = format_in(line) {
            return format;
        }
        rest = after;
    }
    Format::One
}

/// Whether a line of these words is skipped.
pub(crate) fn is_skipped(words: &[&[u8]]) -> bool
    ensures { result ≡ is_skipped (map (λ w. w.now) words.now) }
{
    match words.first() {
        None => true,
        Some(word) => begins_comment(word),
    }
}

fn begins_comment(word: &[u8]) -> bool
    ensures { result ≡ begins_comment word.now }
{
    match word.first() {
        None => false,
        Some(b) => *b == b'#',
    }
}

/// Whether a line, which is perhaps known to be clean, has a control character other than a tab.
pub(crate) fn has_control(line: &[u8], is_clean: bool) -> bool
    requires { is_clean ≡ true → IsClean line.now }
    ensures { result ≡ has_control line.now }
{
    !is_clean && bytes_have_control(line)
}

fn bytes_have_control(line: &[u8]) -> bool
    ensures { result ≡ has_control line.now }
{
    for b in line {
        if (*b < 32 && *b != b'\t') || *b == 127 {
            return true;
        }
    }
    false
}

/// Whether a line, which is perhaps known to be clean, is UTF-8.
pub(crate) fn is_utf8(line: &[u8], is_clean: bool) -> bool
    requires { is_clean ≡ true → IsClean line.now }
    ensures { result ≡ is_utf8 line.now }
{
    is_clean || bytes_are_utf8(line)
}

fn bytes_are_utf8(line: &[u8]) -> bool
    ensures { result ≡ is_utf8 line.now }
{
    match str::from_utf8(line) {
        Ok(_) => true,
        Err(_) => false,
    }
}

/// The number that a word is, if it is one.
pub fn number(word: &[u8]) -> Option<u64>
    ensures { result ≡ number_in word.now }
{
    if word.is_empty() {
        return None;
    }
    let mut n: u64 = 0;
    for b in word {
        if !b.is_ascii_digit() {
            return None;
        }
        let digit = u64::from(*b - b'0');
        if n > (u64::MAX - digit) / 10 {
            return None;
        }
        n = n * 10 + digit;
    }
    Some(n)
}
