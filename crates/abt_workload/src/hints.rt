//! What may be said further of a faulty line: that the text begins with a byte order mark, that the line ends with a carriage
//! return, or what its shape lacks.

ghost use Rattle.std.specs.Prelude.{◌≡◌, [], IfOk};
ghost use Rattle.abt_machine.specs.Spelling.{lines_of, words_of};
ghost use Rattle.abt_workload.specs.Hints.{form_hint, form_in, form_line, hint, line_hint, nth_line, object_rows, shape_hint, shape_line, unit_rows};

use crate::forms::{form_of, is};
use crate::text::{first_line, first_word, format_of, has_control, words};
use abt_machine::{Fault, Form, Format, Want};
use std::alloc::Global;

/// What may be said further of the line of this number: a line with its end, or nothing. Line 0 is the text's length.
pub fn line_hint(text: &[u8], line: u32) -> &'static [u8]
    ensures { result.now ≡ line_hint text.now line }
{
    if line == 0 {
        b""
    } else if text.starts_with(&[0xef, 0xbb, 0xbf]) {
        b"the text begins with a byte order mark\n"
    } else if nth_line(text, line).ends_with(b"\r") {
        b"the line ends with a carriage return\n"
    } else {
        b""
    }
}

/// What may be said further of the line of this number of a workload text, which has this fault: a line with its end, or
/// nothing.
///
/// # Errors
/// Memory was refused.
pub fn hint(alloc: Global, text: &[u8], line: u32, fault: Fault) -> Result<&'static [u8], Want>
    ensures { IfOk result (λ said. said.now ≡ hint text.now line fault) }
{
    let said = line_hint(text, line);
    if !said.is_empty() {
        return Ok(said);
    }
    match fault {
        Fault::Shape => shape_hint(alloc, format_of(text), nth_line(text, line)),
        _ => Ok(b""),
    }
}

// What is said of the shape of a line in a text of this format.
fn shape_hint(alloc: Global, format: Format, line: &[u8]) -> Result<&'static [u8], Want>
    ensures { IfOk result (λ said. said.now ≡ shape_hint format line.now) }
{
    let mut found = Vec::new(alloc);
    words(line, &mut found)?;
    Ok(shape_line(form_of(format, &found), line))
}

// The same of a line that has this form, if any.
fn shape_line(form: Option<Form>, line: &[u8]) -> &'static [u8]
    ensures { result.now ≡ shape_line form line.now }
{
    match form {
        None => form_hint(line),
        Some(_) => {
            if has_control(line, false) {
                b"the line has a control character\n"
            } else {
                b"a line of this form must not stand here\n"
            }
        }
    }
}

// The line of this number, counted from 1, without its line feed; nothing if there is none of that number.
fn nth_line(text: &[u8], line: u32) -> &[u8]
    ensures { result.now ≡ nth_line (lines_of text.now) line }
{
    if line == 0 {
        return &[];
    }
    let mut rest = text;
    let mut above = line - 1;
    while !rest.is_empty() {
        let (first, after) = first_line(rest);
        if above == 0 {
            return first;
        }
        above -= 1;
        rest = after;
    }
    &[]
}

// The form of the lines that begin with the first word of this line, if there are any.
fn form_hint(line: &[u8]) -> &'static [u8]
    ensures { result.now ≡ form_hint (words_of line.now) }
{
    match first_word(line) {
        None => b"",
        Some((word, _)) => form_line(word),
    }
}

// The form of the lines that begin with this word, if there are any.
fn form_line(word: &[u8]) -> &'static [u8]
    ensures { result.now ≡ form_line word.now }
{
    if is(word, "abt") {
        b"form: abt 1, abt 2 or abt 3\n"
    } else if is(word, "streams") {
        b"form: streams N\n"
    } else if is(word, "keys") {
        b"form: keys N\n"
    } else if is(word, "pool") {
        b"form: pool P KIND ACCESS\n"
    } else if is(word, "sched") {
        b"form: sched G RULE POOLS\n"
    } else if is(word, "stream") {
        b"form: stream S main G\n"
    } else if is(word, "object") {
        b"form: object X THING\n"
    } else if is(word, "units") {
        b"form: units N\n"
    } else if is(word, "unit") {
        b"form: unit U BODY START\n"
    } else if is(word, "many") {
        b"form: many U C BODY START\n"
    } else if is(word, "repeat") {
        b"form: repeat N OP\n"
    } else if is(word, "end") {
        b"form: end\n"
    } else {
        unit_line(word)
    }
}

// The same for a word that declares nothing.
fn unit_line(word: &[u8]) -> &'static [u8]
    ensures { result.now ≡ form_in unit_rows word.now (form_in object_rows word.now []) }
{
    if is(word, "set") {
        b"form: set N\n"
    } else if is(word, "add") {
        b"form: add N\n"
    } else if is(word, "say") {
        b"form: say WORD\n"
    } else if is(word, "print") {
        b"form: print\n"
    } else if is(word, "kset") {
        b"form: kset K\n"
    } else if is(word, "kget") {
        b"form: kget K\n"
    } else if is(word, "calc") {
        b"form: calc NAME K\n"
    } else if is(word, "call") {
        b"form: call F\n"
    } else if is(word, "yield") {
        b"form: yield\n"
    } else if is(word, "yieldto") {
        b"form: yieldto V P\n"
    } else if is(word, "suspend") {
        b"form: suspend\n"
    } else if is(word, "exit") {
        b"form: exit\n"
    } else if is(word, "resume") {
        b"form: resume V\n"
    } else if is(word, "create") {
        b"form: create V P\n"
    } else if is(word, "join") {
        b"form: join V\n"
    } else if is(word, "cancel") {
        b"form: cancel V\n"
    } else if is(word, "migrate") {
        b"form: migrate V P\n"
    } else if is(word, "migrateto") {
        b"form: migrateto V S\n"
    } else if is(word, "migratable") {
        b"form: migratable V N\n"
    } else if is(word, "revive") {
        b"form: revive V P\n"
    } else {
        object_line(word)
    }
}

// The same for a word that is of no operation on numbers, keys and units.
fn object_line(word: &[u8]) -> &'static [u8]
    ensures { result.now ≡ form_in object_rows word.now [] }
{
    if is(word, "lock") {
        b"form: lock X\n"
    } else if is(word, "trylock") {
        b"form: trylock X\n"
    } else if is(word, "unlock") {
        b"form: unlock X\n"
    } else if is(word, "load") {
        b"form: load X\n"
    } else if is(word, "store") {
        b"form: store X\n"
    } else if is(word, "cwait") {
        b"form: cwait X\n"
    } else if is(word, "signal") {
        b"form: signal X\n"
    } else if is(word, "broadcast") {
        b"form: broadcast X\n"
    } else if is(word, "ewait") {
        b"form: ewait X\n"
    } else if is(word, "eset") {
        b"form: eset X\n"
    } else if is(word, "ereset") {
        b"form: ereset X\n"
    } else if is(word, "etest") {
        b"form: etest X\n"
    } else if is(word, "fwait") {
        b"form: fwait X\n"
    } else if is(word, "fset") {
        b"form: fset X\n"
    } else if is(word, "freset") {
        b"form: freset X\n"
    } else if is(word, "ftest") {
        b"form: ftest X\n"
    } else if is(word, "bwait") {
        b"form: bwait X\n"
    } else if is(word, "rdlock") {
        b"form: rdlock X\n"
    } else if is(word, "wrlock") {
        b"form: wrlock X\n"
    } else if is(word, "rwunlock") {
        b"form: rwunlock X\n"
    } else if is(word, "rwload") {
        b"form: rwload X\n"
    } else if is(word, "rwstore") {
        b"form: rwstore X\n"
    } else {
        b""
    }
}
