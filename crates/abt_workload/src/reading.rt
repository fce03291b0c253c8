//! The reader.

ghost use Rattle.std.specs.Prelude.{◌≡◌, ◌++◌, ◌≤◌, length, nat_lt, true, IfErr, IfOk, OnOk, flat_map, map, option_to_list};
ghost use Rattle.abt_machine.specs.Declaring.{parts_of};
ghost use Rattle.abt_machine.specs.Faults.{line_fault};
ghost use Rattle.abt_machine.specs.Grammar.{Reads, and_line, format_of};
ghost use Rattle.abt_machine.specs.Limits.{text_limit};
ghost use Rattle.abt_machine.specs.Spelling.{lines_of, words_of};
ghost use Rattle.abt_workload.specs.Bytes.{IsClean};
ghost use Rattle.abt_workload.specs.Declarable.{IsClosable};
ghost use Rattle.abt_workload.specs.Reading.{IsCause, IsFirm, IsSeen};

use crate::draft::Draft;
use crate::judge::Verdict;
use crate::numbers::Numbered;
use crate::text::{cut_line, format_of, is_skipped, is_utf8};
use abt_machine::{Fault, Format, Items, Parts, SchedNo, Want, Workload};
use std::alloc::Global;
use thiserror::Error;

/// Why a text was not read.
#[derive(Clone, Copy, Debug, Drop, PartialEq, Eq, Error)]
pub enum NotRead {
    /// The least line that has a fault, counted from 1, and its first fault; line 0 is the text's length.
    #[error("line {line}: {fault:?}")]
    Refused { line: u32, fault: Fault },
    #[error("out of memory")]
    Memory,
}

impl Draft {
    // Takes a line of these words, which is perhaps known to be clean: its first fault, or what is declared with it.
    fn take_line(
        &mut self,
        alloc: Global,
        line: &[u8],
        is_clean: bool,
        words: &[&[u8]],
        numbers: &mut Vec<Numbered>,
    ) -> Result<Option<Fault>, Want>
        requires firm { IsFirm self.old }
        requires words { map (λ w. w.now) words.now ≡ words_of line.now }
        requires clean { is_clean ≡ true → IsClean line.now }
        ensures fault { IfOk result (λ fault. fault ≡ line_fault self.old line.now) }
        ensures declared { IfOk result (λ fault. fault ≡ None → self.new ≡ and_line self.old line.now) }
    {
        if is_skipped(words) {
            return Ok(if is_utf8(line, is_clean) {
                None
            } else {
                Some(Fault::Utf8)
            });
        }
        match self.judge(alloc, line, is_clean, words, numbers)? {
            Verdict::Faulty(fault) => Ok(Some(fault)),
            Verdict::Sound(form) => {
                self.declare(alloc, form, words, numbers)?;
                Ok(None)
            }
        }
    }

    // The parts that are declared.
    fn into_parts(mut self, alloc: Global) -> Result<Parts, Want>
        requires { IsClosable self }
        ensures { IfOk result (λ parts. parts ≡ parts_of self) }
    {
        self.close(alloc)?;
        let Draft {
            streams,
            keys,
            pools,
            scheds,
            mains,
            objects,
            units,
            words,
            ..
        } = self;
        let mains = all_mains(alloc, &mains)?;
        Ok(Parts {
            streams: streams.unwrap_or(0),
            keys,
            pools: Items::new(pools),
            scheds: Items::new(scheds),
            mains: Items::new(mains),
            objects: Items::new(objects),
            units: Items::new(units.into_parts()),
            words: Items::new(words),
        })
    }
}

// The main schedulers that are declared.
fn all_mains(alloc: Global, mains: &[Option<SchedNo>]) -> Result<Vec<SchedNo>, Want>
    ensures { IfOk result (λ all. all.items ≡ flat_map option_to_list mains.now) }
{
    let mut all = Vec::with_capacity(alloc, mains.len())?;
    for main in mains {
        add_main(&mut all, *main)?;
    }
    Ok(all)
}

fn add_main(all: &mut Vec<SchedNo>, main: Option<SchedNo>) -> Result<(), Want>
    ensures { OnOk result (all.new.items ≡ all.old.items ++ option_to_list main) }
{
    if let Some(g) = main {
        all.push(g)?;
    }
    Ok(())
}

// What the lines of a text declare, or the least that has a fault.
fn read_lines(alloc: Global, bytes: &[u8]) -> Result<Draft, NotRead>
    requires { length bytes.now ≤ text_limit (format_of (lines_of bytes.now)) }
    ensures ok { IfOk result (IsSeen bytes.now) }
    ensures refused { IfErr result (IsCause bytes.now) }
{
    let mut draft = Draft::new(alloc);
    let mut found = Vec::new(alloc);
    let mut numbers = Vec::new(alloc);
    let mut rest = bytes;
    let mut line = 0u32;
    while !rest.is_empty() {
        let Ok(cut) = cut_line(rest, &mut found) else {
            return Err(NotRead::Memory);
        };
        match draft.take_line(alloc, cut.line, cut.is_clean, &found, &mut numbers) {
            Ok(None) => {}
            Ok(Some(fault)) => {
                return Err(NotRead::Refused {
                    line: line + 1,
                    fault,
                });
            }
            Err(_) => return Err(NotRead::Memory),
        }
        line += 1;
        rest = cut.after;
    }
    if !draft.has_ended() {
        return Err(NotRead::Refused {
            line: line + 1,
            fault: Fault::NoEnd,
        });
    }
    Ok(draft)
}

// Whether a text has more bytes than its format allows.
fn is_too_long(bytes: &[u8]) -> bool
    ensures { result ≡ nat_lt (text_limit (format_of (lines_of bytes.now))) (length bytes.now) }
{
    bytes.len() > Format::One.text_limit() && bytes.len() > format_of(bytes).text_limit()
}

/// Reads a workload text of any format, in one pass over its bytes.
///
/// # Errors
/// `Refused` has the least line that has a fault, and that line's first fault in the order of the
/// variants of `Fault`; `Memory`: memory was refused.
pub fn read(alloc: Global, bytes: &[u8]) -> Result<Workload, NotRead>
    ensures ok { IfOk result (Reads bytes.now) }
    ensures refused { IfErr result (IsCause bytes.now) }
{
    if is_too_long(bytes) {
        return Err(NotRead::Refused {
            line: 0,
            fault: Fault::Limit,
        });
    }
    let draft = read_lines(alloc, bytes)?;
    let Ok(parts) = draft.into_parts(alloc) else {
        return Err(NotRead::Memory);
    };
    match Workload::new(alloc, parts) {
        Ok(w) => Ok(w),
        Err(Want) => Err(NotRead::Memory),
    }
}
