//! The first fault of a line.

ghost use Rattle.std.specs.Prelude.{◌≡◌, map, true, IfOk, nat_lt, unwrap_or};
ghost use Rattle.std.specs.Bool.{OnTrue};
ghost use Rattle.std.specs.List.{list_all};
ghost use Rattle.abt_machine.specs.Faults.{blocks_task, is_barred, is_beyond, is_early, is_homeless, is_long_word, is_misplaced, is_no_version, is_past_limit, is_there, is_twice, is_within, lacks_units, numbers_of, values};
ghost use Rattle.abt_machine.specs.Spelling.{is_number};
ghost use Rattle.abt_machine.specs.Forms.{numerals, section, slots};
ghost use Rattle.abt_machine.specs.Declaring.{declared_units};
ghost use Rattle.abt_workload.specs.Bytes.{IsClean};
ghost use Rattle.abt_workload.specs.Judging.{IsJudged, IsShaped, later_fault};

use crate::draft::Draft;
use crate::forms::{form_of, is_unknown, is_version, slots};
use crate::numbers::{Numbered, add_numbers, add_repeated, has_repeated, listed, value};
use crate::text::{has_control, is_utf8, words_after};
use abt_machine::{Fault, Form, Format, LISTED_LIMIT, Number, Op, Role, WORD_LIMIT, Want};
use std::alloc::Global;

/// The section that a line of this form belongs to.
pub(crate) fn section(form: Form) -> u8
    ensures { result ≡ section form }
{
    match form {
        Form::Version(_) => 1,
        Form::Streams => 2,
        Form::Keys => 3,
        Form::Pool(_) => 4,
        Form::Sched(_) => 5,
        Form::Stream => 6,
        Form::Object(_) => 7,
        Form::Units => 8,
        Form::Unit(_, _) | Form::Many(_, _) | Form::Operation(_) | Form::Repeat(_) => 9,
        Form::End => 10,
    }
}

// Finds the numbers of a line, in place of those that were there; false if a word in a number's place is
// not a number.
fn find_numbers(form: Form, words: &[&[u8]], numbers: &mut Vec<Numbered>) -> Result<bool, Want>
    ensures all { IfOk result (λ all. all ≡ list_all (λ p. is_number p.1) (numerals (slots form) (map (λ w. w.now) words.now))) }
    ensures numbers { IfOk result (λ all. OnTrue all (numbers.new.items ≡ numbers_of form (map (λ w. w.now) words.now))) }
{
    numbers.clear();
    // A line of one word has no number.
    if words.len() < 2 {
        return Ok(true);
    }
    match form {
        Form::Repeat(_) => add_repeated(slots(form), words, numbers),
        _ => add_numbers(slots(form), words, numbers),
    }
}

/// What was found of a line.
#[derive(Clone, Copy)]
pub(crate) enum Verdict {
    Faulty(Fault),
    Sound(Form),
}

impl Draft {
    /// The first fault of a line of these words, which is perhaps known to be clean, or its form; then these are its numbers.
    pub(crate) fn judge(
        &self,
        alloc: Global,
        line: &[u8],
        is_clean: bool,
        words: &[&[u8]],
        numbers: &mut Vec<Numbered>,
    ) -> Result<Verdict, Want>
        requires { is_clean ≡ true → IsClean line.now }
        ensures { IfOk result (λ v. IsJudged self.now line.now (map (λ w. w.now) words.now) v numbers.new.items) }
    {
        let form = match self.shape(line, is_clean, words) {
            Verdict::Faulty(fault) => return Ok(Verdict::Faulty(fault)),
            Verdict::Sound(form) => form,
        };
        if !find_numbers(form, words, numbers)? {
            return Ok(Verdict::Faulty(Fault::Number));
        }
        match self.later_fault(alloc, form, words, numbers)? {
            Some(fault) => Ok(Verdict::Faulty(fault)),
            None => Ok(Verdict::Sound(form)),
        }
    }

    // The first fault of a line up to `shape`, or its form.
    fn shape(&self, line: &[u8], is_clean: bool, words: &[&[u8]]) -> Verdict
        requires { is_clean ≡ true → IsClean line.now }
        ensures { IsShaped self.now line.now (map (λ w. w.now) words.now) result }
    {
        if !is_utf8(line, is_clean) {
            return Verdict::Faulty(Fault::Utf8);
        }
        if self.is_no_version(words) {
            return Verdict::Faulty(Fault::Version);
        }
        let Some(form) = form_of(self.format, words) else {
            if is_unknown(self.format, words) {
                return Verdict::Faulty(Fault::Unknown);
            }
            return Verdict::Faulty(Fault::Shape);
        };
        if has_control(line, is_clean) {
            return Verdict::Faulty(Fault::Shape);
        }
        if self.is_misplaced(form) {
            return Verdict::Faulty(Fault::Shape);
        }
        Verdict::Sound(form)
    }

    // Whether this is the first line that is not skipped, and is not a version line.
    fn is_no_version(&self, words: &[&[u8]]) -> bool
        ensures { result ≡ is_no_version self.now (map (λ w. w.now) words.now) }
    {
        !self.begun && !is_version(words)
    }

    // Whether a line of this form must not stand here.
    fn is_misplaced(&self, form: Form) -> bool
        ensures { result ≡ is_misplaced self.now form }
    {
        let section = section(form);
        section < self.section
            || (section == self.section && matches!(section, 1 | 2 | 3 | 8))
            || self.is_homeless(form)
            || self.section == 10
    }

    // Whether a line of this form has no unit that it belongs to, or no place yet.
    fn is_homeless(&self, form: Form) -> bool
        ensures { result ≡ is_homeless self.now form }
    {
        match form {
            Form::Operation(_) | Form::Repeat(_) => !self.takes_operations(),
            Form::Many(_, _) => self.unit_count.is_none(),
            _ => false,
        }
    }

    // Whether a line declares what is declared, names a pool twice, or gives a stream a second main
    // scheduler or a scheduler a second place.
    fn is_twice(&self, alloc: Global, form: Form, numbers: &[Numbered]) -> Result<bool, Want>
        ensures { IfOk result (λ twice. twice ≡ is_twice self.now form (values numbers.now)) }
    {
        let first = value(numbers, 0);
        let second = value(numbers, 1);
        match form {
            Form::Pool(_) => Ok(first < self.pools.len() as u64),
            Form::Sched(rule) => {
                if first < self.scheds.len() as u64 {
                    return Ok(true);
                }
                has_repeated(alloc, listed(rule, numbers))
            }
            Form::Stream => Ok(self.has_main(first) || self.is_placed(second)),
            Form::Object(_) => Ok(first < self.objects.len() as u64),
            Form::Unit(Role::Sched, _) => {
                Ok(first < self.declared_units() || self.is_placed(second))
            }
            Form::Unit(_, _) => Ok(first < self.declared_units()),
            Form::Many(Role::Sched, _) => Ok(
                first < self.declared_units() || second > 1 || self.is_placed(value(numbers, 2)),
            ),
            Form::Many(_, _) => Ok(first < self.declared_units()),
            _ => Ok(false),
        }
    }

    // Whether all that a line names is declared, and it skips no number.
    fn all_there(&self, numbers: &[Numbered]) -> bool
        ensures { result ≡ list_all (λ p. is_there self.now p.0 p.1) numbers.now }
    {
        for (number, n) in numbers {
            if !self.is_there(*number, *n) {
                return false;
            }
        }
        true
    }

    // Whether a line declares a unit that is not one of those that `units` has.
    fn is_beyond(&self, form: Form, numbers: &[Numbered]) -> bool
        ensures { result ≡ is_beyond self.now form (values numbers.now) }
    {
        let first = u128::from(value(numbers, 0));
        match form {
            Form::Unit(_, _) => self.lacks_units(first + 1),
            Form::Many(_, _) => self.lacks_units(first + u128::from(value(numbers, 1))),
            _ => false,
        }
    }

    // Whether there are fewer than n units.
    fn lacks_units(&self, n: u128) -> bool
        ensures { result ≡ lacks_units self.now n }
    {
        u128::from(self.unit_count.unwrap_or(0)) < n
    }

    // Whether there are as many of something as there may be.
    fn is_past_limit(&self, form: Form, words: &[&[u8]], numbers: &[Numbered]) -> bool
        ensures { result ≡ is_past_limit self.now form (map (λ w. w.now) words.now) (values numbers.now) }
    {
        match form {
            Form::Pool(_) => self.pools.len() >= self.format.pool_limit(),
            Form::Sched(rule) => {
                self.scheds.len() >= self.format.sched_limit()
                    || listed(rule, numbers).len() > LISTED_LIMIT
            }
            Form::Object(_) => self.objects.len() >= self.format.object_limit(),
            Form::Operation(op) => self.has_no_room(1) || is_long_word(op, words),
            Form::Repeat(op) => {
                self.has_no_room(value(numbers, 0)) || is_long_word(op, words_after(words, 2))
            }
            _ => false,
        }
    }

    // Whether a line is an operation that may block or yield, for a tasklet.
    fn blocks_task(&self, form: Form) -> bool
        ensures { result ≡ blocks_task self.now form }
    {
        match form {
            Form::Operation(op) | Form::Repeat(op) => self.is_task() && op.may_block(),
            _ => false,
        }
    }

    // Whether a line gives a stream a scheduler that lists a pool from which the stream must not take.
    fn is_barred(&self, form: Form, numbers: &[Numbered]) -> bool
        ensures { result ≡ is_barred self.now form (values numbers.now) }
    {
        match form {
            Form::Stream => !self.may_take_all(value(numbers, 0), value(numbers, 1)),
            _ => false,
        }
    }

    // Whether a line of this form comes before one that it needs.
    fn is_early(&self, form: Form) -> bool
        ensures { result ≡ is_early self.now form }
    {
        let streams = self.streams.is_none();
        let units = self.unit_count.is_none();
        match form {
            Form::Version(_) | Form::Streams => false,
            Form::Units => streams || self.pools.is_empty() || self.lacks_main(),
            Form::Unit(_, _) | Form::Many(_, _) | Form::Operation(_) | Form::Repeat(_) => {
                streams || units
            }
            Form::End => streams || units || self.lacks_unit(),
            _ => streams,
        }
    }

    fn lacks_unit(&self) -> bool
        ensures { result ≡ nat_lt (declared_units self.now) (unwrap_or self.now.unit_count 0) }
    {
        self.declared_units() < u64::from(self.unit_count.unwrap_or(0))
    }

    // The first fault of a line of a known form, whose numbers are these.
    fn later_fault(
        &self,
        alloc: Global,
        form: Form,
        words: &[&[u8]],
        numbers: &[Numbered],
    ) -> Result<Option<Fault>, Want>
        ensures { IfOk result (λ fault. fault ≡ later_fault self.now form (map (λ w. w.now) words.now) numbers.now) }
    {
        if self.is_twice(alloc, form, numbers)? {
            return Ok(Some(Fault::Twice));
        }
        if !self.all_there(numbers) || self.is_beyond(form, numbers) {
            return Ok(Some(Fault::Undeclared));
        }
        if !all_within(self.format, numbers) || self.is_past_limit(form, words, numbers) {
            return Ok(Some(Fault::Limit));
        }
        if self.blocks_task(form) {
            return Ok(Some(Fault::TaskBlocks));
        }
        if self.is_barred(form, numbers) {
            return Ok(Some(Fault::Access));
        }
        if self.is_early(form) {
            return Ok(Some(Fault::Missing));
        }
        Ok(None)
    }
}

// Whether an operation's line says a word of more bytes than it may have.
fn is_long_word(op: Op, words: &[&[u8]]) -> bool
    ensures { result ≡ is_long_word op (map (λ w. w.now) words.now) }
{
    match op {
        Op::Say(_) => match words.get(1) {
            Some(word) => word.len() > WORD_LIMIT,
            None => false,
        },
        _ => false,
    }
}

// Whether each number that has bounds keeps them.
fn all_within(format: Format, numbers: &[Numbered]) -> bool
    ensures { result ≡ list_all (λ p. is_within format p.0 p.1) numbers.now }
{
    for (number, n) in numbers {
        if !is_within(format, *number, *n) {
            return false;
        }
    }
    true
}

fn is_within(format: Format, number: Number, n: u64) -> bool
    ensures { result ≡ is_within format number n }
{
    match number {
        Number::StreamCount => 1 <= n && n <= u64::from(format.stream_limit()),
        Number::UnitCount => n <= u64::from(format.unit_limit()),
        Number::Copies => 1 <= n && n <= u64::from(format.unit_limit()),
        Number::Times => 1 <= n && n <= format.unit_operation_limit() as u64,
        Number::Within(low, high) => low <= n && n <= high,
        _ => true,
    }
}
