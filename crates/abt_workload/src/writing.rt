//! The writer.

ghost use Rattle.std.specs.Prelude.{◌≡◌, ◌++◌, ◌∷◌, [], All, IfOk, OnOk, decimal, flat_map, length, map, true};
ghost use Rattle.std.specs.List.{enumerate_from, list_all};
ghost use Rattle.abt_machine.specs.Canonical.{canonical_text, filled, format_for, has_parts, has_text, has_unit, keys_lines, object_line, op_numbers, op_word, op_words, opening_lines, pool_line, role_of, rule_numbers, sched_line, stream_line, text_in, unit_header, unit_lines};
ghost use Rattle.abt_machine.specs.Forms.{combine_name, is_in, kind_name, op_slots};
ghost use Rattle.abt_machine.specs.Grammar.{Reads};
ghost use Rattle.abt_machine.specs.Operations.{IsDeclared};
ghost use Rattle.abt_machine.specs.Valid.{IsValid};
ghost use Rattle.abt_machine.specs.Words.{Text, ended, line_of, numbered, spaced, text_of};
ghost use Rattle.abt_machine.specs.Workloads.{all_ops, ops_of};
ghost use Rattle.abt_machine.specs.declared.grammar.Form.TheVariants as form;
ghost use Rattle.abt_machine.specs.declared.grammar.Format.TheVariants as format;
ghost use Rattle.abt_machine.specs.declared.numbers.PoolNo.{PoolNo};
ghost use Rattle.abt_workload.specs.Slots.{digit_of, is_headed, own_slots, slot_of};

use crate::forms::{Slot, is_in, operations, slots};
use abt_lines::{end_line, push_decimal, push_word};
use abt_machine::{
    Access, Body, Calc, Combine, Form, Format, Kind, ObjectNo, Op, PoolNo, PoolPart, Role, Rule,
    SchedNo, SchedPart, StreamNo, Thing, UnitNo, UnitPart, Want, Workload,
};
use std::alloc::Global;

// Appends numbers, with a space before each.
fn push_numbers(out: &mut Vec<u8>, numbers: &[u64]) -> Result<(), Want>
    ensures { OnOk result (out.new.items ≡ out.old.items ++ spaced (map decimal numbers.now)) }
{
    for n in numbers {
        push_decimal(out, *n)?;
    }
    Ok(())
}

// Appends the words at these places, with a space before each: the fixed words, this word where there is a
// choice, and in order these numbers.
fn push_places(out: &mut Vec<u8>, slots: &[Slot], word: &[u8], numbers: &[u64]) -> Result<(), Want>
    ensures { OnOk result (out.new.items ≡ out.old.items ++ spaced (filled (map slot_of slots.now) word.now numbers.now)) }
{
    match slots.split_first() {
        None => Ok(()),
        Some((slot, slots)) => match *slot {
            Slot::Fixed(text) => {
                push_word(out, text.as_bytes())?;
                push_places(out, slots, word, numbers)
            }
            Slot::KindWord | Slot::CombineWord | Slot::AnyWord => {
                push_word(out, word)?;
                push_places(out, slots, word, numbers)
            }
            Slot::Numeral(_) => match numbers.split_first() {
                None => Ok(()),
                Some((n, numbers)) => {
                    push_decimal(out, *n)?;
                    push_places(out, slots, word, numbers)
                }
            },
            Slot::PoolList => push_numbers(out, numbers),
        },
    }
}

// Appends the words at these places, of which the first is a fixed word, with a space between each two.
fn push_words(out: &mut Vec<u8>, slots: &[Slot], word: &[u8], numbers: &[u64]) -> Result<(), Want>
    requires { is_headed (map slot_of slots.now) ≡ true }
    ensures { OnOk result (out.new.items ≡ out.old.items ++ line_of (filled (map slot_of slots.now) word.now numbers.now)) }
{
    match slots.split_first() {
        None => unreachable!(),
        Some((slot, slots)) => match *slot {
            Slot::Fixed(text) => {
                out.extend_from_slice(text.as_bytes())?;
                push_places(out, slots, word, numbers)
            }
            Slot::KindWord | Slot::CombineWord | Slot::AnyWord => unreachable!(),
            Slot::Numeral(_) | Slot::PoolList => unreachable!(),
        },
    }
}

// Appends the words of a line of this form, with this word where there is a choice, and these numbers.
fn push_form(out: &mut Vec<u8>, form: Form, word: &[u8], numbers: &[u64]) -> Result<(), Want>
    ensures { OnOk result (out.new.items ≡ out.old.items ++ line_of (filled (own_slots form) word.now numbers.now)) }
{
    push_words(out, slots(form), word, numbers)
}

// Appends that line.
fn push_line(out: &mut Vec<u8>, form: Form, word: &[u8], numbers: &[u64]) -> Result<(), Want>
    ensures { OnOk result (out.new.items ≡ out.old.items ++ ended (line_of (filled (own_slots form) word.now numbers.now))) }
{
    push_form(out, form, word, numbers)?;
    end_line(out)
}

// Appends the line of the keys, if there are any.
fn push_keys(out: &mut Vec<u8>, keys: u32) -> Result<(), Want>
    ensures { OnOk result (out.new.items ≡ out.old.items ++ text_of (keys_lines keys)) }
{
    if keys > 0 {
        push_line(out, Form::Keys, b"", &[u64::from(keys)])?;
    }
    Ok(())
}

// Appends the lines before those of pools.
fn push_head(out: &mut Vec<u8>, streams: u32, keys: u32) -> Result<(), Want>
    ensures { OnOk result (out.new.items ≡ out.old.items ++ text_of (opening_lines format.One streams keys)) }
{
    push_line(out, Form::Version(Format::One), b"", &[])?;
    push_line(out, Form::Streams, b"", &[u64::from(streams)])?;
    push_keys(out, keys)
}

// Pools.

// The word of a kind of pools.
fn name_of_kind(kind: Kind) -> &'static [u8]
    ensures { result.now ≡ kind_name kind }
{
    match kind {
        Kind::Fifo => b"fifo",
        Kind::Deque => b"deque",
    }
}

// Appends the line of pool p.
fn push_pool(out: &mut Vec<u8>, p: u32, part: PoolPart) -> Result<(), Want>
    ensures { OnOk result (out.new.items ≡ out.old.items ++ ended (line_of (pool_line p part))) }
{
    let line = Form::Pool(part.access);
    let word = name_of_kind(part.kind);
    let p = u64::from(p);
    match part.access {
        Access::Priv(s) => push_line(out, line, word, &[p, u64::from(s.0)]),
        Access::Spsc(s, t) => push_line(out, line, word, &[p, u64::from(s.0), u64::from(t.0)]),
        Access::Mpsc(t) => push_line(out, line, word, &[p, u64::from(t.0)]),
        Access::Spmc(s) => push_line(out, line, word, &[p, u64::from(s.0)]),
        Access::Mpmc => push_line(out, line, word, &[p]),
    }
}

// Appends the lines of the pools.
fn push_pools(out: &mut Vec<u8>, w: &Workload) -> Result<(), Want>
    ensures { OnOk result (out.new.items ≡ out.old.items ++ text_of (numbered pool_line w.now.pools)) }
{
    for p in 0..w.pools() {
        push_pool(out, p, w.pool(PoolNo(p)))?;
    }
    Ok(())
}

// Schedulers.

// Appends the number that stands before a rule's pools, if there is one.
fn add_rule(numbers: &mut Vec<u64>, rule: Rule) -> Result<(), Want>
    ensures { OnOk result (numbers.new.items ≡ numbers.old.items ++ rule_numbers rule) }
{
    match rule {
        Rule::Basic | Rule::Prio => {}
        Rule::Randws(seed) => numbers.push(seed)?,
        Rule::User(k) => numbers.push(u64::from(k))?,
    }
    Ok(())
}

// Appends the numbers of pools.
fn add_listed(numbers: &mut Vec<u64>, pools: &[PoolNo]) -> Result<(), Want>
    ensures { OnOk result (numbers.new.items ≡ numbers.old.items ++ map (λ (p : PoolNo). p.0) pools.now) }
{
    for p in pools {
        numbers.push(u64::from(p.0))?;
    }
    Ok(())
}

// Appends the line of scheduler g.
fn push_sched(out: &mut Vec<u8>, alloc: Global, g: u32, part: &SchedPart) -> Result<(), Want>
    ensures { OnOk result (out.new.items ≡ out.old.items ++ ended (line_of (sched_line g part.now))) }
{
    let mut numbers = Vec::new(alloc);
    numbers.push(u64::from(g))?;
    add_rule(&mut numbers, part.rule)?;
    add_listed(&mut numbers, part.pools.items())?;
    push_line(out, Form::Sched(part.rule), b"", &numbers)
}

// Appends the lines of the schedulers.
fn push_scheds(out: &mut Vec<u8>, alloc: Global, w: &Workload) -> Result<(), Want>
    ensures { OnOk result (out.new.items ≡ out.old.items ++ text_of (numbered sched_line w.now.scheds)) }
{
    for g in 0..w.scheds() {
        push_sched(out, alloc, g, w.sched(SchedNo(g)))?;
    }
    Ok(())
}

// Streams.

// Appends the line of stream s.
fn push_stream(out: &mut Vec<u8>, s: u32, main: SchedNo) -> Result<(), Want>
    ensures { OnOk result (out.new.items ≡ out.old.items ++ ended (line_of (stream_line s main))) }
{
    push_line(out, Form::Stream, b"", &[u64::from(s), u64::from(main.0)])
}

// Appends the lines of the streams.
fn push_streams(out: &mut Vec<u8>, w: &Workload) -> Result<(), Want>
    ensures { OnOk result (out.new.items ≡ out.old.items ++ text_of (numbered stream_line w.now.mains)) }
{
    for s in 0..w.streams() {
        push_stream(out, s, w.main(StreamNo(s)))?;
    }
    Ok(())
}

// Objects.

// The word of what a future makes of its values.
fn name_of_combine(combine: Combine) -> &'static [u8]
    ensures { result.now ≡ combine_name combine }
{
    match combine {
        Combine::Sum => b"sum",
        Combine::Max => b"max",
        Combine::Count => b"count",
    }
}

// Appends the line of object x.
fn push_object(out: &mut Vec<u8>, x: u32, thing: Thing) -> Result<(), Want>
    ensures { OnOk result (out.new.items ≡ out.old.items ++ ended (line_of (object_line x thing))) }
{
    let line = Form::Object(thing);
    let x = u64::from(x);
    match thing {
        Thing::Mutex | Thing::Eventual | Thing::RwLock => push_line(out, line, b"", &[x]),
        Thing::Cond(m) => push_line(out, line, b"", &[x, u64::from(m.0)]),
        Thing::Future(n, combine) => {
            push_line(out, line, name_of_combine(combine), &[x, u64::from(n)])
        }
        Thing::Barrier(n) => push_line(out, line, b"", &[x, u64::from(n)]),
    }
}

// Appends the lines of the objects.
fn push_objects(out: &mut Vec<u8>, w: &Workload) -> Result<(), Want>
    ensures { OnOk result (out.new.items ≡ out.old.items ++ text_of (numbered object_line w.now.objects)) }
{
    for x in 0..w.objects() {
        push_object(out, x, w.thing(ObjectNo(x)))?;
    }
    Ok(())
}

// Units.

// The numbers that an operation's row gives these names; a name that it does not give one keeps the number that it has.
macro_rules! numbers_in {
    (($op:ident, $m:ident, $n:ident) $($name:ident $([$which:path])? $(($($number:tt)+))?: $places:tt;)+) => {
        match $op {
            $(Op::$name $(($($number)+))? => (u64::from($m), u64::from($n)),)+
        }
    };
}

// The numbers of an operation's line, and 0 in the place of each that it does not have.
fn numbers_of(op: Op) -> (u64, u64)
    ensures { (word : Text) → filled (op_slots op) word (result.0 ∷ result.1 ∷ []) ≡ filled (op_slots op) word (op_numbers op) }
{
    let (m, n) = (0u32, 0u32);
    operations!(numbers_in(op, m, n), _, m, m, n, n)
}

// The word that an operation says, if it says one.
fn op_word(w: &Workload, op: Op) -> &[u8]
    requires { IsDeclared w.now op }
    ensures { result.now ≡ op_word w.now op }
{
    match op {
        Op::Say(text) => w.word(text).as_bytes(),
        _ => b"",
    }
}

/// Appends the words of an operation as its line in the workload's text has them, without a line feed.
///
/// # Errors
/// Out of memory.
pub fn push_operation(out: &mut Vec<u8>, w: &Workload, op: Op) -> Result<(), Want>
    requires { IsDeclared w.now op }
    ensures { OnOk result (out.new.items ≡ out.old.items ++ line_of (op_words w.now op)) }
{
    let (first, second) = numbers_of(op);
    push_form(out, Form::Operation(op), op_word(w, op), &[first, second])
}

// Appends the lines of operations.
fn push_ops(out: &mut Vec<u8>, w: &Workload, ops: &[Op]) -> Result<(), Want>
    requires { All (IsDeclared w.now) ops.now }
    ensures { OnOk result (out.new.items ≡ out.old.items ++ text_of (map (op_words w.now) ops.now)) }
{
    for op in ops {
        push_operation(out, w, *op)?;
        end_line(out)?;
    }
    Ok(())
}

// What a unit is, by its line.
fn role_of(body: &Body) -> Role
    ensures { result ≡ role_of body.now }
{
    match body {
        Body::Ult(_) => Role::Ult,
        Body::Task(_) => Role::Task,
        Body::Sched(_) => Role::Sched,
    }
}

// Appends the line of unit u.
fn push_header(out: &mut Vec<u8>, u: u32, part: &UnitPart) -> Result<(), Want>
    ensures { OnOk result (out.new.items ≡ out.old.items ++ ended (line_of (unit_header u part.now))) }
{
    let line = Form::Unit(role_of(&part.body), part.start);
    let u = u64::from(u);
    match (&part.body, part.start) {
        (Body::Sched(g), Some(p)) => push_line(
            out,
            line,
            b"",
            &[u, u64::from(g.0), u64::from(p.0)],
        ),
        (Body::Sched(g), None) => push_line(out, line, b"", &[u, u64::from(g.0)]),
        (Body::Ult(_) | Body::Task(_), Some(p)) => push_line(out, line, b"", &[u, u64::from(p.0)]),
        (Body::Ult(_) | Body::Task(_), None) => push_line(out, line, b"", &[u]),
    }
}

// Appends the line of unit u, and the lines of its operations.
fn push_unit(out: &mut Vec<u8>, w: &Workload, u: u32, part: &UnitPart) -> Result<(), Want>
    requires { All (IsDeclared w.now) (ops_of part.now.body) }
    ensures { OnOk result (out.new.items ≡ out.old.items ++ text_of (unit_lines w.now u part.now)) }
{
    push_header(out, u, part)?;
    push_ops(out, w, part.body.ops())
}

// Appends the lines of the units, each with those of its operations.
fn push_units(out: &mut Vec<u8>, w: &Workload) -> Result<(), Want>
    requires { IsValid w.now }
    ensures { OnOk result (out.new.items ≡ out.old.items ++ text_of (flat_map (λ p. unit_lines w.now p.0 p.1) (enumerate_from 0 w.now.units))) }
{
    for u in 0..w.units() {
        push_unit(out, w, u, w.unit(UnitNo(u)))?;
    }
    Ok(())
}

// The whole text.

// Whether a format has each of these operations.
fn has_ops(format: Format, ops: &[Op]) -> bool
    ensures { result ≡ list_all (λ o. is_in format (form.Operation o)) ops.now }
{
    for op in ops {
        if !is_in(format, Form::Operation(*op)) {
            return false;
        }
    }
    true
}

// Whether a format allows this unit's operations.
fn has_unit(format: Format, part: &UnitPart) -> bool
    ensures { result ≡ has_unit format part.now }
{
    let ops = part.body.ops();
    ops.len() <= format.unit_operation_limit() && has_ops(format, ops)
}

// Whether a format allows each unit's operations.
fn has_units(format: Format, w: &Workload) -> bool
    ensures { result ≡ list_all (has_unit format) w.now.units }
{
    for u in 0..w.units() {
        if !has_unit(format, w.unit(UnitNo(u))) {
            return false;
        }
    }
    true
}

// How many operations all units have.
fn op_count(w: &Workload) -> usize
    requires { IsValid w.now }
    ensures { result ≡ length (all_ops w.now.units) }
{
    let mut all = 0usize;
    for u in 0..w.units() {
        all += w.unit(UnitNo(u)).body.ops().len();
    }
    all
}

// Whether a format allows as many parts of each kind as a workload has, and its operations.
fn has_parts(format: Format, w: &Workload) -> bool
    requires { IsValid w.now }
    ensures { result ≡ has_parts format w.now }
{
    w.streams() <= format.stream_limit()
        && w.pools() as usize <= format.pool_limit()
        && w.scheds() as usize <= format.sched_limit()
        && w.objects() as usize <= format.object_limit()
        && w.units() <= format.unit_limit()
        && op_count(w) <= format.operation_limit()
        && has_units(format, w)
}

// Whether a format has a text of a workload, which has as many bytes as this one.
fn has_text(format: Format, w: &Workload, text: &[u8]) -> bool
    requires valid { IsValid w.now }
    requires bytes { length text.now ≡ length (text_in format w.now) }
    ensures { result ≡ has_text format w.now }
{
    has_parts(format, w) && text.len() <= format.text_limit()
}

// The digit of the least format that has a text of a workload, whose text in format 1 is this one.
fn version(w: &Workload, text: &[u8]) -> u8
    requires valid { IsValid w.now }
    requires text { text.now ≡ text_in format.One w.now }
    ensures { result ≡ digit_of (format_for w.now) }
{
    if has_text(Format::One, w, text) {
        b'1'
    } else if has_text(Format::Two, w, text) {
        b'2'
    } else {
        b'3'
    }
}

// Makes the text of a workload in format 1 its canonical text.
fn settle(w: &Workload, text: &mut Vec<u8>)
    requires valid { IsValid w.now }
    requires text { text.old.items ≡ text_in format.One w.now }
    ensures { text.new.items ≡ canonical_text w.now }
{
    let version = version(w, text);
    if let Some(byte) = text.get_mut(4) {
        *byte = version;
    }
}

/// The canonical text of a workload: the text in which it is written, which reads to it again. It is of
/// the least format that has a text of the workload.
///
/// # Errors
/// Out of memory.
pub fn write(alloc: Global, w: &Workload) -> Result<Vec<u8>, Want>
    ensures text { IfOk result (λ text. text.items ≡ canonical_text w.now) }
    ensures read_back { IfOk result (λ text. Reads text.items w.now) }
{
    let mut out = Vec::new(alloc);
    push_head(&mut out, w.streams(), w.keys())?;
    push_pools(&mut out, w)?;
    push_scheds(&mut out, alloc, w)?;
    push_streams(&mut out, w)?;
    push_objects(&mut out, w)?;
    push_line(&mut out, Form::Units, b"", &[u64::from(w.units())])?;
    push_units(&mut out, w)?;
    push_line(&mut out, Form::End, b"", &[])?;
    settle(w, &mut out);
    Ok(out)
}
