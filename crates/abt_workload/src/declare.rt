//! What a sound line adds to what the lines above it declare.

ghost use Rattle.std.specs.Prelude.{◌≡◌, ◌<◌, ◌≤◌, ◌+◌, ◌^◌, ◌++◌, ◌∷◌, [], All, IfOk, IsUtf8, OnOk, false, flat_map, length, map, option_map, replicate, slice_set};
ghost use Rattle.abt_machine.specs.Declaring.{access_with, alike, at, body_and, body_with, combine_named, declared_with, kind_named, listed, op_later, op_with, repeated, rule_with, said_in, sched_with, start_with, thing_with, unit_and, unit_later, unit_with, with_operation, with_operations, with_copies, word_in};
ghost use Rattle.abt_machine.specs.Faults.{values};
ghost use Rattle.abt_machine.specs.Limits.{operation_limit, unit_operation_limit};
ghost use Rattle.abt_machine.specs.Numbers.{pool_no, sched_no};
ghost use Rattle.abt_machine.specs.Operations.{said_by};
ghost use Rattle.abt_machine.specs.Workloads.{all_ops, ops_of};
ghost use Rattle.abt_machine.specs.declared.grammar.Form.TheVariants as form;
ghost use Rattle.abt_machine.specs.declared.grammar.Format.TheVariants as format;
ghost use Rattle.abt_workload.specs.Declarable.{AreLater, AreOpSmall, AreSmall, AreUnitSmall, IsClosable, IsDeclarable, IsSaidBy, IsSmall, IsSmallRule, closed, is_wide, with_line};

use crate::draft::Draft;
use crate::forms::{is, operations};
use crate::judge::section;
use crate::numbers::{Numbered, after, listed, value};
use crate::text::words_after;
use crate::units::Units;
use abt_machine::{
    Access, Body, Calc, Combine, Form, Kind, ObjectNo, Op, Ops, PoolNo, PoolPart, Pools, Role,
    Rule, SchedNo, SchedPart, StreamNo, Text, Thing, UnitNo, UnitPart, Want,
};
use std::alloc::Global;
use std::str;

impl Draft {
    /// Adds what a sound line declares.
    pub(crate) fn declare(
        &mut self,
        alloc: Global,
        form: Form,
        words: &[&[u8]],
        numbers: &[Numbered],
    ) -> Result<(), Want>
        requires { IsDeclarable self.old form (map (λ w. w.now) words.now) (values numbers.now) }
        ensures { OnOk result (self.new ≡ with_line self.old form (map (λ w. w.now) words.now) (values numbers.now)) }
    {
        self.add(alloc, form, words, numbers)?;
        self.section = section(form);
        self.begun = true;
        Ok(())
    }

    // The same but for the section.
    fn add(
        &mut self,
        alloc: Global,
        form: Form,
        words: &[&[u8]],
        numbers: &[Numbered],
    ) -> Result<(), Want>
        requires { IsDeclarable self.old form (map (λ w. w.now) words.now) (values numbers.now) }
        ensures { OnOk result (self.new ≡ declared_with self.old form (map (λ w. w.now) words.now) (values numbers.now)) }
    {
        match form {
            Form::Version(format) => {
                self.format = format;
                Ok(())
            }
            Form::End => Ok(()),
            Form::Streams => self.add_streams(value(numbers, 0)),
            Form::Keys => {
                self.keys = value(numbers, 0) as u32;
                Ok(())
            }
            Form::Pool(access) => self.add_pool(access, words, numbers),
            Form::Sched(rule) => self.add_sched(alloc, rule, numbers),
            Form::Stream => {
                self.set_main(value(numbers, 0), value(numbers, 1));
                Ok(())
            }
            Form::Object(thing) => self.add_object(thing, words, numbers),
            Form::Units => {
                self.unit_count = Some(value(numbers, 0) as u32);
                Ok(())
            }
            Form::Unit(role, start) => self.add_units(alloc, 1, role, start, numbers),
            Form::Many(role, start) => {
                let copies = value(numbers, 1) as u32;
                self.add_units(alloc, copies, role, start, after(numbers, 1))
            }
            Form::Operation(op) => self.add_operation(alloc, op, words, numbers),
            Form::Repeat(op) => {
                let count = value(numbers, 0);
                let (words, numbers) = (words_after(words, 2), after(numbers, 1));
                self.add_operations(alloc, count, op, words, numbers)
            }
        }
    }

    fn add_streams(&mut self, n: u64) -> Result<(), Want>
        requires { IsSmall n }
        ensures { OnOk result (self.new ≡ record self.old { streams = Some n; mains = replicate n None }) }
    {
        self.streams = Some(n as u32);
        self.mains.clear();
        self.mains.resize(n as usize, None)?;
        Ok(())
    }

    fn add_pool(
        &mut self,
        access: Access,
        words: &[&[u8]],
        numbers: &[Numbered],
    ) -> Result<(), Want>
        requires { AreSmall (form.Pool access) (values numbers.now) }
        ensures { OnOk result (self.new ≡ declared_with self.old (form.Pool access) (map (λ w. w.now) words.now) (values numbers.now)) }
    {
        let kind = kind_named(word_in(words, 2));
        let access = access_with(access, numbers);
        self.pools.push(PoolPart { kind, access })?;
        Ok(())
    }

    fn add_sched(&mut self, alloc: Global, rule: Rule, numbers: &[Numbered]) -> Result<(), Want>
        requires { AreSmall (form.Sched rule) (values numbers.now) }
        ensures { OnOk result (self.new ≡ record self.old { scheds = self.old.scheds ++ sched_with rule (values numbers.now) ∷ [] }) }
    {
        let pools = pools_in(alloc, listed(rule, numbers))?;
        let rule = rule_with(rule, numbers);
        self.scheds.push(SchedPart { rule, pools })?;
        Ok(())
    }

    fn set_main(&mut self, s: u64, g: u64)
        requires { IsSmall g }
        ensures { self.new ≡ record self.old { mains = slice_set self.old.mains s (Some (sched_no g)) } }
    {
        if let Some(main) = self.mains.get_mut(s as usize) {
            *main = Some(SchedNo(g as u32));
        }
    }

    fn add_object(
        &mut self,
        thing: Thing,
        words: &[&[u8]],
        numbers: &[Numbered],
    ) -> Result<(), Want>
        requires { AreSmall (form.Object thing) (values numbers.now) }
        ensures { OnOk result (self.new ≡ declared_with self.old (form.Object thing) (map (λ w. w.now) words.now) (values numbers.now)) }
    {
        self.objects.push(thing_with(thing, words, numbers))?;
        Ok(())
    }

    // Adds this many units like this one.
    fn add_units(
        &mut self,
        alloc: Global,
        copies: u32,
        role: Role,
        start: Option<PoolNo>,
        numbers: &[Numbered],
    ) -> Result<(), Want>
        requires small { AreUnitSmall (values numbers.now) }
        requires closable { IsClosable self.old }
        ensures { OnOk result (self.new ≡ with_copies self.old copies (unit_with role start (values numbers.now))) }
    {
        self.close(alloc)?;
        let body = body_with(alloc, role, numbers)?;
        let start = start_with(role, start, numbers);
        self.last = Some(UnitPart { body, start });
        self.copies = copies;
        Ok(())
    }

    /// Takes the last unit and its copies to the units before it, with the words that they say.
    pub(crate) fn close(&mut self, alloc: Global) -> Result<(), Want>
        requires { IsClosable self.old }
        ensures { OnOk result (self.new ≡ closed self.old) }
    {
        let each = self.said.len();
        if let Some(part) = self.last.take() {
            push_alike(alloc, &mut self.units, part, self.copies, each as u32)?;
        }
        push_repeated(alloc, &mut self.words, &mut self.said, self.copies)?;
        self.copies = 0;
        Ok(())
    }

    // Adds this many operations of this line.
    fn add_operations(
        &mut self,
        alloc: Global,
        count: u64,
        op: Op,
        words: &[&[u8]],
        numbers: &[Numbered],
    ) -> Result<(), Want>
        requires count { count ≤ unit_operation_limit format.Three }
        requires small { AreOpSmall op (values numbers.now) }
        requires said { IsSaidBy op (map (λ w. w.now) words.now) }
        requires few_words { length self.old.words + length self.old.said ≤ operation_limit format.Three }
        ensures { OnOk result (self.new ≡ with_operations count op (map (λ w. w.now) words.now) (values numbers.now) self.old) }
    {
        let mut left = count;
        while left > 0 {
            self.add_operation(alloc, op, words, numbers)?;
            left -= 1;
        }
        Ok(())
    }

    fn add_operation(
        &mut self,
        alloc: Global,
        op: Op,
        words: &[&[u8]],
        numbers: &[Numbered],
    ) -> Result<(), Want>
        requires small { AreOpSmall op (values numbers.now) }
        requires said { IsSaidBy op (map (λ w. w.now) words.now) }
        requires few_words { IsSmall (length self.old.words + length self.old.said) }
        ensures { OnOk result (self.new ≡ with_operation op (map (λ w. w.now) words.now) (values numbers.now) self.old) }
    {
        let said = self.said_count();
        self.add_said(alloc, op, words)?;
        self.add_op(op_with(op, said, value(numbers, 0), value(numbers, 1)))
    }

    // Adds an operation to the last unit.
    fn add_op(&mut self, op: Op) -> Result<(), Want>
        ensures { OnOk result (self.new ≡ record self.old { last = option_map (unit_and op) self.old.last }) }
    {
        if let Some(part) = self.last.take() {
            self.last = Some(unit_and(part, op)?);
        }
        Ok(())
    }

    // How many words are said.
    fn said_count(&self) -> u32
        requires { IsSmall (length self.now.words + length self.now.said) }
        ensures { result ≡ length self.now.words + length self.now.said }
    {
        self.words.len() as u32 + self.said.len() as u32
    }

    // Adds the word that an operation's line says, if it says one.
    fn add_said(&mut self, alloc: Global, op: Op, words: &[&[u8]]) -> Result<(), Want>
        requires { IsSaidBy op (map (λ w. w.now) words.now) }
        ensures { OnOk result (self.new ≡ record self.old { said = self.old.said ++ said_in op (map (λ w. w.now) words.now) }) }
    {
        if let Op::Say(_) = op {
            self.said.push(said_text(alloc, word_in(words, 1))?)?;
        }
        Ok(())
    }
}

// The word at a place, counted from 0, and none if there is none.
fn word_in<'a>(words: &[&'a [u8]], k: usize) -> &'a [u8]
    ensures { result.now ≡ word_in (map (λ w. w.now) words.now) k }
{
    match words.get(k) {
        Some(word) => word,
        None => &[],
    }
}

fn kind_named(word: &[u8]) -> Kind
    ensures { result ≡ kind_named word.now }
{
    if is(word, "fifo") {
        Kind::Fifo
    } else {
        Kind::Deque
    }
}

fn combine_named(word: &[u8]) -> Combine
    ensures { result ≡ combine_named word.now }
{
    if is(word, "sum") {
        Combine::Sum
    } else if is(word, "max") {
        Combine::Max
    } else {
        Combine::Count
    }
}

fn access_with(access: Access, numbers: &[Numbered]) -> Access
    requires { AreSmall (form.Pool access) (values numbers.now) }
    ensures { result ≡ access_with access (values numbers.now) }
{
    let first = StreamNo(value(numbers, 1) as u32);
    let second = StreamNo(value(numbers, 2) as u32);
    match access {
        Access::Priv(_) => Access::Priv(first),
        Access::Spsc(_, _) => Access::Spsc(first, second),
        Access::Mpsc(_) => Access::Mpsc(first),
        Access::Spmc(_) => Access::Spmc(first),
        Access::Mpmc => Access::Mpmc,
    }
}

fn rule_with(rule: Rule, numbers: &[Numbered]) -> Rule
    requires { IsSmallRule rule (values numbers.now) }
    ensures { result ≡ rule_with rule (values numbers.now) }
{
    let n = value(numbers, 1);
    match rule {
        Rule::Basic => Rule::Basic,
        Rule::Prio => Rule::Prio,
        Rule::Randws(_) => Rule::Randws(n),
        Rule::User(_) => Rule::User(n as u32),
    }
}

fn small(n: u64) -> u32
    requires { IsSmall n }
    ensures { result ≡ n }
{
    n as u32
}

fn pools_in(alloc: Global, numbers: &[Numbered]) -> Result<Pools, Want>
    requires { All IsSmall (values numbers.now) }
    ensures { IfOk result (λ pools. pools ≡ map pool_no (values numbers.now)) }
{
    let mut pools = Vec::with_capacity(alloc, numbers.len())?;
    for (_, n) in numbers {
        pools.push(PoolNo(small(*n)))?;
    }
    Ok(Pools::new(pools))
}

fn thing_with(thing: Thing, words: &[&[u8]], numbers: &[Numbered]) -> Thing
    requires { AreSmall (form.Object thing) (values numbers.now) }
    ensures { result ≡ thing_with thing (map (λ w. w.now) words.now) (values numbers.now) }
{
    let n = value(numbers, 1) as u32;
    match thing {
        Thing::Mutex => Thing::Mutex,
        Thing::Cond(_) => Thing::Cond(ObjectNo(n)),
        Thing::Eventual => Thing::Eventual,
        Thing::Future(_, _) => Thing::Future(n, combine_named(word_in(words, 4))),
        Thing::Barrier(_) => Thing::Barrier(n),
        Thing::RwLock => Thing::RwLock,
    }
}

fn body_with(alloc: Global, role: Role, numbers: &[Numbered]) -> Result<Body, Want>
    requires { IsSmall (at (values numbers.now) 1) }
    ensures { IfOk result (λ body. body ≡ body_with role (values numbers.now)) }
{
    match role {
        Role::Ult => Ok(Body::Ult(Ops::new(alloc, Vec::new(alloc))?)),
        Role::Task => Ok(Body::Task(Ops::new(alloc, Vec::new(alloc))?)),
        Role::Sched => Ok(Body::Sched(SchedNo(value(numbers, 1) as u32))),
    }
}

fn start_with(role: Role, start: Option<PoolNo>, numbers: &[Numbered]) -> Option<PoolNo>
    requires first { IsSmall (at (values numbers.now) 1) }
    requires second { IsSmall (at (values numbers.now) 2) }
    ensures { result ≡ start_with role start (values numbers.now) }
{
    let place = match role {
        Role::Ult | Role::Task => value(numbers, 1),
        Role::Sched => value(numbers, 2),
    };
    match start {
        Some(_) => Some(PoolNo(place as u32)),
        None => None,
    }
}

// The text of a word that is said.
fn said_text(alloc: Global, word: &[u8]) -> Result<Text, Want>
    requires { IsUtf8 word.now }
    ensures { IfOk result (λ text. text ≡ word.now) }
{
    match str::from_utf8(word) {
        Ok(text) => Ok(Text::new(String::from_str(alloc, text)?)),
        Err(_) => unreachable!(),
    }
}

// Appends this many units like this one, each of which says this many words of its own.
fn push_alike(
    alloc: Global,
    units: &mut Units,
    part: UnitPart,
    copies: u32,
    said: u32,
) -> Result<(), Want>
    requires few_ops { length (all_ops units.old) + length (all_ops (alike copies said part)) ≤ operation_limit format.Three }
    requires words { AreLater copies said (flat_map said_by (ops_of part.body)) }
    ensures { OnOk result (units.new ≡ units.old ++ alike copies said part) }
{
    let mut part = part;
    let mut left = copies;
    while left > 1 {
        let later = unit_later(alloc, said, &part)?;
        units.push(part)?;
        part = later;
        left -= 1;
    }
    if left == 1 {
        units.push(part)?;
    }
    Ok(())
}

// The same unit, whose words have numbers that are this much higher.
fn unit_later(alloc: Global, n: u32, part: &UnitPart) -> Result<UnitPart, Want>
    requires { All (λ w. w + n < 2 ^ 32) (flat_map said_by (ops_of part.now.body)) }
    ensures { IfOk result (λ later. later ≡ unit_later n part.now) }
{
    let body = match &part.body {
        Body::Ult(ops) => Body::Ult(ops_later(alloc, n, ops)?),
        Body::Task(ops) => Body::Task(ops_later(alloc, n, ops)?),
        Body::Sched(g) => Body::Sched(*g),
    };
    let start = part.start;
    Ok(UnitPart { body, start })
}

// The same operations, whose words have numbers that are this much higher. A program without words is shared.
fn ops_later(alloc: Global, n: u32, ops: &Ops) -> Result<Ops, Want>
    requires { All (λ w. w + n < 2 ^ 32) (flat_map said_by ops.now) }
    ensures { IfOk result (λ later. later ≡ map (op_later n) ops.now) }
{
    if n == 0 {
        return Ok(ops.share()?);
    }
    Ok(Ops::new(alloc, list_later(alloc, n, ops.items())?)?)
}

fn list_later(alloc: Global, n: u32, ops: &[Op]) -> Result<Vec<Op>, Want>
    requires { All (λ w. w + n < 2 ^ 32) (flat_map said_by ops.now) }
    ensures { IfOk result (λ later. later.items ≡ map (op_later n) ops.now) }
{
    let mut later = Vec::with_capacity(alloc, ops.len())?;
    for op in ops {
        later.push(op_later(n, *op))?;
    }
    Ok(later)
}

// The same operation, whose word, if it says one, has a number that is this much higher.
fn op_later(n: u32, op: Op) -> Op
    requires { All (λ w. w + n < 2 ^ 32) (said_by op) }
    ensures { result ≡ op_later n op }
{
    match op {
        Op::Say(w) => Op::Say(w + n),
        other => other,
    }
}

// Moves words to others, this many times.
fn push_repeated(
    alloc: Global,
    words: &mut Vec<Text>,
    said: &mut Vec<Text>,
    copies: u32,
) -> Result<(), Want>
    ensures { OnOk result ((words.new.items ≡ words.old.items ++ repeated copies said.old.items) × (said.new.items ≡ [])) }
{
    let mut left = copies;
    while left > 1 {
        push_copies(alloc, words, said)?;
        left -= 1;
    }
    if left == 1 {
        words.append(said)?;
    }
    said.clear();
    Ok(())
}

// Appends the same words.
fn push_copies(alloc: Global, words: &mut Vec<Text>, said: &[Text]) -> Result<(), Want>
    ensures { OnOk result (words.new.items ≡ words.old.items ++ said.now) }
{
    for text in said {
        words.push(Text::new(String::from_str(alloc, text.as_str())?))?;
    }
    Ok(())
}

// A unit with one more operation.
fn unit_and(part: UnitPart, op: Op) -> Result<UnitPart, Want>
    ensures { IfOk result (λ new. new ≡ unit_and op part) }
{
    let UnitPart { body, start } = part;
    let body = body_and(body, op)?;
    Ok(UnitPart { body, start })
}

fn body_and(body: Body, op: Op) -> Result<Body, Want>
    ensures { IfOk result (λ new. new ≡ body_and op body) }
{
    match body {
        Body::Ult(ops) => Ok(Body::Ult(ops_and(ops, op)?)),
        Body::Task(ops) => Ok(Body::Task(ops_and(ops, op)?)),
        Body::Sched(g) => Ok(Body::Sched(g)),
    }
}

fn ops_and(ops: Ops, op: Op) -> Result<Ops, Want>
    ensures { IfOk result (λ new. new ≡ ops ++ op ∷ []) }
{
    let mut ops = ops;
    ops.push(op)?;
    Ok(ops)
}

// An operation with the numbers of its row.
macro_rules! numbered_as {
    (($op:ident) $($name:ident $([$which:path])? $(($($number:tt)+))?: $places:tt;)+) => {
        match $op {
            $(Op::$name { $(0: $which,)? .. } => Op::$name $(($($number)+))?,)+
        }
    };
}

// The operation with these numbers; this many words are said above it.
fn op_with(op: Op, said: u32, first: u64, second: u64) -> Op
    requires first_small { is_wide op ≡ false → IsSmall first }
    requires second_small { IsSmall second }
    ensures { result ≡ op_with op said (first ∷ second ∷ []) }
{
    let narrow = narrow(op, first);
    let flag = second == 1;
    let second = second as u32;
    operations!(numbered_as(op), said, first, narrow, second, flag)
}

// The first number of an operation whose first number has 32 bits.
fn narrow(op: Op, first: u64) -> u32
    requires { is_wide op ≡ false → IsSmall first }
    ensures { is_wide op ≡ false → result ≡ first }
{
    match op {
        Op::Set(_) | Op::Add(_) => 0,
        _ => first as u32,
    }
}
