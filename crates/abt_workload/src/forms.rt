//! The forms of a workload text's lines, as a table.

ghost use Rattle.std.specs.Prelude.{◌≡◌, ◌≤◌, ◌&&◌, ◌||◌, All, IfSome, bytes_eq, drop, find, map};
ghost use Rattle.abt_machine.specs.Forms.{begins_with, computes, fits, form_of, forms, is_in, op_slots, slots, suits};
ghost use Rattle.abt_machine.specs.Faults.{is_unknown};
ghost use Rattle.abt_machine.specs.declared.grammar.Form.TheVariants as form;
ghost use Rattle.abt_machine.specs.declared.grammar.Format.TheVariants as format;
ghost use Rattle.abt_workload.specs.Slots.{IsHead, forms_of, has_rest, own_slots, slot_of};

use abt_machine::{
    Access, Calc, Combine, FUNCTION_LIMIT, Form, Format, KEY_LIMIT, Number, ObjectNo, Op, PoolNo,
    Role, Rule, SIZE_LIMIT, StreamNo, Thing, UnitNo,
};

/// What stands at a place of a line: this very word, a word that names a kind of pool or what a future
/// makes of its values, any word, a number, or numbers of pools to the end of the line.
#[derive(Clone, Copy)]
pub(crate) enum Slot {
    Fixed(&'static str),
    KindWord,
    CombineWord,
    AnyWord,
    Numeral(Number),
    PoolList,
}

// Any number that 64 bits have.
const ANY: Number = Number::Within(0, u64::MAX);

// How many keys there are.
const KEYS: Number = Number::Within(0, KEY_LIMIT as u64);

// How many compartments a future has, or parties a barrier.
const SIZE: Number = Number::Within(1, SIZE_LIMIT as u64);

// Which function a `call` line calls.
const FUNCTION: Number = Number::Within(0, FUNCTION_LIMIT as u64 - 1);

// The operations, one a row: its numbers, and then the word that its line begins with and what stands at the places
// after it. Each thing that a `calc` line may compute has a row, which names it in brackets before the numbers. A call
// names the macro that gets the rows, with what this gets before them. It gives the numbers, which are 0 otherwise: of
// a word, of 64 bits, the first and the second of 32 bits, and the second where it is a flag.
macro_rules! operations {
    ($then:ident($($with:tt)*), $said:tt, $wide:tt, $first:tt, $second:tt, $flag:tt) => {
        $then! {
            ($($with)*)
            Set($wide): ["set", Numeral(ANY)];
            Add($wide): ["add", Numeral(ANY)];
            Say($said): ["say", AnyWord];
            Print: ["print"];
            KeySet($first): ["kset", Numeral(Number::Key)];
            KeyGet($first): ["kget", Numeral(Number::Key)];
            Yield: ["yield"];
            YieldTo(UnitNo($first), PoolNo($second)): ["yieldto", Numeral(Number::Unit), Numeral(Number::Pool)];
            Suspend: ["suspend"];
            Exit: ["exit"];
            Resume(UnitNo($first)): ["resume", Numeral(Number::Unit)];
            Create(UnitNo($first), PoolNo($second)): ["create", Numeral(Number::Unit), Numeral(Number::Pool)];
            Join(UnitNo($first)): ["join", Numeral(Number::Unit)];
            Cancel(UnitNo($first)): ["cancel", Numeral(Number::Unit)];
            Migrate(UnitNo($first), PoolNo($second)): ["migrate", Numeral(Number::Unit), Numeral(Number::Pool)];
            MigrateTo(UnitNo($first), StreamNo($second)): ["migrateto", Numeral(Number::Unit), Numeral(Number::Stream)];
            Migratable(UnitNo($first), $flag): ["migratable", Numeral(Number::Unit), Numeral(Number::Within(0, 1))];
            Revive(UnitNo($first), PoolNo($second)): ["revive", Numeral(Number::Unit), Numeral(Number::Pool)];
            Lock(ObjectNo($first)): ["lock", Numeral(Number::Mutex)];
            TryLock(ObjectNo($first)): ["trylock", Numeral(Number::Mutex)];
            Unlock(ObjectNo($first)): ["unlock", Numeral(Number::Mutex)];
            Load(ObjectNo($first)): ["load", Numeral(Number::Mutex)];
            Store(ObjectNo($first)): ["store", Numeral(Number::Mutex)];
            CondWait(ObjectNo($first)): ["cwait", Numeral(Number::Cond)];
            Signal(ObjectNo($first)): ["signal", Numeral(Number::Cond)];
            Broadcast(ObjectNo($first)): ["broadcast", Numeral(Number::Cond)];
            EvWait(ObjectNo($first)): ["ewait", Numeral(Number::Eventual)];
            EvSet(ObjectNo($first)): ["eset", Numeral(Number::Eventual)];
            EvReset(ObjectNo($first)): ["ereset", Numeral(Number::Eventual)];
            EvTest(ObjectNo($first)): ["etest", Numeral(Number::Eventual)];
            FuWait(ObjectNo($first)): ["fwait", Numeral(Number::Future)];
            FuSet(ObjectNo($first)): ["fset", Numeral(Number::Future)];
            FuReset(ObjectNo($first)): ["freset", Numeral(Number::Future)];
            FuTest(ObjectNo($first)): ["ftest", Numeral(Number::Future)];
            BarWait(ObjectNo($first)): ["bwait", Numeral(Number::Barrier)];
            ReadLock(ObjectNo($first)): ["rdlock", Numeral(Number::RwLock)];
            WriteLock(ObjectNo($first)): ["wrlock", Numeral(Number::RwLock)];
            RwUnlock(ObjectNo($first)): ["rwunlock", Numeral(Number::RwLock)];
            RwLoad(ObjectNo($first)): ["rwload", Numeral(Number::RwLock)];
            RwStore(ObjectNo($first)): ["rwstore", Numeral(Number::RwLock)];
            Calc[Calc::Add](Calc::Add, $first): ["calc", Fixed("add"), Numeral(Number::Key)];
            Calc[Calc::Sub](Calc::Sub, $first): ["calc", Fixed("sub"), Numeral(Number::Key)];
            Calc[Calc::Mul](Calc::Mul, $first): ["calc", Fixed("mul"), Numeral(Number::Key)];
            Calc[Calc::Div](Calc::Div, $first): ["calc", Fixed("div"), Numeral(Number::Key)];
            Calc[Calc::Rem](Calc::Rem, $first): ["calc", Fixed("rem"), Numeral(Number::Key)];
            Calc[Calc::Min](Calc::Min, $first): ["calc", Fixed("min"), Numeral(Number::Key)];
            Calc[Calc::Max](Calc::Max, $first): ["calc", Fixed("max"), Numeral(Number::Key)];
            Calc[Calc::And](Calc::And, $first): ["calc", Fixed("and"), Numeral(Number::Key)];
            Calc[Calc::Or](Calc::Or, $first): ["calc", Fixed("or"), Numeral(Number::Key)];
            Calc[Calc::Xor](Calc::Xor, $first): ["calc", Fixed("xor"), Numeral(Number::Key)];
            Calc[Calc::Eq](Calc::Eq, $first): ["calc", Fixed("eq"), Numeral(Number::Key)];
            Calc[Calc::Lt](Calc::Lt, $first): ["calc", Fixed("lt"), Numeral(Number::Key)];
            Calc[Calc::Gcd](Calc::Gcd, $first): ["calc", Fixed("gcd"), Numeral(Number::Key)];
            Call($first): ["call", Numeral(FUNCTION)];
        }
    };
    ($then:ident($($with:tt)*)) => {
        operations!($then($($with)*), 0, 0, 0, 0, false)
    };
}

pub(crate) use operations;

// One form of each, the last those that format 1 does not have; a form's numbers have no meaning.
macro_rules! forms_with {
    (() $($name:ident $([$which:path])? $(($($number:tt)+))?: $places:tt;)+) => {
        [
            Form::Version(Format::One),
            Form::Version(Format::Two),
            Form::Version(Format::Three),
            Form::Streams,
            Form::Keys,
            Form::Pool(Access::Priv(StreamNo(0))),
            Form::Pool(Access::Spsc(StreamNo(0), StreamNo(0))),
            Form::Pool(Access::Mpsc(StreamNo(0))),
            Form::Pool(Access::Spmc(StreamNo(0))),
            Form::Pool(Access::Mpmc),
            Form::Sched(Rule::Basic),
            Form::Sched(Rule::Prio),
            Form::Sched(Rule::Randws(0)),
            Form::Sched(Rule::User(0)),
            Form::Stream,
            Form::Object(Thing::Mutex),
            Form::Object(Thing::Cond(ObjectNo(0))),
            Form::Object(Thing::Eventual),
            Form::Object(Thing::Future(0, Combine::Count)),
            Form::Object(Thing::Barrier(0)),
            Form::Object(Thing::RwLock),
            Form::Units,
            Form::Unit(Role::Ult, Some(PoolNo(0))),
            Form::Unit(Role::Ult, None),
            Form::Unit(Role::Task, Some(PoolNo(0))),
            Form::Unit(Role::Task, None),
            Form::Unit(Role::Sched, Some(PoolNo(0))),
            Form::Unit(Role::Sched, None),
            Form::End,
            $(Form::Operation(Op::$name $(($($number)+))?),)+
            Form::Many(Role::Ult, Some(PoolNo(0))),
            Form::Many(Role::Ult, None),
            Form::Many(Role::Task, Some(PoolNo(0))),
            Form::Many(Role::Task, None),
            Form::Many(Role::Sched, Some(PoolNo(0))),
            Form::Many(Role::Sched, None),
            $(Form::Repeat(Op::$name $(($($number)+))?),)+
        ]
    };
}

static FORMS: [Form; 143] = operations!(forms_with());

// All forms, in order.
fn forms() -> &'static [Form]
    ensures { result.now ≡ forms }
{
    FORMS.as_slice()
}

/// What stands at the places of a line of this form; of a `repeat` line after its first two words, that is
/// at the places of its operation.
#[inline]
pub(crate) fn slots(form: Form) -> &'static [Slot]
    ensures { map slot_of result.now ≡ own_slots form }
{
    match form {
        Form::Version(Format::One) => &[Slot::Fixed("abt"), Slot::Fixed("1")],
        Form::Version(Format::Two) => &[Slot::Fixed("abt"), Slot::Fixed("2")],
        Form::Version(Format::Three) => &[Slot::Fixed("abt"), Slot::Fixed("3")],
        Form::Streams => &[Slot::Fixed("streams"), Slot::Numeral(Number::StreamCount)],
        Form::Keys => &[Slot::Fixed("keys"), Slot::Numeral(KEYS)],
        Form::Pool(Access::Priv(_)) => &[
            Slot::Fixed("pool"),
            Slot::Numeral(Number::NewPool),
            Slot::KindWord,
            Slot::Fixed("priv"),
            Slot::Fixed("of"),
            Slot::Numeral(Number::Stream),
        ],
        Form::Pool(Access::Spsc(_, _)) => &[
            Slot::Fixed("pool"),
            Slot::Numeral(Number::NewPool),
            Slot::KindWord,
            Slot::Fixed("spsc"),
            Slot::Fixed("from"),
            Slot::Numeral(Number::Stream),
            Slot::Fixed("to"),
            Slot::Numeral(Number::Stream),
        ],
        Form::Pool(Access::Mpsc(_)) => &[
            Slot::Fixed("pool"),
            Slot::Numeral(Number::NewPool),
            Slot::KindWord,
            Slot::Fixed("mpsc"),
            Slot::Fixed("to"),
            Slot::Numeral(Number::Stream),
        ],
        Form::Pool(Access::Spmc(_)) => &[
            Slot::Fixed("pool"),
            Slot::Numeral(Number::NewPool),
            Slot::KindWord,
            Slot::Fixed("spmc"),
            Slot::Fixed("from"),
            Slot::Numeral(Number::Stream),
        ],
        Form::Pool(Access::Mpmc) => &[
            Slot::Fixed("pool"),
            Slot::Numeral(Number::NewPool),
            Slot::KindWord,
            Slot::Fixed("mpmc"),
        ],
        Form::Sched(Rule::Basic) => &[
            Slot::Fixed("sched"),
            Slot::Numeral(Number::NewSched),
            Slot::Fixed("basic"),
            Slot::PoolList,
        ],
        Form::Sched(Rule::Prio) => &[
            Slot::Fixed("sched"),
            Slot::Numeral(Number::NewSched),
            Slot::Fixed("prio"),
            Slot::PoolList,
        ],
        Form::Sched(Rule::Randws(_)) => &[
            Slot::Fixed("sched"),
            Slot::Numeral(Number::NewSched),
            Slot::Fixed("randws"),
            Slot::Numeral(ANY),
            Slot::PoolList,
        ],
        Form::Sched(Rule::User(_)) => &[
            Slot::Fixed("sched"),
            Slot::Numeral(Number::NewSched),
            Slot::Fixed("user"),
            Slot::Numeral(Number::Within(0, 1)),
            Slot::PoolList,
        ],
        Form::Stream => &[
            Slot::Fixed("stream"),
            Slot::Numeral(Number::Stream),
            Slot::Fixed("main"),
            Slot::Numeral(Number::Sched),
        ],
        Form::Object(Thing::Mutex) => &[
            Slot::Fixed("object"),
            Slot::Numeral(Number::NewObject),
            Slot::Fixed("mutex"),
        ],
        Form::Object(Thing::Cond(_)) => &[
            Slot::Fixed("object"),
            Slot::Numeral(Number::NewObject),
            Slot::Fixed("cond"),
            Slot::Numeral(Number::Mutex),
        ],
        Form::Object(Thing::Eventual) => &[
            Slot::Fixed("object"),
            Slot::Numeral(Number::NewObject),
            Slot::Fixed("eventual"),
        ],
        Form::Object(Thing::Future(_, _)) => &[
            Slot::Fixed("object"),
            Slot::Numeral(Number::NewObject),
            Slot::Fixed("future"),
            Slot::Numeral(SIZE),
            Slot::CombineWord,
        ],
        Form::Object(Thing::Barrier(_)) => &[
            Slot::Fixed("object"),
            Slot::Numeral(Number::NewObject),
            Slot::Fixed("barrier"),
            Slot::Numeral(SIZE),
        ],
        Form::Object(Thing::RwLock) => &[
            Slot::Fixed("object"),
            Slot::Numeral(Number::NewObject),
            Slot::Fixed("rwlock"),
        ],
        Form::Units => &[Slot::Fixed("units"), Slot::Numeral(Number::UnitCount)],
        Form::Unit(Role::Ult, Some(_)) => &[
            Slot::Fixed("unit"),
            Slot::Numeral(Number::NewUnit),
            Slot::Fixed("ult"),
            Slot::Fixed("at"),
            Slot::Numeral(Number::Pool),
        ],
        Form::Unit(Role::Ult, None) => &[
            Slot::Fixed("unit"),
            Slot::Numeral(Number::NewUnit),
            Slot::Fixed("ult"),
            Slot::Fixed("later"),
        ],
        Form::Unit(Role::Task, Some(_)) => &[
            Slot::Fixed("unit"),
            Slot::Numeral(Number::NewUnit),
            Slot::Fixed("task"),
            Slot::Fixed("at"),
            Slot::Numeral(Number::Pool),
        ],
        Form::Unit(Role::Task, None) => &[
            Slot::Fixed("unit"),
            Slot::Numeral(Number::NewUnit),
            Slot::Fixed("task"),
            Slot::Fixed("later"),
        ],
        Form::Unit(Role::Sched, Some(_)) => &[
            Slot::Fixed("unit"),
            Slot::Numeral(Number::NewUnit),
            Slot::Fixed("sched"),
            Slot::Numeral(Number::Sched),
            Slot::Fixed("at"),
            Slot::Numeral(Number::Pool),
        ],
        Form::Unit(Role::Sched, None) => &[
            Slot::Fixed("unit"),
            Slot::Numeral(Number::NewUnit),
            Slot::Fixed("sched"),
            Slot::Numeral(Number::Sched),
            Slot::Fixed("later"),
        ],
        Form::Many(Role::Ult, Some(_)) => &[
            Slot::Fixed("many"),
            Slot::Numeral(Number::NewUnit),
            Slot::Numeral(Number::Copies),
            Slot::Fixed("ult"),
            Slot::Fixed("at"),
            Slot::Numeral(Number::Pool),
        ],
        Form::Many(Role::Ult, None) => &[
            Slot::Fixed("many"),
            Slot::Numeral(Number::NewUnit),
            Slot::Numeral(Number::Copies),
            Slot::Fixed("ult"),
            Slot::Fixed("later"),
        ],
        Form::Many(Role::Task, Some(_)) => &[
            Slot::Fixed("many"),
            Slot::Numeral(Number::NewUnit),
            Slot::Numeral(Number::Copies),
            Slot::Fixed("task"),
            Slot::Fixed("at"),
            Slot::Numeral(Number::Pool),
        ],
        Form::Many(Role::Task, None) => &[
            Slot::Fixed("many"),
            Slot::Numeral(Number::NewUnit),
            Slot::Numeral(Number::Copies),
            Slot::Fixed("task"),
            Slot::Fixed("later"),
        ],
        Form::Many(Role::Sched, Some(_)) => &[
            Slot::Fixed("many"),
            Slot::Numeral(Number::NewUnit),
            Slot::Numeral(Number::Copies),
            Slot::Fixed("sched"),
            Slot::Numeral(Number::Sched),
            Slot::Fixed("at"),
            Slot::Numeral(Number::Pool),
        ],
        Form::Many(Role::Sched, None) => &[
            Slot::Fixed("many"),
            Slot::Numeral(Number::NewUnit),
            Slot::Numeral(Number::Copies),
            Slot::Fixed("sched"),
            Slot::Numeral(Number::Sched),
            Slot::Fixed("later"),
        ],
        Form::End => &[Slot::Fixed("end")],
        Form::Operation(op) | Form::Repeat(op) => op_slots(op),
    }
}

// What stands at the places of an operation's line.
macro_rules! places_of {
    (($op:ident) $($name:ident $([$which:path])? $(($($number:tt)+))?: [$word:literal $(, $slot:ident $(($kind:expr))?)*];)+) => {
        match $op {
            $(Op::$name { $(0: $which,)? .. } => &[Slot::Fixed($word) $(, Slot::$slot $(($kind))?)*],)+
        }
    };
}

#[inline]
fn op_slots(op: Op) -> &'static [Slot]
    ensures { map slot_of result.now ≡ op_slots op }
{
    operations!(places_of(op))
}

pub(crate) fn is(word: &[u8], text: &str) -> bool
    ensures { result ≡ bytes_eq word.now text.now }
{
    word == text.as_bytes()
}

// Whether a word may stand at a place.
#[inline]
fn suits(slot: Slot, word: &[u8]) -> bool
    ensures { result ≡ suits (slot_of slot) word.now }
{
    match slot {
        Slot::Fixed(text) => is(word, text),
        Slot::KindWord => is(word, "fifo") || is(word, "deque"),
        Slot::CombineWord => is(word, "sum") || is(word, "max") || is(word, "count"),
        Slot::AnyWord | Slot::Numeral(_) | Slot::PoolList => true,
    }
}

/// Whether a line of these words has these places.
pub(crate) fn fits(slots: &[Slot], words: &[&[u8]]) -> bool
    ensures { result ≡ fits (map slot_of slots.now) (map (λ w. w.now) words.now) }
{
    match slots.split_first() {
        None => words.is_empty(),
        Some((slot, slots)) => match words.split_first() {
            None => false,
            Some((word, words)) => match *slot {
                Slot::PoolList => true,
                other => suits(other, word) && fits(slots, words),
            },
        },
    }
}

// Whether these are the words of a `repeat` line of this operation.
fn is_repeat(op: Op, words: &[&[u8]]) -> bool
    ensures { result ≡ fits (slots (form.Repeat op)) (map (λ w. w.now) words.now) }
{
    match words.split_first() {
        None => false,
        Some((word, rest)) => is(word, "repeat") && is_repeated(op, rest),
    }
}

/// Whether a line of this form stands in texts of this format.
pub(crate) fn is_in(format: Format, form: Form) -> bool
    ensures { result ≡ is_in format form }
{
    match form {
        Form::Many(_, _) => !matches!(format, Format::One),
        Form::Operation(op) => !computes(op) || matches!(format, Format::Three),
        Form::Repeat(op) => {
            matches!(format, Format::Three) || (matches!(format, Format::Two) && !computes(op))
        }
        _ => true,
    }
}

// Whether an operation computes or calls.
fn computes(op: Op) -> bool
    ensures { result ≡ computes op }
{
    matches!(op, Op::Calc(_, _) | Op::Call(_))
}

// Whether a line of these words has this form in a text of this format.
fn has_form(format: Format, form: Form, words: &[&[u8]]) -> bool
    ensures { result ≡ (is_in format form && fits (slots form) (map (λ w. w.now) words.now)) }
{
    match form {
        Form::Repeat(op) => is_in(format, form) && is_repeat(op, words),
        _ => is_in(format, form) && fits(slots(form), words),
    }
}

/// A word that lines begin with, and where the forms of these lines begin and end in `FORMS`.
#[derive(Clone, Copy)]
pub(crate) struct Head {
    word: &'static str,
    from: usize,
    to: usize,
}

macro_rules! heads {
    ($($word:literal => $from:literal..$to:literal,)+) => {
        [$(Head { word: $word, from: $from, to: $to },)+]
    };
}

// The words that lines begin with, by their first byte.
static HEADS: [Head; 54] = heads!(
    "abt" => 0..3,
    "add" => 30..31,
    "broadcast" => 54..55,
    "bwait" => 63..64,
    "create" => 40..41,
    "cancel" => 42..43,
    "cwait" => 52..53,
    "calc" => 69..82,
    "call" => 82..83,
    "end" => 28..29,
    "exit" => 38..39,
    "ewait" => 55..56,
    "eset" => 56..57,
    "ereset" => 57..58,
    "etest" => 58..59,
    "fwait" => 59..60,
    "fset" => 60..61,
    "freset" => 61..62,
    "ftest" => 62..63,
    "join" => 41..42,
    "keys" => 4..5,
    "kset" => 33..34,
    "kget" => 34..35,
    "lock" => 47..48,
    "load" => 50..51,
    "migrate" => 43..44,
    "migrateto" => 44..45,
    "migratable" => 45..46,
    "many" => 83..89,
    "object" => 15..21,
    "pool" => 5..10,
    "print" => 32..33,
    "resume" => 39..40,
    "revive" => 46..47,
    "rdlock" => 64..65,
    "rwunlock" => 66..67,
    "rwload" => 67..68,
    "rwstore" => 68..69,
    "repeat" => 89..143,
    "streams" => 3..4,
    "sched" => 10..14,
    "stream" => 14..15,
    "set" => 29..30,
    "say" => 31..32,
    "suspend" => 37..38,
    "store" => 51..52,
    "signal" => 53..54,
    "trylock" => 48..49,
    "units" => 21..22,
    "unit" => 22..28,
    "unlock" => 49..50,
    "wrlock" => 65..66,
    "yield" => 35..36,
    "yieldto" => 36..37,
);

// The places in `HEADS` of the words that have this first byte.
fn heads_at(first: u8) -> (usize, usize)
    ensures ordered { result.0 ≤ result.1 }
    ensures bound { result.1 ≤ 54 }
{
    match first {
        b'a' => (0, 2),
        b'b' => (2, 4),
        b'c' => (4, 9),
        b'e' => (9, 15),
        b'f' => (15, 19),
        b'j' => (19, 20),
        b'k' => (20, 23),
        b'l' => (23, 25),
        b'm' => (25, 29),
        b'o' => (29, 30),
        b'p' => (30, 32),
        b'r' => (32, 39),
        b's' => (39, 47),
        b't' => (47, 48),
        b'u' => (48, 51),
        b'w' => (51, 52),
        b'y' => (52, 54),
        _ => (0, 0),
    }
}

// The words that lines begin with, of which this is the first byte.
fn heads_of(first: u8) -> &'static [Head]
    ensures { All IsHead result.now }
{
    let heads = HEADS.as_slice();
    let (from, to) = heads_at(first);
    &heads[from..to]
}

// The forms of the lines that begin with this word, if the table has it.
fn forms_of(word: &[u8]) -> Option<&'static [Form]>
    ensures { IfSome result (λ group. group.now ≡ forms_of word.now) }
{
    for head in heads_of(*word.first()?) {
        if is(word, head.word) {
            return Some(&forms()[head.from..head.to]);
        }
    }
    None
}

/// The form of a line of these words in a text of this format, if it has one. Only a line whose first word the table lacks is
/// compared with all forms.
pub(crate) fn form_of(format: Format, words: &[&[u8]]) -> Option<Form>
    ensures { result ≡ form_of format (map (λ w. w.now) words.now) }
{
    match words.split_first() {
        None => None,
        Some((word, rest)) => match forms_of(word) {
            Some(group) => form_behind(format, group, rest),
            None => form_among(format, words),
        },
    }
}

// The first of these forms that a line has which begins with their word and goes on with these.
fn form_behind(format: Format, group: &[Form], rest: &[&[u8]]) -> Option<Form>
    ensures { result ≡ find (has_rest format (map (λ w. w.now) rest.now)) group.now }
{
    for form in group {
        if has_rest(format, *form, rest) {
            return Some(*form);
        }
    }
    None
}

// Whether a line that begins with the word of this form and goes on with these has the form, in a text of this format.
#[inline]
fn has_rest(format: Format, form: Form, rest: &[&[u8]]) -> bool
    ensures { result ≡ has_rest format (map (λ w. w.now) rest.now) form }
{
    match form {
        Form::Repeat(op) => is_in(format, form) && is_repeated(op, rest),
        _ => is_in(format, form) && fits_behind(slots(form), rest),
    }
}

// Whether these are the words of a `repeat` line of this operation, behind the first.
fn is_repeated(op: Op, rest: &[&[u8]]) -> bool
    ensures { result ≡ fits (drop 1 (slots (form.Repeat op))) (map (λ w. w.now) rest.now) }
{
    match rest.split_first() {
        None => false,
        Some((_, words)) => fits(op_slots(op), words),
    }
}

// Whether a line has these places, of which the first is filled, and goes on with these words.
#[inline]
fn fits_behind(slots: &[Slot], rest: &[&[u8]]) -> bool
    ensures { result ≡ fits (drop 1 (map slot_of slots.now)) (map (λ w. w.now) rest.now) }
{
    match slots.split_first() {
        None => rest.is_empty(),
        Some((_, places)) => fits(places, rest),
    }
}

// The first of all forms that a line of these words has.
fn form_among(format: Format, words: &[&[u8]]) -> Option<Form>
    ensures { result ≡ form_of format (map (λ w. w.now) words.now) }
{
    for form in forms() {
        if has_form(format, *form, words) {
            return Some(*form);
        }
    }
    None
}

// Whether a line of these places may begin with the word that these words begin with.
fn begins_with(slots: &[Slot], words: &[&[u8]]) -> bool
    ensures { result ≡ begins_with (map slot_of slots.now) (map (λ w. w.now) words.now) }
{
    match slots.split_first() {
        None => false,
        Some((slot, _)) => match words.split_first() {
            None => false,
            Some((word, _)) => suits(*slot, word),
        },
    }
}

// Whether a line of this form may begin with the word that these words begin with, in a text of this format.
fn may_begin(format: Format, form: Form, words: &[&[u8]]) -> bool
    ensures { result ≡ (is_in format form && begins_with (slots form) (map (λ w. w.now) words.now)) }
{
    match form {
        Form::Repeat(_) => is_in(format, form) && begins_with(&[Slot::Fixed("repeat")], words),
        _ => is_in(format, form) && begins_with(slots(form), words),
    }
}

/// Whether no line of a text of this format begins with the first of these words.
pub(crate) fn is_unknown(format: Format, words: &[&[u8]]) -> bool
    ensures { result ≡ is_unknown format (map (λ w. w.now) words.now) }
{
    for form in forms() {
        if may_begin(format, *form, words) {
            return false;
        }
    }
    true
}

/// Whether these are the words of a version line, of any format.
pub(crate) fn is_version(words: &[&[u8]]) -> bool
    ensures { result ≡ (fits (slots (form.Version format.One)) (map (λ w. w.now) words.now) || fits (slots (form.Version format.Two)) (map (λ w. w.now) words.now) || fits (slots (form.Version format.Three)) (map (λ w. w.now) words.now)) }
{
    fits(slots(Form::Version(Format::One)), words)
        || fits(slots(Form::Version(Format::Two)), words)
        || fits(slots(Form::Version(Format::Three)), words)
}
