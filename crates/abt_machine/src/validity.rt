//! Whether parts are those of a workload.

ghost use Rattle.std.specs.Prelude.{◌↔◌, ◌≡◌, ◌≢◌, ◌==◌, ◌<◌, ◌≤◌, ℕ, All, AllPairs, IfSome, IsTrue, None, Some, flat_map, if◌then◌else◌, length, map};
ghost use Rattle.std.specs.List.{list_all, list_any, range_with_len};
ghost use Rattle.abt_machine.specs.Access.{may_take, may_take_all};
ghost use Rattle.abt_machine.specs.Checks.{IsLeft, after_said, place, places};
ghost use Rattle.abt_machine.specs.Limits.{key_limit, object_limit, operation_limit, pool_limit, sched_limit, stream_limit, unit_limit};
ghost use Rattle.abt_machine.specs.Operations.{IsBarrier, IsDeclared, IsEventual, IsFuture, IsMutex, IsRwLock, may_block, said_by};
ghost use Rattle.abt_machine.specs.Valid.{IsAccess, IsBody, IsRule, IsSched, IsStream, IsThing, IsUnit, IsValid, IsVisible, IsWord, placed_scheds, sched_in, words_said};
ghost use Rattle.abt_machine.specs.Workloads.{IsCondition, all_ops, ops_of, thing_at};
ghost use Rattle.abt_machine.specs.declared.grammar.Format.TheVariants as format;
ghost use Rattle.abt_machine.specs.declared.numbers.PoolNo.{PoolNo};
ghost use Rattle.abt_machine.specs.declared.numbers.SchedNo.{SchedNo};
ghost use Rattle.abt_machine.specs.declared.workload.PoolPart.{PoolPart};
ghost use Rattle.abt_machine.specs.declared.workload.UnitPart.{UnitPart};

use crate::grammar::{FUNCTION_LIMIT, Format, KEY_LIMIT, LISTED_LIMIT, SIZE_LIMIT, WORD_LIMIT};
use crate::items::Text;
use crate::numbers::{ObjectNo, PoolNo, SchedNo, StreamNo, UnitNo};
use crate::operations::{Access, Body, Op, Rule, Thing};
use crate::workload::{Parts, PoolPart, SchedPart, UnitPart};

// Whether a number is above 0 and no greater than another.
fn is_among(n: usize, most: usize) -> bool
    ensures { IsTrue result ↔ ((0 < n) × (n ≤ most)) }
{
    0 < n && n <= most
}

// Whether a rule's numbers are in range.
fn is_rule(rule: Rule) -> bool
    ensures { IsTrue result ↔ IsRule rule }
{
    match rule {
        Rule::Basic | Rule::Prio | Rule::Randws(_) => true,
        Rule::User(k) => k < 2,
    }
}

// Whether a pool is one of these.
fn lists(pools: &[PoolNo], pool: PoolNo) -> bool
    ensures { result ≡ list_any (λ (p : PoolNo). p.0 == pool.0) pools.now }
{
    pools.iter().any(|p| p.0 == pool.0)
}

// Whether no pool is listed twice.
fn are_distinct(pools: &[PoolNo]) -> bool
    ensures { IsTrue result ↔ AllPairs (λ (a b : PoolNo). a.0 ≢ b.0) pools.now }
{
    for (i, pool) in pools.iter().enumerate() {
        if lists(&pools[..i], *pool) {
            return false;
        }
    }
    true
}

// Whether a byte is neither a blank nor a control character.
fn is_visible(byte: u8) -> bool
    ensures { IsTrue result ↔ IsVisible byte }
{
    byte > b' ' && byte != 127
}

// Whether a text is a word that can be said.
fn is_word(text: &Text) -> bool
    ensures { IsTrue result ↔ IsWord text.now }
{
    let bytes = text.as_str().as_bytes();
    is_among(bytes.len(), WORD_LIMIT) && bytes.iter().all(|b| is_visible(*b))
}

// Whether one of these operations may block or yield.
fn may_block(ops: &[Op]) -> bool
    ensures { result ≡ list_any may_block ops.now }
{
    ops.iter().any(|op| op.may_block())
}

// The number after the words that these operations say, if they say them in order from a number on.
fn next_word(ops: &[Op], from: u64) -> Option<u64>
    ensures { result ≡ after_said from (flat_map said_by ops.now) }
{
    let mut next = from;
    for op in ops {
        if let Op::Say(word) = op {
            if u64::from(*word) != next {
                return None;
            }
            next += 1;
        }
    }
    Some(next)
}

// Whether a scheduler is in the table and has no place yet; if so, it has one from now on.
fn take_place(g: SchedNo, taken: &mut [bool]) -> bool
    ensures { (if result then Some taken.new else None) ≡ place g.0 taken.old }
{
    let g = g.0 as usize;
    if g >= taken.len() || taken[g] {
        return false;
    }
    taken[g] = true;
    true
}

// Whether main schedulers have no place yet, one after the other.
fn take_main_places(mains: &[SchedNo], taken: &mut [bool]) -> bool
    ensures { (if result then Some taken.new else None) ≡ places (map (λ (g : SchedNo). g.0) mains.now) taken.old }
{
    for g in mains {
        if !take_place(*g, taken) {
            return false;
        }
    }
    true
}

// Whether the scheduler that a body is, if it is one, has no place yet.
fn take_body_place(body: &Body, taken: &mut [bool]) -> bool
    ensures { (if result then Some taken.new else None) ≡ places (sched_in body.now) taken.old }
{
    match body {
        Body::Ult(_) | Body::Task(_) => true,
        Body::Sched(g) => take_place(*g, taken),
    }
}

// Whether the schedulers that units are have no place yet, one after the other.
fn take_body_places(units: &[UnitPart], taken: &mut [bool]) -> bool
    ensures { (if result then Some taken.new else None) ≡ places (flat_map (λ (part : UnitPart). sched_in part.body) units.now) taken.old }
{
    for part in units {
        if !take_body_place(&part.body, taken) {
            return false;
        }
    }
    true
}

// The number after the words that units say, if they say them in order from a number on.
fn next_unit_word(units: &[UnitPart], from: u64) -> Option<u64>
    ensures { result ≡ after_said from (flat_map (λ (part : UnitPart). flat_map said_by (ops_of part.body)) units.now) }
{
    let mut next = from;
    for part in units {
        next = next_word(part.body.ops(), next)?;
    }
    Some(next)
}

// What is left of room for operations after those of units, if there is enough.
fn ops_left(units: &[UnitPart], room: usize) -> Option<usize>
    ensures { IsLeft room (length (all_ops units.now)) result }
{
    let mut left = room;
    for part in units {
        left = left.checked_sub(part.body.ops().len())?;
    }
    Some(left)
}

impl Parts {
    // Whether there is at least one stream, and there are no more than there may be.
    fn has_streams(&self) -> bool
        ensures { IsTrue result ↔ ((0 < self.now.streams) × (self.now.streams ≤ stream_limit format.Three)) }
    {
        is_among(self.streams as usize, Format::Three.stream_limit() as usize)
    }

    // Whether there are no more keys than there may be.
    fn has_few_keys(&self) -> bool
        ensures { IsTrue result ↔ (self.now.keys ≤ key_limit) }
    {
        self.keys <= KEY_LIMIT
    }

    // Whether a stream is declared.
    fn has_stream(&self, s: StreamNo) -> bool
        ensures { IsTrue result ↔ (s.0 < self.now.streams) }
    {
        s.0 < self.streams
    }

    // Whether a pool is declared.
    fn has_pool(&self, p: PoolNo) -> bool
        ensures { IsTrue result ↔ (p.0 < length self.now.pools) }
    {
        (p.0 as usize) < self.pools.items().len()
    }

    // Whether a scheduler is declared.
    fn has_sched(&self, g: SchedNo) -> bool
        ensures { IsTrue result ↔ (g.0 < length self.now.scheds) }
    {
        (g.0 as usize) < self.scheds.items().len()
    }

    // Whether a unit is declared.
    fn has_unit(&self, u: UnitNo) -> bool
        ensures { IsTrue result ↔ (u.0 < length self.now.units) }
    {
        (u.0 as usize) < self.units.items().len()
    }

    // Whether the streams that an access names are declared.
    fn is_access(&self, access: Access) -> bool
        ensures { IsTrue result ↔ IsAccess self.now.streams access }
    {
        match access {
            Access::Priv(s) | Access::Mpsc(s) | Access::Spmc(s) => self.has_stream(s),
            Access::Spsc(s, t) => self.has_stream(s) && self.has_stream(t),
            Access::Mpmc => true,
        }
    }

    // Whether there is at least one pool, there are no more than there may be, and each pool's access names declared streams.
    fn has_pools(&self) -> bool
        ensures { IsTrue result ↔ ((0 < length self.now.pools) × (length self.now.pools ≤ pool_limit format.Three) × All (λ (part : PoolPart). IsAccess self.now.streams part.access) self.now.pools) }
    {
        let pools = self.pools.items();
        is_among(pools.len(), Format::Three.pool_limit())
            && pools.iter().all(|part| self.is_access(part.access))
    }

    // Whether these pools are declared.
    fn are_declared(&self, pools: &[PoolNo]) -> bool
        ensures { IsTrue result ↔ All (λ (p : PoolNo). p.0 < length self.now.pools) pools.now }
    {
        pools.iter().all(|p| self.has_pool(*p))
    }

    // Whether a scheduler lists declared pools, at least one and at most as many as the limit, each once.
    fn is_sched(&self, part: &SchedPart) -> bool
        ensures { IsTrue result ↔ IsSched (length self.now.pools) part.now }
    {
        let pools = part.pools.items();
        is_rule(part.rule)
            && is_among(pools.len(), LISTED_LIMIT)
            && self.are_declared(pools)
            && are_distinct(pools)
    }

    // Whether there is at least one scheduler, there are no more than there may be, and each one's rule and pools are allowed.
    fn has_scheds(&self) -> bool
        ensures { IsTrue result ↔ ((0 < length self.now.scheds) × (length self.now.scheds ≤ sched_limit format.Three) × All (IsSched (length self.now.pools)) self.now.scheds) }
    {
        let scheds = self.scheds.items();
        is_among(scheds.len(), Format::Three.sched_limit())
            && scheds.iter().all(|part| self.is_sched(part))
    }

    // Whether a stream may take from each of these pools.
    fn may_take_each(&self, s: StreamNo, pools: &[PoolNo]) -> bool
        ensures { result ≡ list_all (λ (p : PoolNo). may_take self.now s.0 p.0) pools.now }
    {
        pools.iter().all(|p| self.may_take(s, *p))
    }

    // Whether a stream may take from each pool of a scheduler.
    fn may_take_all(&self, s: StreamNo, g: SchedNo) -> bool
        ensures { result ≡ may_take_all self.now s.0 g.0 }
    {
        self.may_take_each(s, self.listed(g))
    }

    // Whether a stream has a declared main scheduler, and may take from all of its pools.
    fn is_stream(&self, s: StreamNo) -> bool
        ensures { IsTrue result ↔ IsStream self.now s.0 }
    {
        let main = self.main(s);
        self.has_sched(main) && self.may_take_all(s, main)
    }

    // Whether each stream has a declared main scheduler, and may take from all of its pools.
    fn are_streams(&self) -> bool
        ensures { IsTrue result ↔ ((s : ℕ) → s < self.now.streams → IsStream self.now s) }
    {
        for s in 0..self.streams {
            if !self.is_stream(StreamNo(s)) {
                return false;
            }
        }
        true
    }

    // Whether there is one main scheduler for each stream, which is declared and from whose pools the stream may take.
    fn has_mains(&self) -> bool
        ensures { IsTrue result ↔ ((length self.now.mains ≡ self.now.streams) × ((s : ℕ) → s < self.now.streams → IsStream self.now s)) }
    {
        self.mains.items().len() == self.streams as usize && self.are_streams()
    }

    // Whether an object of this number is declared as a mutex.
    fn is_mutex(&self, x: ObjectNo) -> bool
        ensures { IsTrue result ↔ IsMutex self.now x.0 }
    {
        matches!(self.object(x), Some(Thing::Mutex))
    }

    // Whether an object of this number is declared as a condition.
    fn is_condition(&self, x: ObjectNo) -> bool
        ensures { IsTrue result ↔ IsCondition self.now x.0 }
    {
        matches!(self.object(x), Some(Thing::Cond(_)))
    }

    // Whether an object of this number is declared as an eventual.
    fn is_eventual(&self, x: ObjectNo) -> bool
        ensures { IsTrue result ↔ IsEventual self.now x.0 }
    {
        matches!(self.object(x), Some(Thing::Eventual))
    }

    // Whether an object of this number is declared as a future.
    fn is_future(&self, x: ObjectNo) -> bool
        ensures { IsTrue result ↔ IsFuture self.now x.0 }
    {
        matches!(self.object(x), Some(Thing::Future(_, _)))
    }

    // Whether an object of this number is declared as a barrier.
    fn is_barrier(&self, x: ObjectNo) -> bool
        ensures { IsTrue result ↔ IsBarrier self.now x.0 }
    {
        matches!(self.object(x), Some(Thing::Barrier(_)))
    }

    // Whether an object of this number is declared as a reader-writer lock.
    fn is_rwlock(&self, x: ObjectNo) -> bool
        ensures { IsTrue result ↔ IsRwLock self.now x.0 }
    {
        matches!(self.object(x), Some(Thing::RwLock))
    }

    // Whether an object of this number may be this.
    fn is_thing(&self, x: usize, thing: Thing) -> bool
        ensures { IsTrue result ↔ IsThing self.now.objects x thing }
    {
        match thing {
            Thing::Mutex | Thing::Eventual | Thing::RwLock => true,
            Thing::Cond(m) => (m.0 as usize) < x && self.is_mutex(m),
            Thing::Future(n, _) | Thing::Barrier(n) => is_among(n as usize, SIZE_LIMIT as usize),
        }
    }

    // Whether each object may be what it is declared as.
    fn are_things(&self) -> bool
        ensures { IsTrue result ↔ ((x : ℕ) (t : Thing) → thing_at self.now x ≡ Some t → IsThing self.now.objects x t) }
    {
        for (x, thing) in self.objects.items().iter().enumerate() {
            if !self.is_thing(x, *thing) {
                return false;
            }
        }
        true
    }

    // Whether there are no more objects than there may be, and each may be what it is declared as.
    fn has_objects(&self) -> bool
        ensures { IsTrue result ↔ ((length self.now.objects ≤ object_limit format.Three) × ((x : ℕ) (t : Thing) → thing_at self.now x ≡ Some t → IsThing self.now.objects x t)) }
    {
        self.objects.items().len() <= Format::Three.object_limit() && self.are_things()
    }

    // Whether a tasklet has no operation that may block or yield, and a unit's scheduler is declared.
    fn is_body(&self, body: &Body) -> bool
        ensures { IsTrue result ↔ IsBody (length self.now.scheds) body.now }
    {
        match body {
            Body::Ult(_) => true,
            Body::Task(ops) => !may_block(ops.items()),
            Body::Sched(g) => self.has_sched(*g),
        }
    }

    // Whether what an operation names is declared.
    fn is_declared(&self, op: Op) -> bool
        ensures { IsTrue result ↔ IsDeclared self.now op }
    {
        match op {
            Op::Set(_) | Op::Add(_) | Op::Print | Op::Yield | Op::Suspend | Op::Exit => true,
            Op::Call(f) => f < FUNCTION_LIMIT,
            Op::Say(w) => (w as usize) < self.words.items().len(),
            Op::KeySet(k) | Op::KeyGet(k) | Op::Calc(_, k) => k < self.keys,
            Op::Resume(v) | Op::Join(v) | Op::Cancel(v) | Op::Migratable(v, _) => self.has_unit(v),
            Op::YieldTo(v, p) | Op::Create(v, p) | Op::Migrate(v, p) | Op::Revive(v, p) => {
                self.has_unit(v) && self.has_pool(p)
            }
            Op::MigrateTo(v, s) => self.has_unit(v) && self.has_stream(s),
            Op::Lock(x) | Op::TryLock(x) | Op::Unlock(x) | Op::Load(x) | Op::Store(x) => {
                self.is_mutex(x)
            }
            Op::CondWait(x) | Op::Signal(x) | Op::Broadcast(x) => self.is_condition(x),
            Op::EvWait(x) | Op::EvSet(x) | Op::EvReset(x) | Op::EvTest(x) => self.is_eventual(x),
            Op::FuWait(x) | Op::FuSet(x) | Op::FuReset(x) | Op::FuTest(x) => self.is_future(x),
            Op::BarWait(x) => self.is_barrier(x),
            Op::ReadLock(x) | Op::WriteLock(x) | Op::RwUnlock(x) | Op::RwLoad(x) | Op::RwStore(x) =>
                self.is_rwlock(x),
        }
    }

    // Whether what these operations name is declared.
    fn are_declared_ops(&self, ops: &[Op]) -> bool
        ensures { IsTrue result ↔ All (IsDeclared self.now) ops.now }
    {
        ops.iter().all(|op| self.is_declared(*op))
    }

    // Whether a unit that starts, starts in a declared pool.
    fn is_start(&self, start: Option<PoolNo>) -> bool
        ensures { IsTrue result ↔ IfSome start (λ (p : PoolNo). p.0 < length self.now.pools) }
    {
        match start {
            None => true,
            Some(p) => self.has_pool(p),
        }
    }

    // Whether a unit's body, operations and pool are allowed.
    fn is_unit(&self, part: &UnitPart) -> bool
        ensures { IsTrue result ↔ IsUnit self.now part.now }
    {
        let ops = part.body.ops();
        self.is_body(&part.body)
            && ops.len() <= Format::Three.unit_operation_limit()
            && self.are_declared_ops(ops)
            && self.is_start(part.start)
    }

    // Whether there are no more units than there may be, and each is allowed.
    fn has_units(&self) -> bool
        ensures { IsTrue result ↔ ((length self.now.units ≤ unit_limit format.Three) × All (IsUnit self.now) self.now.units) }
    {
        let units = self.units.items();
        units.len() <= Format::Three.unit_limit() as usize
            && units.iter().all(|part| self.is_unit(part))
    }

    // Whether each text is a word that can be said.
    fn has_words(&self) -> bool
        ensures { IsTrue result ↔ All IsWord self.now.words }
    {
        self.words.items().iter().all(is_word)
    }

    // Whether each scheduler that has a place is one of those that there may be, and none has two places.
    fn has_own_places(&self) -> bool
        ensures { IsTrue result ↔ (All (λ g. g < sched_limit format.Three) (placed_scheds self.now) × AllPairs (λ a b. a ≢ b) (placed_scheds self.now)) }
    {
        let mut taken = [false; 1_024];
        take_main_places(self.mains.items(), &mut taken)
            && take_body_places(self.units.items(), &mut taken)
    }

    // Whether the words are said in their order, each by one operation.
    fn says_words(&self) -> bool
        ensures { IsTrue result ↔ (words_said self.now ≡ range_with_len 0 (length self.now.words)) }
    {
        next_unit_word(self.units.items(), 0) == Some(self.words.items().len() as u64)
    }

    // Whether all units together have no more operations than they may have.
    fn has_few_ops(&self) -> bool
        ensures { IsTrue result ↔ (length (all_ops self.now.units) ≤ operation_limit format.Three) }
    {
        ops_left(self.units.items(), Format::Three.operation_limit()).is_some()
    }

    /// Whether these are the parts of a workload: what a text can declare.
    pub fn is_valid(&self) -> bool
        ensures { IsTrue result ↔ IsValid self.now }
    {
        self.has_streams()
            && self.has_few_keys()
            && self.has_pools()
            && self.has_scheds()
            && self.has_mains()
            && self.has_objects()
            && self.has_units()
            && self.has_own_places()
            && self.says_words()
            && self.has_words()
            && self.has_few_ops()
    }
}
