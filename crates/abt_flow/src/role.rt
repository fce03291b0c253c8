//! What each operation is to the flow of its unit.

ghost use Rattle.abt_flow.specs.Roles.{IsRole};

use abt_machine::{Calc, ObjectNo, Op, PoolNo, UnitNo};

// How an operation changes its unit's memory, what it calls, creates, waits for or sets, that it does none of
// these, or that it depends on the schedule.
#[derive(Clone, Copy)]
pub(crate) enum Role {
    Set(u64),
    Add(u64),
    Say(u32),
    Print,
    KeySet(u32),
    KeyGet(u32),
    Calc(Calc, u32),
    Call(u32),
    Create(UnitNo, PoolNo),
    AwaitValue(ObjectNo),
    SetValue(ObjectNo),
    Pass,
    Depend,
}

impl Role {
    // The one table of operations in this crate's code. The last line is checked for each other operation by itself.
    pub(crate) fn of(op: Op) -> Self
        ensures { IsRole op result }
    {
        match op {
            Op::Set(n) => Role::Set(n),
            Op::Add(n) => Role::Add(n),
            Op::Say(word) => Role::Say(word),
            Op::Print => Role::Print,
            Op::KeySet(k) => Role::KeySet(k),
            Op::KeyGet(k) => Role::KeyGet(k),
            Op::Calc(calc, k) => Role::Calc(calc, k),
            Op::Call(f) => Role::Call(f),
            Op::Create(v, p) => Role::Create(v, p),
            Op::EvWait(x) => Role::AwaitValue(x),
            Op::EvSet(x) => Role::SetValue(x),
            Op::Yield | Op::Join(_) | Op::BarWait(_) => Role::Pass,
            _ => Role::Depend,
        }
    }
}
