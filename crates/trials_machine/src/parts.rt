//! Schedulers, units and words of a workload, made of plain lists.

use abt_machine::{
    Body, Op, Ops, PoolNo, Pools, Rule, SchedNo, SchedPart, SchedParts, Text, Texts, UnitPart,
    UnitParts,
};
use std::alloc::{AllocError, Global};

/// What a unit is.
#[derive(Clone, Copy)]
pub enum Role<'a> {
    Ult(&'a [Op]),
    Task(&'a [Op]),
    Sched(SchedNo),
}

/// Schedulers of these rules and pools.
pub fn scheds(alloc: Global, rows: &[(Rule, &[PoolNo])]) -> Result<SchedParts, AllocError> {
    let mut scheds = Vec::new(alloc);
    for (rule, pools) in rows {
        let pools = Pools::new(pools.to_vec(alloc)?);
        scheds.push(SchedPart { rule: *rule, pools })?;
    }
    Ok(SchedParts::new(scheds))
}

/// A unit that is this and starts there.
pub fn unit(alloc: Global, role: Role, start: Option<PoolNo>) -> Result<UnitPart, AllocError> {
    let body = match role {
        Role::Ult(ops) => Body::Ult(Ops::new(alloc, ops.to_vec(alloc)?)?),
        Role::Task(ops) => Body::Task(Ops::new(alloc, ops.to_vec(alloc)?)?),
        Role::Sched(g) => Body::Sched(g),
    };
    Ok(UnitPart { body, start })
}

/// Units that are this and start there.
pub fn units(alloc: Global, rows: &[(Role, Option<PoolNo>)]) -> Result<UnitParts, AllocError> {
    let mut units = Vec::new(alloc);
    for (role, start) in rows {
        units.push(unit(alloc, *role, *start)?)?;
    }
    Ok(UnitParts::new(units))
}

/// These words.
pub fn texts(alloc: Global, words: &[&str]) -> Result<Texts, AllocError> {
    let mut texts = Vec::new(alloc);
    for word in words {
        texts.push(Text::new(String::from_str(alloc, word)?))?;
    }
    Ok(Texts::new(texts))
}
