//! What an answer brings to the unit in hand.

ghost use Rattle.std.specs.Prelude.{◌≡◌, ◌<◌, ◌++◌, ◌^◌, ◌-◌, IfOk, None, Some};
ghost use Rattle.abt_replay.specs.Acts.{act_of, answer_of};
ghost use Rattle.abt_machine.specs.Acts.{Coded};
ghost use Rattle.abt_machine.specs.Plans.{notes, to_caller};
ghost use Rattle.abt_plans.specs.Acts.{asked, brought, given};
ghost use Rattle.abt_plans.specs.Hearing.{IsForCaller, IsForGiver};

use crate::acts::{Act, Answer};
use crate::unit::Unit;
use abt_machine::{Code, Want};
use abt_plans::{Asking, Giving, act_of_asking, act_of_giving};
use std::collections::VecDeque;

// How the call of a unit went.
fn coded(unit: &mut Unit, code: Code) -> Result<(), Want>
    requires position { unit.old.carried.position < 2 ^ 32 - 1 }
    ensures { IfOk result (λ _. Some unit.new ≡ (to_caller unit.old (Coded code)).hand) }
{
    match code {
        Code::Ok => {
            unit.advance();
            Ok(())
        }
        _ => unit.refuse(code),
    }
}

/// What an answer brings to a unit that stayed in the hand, and how its call went.
pub(crate) fn hear(unit: &mut Unit, tray: &mut VecDeque<Unit>, answer: Answer) -> Result<Code, Want>
    requires position { unit.old.carried.position < 2 ^ 32 - 1 }
    requires answer { IsForCaller (answer_of answer) }
    ensures hand { IfOk result (λ _. Some unit.new ≡ (to_caller unit.old (answer_of answer)).hand) }
    ensures tray { IfOk result (λ _. tray.new.items ≡ tray.old.items ++ (to_caller unit.old (answer_of answer)).wakes) }
    ensures next { (to_caller unit.old (answer_of answer)).next ≡ None }
    ensures code { IfOk result (λ code. code ≡ (to_caller unit.old (answer_of answer)).code) }
{
    match answer {
        Answer::Given(woken) => {
            unit.advance();
            tray.push_back(woken)?;
            Ok(Code::Ok)
        }
        Answer::Woke(mut woken) => {
            unit.advance();
            tray.append(&mut woken)?;
            Ok(Code::Ok)
        }
        Answer::Rested => {
            unit.advance();
            Ok(Code::Ok)
        }
        Answer::Number(n) => {
            unit.advance();
            unit.receive(n);
            Ok(Code::Ok)
        }
        Answer::Code(code) => {
            coded(unit, code)?;
            Ok(code)
        }
        _ => unreachable!(),
    }
}

/// The act that does not take the unit with it.
pub(crate) fn ask(asking: Asking) -> Act
    ensures { act_of result ≡ asked asking }
{
    act_of_asking!(asking, Act)
}

/// The act that takes the unit with it.
pub(crate) fn give(giving: Giving, unit: Unit) -> Act
    ensures { act_of result ≡ given giving unit }
{
    act_of_giving!(giving, unit, Act)
}

// The unit notes why it was refused, and goes on.
fn noted(mut unit: Unit, code: Code) -> Result<(Option<Unit>, Code), Want>
    ensures hand { IfOk result (λ r. r.0 ≡ (notes unit code).hand) }
    ensures code { IfOk result (λ r. r.1 ≡ code) }
{
    unit.note(code)?;
    Ok((Some(unit), code))
}

/// What an answer brings to a stream whose unit went with the act, and how its call went: if the unit comes back it is in the
/// hand again, with those that it let go in the tray, or with the refusal noted. A unit that comes out of a condition is woken.
#[tactic(auto, using(crate::proofs::Answered::bringing))]
pub(crate) fn returned(
    giving: Giving,
    tray: &mut VecDeque<Unit>,
    answer: Answer,
) -> Result<(Option<Unit>, Code), Want>
    requires answer { IsForGiver giving (answer_of answer) }
    ensures hand { IfOk result (λ r. r.0 ≡ (brought giving (answer_of answer)).hand) }
    ensures next { (brought giving (answer_of answer)).next ≡ None }
    ensures tray { IfOk result (λ _. tray.new.items ≡ tray.old.items ++ (brought giving (answer_of answer)).wakes) }
    ensures code { IfOk result (λ r. r.1 ≡ (brought giving (answer_of answer)).code) }
{
    match answer {
        Answer::Given(unit) => match giving {
            Giving::Wait(_) => {
                tray.push_back(unit)?;
                Ok((None, Code::Ok))
            }
            _ => Ok((Some(unit), Code::Ok)),
        },
        Answer::Through(unit, mut others) => {
            tray.append(&mut others)?;
            Ok((Some(unit), Code::Ok))
        }
        Answer::Rested => Ok((None, Code::Ok)),
        Answer::Back(unit, code) => noted(unit, code),
        _ => unreachable!(),
    }
}
