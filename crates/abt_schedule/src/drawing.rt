//! The order of streams that a generator draws.

ghost use Rattle.std.specs.Prelude.{ℕ, ◌≡◌, ◌<◌, ◌+◌, IfOk, OnOk, length};
ghost use Rattle.abt_machine.specs.Lives.{count_up};
ghost use Rattle.abt_machine.specs.Rounds.{generator_at};
ghost use Rattle.abt_schedule.specs.Drawing.{drawn, drawn_place};
ghost use Rattle.rand_pcg.specs.Pcg.{pcg32};

use abt_machine::Want;
use rand_pcg::Pcg32;
use rand_pcg::rand_core::utils::NextWord;
use std::alloc::Global;

/// Draws an order of that many streams, by a word for each. Out of memory is the only error.
pub(crate) fn draw(alloc: Global, words: &mut Pcg32, streams: u32) -> Result<Vec<u32>, Want>
    ensures order { IfOk result (λ order. order.items ≡ drawn streams words.old (count_up streams)) }
    ensures words { OnOk result ((seed g n : ℕ) → words.old ≡ generator_at seed g n → words.new ≡ generator_at seed g (n + streams)) }
{
    let mut left = numbers(alloc, streams)?;
    let mut order = Vec::with_capacity(alloc, streams as usize)?;
    for _ in 0..streams {
        let k = place(words, left.as_slice());
        order.push(left.remove(k))?;
    }
    Ok(order)
}

// The numbers below `count`, in order.
fn numbers(alloc: Global, count: u32) -> Result<Vec<u32>, Want>
    ensures { IfOk result (λ numbers. numbers.items ≡ count_up count) }
{
    let mut numbers = Vec::with_capacity(alloc, count as usize)?;
    for s in 0..count {
        numbers.push(s)?;
    }
    Ok(numbers)
}

// The place that the next word draws in a list.
fn place(words: &mut Pcg32, left: &[u32]) -> usize
    requires { 0 < length left.now }
    ensures place { result ≡ drawn_place words.old left.now }
    ensures within { result < length left.now }
    ensures words { words.new ≡ (pcg32 words.old).1 }
{
    words.next_word() as usize % left.len()
}
