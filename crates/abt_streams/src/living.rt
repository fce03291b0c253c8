//! Which streams live.

ghost use Rattle.std.specs.Prelude.{◌≡◌, ◌++◌, [], ◌∷◌, IfOk, OnOk, Some, filter, if◌then◌else◌, map};
ghost use Rattle.std.specs.List.{range_with_len};
ghost use Rattle.abt_commons.specs.Held.{object_at};
ghost use Rattle.abt_streams.specs.Lives.{AreLives};
ghost use Rattle.abt_streams.specs.Living.{life_of};
ghost use Rattle.abt_streams.specs.Looks.{is_live_with};

use crate::life::Life;
use abt_commons::Objects;
use abt_machine::{StreamNo, Want, Workload};
use std::alloc::Global;

/// Whether each stream lives, and the numbers of those that do.
#[derive(Drop)]
pub(crate) struct LiveStreams {
    pub(crate) flags: Vec<bool>,
    pub(crate) numbers: Vec<u32>,
}

// The life of a stream, if it has one.
fn life_of(lives: &[Life], s: StreamNo) -> Option<Life>
    ensures { result ≡ life_of lives.now s.0 }
{
    for life in lives {
        if life.stream.0 == s.0 {
            return Some(*life);
        }
    }
    None
}

/// Whether a stream lives.
pub(crate) fn is_live<'w>(objects: &Objects<'w>, lives: &[Life], s: StreamNo) -> bool
    requires { AreLives objects.now.workload lives.now }
    ensures { result ≡ is_live_with (object_at objects.now) lives.now s.0 }
{
    match life_of(lives, s) {
        Some(life) => objects.is_ready(life.begins) && !objects.is_ready(life.ends),
        None => true,
    }
}

// Appends the number of a stream that lives.
fn push_if(numbers: &mut Vec<u32>, s: u32, lives: bool) -> Result<(), Want>
    ensures { OnOk result (numbers.new.items ≡ numbers.old.items ++ (if lives then s ∷ [] else [])) }
{
    if lives {
        numbers.push(s)?;
    }
    Ok(())
}

/// Which streams live.
pub(crate) fn find_live<'w>(
    alloc: Global,
    w: &Workload,
    objects: &Objects<'w>,
    lives: &[Life],
) -> Result<LiveStreams, Want>
    requires objects { objects.now.workload ≡ w.now }
    requires lives { AreLives w.now lives.now }
    ensures flags { IfOk result (λ live. live.flags.items ≡ map (is_live_with (object_at objects.now) lives.now) (range_with_len 0 w.now.streams)) }
    ensures numbers { IfOk result (λ live. live.numbers.items ≡ filter (is_live_with (object_at objects.now) lives.now) (range_with_len 0 w.now.streams)) }
{
    let mut flags = Vec::new(alloc);
    let mut numbers = Vec::new(alloc);
    for s in 0..w.streams() {
        let lives = is_live(objects, lives, StreamNo(s));
        flags.push(lives)?;
        push_if(&mut numbers, s, lives)?;
    }
    Ok(LiveStreams { flags, numbers })
}
