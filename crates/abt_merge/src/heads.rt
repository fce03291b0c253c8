//! Which stream's next event comes first.

ghost use Rattle.std.specs.Prelude.{◌≡◌, map};
ghost use Rattle.abt_merge.specs.Heads.{FirstBut, head_of, is_sooner, sooner_of};

use abt_machine::Event;

/// Stamp and stream of the event that comes first, by stamp and then by stream, of what is left of the logs of all streams
/// but this one; None if nothing is left of them.
pub(crate) fn first_but(rests: &[&[Event]], but: usize) -> Option<(u64, usize)>
    ensures { FirstBut (map (λ rest. rest.now) rests.now) but result }
{
    let mut first = None;
    for (stream, rest) in rests.iter().enumerate() {
        if stream != but {
            first = sooner(first, stream, rest);
        }
    }
    first
}

// The sooner one of the event that comes first of the streams before, and of the next one of this stream.
fn sooner(first: Option<(u64, usize)>, stream: usize, rest: &[Event]) -> Option<(u64, usize)>
    ensures { result ≡ sooner_of first (head_of stream rest.now) }
{
    match rest.first() {
        Some(event) if is_sooner(event.stamp, first) => Some((event.stamp, stream)),
        _ => first,
    }
}

// Whether an event with this stamp comes before the one that comes first of the streams before its own.
fn is_sooner(stamp: u64, first: Option<(u64, usize)>) -> bool
    ensures { result ≡ is_sooner stamp first }
{
    match first {
        None => true,
        Some((least, _)) => stamp < least,
    }
}
