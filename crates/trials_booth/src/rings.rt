//! A ring of keys whose values end by stored functions.

ghost use Rattle.std.specs.Prelude.{◌≡◌, ◌<◌, length, true};
ghost use Rattle.abt_callbacks.specs.Rings.{ends_of};

use abt_callbacks::{End, KeyRing, RING_LIMIT, StoredEnd};
use std::process::Abort;
use std::sync::atomic::{AtomicU32, Ordering};
use std::test::Fail;

fn same(value: u64) -> u64
    ensures { result ≡ value }
{
    value
}

fn six(_value: u64) -> u64 {
    6
}

// What is set of a ring, key by key, and what its end then answers.
type Round = (&'static [(u32, u64)], &'static [u64]);

// Rings, by whether the function of each key answers the number that it is called for, or 6, and their rounds.
const RINGS: [(&[bool], &[Round]); 2] = [
    (&[true, true], &[(&[(1, 4)], &[4]), (&[], &[])]),
    (
        &[true, true, false],
        &[
            (&[(1, 4)], &[4]),
            (&[], &[]),
            (&[(2, 4), (0, 7), (0, 8)], &[8, 6]),
        ],
    ),
];

// Each round of a ring with `keys` keys has its answers.
fn run_rounds<R: Abort>(rt: &R, ring: &mut KeyRing, keys: u32, rounds: &[Round])
    requires { keys ≡ length (ends_of ring.old) }
{
    for (sets, answers) in rounds {
        for (key, value) in *sets {
            assert!(rt; *key < keys);
            ring.set(*key, *value);
        }
        ends_with(rt, ring, answers);
    }
}

// The ring ends with these answers.
fn ends_with<R: Abort, E: End>(rt: &R, ring: &mut KeyRing<E>, answers: &[u64])
    ensures { ends_of ring.new ≡ ends_of ring.old }
{
    let answered = ring.end();
    assert!(rt; answered == answers);
}

#[test]
fn rings_call_for_the_last_values_in_order(rt: HostRuntime) -> Result<(), Fail> {
    let alloc = rt.alloc();
    for (functions, rounds) in RINGS {
        let mut ends = Vec::new(alloc);
        for answers_same in functions {
            let end = if *answers_same {
                StoredEnd::new(true, Box::new(alloc, same)?)
            } else {
                StoredEnd::new(false, Box::new(alloc, six)?)
            };
            ends.push(end)?;
        }
        let keys = ends.len();
        assert!(rt; 1 <= keys && keys <= RING_LIMIT);
        let mut ring = KeyRing::new(alloc, ends)?;
        run_rounds(&rt, &mut ring, keys as u32, rounds);
    }
    Ok(())
}

// A function that counts its calls, and answers the number that it is called for.
#[derive(Drop)]
struct CountedEnd<'a> {
    calls: &'a AtomicU32,
}

impl End for CountedEnd<'_> {
    ghost use Rattle.std.specs.Prelude.{◌≡◌};

    ghost may_answer = { λ _ value answer. answer ≡ value };

    fn answer(&self, value: u64) -> u64 {
        self.calls.fetch_add(1, Ordering::SeqCst);
        value
    }
}

#[test]
fn a_ring_calls_a_function_once_for_each_value(rt: HostRuntime) -> Result<(), Fail> {
    let alloc = rt.alloc();
    let (first, second) = (AtomicU32::new(0), AtomicU32::new(0));
    let ends = vec![in alloc; CountedEnd { calls: &first }, CountedEnd { calls: &second }]?;
    let mut ring = KeyRing::new(alloc, ends)?;
    ring.set(1, 4);
    ring.set(1, 5);
    ends_with(&rt, &mut ring, &[5]);
    ends_with(&rt, &mut ring, &[]);
    ring.set(1, 6);
    ring.set(0, 6);
    ends_with(&rt, &mut ring, &[6, 6]);
    let calls = (first.load(Ordering::SeqCst), second.load(Ordering::SeqCst));
    assert_eq!(rt; calls, (1, 2));
    Ok(())
}
