//! The races of each subject. The first entry of a race is the one with which the others are compared.

use crate::loads::Load;
use crate::races::Entry;
use crate::rounds::Work;
use crate::turning::Length;

/// Four streams that share nothing, compared with one of them: whole runs, the same with a lock for each object in both, and waves
/// without logs.
pub static THREADS: [&[Entry]; 3] = [
    &[
        (Load::One, Work::Streams),
        (Load::Four, Work::Streams),
        (Load::Four, Work::Drain),
    ],
    &[
        (Load::OneOfFour, Work::Streams),
        (Load::Four, Work::Streams),
    ],
    &[(Load::One, Work::Wave), (Load::Four, Work::Wave)],
];

/// Runs that keep no journal, compared with those that do.
pub static JOURNAL: [&[Entry]; 2] = [
    &[
        (Load::One, Work::Steps { keeps: true }),
        (Load::One, Work::Steps { keeps: false }),
    ],
    &[
        (Load::Four, Work::Steps { keeps: true }),
        (Load::Four, Work::Steps { keeps: false }),
    ],
];

/// Four streams that share one object, on threads, compared with one thread.
pub static SHARED: [&[Entry]; 4] = [
    &[(Load::Mutex, Work::Drain), (Load::Mutex, Work::Streams)],
    &[(Load::Pool, Work::Drain), (Load::Pool, Work::Streams)],
    &[(Load::Barrier, Work::Drain), (Load::Barrier, Work::Streams)],
    &[(Load::Deque, Work::Drain), (Load::Deque, Work::Streams)],
];

/// A busy stream next to seven idle ones, compared with it alone and with it next to one idle stream.
pub static IDLE: [&[Entry]; 2] = [
    &[
        (Load::Busy, Work::Streams),
        (Load::BusyBesideSeven, Work::Streams),
    ],
    &[
        (Load::BusyBesideOne, Work::Streams),
        (Load::BusyBesideSeven, Work::Streams),
    ],
];

/// The check of a journal, compared with the runs that make it.
pub static CHECK: [&[Entry]; 2] = [
    &[
        (Load::Busy, Work::Check),
        (Load::Busy, Work::Drain),
        (Load::Busy, Work::Streams),
        (Load::Busy, Work::Text),
    ],
    &[
        (Load::Four, Work::Check),
        (Load::Four, Work::Drain),
        (Load::Four, Work::Streams),
        (Load::Four, Work::Text),
    ],
];

/// Calls of a function that computes nothing, compared with operations that set; and calls of functions of each length on one, two and
/// four streams, compared with a loop that makes them without a runtime.
pub static CALLS: [&[Entry]; 5] = [
    &[
        (Load::Setting, Work::Calls(Length::Nothing)),
        (Load::Calling, Work::Calls(Length::Nothing)),
    ],
    &[
        (Load::CallsOfOne, Work::Loop(Length::OneMicrosecond)),
        (Load::CallsOfOne, Work::Calls(Length::OneMicrosecond)),
        (Load::CallsOfTwo, Work::Calls(Length::OneMicrosecond)),
        (Load::CallsOfFour, Work::Calls(Length::OneMicrosecond)),
    ],
    &[
        (Load::CallsOfOne, Work::Loop(Length::FiveMicroseconds)),
        (Load::CallsOfOne, Work::Calls(Length::FiveMicroseconds)),
        (Load::CallsOfTwo, Work::Calls(Length::FiveMicroseconds)),
        (Load::CallsOfFour, Work::Calls(Length::FiveMicroseconds)),
    ],
    &[
        (Load::CallsOfOne, Work::Loop(Length::TwentyMicroseconds)),
        (Load::CallsOfOne, Work::Calls(Length::TwentyMicroseconds)),
        (Load::CallsOfTwo, Work::Calls(Length::TwentyMicroseconds)),
        (Load::CallsOfFour, Work::Calls(Length::TwentyMicroseconds)),
    ],
    &[
        (Load::CallsOfOne, Work::Loop(Length::HundredMicroseconds)),
        (Load::CallsOfOne, Work::Calls(Length::HundredMicroseconds)),
        (Load::CallsOfTwo, Work::Calls(Length::HundredMicroseconds)),
        (Load::CallsOfFour, Work::Calls(Length::HundredMicroseconds)),
    ],
];
