//! The frames of a stream.

ghost use Rattle.std.specs.Prelude.{◌≡◌, ◌-◌, IfOk, OnOk, length, slice_get};
ghost use Rattle.abt_view.specs.Frames.{all_frames as frames_of_all, frame_begun, framed, frames_in, frames_in_lane, lasting, frame_left, nested, unnested};

use crate::stretches::count_streams;
use abt_machine::{Event, Want, What};
use std::alloc::Global;
use std::marker::Model;

/// A time for which a stacked scheduler runs: its unit, how many frames it is within, the stamp of its `enter`, and that of the
/// stream's last event before its `leave`.
#[derive(Clone, Copy)]
pub struct Frame {
    pub stream: u32,
    pub unit: u32,
    pub depth: u64,
    pub since: u64,
    pub until: u64,
}

// The frames that were left, the frames that were not, from the outermost on, and the stream's last stamp.
#[derive(Drop)]
struct Nest {
    past: Vec<Frame>,
    inside: Vec<Frame>,
    last: u64,
}

impl Model for Nest {
    ghost use Rattle.abt_view.specs.Frames.{NestValue};

    ghost Value = { NestValue };

    ghost view = { λ n. record { past = n.past.items; inside = n.inside.items; last = n.last } };
}

// The frame that begins where a scheduler unit enters, within `depth` others.
fn enter(event: Event, u: u32, depth: u64) -> Frame
    ensures { result ≡ frame_begun depth event u }
{
    Frame {
        stream: event.stream.0,
        unit: u,
        depth,
        since: event.stamp,
        until: event.stamp,
    }
}

// The frame, ended at that stamp.
fn last_until(stamp: u64, frame: Frame) -> Frame
    ensures { result ≡ lasting stamp frame }
{
    Frame {
        until: stamp,
        ..frame
    }
}

impl Nest {
    // The state before the first event.
    fn start(alloc: Global) -> Nest
        ensures { result ≡ unnested }
    {
        Nest {
            past: Vec::new(alloc),
            inside: Vec::new(alloc),
            last: 0,
        }
    }

    // Leaves the innermost frame, if there is one.
    fn leave(&mut self) -> Result<(), Want>
        ensures { OnOk result (self.new ≡ frame_left self.old (slice_get self.old.inside (length self.old.inside - 1))) }
    {
        let Some(frame) = self.inside.pop() else {
            return Ok(());
        };
        self.past.push(last_until(self.last, frame))?;
        Ok(())
    }

    // Changes the frames as an event of their stream does.
    fn take(&mut self, event: Event) -> Result<(), Want>
        ensures { OnOk result (self.new ≡ nested self.old event event.what) }
    {
        match event.what {
            What::Miss(_) => Ok(()),
            What::Take(_, _) => Ok(()),
            What::Look(_) => Ok(()),
            What::Step(_, _, _) | What::Call(_, _, _) => Ok(()),
            What::Put(_, _) => Ok(()),
            What::End(_, _) => Ok(()),
            What::Enter(u) => {
                let depth = self.inside.len() as u64;
                self.inside.push(enter(event, u.0, depth))?;
                Ok(())
            }
            What::Leave(_) => self.leave(),
        }
    }

    // Changes the frames of stream s as an event of any stream does.
    fn follow(&mut self, s: u64, event: Event) -> Result<(), Want>
        ensures { OnOk result (self.new ≡ framed s self.old event) }
    {
        if u64::from(event.stream.0) == s {
            let stamp = event.stamp;
            self.take(event)?;
            self.last = stamp;
        }
        Ok(())
    }

    // All frames, each before those within it.
    fn finish(self) -> Result<Vec<Frame>, Want>
        ensures { IfOk result (λ all. all.items ≡ frames_in self) }
    {
        let Nest {
            mut past,
            inside,
            last,
        } = self;
        let mut all = Vec::new(*past.allocator());
        for frame in &inside {
            all.push(last_until(last, *frame))?;
        }
        past.reverse();
        all.append(&mut past)?;
        Ok(all)
    }
}

// The frames of stream s.
fn frames(alloc: Global, journal: &[Event], s: u64) -> Result<Vec<Frame>, Want>
    ensures { IfOk result (λ frames. frames.items ≡ frames_in_lane journal.now s) }
{
    let mut nest = Nest::start(alloc);
    for event in journal {
        nest.follow(s, *event)?;
    }
    nest.finish()
}

/// The frames of the streams that a view shows, in order of stream, and within a stream the outer before the inner.
pub fn all_frames(alloc: Global, journal: &[Event]) -> Result<Vec<Frame>, Want>
    ensures { IfOk result (λ all. all.items ≡ frames_of_all journal.now) }
{
    let mut all = Vec::new(alloc);
    let streams = count_streams(journal);
    for s in 0..streams {
        let mut found = frames(alloc, journal, s)?;
        all.append(&mut found)?;
    }
    Ok(all)
}
