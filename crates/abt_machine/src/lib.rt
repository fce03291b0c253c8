//! The written machine: its types, its definitions and the readers of a workload.
#![tactic(auto)]

mod counting;
mod events;
mod grammar;
mod items;
mod numbers;
mod operations;
mod ops;
mod program;
mod validity;
mod workload;

pub use events::{
    Cause, Code, Event, Journal, Log, Outcome, Output, Piece, Place, Shown, Site, Spot, What, Wish,
};
pub use grammar::{
    FUNCTION_LIMIT, Form, Format, KEY_LIMIT, LISTED_LIMIT, Number, Role, SIZE_LIMIT, WORD_LIMIT,
};
pub use items::{Items, Text};
pub use numbers::{ObjectNo, PoolNo, Returned, SchedNo, StreamNo, UnitNo};
pub use operations::{
    Access, Body, Calc, Combine, Kind, Op, OrderShape, Pools, Rule, Side, Thing, gcd,
};
pub use ops::Ops;
pub use program::{Ended, Fault, Want};
pub use workload::{
    Mains, Parts, PoolPart, PoolParts, SchedPart, SchedParts, Texts, Things, UnitPart, UnitParts,
    Workload,
};
