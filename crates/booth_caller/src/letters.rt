//! A tray for one letter behind a booth: an object that owns boxes, and that nothing can copy.
ghost use Rattle.std.specs.Prelude.{◌≡◌, IfErr, IfOk, None};
ghost use Rattle.abt_booth.specs.Seats.{number_of, IsSeatOf};
ghost use Rattle.booth_caller.specs.Letters.{ArePassed, stamp_in};

use abt_booth::{Booth, Called, Object, Seat};
use std::alloc::Global;
use std::sync::Wait;

/// A letter. There is one of it: it can't be cloned.
#[derive(Drop)]
pub struct Letter {
    pub text: String,
}

/// A tray that has room for one letter.
#[derive(Drop)]
pub struct Tray {
    pub letter: Option<Box<Letter>>,
}

/// What a tray is asked.
#[derive(Drop)]
pub enum Ask {
    Put(Box<Letter>),
    Take,
}

/// What a tray answers.
#[derive(Drop)]
pub enum Reply {
    /// The letter is in the tray.
    Stored,
    /// The tray has a letter, and this one comes back.
    Full(Box<Letter>),
    /// The letter that was in the tray.
    Given(Box<Letter>),
    /// There was no letter.
    Empty,
}

impl Object for Tray {
    ghost use Rattle.booth_caller.specs.Trays.{Does};

    type Act = Ask;

    type Answer = Reply;

    ghost allowed = { λ tray ask. Unit {0} };

    ghost does = { Does };

    ghost keeps = { λ _ _ _ _ _ _ _. tt };

    fn run(&mut self, ask: Ask) -> Reply {
        match ask {
            Ask::Put(letter) => {
                if self.letter.is_some() {
                    Reply::Full(letter)
                } else {
                    self.letter = Some(letter);
                    Reply::Stored
                }
            }
            Ask::Take => match self.letter.take() {
                Some(letter) => Reply::Given(letter),
                None => Reply::Empty,
            },
        }
    }
}

/// Sends a letter from one seat of a booth to another. Err hands the letter back: out of memory.
///
/// The second call's `at` is the first one's stamp, so its own stamp is greater. Once the booth is closed there is
/// one history, which has exactly these two calls in order of stamp: so what came out is what went in, and the clock was
/// not worn.
pub fn deliver<R: Wait>(rt: &R, alloc: Global, letter: Box<Letter>) -> Result<Reply, Box<Letter>>
    ensures given { IfOk result (λ reply. reply ≡ Reply.Given letter) }
    ensures refused { IfErr result (λ back. back ≡ letter) }
{
    let (booth, mut seats) = match Booth::make(alloc, Tray { letter: None }, 2) {
        Ok(made) => made,
        Err(_) => return Err(letter),
    };
    let Some(mut taker) = seats.pop() else {
        unreachable!()
    };
    let Some(mut putter) = seats.pop() else {
        unreachable!()
    };
    let (_, taken) = pass_on(rt, &booth, &mut putter, &mut taker, letter);
    let mut gathered = taker.retire();
    booth.gather(&mut gathered, putter);
    booth.finish(gathered);
    let Called::Done { stamp: _, answer } = taken else {
        unreachable!()
    };
    Ok(answer)
}

/// Puts a letter into the tray with one seat, and then takes a letter out with the other. Returns the answer to each call.
pub fn pass_on<R: Wait>(
    rt: &R,
    booth: &Booth<Tray>,
    putter: &mut Seat<Tray>,
    taker: &mut Seat<Tray>,
    letter: Box<Letter>,
) -> (Called<Tray>, Called<Tray>)
    requires putter { IsSeatOf booth.now putter.old }
    requires taker { IsSeatOf booth.now taker.old }
    ensures putter { IsSeatOf booth.now putter.new × (number_of putter.new ≡ number_of putter.old) }
    ensures taker { IsSeatOf booth.now taker.new × (number_of taker.new ≡ number_of taker.old) }
    ensures passed { ArePassed booth.now putter.old putter.new taker.old taker.new letter result.0 result.1 }
{
    let put = booth.call(rt, putter, 0, Ask::Put(letter));
    let at = stamp_of(&put);
    let taken = booth.call(rt, taker, at, Ask::Take);
    (put, taken)
}

// The stamp of a call that was answered, else 0.
fn stamp_of(called: &Called<Tray>) -> u64
    ensures { result ≡ stamp_in called.now }
{
    match called {
        Called::Done { stamp, answer: _ } => *stamp,
        Called::Worn(_) => 0,
    }
}
