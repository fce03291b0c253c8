//! Orders that users store.

ghost use Rattle.std.specs.Prelude.{◌≡◌, ◌≢◌, ◌<◌, ◌≤◌, ℕ, IsTrue};
ghost use Rattle.std.specs.Option.{ForNone, ForSome};
ghost use Rattle.abt_machine.specs.Limits.{listed_limit};
ghost use Rattle.abt_machine.specs.declared.operations.OrderShape.TheVariants as order_shape;
ghost use Rattle.abt_order.specs.Shapes.{IsAsked, fits_shape};

use crate::shapes::{mirror, rotate};
use abt_machine::OrderShape;

/// A function of a round, a number of pools and a place.
pub type OrderFunction = Box<dyn Fn(u64, u32, u32) -> u32 + Send + Sync>;

/// A user's order: it names, for a round, a number of pools and a place, the pool to visit there by its place in the
/// scheduler's list. Its shape says what its answers are.
#[derive(Drop)]
pub struct StoredOrder {
    pub shape: OrderShape,
    // There is none if the shape leaves one answer, which is then computed.
    function: Option<UserFunction>,
    ghost fits: { ForSome function (λ f. f.shape ≡ shape) },
    ghost leaves: { ForNone function (shape ≢ order_shape.Free) },
}

// A user's function, whose answers fit a shape.
#[derive(Drop)]
struct UserFunction {
    shape: OrderShape,
    function: OrderFunction,
    ghost callable: { (round n i : ℕ) → IsAsked round n i → OrderFunction.pre function round n i },
    ghost fits: { (round n i answer : ℕ) → IsAsked round n i → OrderFunction.post function round n i answer → IsTrue (fits_shape shape round n i answer) },
}

impl StoredOrder {
    ghost use Rattle.abt_order.specs.Stored.{answers_of};

    /// An order whose answers are a function's, which fit the shape.
    pub fn new(shape: OrderShape, function: OrderFunction) -> StoredOrder
        requires callable { (round n i : ℕ) → IsAsked round n i → OrderFunction.pre function round n i }
        requires fits { (round n i answer : ℕ) → IsAsked round n i → OrderFunction.post function round n i answer → IsTrue (fits_shape shape round n i answer) }
        ensures shape { result.shape ≡ shape }
        ensures answers { (round n i answer : ℕ) → answers_of result round n i answer → OrderFunction.post function round n i answer }
    {
        StoredOrder {
            shape,
            function: Some(UserFunction { shape, function }),
        }
    }

    /// The order of shape Rotate, whose answers are those of [`rotate`].
    pub fn rotating() -> StoredOrder
        ensures { result.shape ≡ order_shape.Rotate }
    {
        StoredOrder {
            shape: OrderShape::Rotate,
            function: None,
        }
    }

    /// The order of shape Mirror, whose answers are those of [`mirror`].
    pub fn mirroring() -> StoredOrder
        ensures { result.shape ≡ order_shape.Mirror }
    {
        StoredOrder {
            shape: OrderShape::Mirror,
            function: None,
        }
    }

    /// The shape, which says what the order's answers are.
    pub fn shape(&self) -> OrderShape
        ensures { result ≡ self.now.shape }
    {
        self.shape
    }

    /// What the order answers for a round, a number of pools and a place.
    pub(crate) fn answer(&self, round: u64, n: u32, i: u32) -> u32
        requires count { (0 < n) × (n ≤ listed_limit) }
        requires place { i < n }
        ensures fits { IsTrue (fits_shape self.now.shape round n i result) }
        ensures asked { answers_of self.now round n i result }
    {
        match &self.function {
            Some(user) => user.answer(round, n, i),
            None => shape_answer(self.shape, round, n, i),
        }
    }
}

impl UserFunction {
    fn answer(&self, round: u64, n: u32, i: u32) -> u32
        requires count { (0 < n) × (n ≤ listed_limit) }
        requires place { i < n }
        ensures fits { IsTrue (fits_shape self.now.shape round n i result) }
        ensures asked { OrderFunction.post self.now.function round n i result }
    {
        (self.function)(round, n, i)
    }
}

// The one answer that a shape leaves.
fn shape_answer(shape: OrderShape, round: u64, n: u32, i: u32) -> u32
    requires shape { shape ≢ order_shape.Free }
    requires count { (0 < n) × (n ≤ listed_limit) }
    requires place { i < n }
    ensures { IsTrue (fits_shape shape round n i result) }
{
    match shape {
        OrderShape::Rotate => rotate(round, n, i),
        OrderShape::Mirror => mirror(round, n, i),
        OrderShape::Free => unreachable!(),
    }
}
