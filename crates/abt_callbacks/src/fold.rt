//! Folds: functions that make one number of a list of numbers.

ghost use Rattle.std.specs.Prelude.{◌≡◌, ◌<◌, ◌%◌, ◌^◌, ℕ, List, sum};
ghost use Rattle.abt_callbacks.specs.Folding.{Folds, IsFoldable};
ghost use Rattle.abt_callbacks.specs.declared.fold.FoldShape.TheVariants as shape;

/// What a fold answers of a list.
#[derive(Clone, Copy, Debug, PartialEq, Eq)]
pub enum FoldShape {
    /// The sum modulo 2^64.
    Sum,
    /// The greatest number.
    Most,
    /// The first number.
    First,
    /// The last number.
    Last,
    /// Any number.
    Free,
}

/// A function of 1 to 4,096 numbers, whose shape says what it answers.
pub trait Fold {
    ghost use Rattle.std.specs.Prelude.{ℕ, List};
    ghost use Rattle.abt_callbacks.specs.declared.fold.FoldShape.{FoldShape};

    // What it answers of a list.
    ghost shape: { Self → FoldShape };

    // Whether it may return this number for a list.
    ghost may_return: { Self → List ℕ → ℕ → Type 0 };

    /// Folds the values into one number.
    fn fold(&self, values: &[u64]) -> u64
        requires { IsFoldable values.now }
        ensures folds { Folds (shape self.now) values.now result }
        ensures returned { may_return self.now values.now result };
}

/// A function of a list of numbers.
pub type FoldFunction = Box<dyn Fn(&[u64]) -> u64 + Send + Sync>;

/// A function that is chosen at run time, stored beside its shape.
#[derive(Drop)]
pub struct StoredFold {
    pub shape: FoldShape,
    function: FoldFunction,
    ghost callable: { (list : _) → IsFoldable list.now → FoldFunction.pre function list },
    ghost fits: { (list answer : _) → IsFoldable list.now → FoldFunction.post function list answer → Folds shape list.now answer },
}

impl StoredFold {
    ghost use Rattle.abt_callbacks.specs.Stored.{MayReturn};

    /// Stores a function and its shape; the fold then answers as the function does.
    pub fn new(shape: FoldShape, function: FoldFunction) -> StoredFold
        requires callable { (list : _) → IsFoldable list.now → FoldFunction.pre function list }
        requires fits { (list answer : _) → IsFoldable list.now → FoldFunction.post function list answer → Folds shape list.now answer }
        ensures shape { result.shape ≡ shape }
        ensures answers { (list : List ℕ) (answer : ℕ) → MayReturn result list answer → (values : _) × (values.now ≡ list) × FoldFunction.post function values answer }
    {
        StoredFold { shape, function }
    }
}

impl Fold for StoredFold {
    ghost use Rattle.abt_callbacks.specs.Stored.{MayReturn};

    ghost shape = { λ fold. fold.shape };

    ghost may_return = { λ fold list answer. MayReturn fold list answer };

    fn fold(&self, values: &[u64]) -> u64 {
        (self.function)(values)
    }
}

/// The sum modulo 2^64.
#[derive(Clone, Copy, Debug, PartialEq, Eq)]
pub struct PlainSum;

impl Fold for PlainSum {
    ghost shape = { λ _. shape.Sum };

    ghost may_return = { λ _ list answer. answer ≡ sum list % 2 ^ 64 };

    fn fold(&self, values: &[u64]) -> u64 {
        let mut sum = 0u64;
        for value in values {
            sum = sum.wrapping_add(*value);
        }
        sum
    }
}
