//! The functions of keys.

ghost use Rattle.std.specs.Prelude.{◌≡◌, ◌<◌, ◌^◌, ℕ, true};

/// A function of a number, which is called for the value of a key.
pub trait End {
    ghost use Rattle.std.specs.Prelude.{ℕ};

    // Whether it may return this answer for a value.
    ghost may_answer: { Self → ℕ → ℕ → Type 0 };

    /// What the function returns for this value.
    fn answer(&self, value: u64) -> u64
        ensures { may_answer self.now value result };
}

/// A function of a number that is chosen at run time.
pub type EndFunction = Box<dyn Fn(u64) -> u64 + Send + Sync>;

/// The function of a key, stored beside what it answers: the number that it is called for if `same` is true, else any number.
#[derive(Drop)]
pub struct StoredEnd {
    pub same: bool,
    function: EndFunction,
    ghost callable: { (value : ℕ) → value < 2 ^ 64 → EndFunction.pre function value },
    ghost fits: { (value answer : ℕ) → value < 2 ^ 64 → EndFunction.post function value answer → same ≡ true → answer ≡ value },
}

impl StoredEnd {
    ghost use Rattle.abt_callbacks.specs.Stored.{MayAnswer};

    /// Stores a function and whether it answers the value that it is called for; the key then answers as the function does.
    pub fn new(same: bool, function: EndFunction) -> StoredEnd
        requires callable { (value : ℕ) → value < 2 ^ 64 → EndFunction.pre function value }
        requires fits { (value answer : ℕ) → value < 2 ^ 64 → EndFunction.post function value answer → same ≡ true → answer ≡ value }
        ensures same { result.same ≡ same }
        ensures answers { (value answer : ℕ) → MayAnswer result value answer → EndFunction.post function value answer }
    {
        StoredEnd { same, function }
    }
}

impl End for StoredEnd {
    ghost use Rattle.abt_callbacks.specs.Stored.{MayAnswer};

    ghost may_answer = { λ end value answer. MayAnswer end value answer };

    fn answer(&self, value: u64) -> u64 {
        (self.function)(value)
    }
}
