//! A future that calls a fold when its last value is set.

ghost use Rattle.std.specs.Prelude.{◌≡◌, ◌<◌, ◌≤◌, ◌^◌, ◌==◌, is_some, length, vec_capacity};
ghost use Rattle.std.specs.List.{All};
ghost use Rattle.abt_callbacks.specs.Folding.{number_limit};

/// A future of 1 to 4,096 values, in order of set. When the last one is set it calls the fold over them, and keeps the answer.
#[derive(Drop)]
pub struct CalledFuture<F> {
    pub(crate) fold: F,
    pub(crate) values: Vec<u64>,
    pub(crate) most: u32,
    pub(crate) answer: Option<u64>,
    ghost limits: { (1 ≤ most) × (most ≤ number_limit) },
    ghost room: { (length values.items ≤ most) × (most ≤ vec_capacity values) },
    ghost small: { All (λ x. x < 2 ^ 64) values.items },
    ghost settled: { is_some answer ≡ (length values.items == most) },
}
