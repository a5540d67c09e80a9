//! The first number that fails a test.
ghost use Rattle.std.specs.Prelude.{ℕ, ◌<◌, true, false, MatchResult};

use refusal::Refusal;

/// Refuses the first number below `count` that is not fine.
pub(crate) fn refuse_unfine<F: Fn(u32) -> bool, R: Fn(u32) -> Refusal>(
    count: u32,
    is_fine: F,
    refusal: R,
) -> Result<(), Refusal>
    requires fine { F.IsAlwaysCallable is_fine }
    requires refusal { R.IsAlwaysCallable refusal }
    ensures { MatchResult result
        (λ _. (k : ℕ) → k < count → F.post is_fine k true)
        (λ e. (k : ℕ) × (k < count) × F.post is_fine k false × R.post refusal k e × ((j : ℕ) → j < k → F.post is_fine j true)) }
{
    match (0..count).find(|k| !is_fine(*k)) {
        Some(k) => Err(refusal(k)),
        None => Ok(()),
    }
}
