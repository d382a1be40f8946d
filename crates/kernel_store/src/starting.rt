//! Which processes start a spare after an act, of numbers alone.
ghost use Rattle.std.specs.Prelude.{◌≡◌, ℕ, ◌&&◌, ◌||◌, false, not, true};
ghost use Rattle.std.specs.Option.{option_map};
ghost use Rattle.spec_records.specs.declared.pool.Pool.TheVariants.{Common};
ghost use Rattle.spec_records.specs.Words.{is_pool, pid};
ghost use Rattle.law_pools.specs.Words.{is_this};

use dk_base::number::Pid;
use spec_records::pool::Pool;

/// Whether a process is this one.
fn is_this(process: Option<Pid>, p: u32) -> bool
    ensures { result ≡ is_this p (option_map (λ p. p.0) process) }
{
    match process {
        Some(process) => process.0 == p,
        None => false,
    }
}

/// A process, if it is not this one.
pub fn other_than(process: Option<Pid>, other: Option<Pid>) -> Option<Pid>
    ensures either { (p : ℕ) → (is_this p (option_map (λ p. p.0) other) || is_this p (option_map (λ p. p.0) process)) ≡ (is_this p (option_map (λ p. p.0) result) || is_this p (option_map (λ p. p.0) other)) }
    ensures apart { (p : ℕ) → is_this p (option_map (λ p. p.0) result) ≡ true → is_this p (option_map (λ p. p.0) other) ≡ false }
{
    match process {
        Some(p) if !is_this(other, p.0) => Some(p),
        _ => None,
    }
}

/// The process whose common pool had an idle thread and has none.
pub fn last_given(pool: Pool, had: bool, has: bool) -> Option<Pid>
    ensures { (p : ℕ) → is_this p (option_map (λ p. p.0) result) ≡ (is_pool pool (Common (pid p)) && (had && not has)) }
{
    match pool {
        Pool::Common(p) if had && !has => Some(p),
        _ => None,
    }
}
