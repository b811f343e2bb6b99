//! Theorems about evictions.

ghost use Rattle.std.specs.Prelude.{◌≡◌, ℕ, ◌<◌, List, length};
ghost use Rattle.fwd_base.specs.declared.ids.ChunkId.{ChunkId};
ghost use Rattle.fwd_base.specs.declared.ids.OutputId.{OutputId};
ghost use Rattle.fwd_table.specs.Row.{Row};
ghost use Rattle.fwd_table.specs.Rows.{ChunksRise};
ghost use Rattle.fwd_limits.specs.Evictions.{evicted_among, evicted_for, evicted_by_calls, IsShortest};

/// The evicted chunks are the lowest ones, the rest fits, and no shorter list would do.
pub fn losses_are_the_lowest()
    ensures { (room : ℕ) (rows : List Row) → IsShortest room rows (evicted_among room rows) }
{}

/// Calling `next_loss` repeatedly, with each loss applied, gives the losses of the definition.
pub fn one_after_another()
    ensures { (turns : ℕ) (output : OutputId) (limit : ℕ) (chunk : ChunkId) (rows : List Row)
        → ChunksRise rows → length rows < turns → evicted_by_calls turns output limit chunk rows ≡ evicted_for output limit chunk rows }
{}
