//! Laws that show what the definitions of `specs/Happened.antt` mean over time. Each holds of every value, and no code
//! runs.

ghost use Rattle.std.specs.Prelude.{◌≢◌, ◌≤◌, ◌∷◌, ◌++◌, ℕ, List, replicate, IsSome};
ghost use Rattle.std.specs.List.{All};
ghost use Rattle.bg_copy.specs.Moderation.{Moderation};
ghost use Rattle.bg_copy.specs.Happened.{Happened, IsAllowed, ticks_in, ticks_since};
ghost use Rattle.bg_copy.specs.Happened.Happened.{Ticked, Wrote, Ready};

/// Where copying is allowed, at least `gap` ticks passed since the ready, and since each copy write that began.
pub fn a_gap_passes_before_each_copy()
    ensures ready { (m : Moderation) (since before : List Happened) →
        IsAllowed m (since ++ Ready ∷ before) → m.gap ≤ ticks_in since }
    ensures copy { (m : Moderation) (b : ℕ) (since before : List Happened) →
        IsAllowed m (since ++ Wrote b ∷ before) → m.gap ≤ ticks_in since }
{}

/// Before the ready copying isn't allowed, however many ticks passed.
pub fn nothing_is_allowed_before_the_ready()
    ensures { (m : Moderation) (happened : List Happened) →
        All (λ one. one ≢ Ready) happened → ¬ IsAllowed m happened }
{}

/// After the ready, as many ticks as `gap` and `window` have, with nothing among them, allow it.
pub fn quiet_ticks_allow_copying()
    ensures { (m : Moderation) (ticks : ℕ) (happened : List Happened) →
        IsSome (ticks_since happened) → m.gap ≤ ticks → m.window ≤ ticks →
        IsAllowed m (replicate ticks Ticked ++ happened) }
{}
