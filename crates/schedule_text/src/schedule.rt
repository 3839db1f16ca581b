//! The laws of a whole schedule: its text has one reading.

ghost use Rattle.std.specs.Prelude.{◌≡◌, ℕ, List};
ghost use Rattle.schedule_text.specs.declared.Event.{Event as EventOf};
ghost use Rattle.schedule_text.specs.declared.LineFault.{LineFault as FaultOf};
ghost use Rattle.schedule_text.specs.Schedule.{IsSchedule};
ghost use Rattle.schedule_text.specs.BadLine.{FailsAt};

/// A text is one schedule at most.
pub fn one_schedule()
    ensures once { (text : List ℕ) (a b : List EventOf)
        → IsSchedule text a → IsSchedule text b → a ≡ b }
{}

/// A text has one first bad line at most: one number, one fault, and the same events before it.
pub fn one_first_bad_line()
    ensures once { (text : List ℕ) (a b : List EventOf) (m n : ℕ) (k l : FaultOf)
        → FailsAt text a m k → FailsAt text b n l → (m ≡ n) × (k ≡ l) × (a ≡ b) }
{}

/// A whole schedule has no bad line.
pub fn a_schedule_has_no_bad_line()
    ensures none { (text : List ℕ) (events earlier : List EventOf) (number : ℕ) (kind : FaultOf)
        → IsSchedule text events → FailsAt text earlier number kind → ⊥ }
{}
