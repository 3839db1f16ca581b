//! Laws of where the sectors came from that the monitor, or the drive, has for the guest.

ghost use Rattle.std.specs.Prelude.{◌≡◌, ℕ, List, true, false};
ghost use Rattle.ata_taskfile.specs.Device.{Device};
ghost use Rattle.aoe_client.specs.Asking.{Asking};
ghost use Rattle.aoe_client.specs.Buffers.{BothAskOn};
ghost use Rattle.plain_drive.specs.Plain.{Plain};
ghost use Rattle.plain_drive.specs.Seen.{HasLetGo};
ghost use Rattle.streaming.specs.Lines.{Line};
ghost use Rattle.streaming.specs.Sources.{was_asked_for};
ghost use Rattle.monitor_state.specs.declared.state.State.{State as StateOf};
ghost use Rattle.monitor_state.specs.declared.parts.Parts.{Parts as PartsOf};
ghost use Rattle.monitor_state.specs.SameAsks.{BothAskTheSame};
ghost use Rattle.monitor_state.specs.Sourced.{GoesOnTo, HasSources, WereAsked};

/// Sources stay while the lines go on and no command of the guest's is taken, while the client asks for the same and no
/// tag is answered, and where older values of sectors are let go.
pub fn sources_stay()
    ensures lines { (s : StateOf) (p : PartsOf) (d : Device) (lines later : List Line) →
        GoesOnTo false lines later → HasSources s p d lines → HasSources s p d later }
    ensures asking { (s : StateOf) (p : PartsOf) (c : Asking) (d : Device) (lines : List Line) →
        BothAskOn p.client c → HasSources s p d lines
        → HasSources s (record p { client = c }) d lines }
    ensures let_go { (s : StateOf) (p : PartsOf) (old new : Plain) (lines : List Line) →
        HasLetGo old new → HasSources s p old.device lines → HasSources s p new.device lines }
{}

/// What is asked for was asked for while the lines go on, and while the client asks for the same.
pub fn what_is_asked_was_asked_for()
    ensures lines { (c : Asking) (lines later : List Line) →
        ((tag : ℕ) → was_asked_for tag lines ≡ true → was_asked_for tag later ≡ true)
        → WereAsked c lines → WereAsked c later }
    ensures asking { (old new : Asking) (lines : List Line) → BothAskTheSame old new
        → WereAsked old lines → WereAsked new lines }
{}
