//! A law of the plain drives for which a world stands.

ghost use Rattle.std.specs.Prelude.{List};
ghost use Rattle.fill_bitmap.specs.Disk.{guest_view};
ghost use Rattle.plain_drive.specs.Cut.{IsOutcome};
ghost use Rattle.plain_drive.specs.Plain.{Plain, sectors_in};
ghost use Rattle.streaming.specs.Lines.{Line};
ghost use Rattle.monitor_state.specs.Overlaid.{Known};
ghost use Rattle.world.specs.Coupled.{Deployment, Stands};
ghost use Rattle.world.specs.WorldState.{WorldState};

/// What a guest finds on the durable sectors of a world's drive is what a power cut may leave of the plain drive.
pub fn durable_sectors_are_the_plain_drives()
    ensures { (deployed : Deployment) (k : Known) (w : WorldState) (q : Plain)
        (lines : List Line) → Stands deployed k w q lines
        → IsOutcome q.device.cells (guest_view deployed.area deployed.id
        (sectors_in deployed.area.image deployed.image) w.scene.drive.kept.durable) }
{}
