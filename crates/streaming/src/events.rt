//! Laws of one event of the network.

ghost use Rattle.std.specs.Prelude.{◌≡◌, ◌≢◌, ◌++◌, ◌∷◌, ℕ, List, [], remove, true, false, Option, Some, None};
ghost use Rattle.ata_taskfile.specs.Accesses.{Reaches};
ghost use Rattle.ata_taskfile.specs.Device.{Device};
ghost use Rattle.ata_taskfile.specs.Lawful.{is_just_taken};
ghost use Rattle.ata_taskfile.specs.declared.Step.{Step as StepOf};
ghost use Rattle.ata_taskfile.specs.declared.Stepped.{Stepped as SteppedOf};
ghost use Rattle.aoe_net.specs.declared.way.Way.{Way};
ghost use Rattle.aoe_net.specs.declared.way.Way.TheVariants.{ToClient, ToServer};
ghost use Rattle.aoe_net.specs.Wire.{Wire, going, queued, sent, without};
ghost use Rattle.image_server.specs.Serving.{IsReply};
ghost use Rattle.aoe_client.specs.Messages.{request_frame};
ghost use Rattle.plain_drive.specs.Plain.{Plain};
ghost use Rattle.plain_drive.specs.Physical.{Physical, physical_step};
ghost use Rattle.plain_drive.specs.Seen.{HasLetGo, HasStepped};
ghost use Rattle.schedule_text.specs.declared.Event.TheVariants.{Deliver, Lose, Stray};
ghost use Rattle.schedule_text.specs.declared.Item.{Item};
ghost use Rattle.schedule_text.specs.declared.Item.TheVariants.{Asked};
ghost use Rattle.schedule_text.specs.Taken.{commands_due};
ghost use Rattle.plain_run.specs.Entry.{Entry, commands_in};
ghost use Rattle.plain_run.specs.Event.{PlainEvent};
ghost use Rattle.plain_run.specs.Run.{DriveEvent};
ghost use Rattle.streaming.specs.Network.{NetworkEvent, handed_to_server, requests_in, requests_sent};
ghost use Rattle.streaming.specs.Lists.{is_of_network};
ghost use Rattle.streaming.specs.Lines.{IsTold, Line};

/// An event without a frame and without a request, a power cut among them, leaves the network as it is, and has no
/// sector go into a reply.
pub fn an_event_without_network_changes_nothing()
    ensures network { (sectors : ℕ) (told : Option (List ℕ)) (old new : Wire) (entry : Entry)
        (count : ℕ) → NetworkEvent sectors told old entry new count
        → is_of_network entry.event ≡ false → requests_in entry.items ≡ [] → new ≡ old }
    ensures count { (sectors : ℕ) (told : Option (List ℕ)) (old new : Wire) (entry : Entry)
        (count : ℕ) → NetworkEvent sectors told old entry new count
        → is_of_network entry.event ≡ false → count ≡ 0 }
{}

/// A frame that is lost leaves its list, and nothing comes of it.
pub fn a_lost_frame_reaches_no_one()
    ensures network { (sectors : ℕ) (told : Option (List ℕ)) (old new : Wire) (entry : Entry)
        (count : ℕ) → NetworkEvent sectors told old entry new count
        → (way : Way) (k : ℕ) → entry.event ≡ Lose way k → requests_in entry.items ≡ []
        → new ≡ without way k old }
    ensures count { (sectors : ℕ) (told : Option (List ℕ)) (old new : Wire) (entry : Entry)
        (count : ℕ) → NetworkEvent sectors told old entry new count
        → (way : Way) (k : ℕ) → entry.event ≡ Lose way k → count ≡ 0 }
{}

/// A frame that is delivered leaves its list, and one that is kept stays in it.
pub fn a_delivered_frame_leaves_unless_it_is_kept()
    ensures left { (sectors : ℕ) (told : Option (List ℕ)) (old new : Wire) (entry : Entry)
        (count : ℕ) → NetworkEvent sectors told old entry new count
        → (way : Way) (k : ℕ) → entry.event ≡ Deliver way k false → requests_in entry.items ≡ []
        → going way new ≡ remove (going way old) k }
    ensures kept { (sectors : ℕ) (told : Option (List ℕ)) (old new : Wire) (entry : Entry)
        (count : ℕ) → NetworkEvent sectors told old entry new count
        → (way : Way) (k : ℕ) → entry.event ≡ Deliver way k true → requests_in entry.items ≡ []
        → going way new ≡ going way old }
{}

/// A stray frame joins no list: one for the client changes nothing of the network, and one for the server no request.
pub fn a_stray_frame_joins_no_list()
    ensures client { (sectors : ℕ) (told : Option (List ℕ)) (old new : Wire) (entry : Entry)
        (count : ℕ) → NetworkEvent sectors told old entry new count
        → (frame : List ℕ) → entry.event ≡ Stray ToClient frame → requests_in entry.items ≡ []
        → new ≡ old }
    ensures unserved { (sectors : ℕ) (told : Option (List ℕ)) (old new : Wire) (entry : Entry)
        (count : ℕ) → NetworkEvent sectors told old entry new count
        → (frame : List ℕ) → entry.event ≡ Stray ToClient frame → count ≡ 0 }
    ensures server { (sectors : ℕ) (told : Option (List ℕ)) (old new : Wire) (entry : Entry)
        (count : ℕ) → NetworkEvent sectors told old entry new count
        → (way : Way) (frame : List ℕ) → entry.event ≡ Stray way frame
        → requests_in entry.items ≡ [] → new.to_server ≡ old.to_server }
{}

/// A request more among an event's items is the newest of the requests, and no other item sends a frame.
pub fn each_request_joins_the_requests()
    ensures asked { (items : List Item) (tag : ℕ) (wire : Wire)
        → requests_sent (requests_in (items ++ Asked tag ∷ [])) wire
        ≡ sent ToServer (request_frame tag) (requests_sent (requests_in items) wire) }
    ensures others { (items : List Item) (one : Item) → ((tag : ℕ) → one ≢ Asked tag)
        → requests_in (items ++ one ∷ []) ≡ requests_in items }
{}

/// The server's reply to the frame that it is handed is the newest of the replies, and where it is silent, they stay.
pub fn the_servers_reply_joins_the_replies()
    ensures replied { (sectors : ℕ) (image : List ℕ) (old new : Wire) (entry : Entry)
        (count : ℕ) → NetworkEvent sectors (Some image) old entry new count
        → (frame answer : List ℕ) → handed_to_server entry.event old ≡ Some frame
        → IsReply sectors image frame (Some answer)
        → new.to_client ≡ queued answer old.to_client }
    ensures silent { (sectors : ℕ) (image : List ℕ) (old new : Wire) (entry : Entry)
        (count : ℕ) → NetworkEvent sectors (Some image) old entry new count
        → (frame : List ℕ) → handed_to_server entry.event old ≡ Some frame
        → IsReply sectors image frame None → new.to_client ≡ old.to_client }
{}

/// An event of the network leaves the plain drive as it is, and so it does a drive without a monitor, whose report
/// says nothing of it.
pub fn a_frame_moves_no_drive()
    ensures plain { (old new : Plain) (entry : Entry) → PlainEvent old entry new
        → is_of_network entry.event ≡ true → new ≡ old }
    ensures physical { (old new : Physical) (entry : Entry) → DriveEvent old entry new
        → is_of_network entry.event ≡ true → new ≡ old }
    ensures untold { (old new : Physical) (entry : Entry) → DriveEvent old entry new
        → is_of_network entry.event ≡ true → entry.items ≡ [] }
{}

/// A drive without a monitor has no request among its items, so nothing joins the requests.
pub fn a_drive_alone_sends_no_request()
    ensures { (old new : Physical) (entry : Entry) → DriveEvent old entry new
        → requests_in entry.items ≡ [] }
{}

/// Register accesses give a drive no other command behind one of which nothing is done.
pub fn accesses_replace_no_command()
    ensures { (old new : Device) → Reaches old new → is_just_taken old.file.phase ≡ true
        → is_just_taken new.file.phase ≡ true → new.file.phase ≡ old.file.phase }
{}

/// Nor does a step: a command of which nothing is done afterwards is the one that was in hand.
pub fn steps_take_no_command()
    ensures { (step : StepOf) (p : Physical) → is_just_taken (physical_step step p).file.phase ≡ true
        → (physical_step step p).file.phase ≡ p.file.phase }
{}

/// The command that the drive has in hand stays the one that was told last: through register accesses under a call that
/// tells of the command which they gave, where they gave one, and through each step, good or failing, and each destage.
pub fn the_command_in_hand_was_told()
    ensures accesses { (old new : Device) (lines : List Line) (line : Line) → Reaches old new
        → commands_in line.items ≡ commands_due old.file new.file → IsTold old.file lines
        → IsTold new.file (line ∷ lines) }
    ensures stepped { (step : StepOf) (answer : SteppedOf) (old new : Plain) (lines : List Line) →
        HasStepped step answer old new → IsTold old.device.file lines
        → IsTold new.device.file lines }
    ensures let_go { (old new : Plain) (lines : List Line) → HasLetGo old new
        → IsTold old.device.file lines → IsTold new.device.file lines }
{}
