//! One event of the schedule, on the drive.

ghost use Rattle.std.specs.Prelude.{◌≡◌, ◌≤◌, ◌+◌, ◌++◌, ◌∷◌, [], length};
ghost use Rattle.ata_taskfile.specs.Lawful.{is_just_taken};
ghost use Rattle.plain_drive.specs.Plain.{words_of};
ghost use Rattle.plain_drive.specs.Physical.{seen};
ghost use Rattle.plain_drive.specs.Words.{words_read, after_words, after_written, bytes_of};
ghost use Rattle.schedule_text.specs.declared.TheConstants.{ANSWER_BYTES, EVENT_BYTES, EVENT_WORDS};
ghost use Rattle.schedule_text.specs.Line.{IsInRange};
ghost use Rattle.plain_run.specs.Entry.{answer_bytes, answer_items, entry_of};
ghost use Rattle.plain_run.specs.Guest.{answer_due, memory_read, memory_written};
ghost use Rattle.plain_run.specs.Run.{DriveEvent, physical_event, plan_due, step_item};
ghost use Rattle.schedule_text.specs.Taken.{just_taken, command_item};
ghost use Rattle.world.specs.Machine.{device, physical, with_device, with_memory};

use crate::machine::Machine;
use ata_taskfile::{Phase, Ports, Step, Stepped, Taken, TaskFile};
use schedule_text::{Emitted, Event, Item, WORD_BYTES};

/// Room for the bytes of as many words as a line can ask for.
const ROOM: [u8; WORD_BYTES] = [0; WORD_BYTES];

/// Lets the drive act as one event says, and tells what the report says of it.
pub(crate) fn apply(machine: &mut Machine, event: &Event, out: &mut Emitted)
    requires in_range { IsInRange event.now }
    requires items { out.old.items.items ≡ [] }
    requires bytes { out.old.bytes.items ≡ [] }
    ensures event { DriveEvent (physical machine.old)
        (entry_of event.now out.new.items.items out.new.bytes.items) (physical machine.new) }
{
    let was_taken = is_just_taken(machine.drive.file());
    act(machine, event, out);
    if !was_taken {
        note_command(machine.drive.file(), out);
    }
}

// The event's accesses, step, destage or cut, with its answer or plan item.
#[tactic(auto, using(crate::proofs::EventLaws::event_rows))]
fn act(machine: &mut Machine, event: &Event, out: &mut Emitted)
    requires in_range { IsInRange event.now }
    requires items { out.old.items.items ≡ [] }
    requires bytes { out.old.bytes.items ≡ [] }
    ensures after { physical machine.new ≡ physical_event event.now (physical machine.old) }
    ensures items { out.new.items.items
        ≡ answer_items (answer_due event.now (seen (physical machine.old)))
        ++ plan_due event.now (seen (physical machine.old)) }
    ensures bytes { out.new.bytes.items
        ≡ answer_bytes (answer_due event.now (seen (physical machine.old))) }
{
    match event {
        Event::Read8(reg) => answer(out, &[machine.read8(*reg)]),
        Event::Write8(reg, v) => machine.write8(*reg, *v),
        Event::ReadWords(n) => answer_words(machine, *n, out),
        Event::WriteWords(bytes) => machine.write_words(bytes.as_slice()),
        Event::ReadPointer => answer(out, &machine.drive.read_pointer().to_be_bytes()),
        Event::WritePointer(v) => machine.write_pointer(*v),
        Event::ReadMemory(address, n) => answer_memory(machine, *address, *n, out),
        Event::WriteMemory(address, bytes) => write_memory(machine, *address, bytes.as_slice()),
        Event::Line => answer(out, &[u8::from(machine.drive.line())]),
        Event::Drive(step) => make_step(machine, *step, out),
        Event::Destage(k) => destage(machine, *k),
        Event::Cut => cut(machine),
        // Without a monitor a turn and a tick do nothing, and the network doesn't reach the drive.
        Event::Deliver(..) | Event::Lose(..) | Event::Stray(..) => {}
        Event::Turn | Event::Tick | Event::Remark | Event::End => {}
    }
}

// The answer of a guest's read.
fn answer(out: &mut Emitted, bytes: &[u8])
    requires items { out.old.items.items ≡ [] }
    requires none { out.old.bytes.items ≡ [] }
    requires few { length bytes.now ≤ ANSWER_BYTES }
    ensures items { out.new.items.items ≡ Item.Answer ∷ [] }
    ensures bytes { out.new.bytes.items ≡ bytes.now }
{
    out.bytes.try_extend_from_slice(bytes).unwrap();
    out.items.push(Item::Answer);
}

// The answer of so many reads of Data, one after the other.
fn answer_words(machine: &mut Machine, n: u32, out: &mut Emitted)
    requires range { n ≤ EVENT_WORDS }
    requires items { out.old.items.items ≡ [] }
    requires bytes { out.old.bytes.items ≡ [] }
    ensures items { out.new.items.items ≡ Item.Answer ∷ [] }
    ensures bytes { out.new.bytes.items ≡ bytes_of (words_read n (device machine.old)) }
    ensures after { physical machine.new
        ≡ with_device (after_words n (device machine.old)) (physical machine.old) }
{
    out.items.push(Item::Answer);
    // Room for two bytes a word, which the drive fills.
    out.bytes
        .try_extend_from_slice(&ROOM[..2 * n as usize])
        .unwrap();
    machine.read_words(out.bytes.as_mut_slice());
}

/// The answer of a read of the guest's memory.
pub(crate) fn answer_memory(machine: &Machine, address: u32, n: u32, out: &mut Emitted)
    requires range { n ≤ EVENT_BYTES }
    requires items { out.old.items.items ≡ [] }
    requires bytes { out.old.bytes.items ≡ [] }
    ensures items { out.new.items.items ≡ Item.Answer ∷ [] }
    ensures bytes { out.new.bytes.items ≡ memory_read address n machine.now.memory }
{
    out.items.push(Item::Answer);
    for i in 0..n {
        out.bytes
            .push(machine.byte(u64::from(address) + u64::from(i)));
    }
}

/// Writes the guest's memory.
pub(crate) fn write_memory(machine: &mut Machine, address: u32, bytes: &[u8])
    requires few { length bytes.now ≤ ANSWER_BYTES }
    ensures after { physical machine.new
        ≡ with_memory (memory_written address bytes.now machine.old.memory) (physical machine.old) }
{
    let mut place = u64::from(address);
    let mut left = bytes;
    while let [byte, rest @ ..] = left {
        machine.set_byte(place, *byte);
        place += 1;
        left = rest;
    }
}

// A step that has an effect is told.
fn make_step(machine: &mut Machine, step: Step, out: &mut Emitted)
    requires items { out.old.items.items ≡ [] }
    ensures after { physical machine.new
        ≡ physical_event (Event.Drive step) (physical machine.old) }
    ensures items { out.new.items.items
        ≡ plan_due (Event.Drive step) (seen (physical machine.old)) }
    ensures bytes { out.new.bytes ≡ out.old.bytes }
{
    if let Stepped::Nothing = machine.step(step) {
        return;
    }
    out.items.push(step_item(step));
}

fn step_item(step: Step) -> Item
    ensures { result ≡ step_item step }
{
    match step {
        Step::Good => Item::Go(1),
        Step::Bad => Item::Bad,
    }
}

/// Entry `k` of the cache becomes durable; no guest sees it.
pub(crate) fn destage(machine: &mut Machine, k: u32)
    ensures after { physical machine.new ≡ physical_event (Event.Destage k) (physical machine.old) }
{
    // A store in memory has no fault.
    let _ = machine.drive.destage(k).unwrap();
}

// The power goes and comes back: what was durable stays, and the guest's memory is zeros.
fn cut(machine: &mut Machine)
    ensures after { physical machine.new ≡ physical_event Event.Cut (physical machine.old) }
{
    machine.drive.cut();
    machine.memory.clear();
}

// The item of a command that the drive has just taken.
fn note_command(file: &TaskFile, out: &mut Emitted)
    requires { length out.old.items.items ≤ 1 }
    ensures items { out.new.items.items
        ≡ out.old.items.items ++ just_taken file.now.command file.now.phase }
    ensures bytes { out.new.bytes ≡ out.old.bytes }
{
    if let Phase::Busy(order, 0) = file.phase {
        out.items.push(command_item(file.command, order));
    }
}

fn command_item(byte: u8, order: Taken) -> Item
    ensures { result ≡ command_item byte order }
{
    match order {
        Taken::Good(order) if order.kind.has_range() => Item::Command(
            byte,
            order.first,
            order.count,
        ),
        Taken::Good(_) | Taken::Bad(_) => Item::Command(byte, 0, 0),
    }
}

fn is_just_taken(file: &TaskFile) -> bool
    ensures { result ≡ is_just_taken file.now.phase }
{
    matches!(file.phase, Phase::Busy(_, 0))
}
