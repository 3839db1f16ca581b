//! The guest's accesses on a drive with a monitor, and their answers.

ghost use Rattle.std.specs.Prelude.{◌≡◌, ◌≤◌, ◌<◌, ◌+◌, ◌++◌, ◌∷◌, [], length, map, replicate, false};
ghost use Rattle.schedule_text.specs.declared.TheConstants.{ANSWER_BYTES, EVENT_WORDS};
ghost use Rattle.plain_drive.specs.Plain.{words_of};
ghost use Rattle.plain_run.specs.Guest.{bytes_answered};
ghost use Rattle.port_lease.specs.View.{is_command};
ghost use Rattle.guest_view.specs.View.{is_reset};
ghost use Rattle.monitor_access.specs.Marks.{mark_due};
ghost use Rattle.mediator.specs.Mediator.{parts_of, state_of};
ghost use Rattle.streaming.specs.Monitor.{item_of};
ghost use Rattle.world.specs.Acting.{HasAccessed};
ghost use Rattle.world.specs.Coupled.{closes};
ghost use Rattle.world.specs.Deployed.{IsReady, watched_of};
ghost use Rattle.world.specs.Keeping.{AnswersAccess, AnswersAccesses, KeepsAccess, KeepsAccesses};
ghost use Rattle.world.specs.Machine.{device, physical};

use crate::machine::Machine;
use ata_taskfile::{Access, Answer};
use mediator::Mediator;
use schedule_text::{Emitted, Item};

/// The guest's access that reads, and its answer.
pub(crate) fn read(
    mediator: &mut Mediator,
    machine: &mut Machine,
    access: &Access,
    out: &mut Emitted,
)
    requires ready { IsReady mediator.old (device machine.old) }
    requires no_command { is_command access.now ≡ false }
    requires no_reset { is_reset access.now ≡ false }
    requires items { out.old.items.items ≡ [] }
    requires bytes { out.old.bytes.items ≡ [] }
    ensures accessed { HasAccessed (physical machine.old) (physical machine.new)
        (watched_of mediator.old) (watched_of mediator.new) }
    ensures items { out.new.items.items ≡ Item.Answer ∷ [] }
    ensures answered { AnswersAccesses (access.now ∷ []) mediator.old (physical machine.old)
        out.new.bytes.items }
    ensures kept { KeepsAccesses (access.now ∷ []) mediator.old (physical machine.old)
        mediator.new (physical machine.new) }
    ensures area { (parts_of mediator.new).area ≡ (parts_of mediator.old).area }
    ensures id { (parts_of mediator.new).id ≡ (parts_of mediator.old).id }
    ensures ready { IsReady mediator.new (device machine.new) }
{
    let answer = make(mediator, machine, access, out);
    push_answer(answer, out);
    out.items.push(Item::Answer);
}

/// The guest's access that writes, and its mark.
pub(crate) fn write(
    mediator: &mut Mediator,
    machine: &mut Machine,
    access: &Access,
    out: &mut Emitted,
)
    requires ready { IsReady mediator.old (device machine.old) }
    requires no_reset { is_reset access.now ≡ false }
    requires items { out.old.items.items ≡ [] }
    ensures accessed { HasAccessed (physical machine.old) (physical machine.new)
        (watched_of mediator.old) (watched_of mediator.new) }
    ensures items { out.new.items.items ≡ item_of (mark_due (state_of mediator.old)
        (parts_of mediator.old) (device machine.old) access.now) }
    ensures bytes { out.new.bytes ≡ out.old.bytes }
    ensures kept { closes out.new.items.items ≡ false → KeepsAccesses (access.now ∷ [])
        mediator.old (physical machine.old) mediator.new (physical machine.new) }
    ensures area { (parts_of mediator.new).area ≡ (parts_of mediator.old).area }
    ensures id { (parts_of mediator.new).id ≡ (parts_of mediator.old).id }
    ensures ready { IsReady mediator.new (device machine.new) }
{
    make(mediator, machine, access, out);
}

/// So many reads of Data, one after the other, and their answer.
#[tactic(auto, using(crate::proofs::Acting::none_accessed, crate::proofs::Acting::more_accessed))]
pub(crate) fn read_words(mediator: &mut Mediator, machine: &mut Machine, n: u32, out: &mut Emitted)
    requires ready { IsReady mediator.old (device machine.old) }
    requires range { n ≤ EVENT_WORDS }
    requires items { out.old.items.items ≡ [] }
    requires bytes { out.old.bytes.items ≡ [] }
    ensures accessed { HasAccessed (physical machine.old) (physical machine.new)
        (watched_of mediator.old) (watched_of mediator.new) }
    ensures items { out.new.items.items ≡ Item.Answer ∷ [] }
    ensures answered { AnswersAccesses (replicate n Access.ReadWord) mediator.old
        (physical machine.old) out.new.bytes.items }
    ensures kept { KeepsAccesses (replicate n Access.ReadWord) mediator.old
        (physical machine.old) mediator.new (physical machine.new) }
    ensures area { (parts_of mediator.new).area ≡ (parts_of mediator.old).area }
    ensures id { (parts_of mediator.new).id ≡ (parts_of mediator.old).id }
    ensures ready { IsReady mediator.new (device machine.new) }
{
    for _i in 0..n {
        let answer = make(mediator, machine, &Access::ReadWord, out);
        push_answer(answer, out);
    }
    out.items.push(Item::Answer);
}

/// A write of Data for each two bytes, one after the other, the low byte of each first.
#[tactic(auto, using(crate::proofs::Acting::none_accessed, crate::proofs::Acting::more_accessed))]
pub(crate) fn write_words(
    mediator: &mut Mediator,
    machine: &mut Machine,
    bytes: &[u8],
    out: &mut Emitted,
)
    requires ready { IsReady mediator.old (device machine.old) }
    requires items { out.old.items.items ≡ [] }
    ensures accessed { HasAccessed (physical machine.old) (physical machine.new)
        (watched_of mediator.old) (watched_of mediator.new) }
    ensures items { out.new.items.items ≡ [] }
    ensures bytes { out.new.bytes ≡ out.old.bytes }
    ensures kept { KeepsAccesses (map (λ w. Access.WriteWord w) (words_of bytes.now))
        mediator.old (physical machine.old) mediator.new (physical machine.new) }
    ensures area { (parts_of mediator.new).area ≡ (parts_of mediator.old).area }
    ensures id { (parts_of mediator.new).id ≡ (parts_of mediator.old).id }
    ensures ready { IsReady mediator.new (device machine.new) }
{
    let mut left = bytes;
    while let [low, high, rest @ ..] = left {
        let word = u16::from_le_bytes([*low, *high]);
        make(mediator, machine, &Access::WriteWord(word), out);
        left = rest;
    }
}

// One access of the guest's, and the mark of it.
fn make(
    mediator: &mut Mediator,
    machine: &mut Machine,
    access: &Access,
    out: &mut Emitted,
) -> Answer
    requires ready { IsReady mediator.old (device machine.old) }
    requires no_reset { is_reset access.now ≡ false }
    requires room { length out.old.items.items < 80 }
    ensures accessed { HasAccessed (physical machine.old) (physical machine.new)
        (watched_of mediator.old) (watched_of mediator.new) }
    ensures items { out.new.items.items ≡ out.old.items.items ++ item_of (mark_due
        (state_of mediator.old) (parts_of mediator.old) (device machine.old) access.now) }
    ensures bytes { out.new.bytes ≡ out.old.bytes }
    ensures answered { AnswersAccess access.now mediator.old (physical machine.old) result }
    ensures kept { KeepsAccess access.now mediator.old (physical machine.old)
        mediator.new (physical machine.new) }
    ensures area { (parts_of mediator.new).area ≡ (parts_of mediator.old).area }
    ensures id { (parts_of mediator.new).id ≡ (parts_of mediator.old).id }
    ensures ready { IsReady mediator.new (device machine.new) }
{
    mediator.access(&mut machine.drive, &mut machine.memory, access, out)
}

// The bytes of an answer, in the order in which a report has them.
fn push_answer(answer: Answer, out: &mut Emitted)
    requires room { length out.old.bytes.items + 4 ≤ ANSWER_BYTES }
    ensures few { length out.new.bytes.items ≤ length out.old.bytes.items + 4 }
    ensures bytes { out.new.bytes.items ≡ out.old.bytes.items ++ bytes_answered answer }
    ensures items { out.new.items ≡ out.old.items }
{
    match answer {
        Answer::Nothing => {}
        Answer::Byte(v) => out.bytes.push(v),
        Answer::Word(w) => out.bytes.try_extend_from_slice(&w.to_le_bytes()).unwrap(),
        Answer::Long(v) => out.bytes.try_extend_from_slice(&v.to_be_bytes()).unwrap(),
    }
}
