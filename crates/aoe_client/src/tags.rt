//! The tags of a block, and where each of them stands.

ghost use Rattle.std.specs.Prelude.{◌≡◌, ◌+◌, ◌<◌, ◌≤◌, ◌^◌, IfSome, count_by, length, map, slice_get};
ghost use Rattle.std.specs.List.{list_all};
ghost use Rattle.aoe_client.specs.Fetching.{due_again, due_from, is_answered, is_due};

use ata_taskfile::registers::SECTOR_BYTES;

/// The sectors of a tag (own).
pub const PART_SECTORS: u8 = 2;

/// The bytes of a tag's sectors (own).
pub const PART_BYTES: usize = PART_SECTORS as usize * SECTOR_BYTES;

/// How many ticks after its asking a slot's unanswered tags are due again (own).
pub const RESEND_AGE: u8 = 4;

/// Where a tag stands.
#[derive(Clone, Copy, Debug, Default, PartialEq, Eq)]
pub enum TagState {
    /// Its request is to be sent.
    #[default]
    Due,
    /// Its request was sent, and no reply was taken since.
    Unanswered,
    /// A reply was taken.
    Answered,
}

// The k-th due tag, from 0; `first` is the tag of the first.
pub(crate) fn nth_due(first: u32, tags: &[TagState], k: usize) -> Option<u32>
    requires { first + length tags.now < 2 ^ 32 }
    ensures tag { result ≡ slice_get (due_from first tags.now) k }
    ensures within { IfSome result (λ tag. (first ≤ tag) × (tag < first + length tags.now)) }
{
    let mut left = k;
    let mut tag = first;
    for state in tags {
        match state {
            TagState::Due if left == 0 => return Some(tag),
            TagState::Due => left -= 1,
            TagState::Unanswered | TagState::Answered => {}
        }
        tag += 1;
    }
    None
}

pub(crate) fn count_due(tags: &[TagState]) -> usize
    ensures { result ≡ count_by is_due tags.now }
{
    tags.iter()
        .filter(|state| matches!(state, TagState::Due))
        .count()
}

// All tags that are unanswered are due again.
pub(crate) fn make_due(tags: &mut [TagState])
    ensures { tags.new ≡ map due_again tags.old }
{
    for state in tags {
        *state = state.due_again();
    }
}

impl TagState {
    fn due_again(self) -> TagState
        ensures { result ≡ due_again self }
    {
        match self {
            TagState::Due | TagState::Unanswered => TagState::Due,
            TagState::Answered => TagState::Answered,
        }
    }
}

pub(crate) fn all_answered(tags: &[TagState]) -> bool
    ensures { result ≡ list_all is_answered tags.now }
{
    tags.iter().all(|state| matches!(state, TagState::Answered))
}
