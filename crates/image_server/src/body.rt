//! The body of a reply, and a text that is put into it.

ghost use Rattle.std.specs.Prelude.{◌≡◌, ◌≤◌, ◌+◌, ◌++◌, length};
ghost use Rattle.image_server.specs.Identity.{in_words};

use aoe_frame::{Bytes, MOST_BODY};

pub(crate) type Body = Bytes<MOST_BODY>;

// A text in words: the first character of each pair is the high byte.
pub(crate) fn put_text(text: &[u8], body: &mut Body)
    requires room { length body.old + length text.now ≤ MOST_BODY }
    ensures bytes { body.new ≡ body.old ++ in_words text.now }
    ensures count { length body.new ≡ length body.old + length text.now }
{
    match text {
        [first, second, rest @ ..] => {
            body.append(&[*second, *first]);
            put_text(rest, body);
        }
        _ => body.append(text),
    }
}
