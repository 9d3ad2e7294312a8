// Tags: what stands at the start of some bytes (scope paper, section Data objects).
ghost use Rattle.std.specs.Prelude.{◌≡◌};
ghost use Rattle.answer.specs.Pieces.{found};
ghost use Rattle.objects.specs.Tag.{tag_size, is_tag};
ghost use Rattle.objects.specs.Within.{tag_within};

use answer::walk::Piece;

// Tags as pieces of a tag list.
pub struct Tag;

impl Piece for Tag {
    ghost size = { tag_size };

    fn size_in(s: &[u8]) -> Option<usize> {
        tag_size(s)
    }

    ghost within = { tag_within };
}

// The size of the tag that `p` starts with. A first byte whose low five bits are set calls for a second.
#[tactic(auto, unfolding(crate::specs::Tag::tag_size, crate::specs::Tag::size_of_two))]
pub fn tag_size(p: &[u8]) -> Option<usize>
    ensures { result ≡ found (tag_size p.now) }
{
    match p {
        [0x00 | 0xff, ..] => None,
        [first, ..] if *first & 0x1f != 0x1f => Some(1),
        [_, second, ..] if *second < 0x80 => Some(2),
        _ => None,
    }
}

// The bytes are exactly one tag.
pub(crate) fn is_tag(tag: &[u8]) -> bool
    ensures { result ≡ is_tag tag.now }
{
    tag_size(tag) == Some(tag.len())
}
