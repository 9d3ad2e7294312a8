// Pieces that stand one after another in some bytes, each of which tells its own size: blocks, parameters, tags, objects, records.
ghost use Rattle.std.specs.Prelude.{◌≡◌, ◌≤◌, ℕ, List, length};
ghost use Rattle.answer.specs.Pieces.{pieces, rest, whole, found};

use std::marker::PhantomData;

// One kind of piece.
pub trait Piece {
    // The size of the piece that some bytes start with, 0 where they start with none.
    ghost size: { List ℕ → ℕ };

    // The same of bytes: none where none stands there.
    fn size_in(s: &[u8]) -> Option<usize>
        ensures { result ≡ found (size s.now) };

    // A piece stands within the bytes.
    ghost within: { (xs : List ℕ) → size xs ≤ length xs };
}

// The pieces of some bytes, up to the first place where none stands.
#[derive(Drop)]
pub struct Pieces<'a, P> {
    rest: &'a [u8],
    kind: PhantomData<P>,
}

// The pieces of `s`.
pub fn pieces_of<P: Piece>(s: &[u8]) -> Pieces<'_, P>
    ensures { result.rest.now ≡ s.now }
{
    Pieces {
        rest: s,
        kind: PhantomData,
    }
}

impl<'a, P: Piece> Iterator for Pieces<'a, P> {
    ghost use Rattle.std.specs.Iterator.{item_count, YieldsFirstRef};

    type Item = &'a [u8];

    ghost next_gives = { YieldsFirstRef (λ s. pieces P.size s.rest.now) };

    ghost remaining = { item_count (λ s. pieces P.size s.rest.now) };

    fn next(&mut self) -> Option<&'a [u8]> {
        let Some(n) = P::size_in(self.rest) else {
            return None;
        };
        let (piece, others) = self.rest.split_at(n);
        self.rest = others;
        Some(piece)
    }
}

// What is left of `s` after its pieces.
pub fn rest_of<P: Piece>(s: &[u8]) -> &[u8]
    ensures { result.now ≡ rest P.size s.now }
{
    let mut left = s;
    while let Some(n) = P::size_in(left) {
        left = &left[n..];
    }
    left
}

// Whether `s` is pieces and nothing else.
pub fn is_whole<P: Piece>(s: &[u8]) -> bool
    ensures { result ≡ whole P.size s.now }
{
    rest_of::<P>(s).is_empty()
}
