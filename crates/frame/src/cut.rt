// Input cut into frames (docs/FRAMES.md).
ghost use Rattle.std.specs.Prelude.{◌≡◌, ◌<◌, ◌≤◌, List, map, length};
ghost use Rattle.std.specs.Iterator.{Drains, at_most};
ghost use Rattle.frame.specs.Cut.{Cuts, Gives, Pieces, piece_length};

// How long the first piece of the input is.
fn piece_length(input: &[u8]) -> usize
    ensures value { result ≡ piece_length input.now }
    ensures within { result ≤ length input.now }
    ensures some { 1 ≤ length input.now → 1 ≤ result }
{
    let [high, low, following @ ..] = input else {
        return input.len();
    };
    let said = u16::from_be_bytes([*high, *low]);
    2 + usize::from(said).min(following.len())
}

// The first piece of the input, and the rest. The clause `shorter` follows from `cut`, and is there for callers that loop.
pub fn first_frame(input: &[u8]) -> (&[u8], &[u8])
    ensures cut { Cuts input.now result.0.now result.1.now }
    ensures shorter { 1 ≤ length input.now → length result.1.now < length input.now }
{
    input.split_at(piece_length(input))
}

// The pieces of the input, one after the other.
#[derive(Drop, Debug)]
pub struct Frames<'a> {
    rest: &'a [u8],
}

impl<'a> Frames<'a> {
    pub fn of(input: &'a [u8]) -> Frames<'a>
        ensures rest { result.rest.now ≡ input.now }
        ensures pieces { (given : List _) → Drains Gives result given → Pieces input.now (map (λ piece. piece.now) given) }
    {
        Frames { rest: input }
    }
}

impl<'a> Iterator for Frames<'a> {
    type Item = &'a [u8];

    ghost next_gives = { Gives };

    ghost remaining = { λ s. at_most (length s.rest.now) };

    fn next(&mut self) -> Option<&'a [u8]> {
        if self.rest.is_empty() {
            return None;
        }
        let (frame, rest) = first_frame(self.rest);
        self.rest = rest;
        Some(frame)
    }
}
