// Input cut into frames: none, one and several, each kind of end, and lengths that promise too much.
use frame::cut::{Frames, first_frame};

// Inputs, each with the pieces that it is cut into.
const CUTS: [(&[u8], &[&[u8]]); 10] = [
    (&[], &[]),
    (&[7], &[&[7]]),
    (&[0, 0], &[&[0, 0]]),
    (&[0, 1], &[&[0, 1]]),
    (&[1, 0, 9], &[&[1, 0, 9]]),
    (&[255, 255, 1, 2, 3], &[&[255, 255, 1, 2, 3]]),
    (&[0, 1, 7, 0], &[&[0, 1, 7], &[0]]),
    (&[0, 0, 0, 0, 0], &[&[0, 0], &[0, 0], &[0]]),
    (
        &[0, 5, 1, 0, 3, 5, 2, 0, 5, 1, 0, 3, 7, 249],
        &[&[0, 5, 1, 0, 3, 5, 2], &[0, 5, 1, 0, 3, 7, 249]],
    ),
    (
        &[0, 2, 8, 9, 0, 0, 0, 1, 6, 5],
        &[&[0, 2, 8, 9], &[0, 0], &[0, 1, 6], &[5]],
    ),
];

#[test]
fn input_is_cut_into_pieces(rt: HostRuntime) {
    for (input, pieces) in CUTS {
        assert!(rt; Frames::of(input).eq(pieces.iter().copied()));
    }
}

// The first byte of a length counts 256.
#[test]
fn a_length_of_two_bytes(rt: HostRuntime) {
    let mut input = [0u8; 300];
    input[0] = 1;
    let (frame, rest) = first_frame(&input);
    assert_eq!(rt; (frame.len(), rest.len()), (258, 42));
    input[1] = 42;
    let (frame, rest) = first_frame(&input);
    assert_eq!(rt; (frame.len(), rest.len()), (300, 0));
}
