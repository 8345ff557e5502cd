// Refusals held to tables, which write a reason as its number: the numbers are promised outside this code (docs/REFUSALS.md).
use rule::fault::{Fault, Layer};
use std::fmt::Debug;
use std::process::Abort;

// The answer is the refusal with this number, by this layer and at this place.
pub fn check_refused<T: PartialEq + Debug + Drop>(
    rt: &impl Abort,
    answer: Result<T, Fault>,
    number: u8,
    layer: Layer,
    place: usize,
) {
    let told = answer.map_err(|fault| (fault.reason.number(), fault.layer, fault.place));
    assert_eq!(rt; told, Err((number, layer, place)));
}
