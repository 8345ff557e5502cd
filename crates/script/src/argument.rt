// What stands behind the word of a call: a number, a frame in hexadecimal digits, or the length of a buffer.
ghost use Rattle.std.specs.Prelude.{◌≡◌, replicate, IfOk};
ghost use Rattle.script.specs.Numbers.{NumberOf};

use std::alloc::{AllocError, Global};

// The most bytes of the buffer of a collect.
pub const LARGEST_BUFFER: u64 = 65536;

// The number that a word of decimal digits spells, if it has at most 64 bits; a sign is no digit.
pub fn number(word: &str) -> Option<u64>
    ensures { NumberOf word.now result }
{
    if word.starts_with('+') {
        return None;
    }
    word.parse::<u64>().ok()
}

// A buffer of so many bytes, all 0.
pub fn buffer(heap: Global, length: usize) -> Result<Vec<u8>, AllocError>
    ensures { IfOk result (λ v. v.items ≡ replicate length 0) }
{
    vec![in heap; 0; length]
}
