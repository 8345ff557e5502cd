// Frames written to the front of a buffer.
ghost use Rattle.std.specs.Prelude.{◌≡◌, ℕ, List, length};
ghost use Rattle.frame.specs.Writing.{Writes};

use rule::fault::{Fault, Layer, Reason};

// What has a frame.
pub trait ToFrame {
    ghost frame: { Self → List ℕ };

    // How long the frame is.
    fn frame_length(&self) -> usize
        ensures { result ≡ length (frame self.now) };

    // Writes the frame into just as many bytes.
    fn put_frame(&self, part: &mut [u8])
        requires { length part.old ≡ length (frame self.now) }
        ensures { part.new ≡ frame self.now };
}

// Writes a frame to the front of a buffer, and answers how long it is.
pub fn write<T: ToFrame>(value: &T, buffer: &mut [u8]) -> Result<usize, Fault>
    ensures { Writes (T.frame value.now) buffer.old result buffer.new }
{
    let length = value.frame_length();
    if buffer.len() < length {
        return Err(Reason::BufferTooShort.by(Layer::Unit));
    }
    value.put_frame(&mut buffer[..length]);
    Ok(length)
}
