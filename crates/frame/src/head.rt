// The first five bytes of every frame.
ghost use Rattle.std.specs.Prelude.{◌≡◌, length};
ghost use Rattle.frame.specs.Frames.{head};

use rule::order::Order;

// The only version of frames that there is.
pub const VERSION: u8 = 1;

// Writes the length of what follows it, the version and the order.
pub fn put_head(part: &mut [u8], following: u16, order: Order)
    requires { length part.old ≡ 5 }
    ensures { part.new ≡ head following order.value }
{
    let [l0, l1] = following.to_be_bytes();
    let [o0, o1] = order.value().to_be_bytes();
    part.copy_from_slice(&[l0, l1, VERSION, o0, o1]);
}
