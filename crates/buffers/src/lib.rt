//! What calls do with a lent buffer, whatever it is for: they clear its front. The laws of buffers and of parts of a
//! list that every call cites are in proofs/.
#![tactic(auto)]

ghost use Rattle.std.specs.Prelude.{◌≡◌, ◌≤◌, length};
ghost use Rattle.buffers.specs.Buffers.{cleared};

/// Sets the first `n` entries to zero.
pub fn clear(buffer: &mut [u16], n: usize)
    requires { n ≤ length buffer.old }
    ensures { buffer.new ≡ cleared n buffer.old }
{
    buffer[..n].fill(0);
}
