//! A block, in which two short texts are written at once.
ghost use Rattle.std.specs.Prelude.{◌≡◌, ◌+◌, ◌++◌, ◌≤◌, ◌↔◌, [], true, IsTrue, length};

use arrayvec::ArrayVec;

/// The most bytes of a block.
pub const BLOCK: usize = 8192;

/// Bytes that are written at once. It lies in the value itself, so that it takes no memory.
pub type Block = ArrayVec<u8, BLOCK>;

/// Puts `head` and then `body` into `block`, which is empty, and says whether they fit: both have at most 8,192 bytes
/// together. If they don't, `block` may have a front of them.
pub fn fill_message_block(block: &mut Block, head: &[u8], body: &[u8]) -> bool
    requires { block.old.items ≡ [] }
    ensures fits { IsTrue result ↔ (length head.now + length body.now ≤ BLOCK) }
    ensures filled { result ≡ true → block.new.items ≡ head.now ++ body.now }
{
    if block.try_extend_from_slice(head).is_err() {
        return false;
    }
    block.try_extend_from_slice(body).is_ok()
}
