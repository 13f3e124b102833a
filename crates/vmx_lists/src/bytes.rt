//! A frame's bytes into a buffer of fixed size, and out of one. Neither takes memory.
ghost use Rattle.std.specs.Prelude.{◌≡◌, ◌≤◌, ◌++◌, length, take, drop, vec_len, vec_capacity};
ghost use Rattle.vmx_io.specs.declared.buffer.TheConstants.{MAX_FRAME};

/// Fills the front of a buffer.
pub(crate) fn fill(buffer: &mut Vec<u8>, frame: &[u8])
    requires short { length frame.now ≤ length buffer.old.items }
    ensures items { buffer.new.items ≡ frame.now ++ drop (length frame.now) buffer.old.items }
    ensures len { vec_len buffer.new ≡ vec_len buffer.old }
{
    let (front, _back) = buffer.as_mut_slice().split_at_mut(frame.len());
    front.copy_from_slice(frame);
}

/// Puts a frame into an empty buffer with room for it.
pub(crate) fn put(frame: &[u8], into: &mut Vec<u8>)
    requires empty { vec_len into.old ≡ 0 }
    requires room { MAX_FRAME ≤ vec_capacity into.old }
    requires short { length frame.now ≤ MAX_FRAME }
    ensures frame { into.new.items ≡ frame.now }
    ensures room { vec_capacity into.old ≤ vec_capacity into.new }
{
    match into.extend_from_slice(frame) {
        Ok(()) => {}
        Err(_) => unreachable!(),
    }
}
