//! Counts of all guests, by port.
ghost use Rattle.std.specs.Prelude.{◌≡◌, ◌<◌, ◌+◌, ◌^◌, length, replicate, slice_index, slice_set, IfOk};
ghost use Rattle.vmx_replay_actors.specs.Counts.{more_if};

use std::alloc::{AllocError, Global};
use vmx_io::List;

/// So many zeros.
pub(crate) fn zeros(alloc: Global, count: usize) -> Result<List<u64>, AllocError>
    ensures zeros { IfOk result (λ ns. ns ≡ replicate count 0) }
{
    let mut numbers = List::new(alloc);
    for _index in 0..count {
        numbers.push(0)?;
    }
    Ok(numbers)
}

/// Puts a number at a port.
pub(crate) fn put_number(numbers: &mut List<u64>, port: u32, number: u64)
    requires port { port < length numbers.old }
    ensures put { numbers.new ≡ slice_set numbers.old port number }
{
    *numbers.at_mut(port as usize) = number;
}

/// Counts one more at a port, where there is one.
pub(crate) fn count_if(is_there: bool, numbers: &mut List<u64>, port: u32)
    requires port { port < length numbers.old }
    requires few { slice_index numbers.old port < 2 ^ 60 }
    ensures counts { numbers.new ≡ more_if is_there port numbers.old }
{
    if is_there {
        let number = *numbers.at(port as usize) + 1;
        put_number(numbers, port, number);
    }
}
