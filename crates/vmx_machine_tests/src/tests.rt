//! A machine may go to another thread.

ghost use Rattle.std.specs.Prelude.{◌≡◌};

use vmx_commands::Machine;
use vmx_ends::Fabric;
use vmx_lists::ListFabric;

/// The permanent address of the machine under test.
const MAC: [u8; 6] = [0x00, 0x50, 0x56, 0x01, 0x02, 0x03];

fn is_send<T: Send>(value: T) -> T
    ensures same { result ≡ value }
{
    value
}

/// A machine may go to another thread, over any fabric.
fn crosses<F: Fabric>(machine: Machine<F>) -> Machine<F>
    ensures same { result ≡ machine }
{
    is_send(machine)
}

#[test]
fn a_machine_may_go_to_another_thread(rt: HostRuntime) {
    let machine = crosses(Machine::<ListFabric>::new(MAC));
    assert!(rt; machine.mac() == MAC);
}
