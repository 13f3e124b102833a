//! That memory can be had, and that the queues carry the frames of the list.
use crate::put_rings;
use std::test::Fail;

#[test]
fn each_call_of_the_list_finds_what_it_looks_for(rt: HostRuntime) -> Result<(), Fail> {
    let alloc = rt.alloc();
    let mut into = Vec::new(alloc);
    let done = put_rings(alloc, &mut into)?;
    assert!(rt; done && into.len() == 751_808);
    Ok(())
}
