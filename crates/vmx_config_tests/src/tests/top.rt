//! The top table.

use super::*;
use std::test::Fail;
use vmx_config::read;
use vmx_config_rows::ConfigFault;

const TEXTS: [(&str, &str); 36] = [
    ("x =\n", "text"),
    ("a = 1\na = 2\n", "text"),
    ("poll_every = 01\n", "text"),
    ("", "top guest: missing"),
    ("x = 1\n", "top x: unknown"),
    ("zz = 1\nab = 2\noutput = 3\n", "top ab: unknown"),
    ("output = 1\n", "top output: kind"),
    ("output = \"\"\n", "top output: form"),
    ("output = \"a\"\n", "top guest: missing"),
    ("output = \"Az_09./x\"\n", "top guest: missing"),
    ("output = \".a\"\n", "top output: form"),
    ("output = \"/a\"\n", "top output: form"),
    ("output = \"a-b\"\n", "top output: form"),
    ("output = \"a:\"\n", "top output: form"),
    ("output = \"a@\"\n", "top output: form"),
    ("output = \"a[\"\n", "top output: form"),
    ("output = \"a`\"\n", "top output: form"),
    ("output = \"a{\"\n", "top output: form"),
    ("poll_every = -1\n", "top poll_every: -1 out of range"),
    ("poll_every = 0\n", "top poll_every: 0 out of range"),
    ("poll_every = 1\n", "top guest: missing"),
    ("poll_every = 4096\n", "top guest: missing"),
    ("poll_every = 4097\n", "top poll_every: 4097 out of range"),
    ("poll_every = \"1\"\n", "top poll_every: kind"),
    ("poll_every = 1.0\n", "top poll_every: kind"),
    ("guest = 1\n", "top guest: kind"),
    ("guest = []\n", "top guest: 0 out of range"),
    ("guest = [1]\n", "top guest: kind"),
    ("guest = [{}, 1]\n", "top guest: kind"),
    ("poll_every = 0\noutput = 1\n", "top output: kind"),
    (
        "guest = []\npoll_every = 0\n",
        "top poll_every: 0 out of range",
    ),
    ("[[guest]]\n", "guest 0 name: missing"),
    ("[[guest]]\nname = \"a\"\n", "guest 0 mac: missing"),
    ("[[guest]]\nx = 1\n", "guest 0 x: unknown"),
    ("[[guest]]\nname = 1\nmac = 1\n", "guest 0 name: kind"),
    ("guest = [{ name = 1 }, { x = 1 }]\n", "guest 0 name: kind"),
];

#[test]
fn the_top_table_comes_first(rt: HostRuntime) -> Result<(), Fail> {
    check(&rt, rt.alloc(), Row::Whole, &TEXTS)?;
    Ok(())
}

const COUNTS: [Repeated; 5] = [
    ("output = \"", "a", 64, "\"\n", "top guest: missing"),
    ("output = \"", "a", 65, "\"\n", "top output: form"),
    ("guest = [", "{},", 16, "]\n", "guest 0 name: missing"),
    ("guest = [", "{},", 17, "]\n", "top guest: 17 out of range"),
    ("guest = [", "1,", 17, "]\n", "top guest: 17 out of range"),
];

#[test]
fn there_are_at_most_sixteen_guests(rt: HostRuntime) -> Result<(), Fail> {
    check_repeated(&rt, rt.alloc(), &COUNTS)?;
    Ok(())
}

#[test]
fn bytes_that_are_no_text_are_no_configuration(rt: HostRuntime) -> Result<(), Fail> {
    let bytes = [b'#', 0xff];
    assert!(&rt; matches!(read(rt.alloc(), &bytes), Err(ConfigFault::Text)));
    Ok(())
}

const TOGETHER: [(&str, &str); 8] = [
    (
        "[[guest]]\nname = \"a\"\nmac = \"00:00:00:00:00:00\"\n[[guest]]\nname = \"a\"\nmac = \"00:00:00:00:00:02\"\n",
        "guest 1 name: twice",
    ),
    (
        "[[guest]]\nname = \"a\"\nmac = \"00:00:00:00:00:0a\"\n[[guest]]\nname = \"b\"\nmac = \"00:00:00:00:00:0A\"\n",
        "guest 1 mac: twice",
    ),
    (
        "[[guest]]\nname = \"a\"\nmac = \"00:00:00:00:00:00\"\n[[guest]]\nname = \"a\"\nmac = \"00:00:00:00:00:00\"\n",
        "guest 1 name: twice",
    ),
    (
        "[[guest]]\nname = \"a\"\nmac = \"00:00:00:00:00:00\"\n[[guest]]\nname = \"b\"\nmac = \"00:00:00:00:00:00\"\n[[guest]]\nname = \"a\"\nmac = \"00:00:00:00:00:02\"\n",
        "guest 1 mac: twice",
    ),
    (
        "[[guest]]\nname = \"a\"\nmac = \"00:00:00:00:00:00\"\n[[guest]]\nname = \"a\"\nmac = \"00:00:00:00:00:02\"\nrx_ring1 = 33\n",
        "guest 1 rx_ring1: 33 out of range",
    ),
    (
        "[[guest]]\nname = \"a\"\nmac = \"00:00:00:00:00:00\"\ntx_queues = 8\ntx_ring = 4096\nrx_queues = 8\nrx_ring1 = 4064\nrx_ring2 = 32\n",
        "ok",
    ),
    (
        "[[guest]]\nname = \"a\"\nmac = \"00:00:00:00:00:00\"\ntx_queues = 8\ntx_ring = 4096\nrx_queues = 8\nrx_ring1 = 4064\nrx_ring2 = 64\n",
        "65792 descriptors",
    ),
    (
        "[[guest]]\nname = \"a\"\nmac = \"00:00:00:00:00:00\"\ntx_queues = 8\ntx_ring = 4096\nrx_queues = 8\nrx_ring1 = 4096\n[[guest]]\nname = \"a\"\nmac = \"00:00:00:00:00:02\"\n",
        "guest 1 name: twice",
    ),
];

#[test]
fn guests_are_compared_last(rt: HostRuntime) -> Result<(), Fail> {
    check(&rt, rt.alloc(), Row::Whole, &TOGETHER)?;
    Ok(())
}
