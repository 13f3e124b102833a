//! A guest's script.

use super::*;
use std::test::Fail;

const ACTIONS: [(&str, &str); 31] = [
    ("at = 0", "guest 0 script 0 do: missing"),
    ("x = 1", "guest 0 script 0 do: missing"),
    ("do = 1\nx = 1", "guest 0 script 0 do: kind"),
    ("do = \"stop\"\nx = 1", "guest 0 script 0 do: form"),
    ("do = \"reset\"\nx = 1", "guest 0 script 0 x: unknown"),
    (
        "do = \"reset\"\nat = 0\nmode = []",
        "guest 0 script 0 mode: unknown",
    ),
    (
        "do = \"quiesce\"\nat = 0\ntable = [0]",
        "guest 0 script 0 table: unknown",
    ),
    (
        "do = \"mode\"\nat = 0\nmode = []\nvlans = []",
        "guest 0 script 0 vlans: unknown",
    ),
    ("do = \"reset\"", "guest 0 script 0 at: missing"),
    ("do = \"reset\"\nat = \"0\"", "guest 0 script 0 at: kind"),
    (
        "do = \"reset\"\nat = -1",
        "guest 0 script 0 at: -1 out of range",
    ),
    ("do = \"reset\"\nat = 0", "ok"),
    ("do = \"reset\"\nat = 262144", "ok"),
    (
        "do = \"reset\"\nat = 262145",
        "guest 0 script 0 at: 262145 out of range",
    ),
    ("do = \"quiesce\"\nat = 0", "ok"),
    ("do = \"activate\"\nat = 0", "guest 0 script 0: out of turn"),
    (
        "do = \"activate\"\nat = -1",
        "guest 0 script 0 at: -1 out of range",
    ),
    ("do = \"mode\"\nat = 0", "guest 0 script 0 mode: missing"),
    ("do = \"mode\"\nat = 0\nmode = [\"promisc\"]", "ok"),
    (
        "do = \"mode\"\nat = 0\nmode = [0]",
        "guest 0 script 0 mode: kind",
    ),
    (
        "do = \"multicast\"\nat = 0",
        "guest 0 script 0 multicast: missing",
    ),
    ("do = \"multicast\"\nat = 0\nmulticast = []", "ok"),
    (
        "do = \"multicast\"\nat = 0\nmulticast = [\"\"]",
        "guest 0 script 0 multicast: form",
    ),
    ("do = \"vlans\"\nat = 0", "guest 0 script 0 vlans: missing"),
    ("do = \"vlans\"\nat = 0\nvlans = [1]", "ok"),
    (
        "do = \"vlans\"\nat = 0\nvlans = [4096]",
        "guest 0 script 0 vlans: 4096 out of range",
    ),
    ("do = \"rss\"\nat = 0", "guest 0 script 0 table: missing"),
    (
        "do = \"rss\"\nat = 0\nrss = {}",
        "guest 0 script 0 rss: unknown",
    ),
    (
        "do = \"rss\"\nat = 0\ntable = []",
        "guest 0 script 0 table: 0 out of range",
    ),
    (
        "do = \"rss\"\nat = 0\ntable = [1]",
        "guest 0 script 0 table: 1 out of range",
    ),
    (
        "do = \"rss\"\nat = 0\ntable = [0]",
        "guest 0 script 0: out of turn",
    ),
];

#[test]
fn an_action_is_read_by_its_deed(rt: HostRuntime) -> Result<(), Fail> {
    check(&rt, rt.alloc(), Row::Action, &ACTIONS)?;
    Ok(())
}

const TURNS: [(&str, &str); 11] = [
    (
        "script = [{ at = 1, do = \"quiesce\" }, { at = 1, do = \"activate\" }]",
        "ok",
    ),
    (
        "script = [{ at = 1, do = \"quiesce\" }, { at = 0, do = \"activate\" }]",
        "guest 0 script 1 at: 0 out of range",
    ),
    (
        "script = [{ at = 1, do = \"quiesce\" }, { at = 2, do = \"quiesce\" }]",
        "guest 0 script 1: out of turn",
    ),
    (
        "script = [{ at = 1, do = \"quiesce\" }, { at = 2, do = \"reset\" }]",
        "guest 0 script 1: out of turn",
    ),
    (
        "script = [{ at = 1, do = \"reset\" }, { at = 2, do = \"activate\" }]",
        "guest 0 script 1: out of turn",
    ),
    (
        "script = [{ at = 1, do = \"reset\" }, { at = 2, do = \"quiesce\" }]",
        "ok",
    ),
    (
        "script = [{ at = 1, do = \"quiesce\" }, { at = 2, do = \"vlans\", vlans = [] }, { at = 3, do = \"activate\" }]",
        "ok",
    ),
    (
        "script = [{ at = 1, do = \"activate\" }, { at = 0, do = \"x\" }]",
        "guest 0 script 0: out of turn",
    ),
    (
        "rss = {}\nscript = [{ at = 0, do = \"rss\", table = [0] }]",
        "ok",
    ),
    (
        "rss = {}\nrx_queues = 2\nscript = [{ at = 0, do = \"rss\", table = [0, 1, 2] }]",
        "guest 0 script 0 table: 2 out of range",
    ),
    (
        "script = [{ at = 1, do = \"activate\" }]\nrss.table = [1]",
        "guest 0 rss.table: 1 out of range",
    ),
];

#[test]
fn actions_have_turns(rt: HostRuntime) -> Result<(), Fail> {
    check(&rt, rt.alloc(), Row::Guest, &TURNS)?;
    Ok(())
}

const COUNTS: [Repeated; 3] = [
    (
        "[[guest]]\nname = \"a\"\nmac = \"00:50:56:00:00:01\"\nscript = [",
        "{ at = 9, do = \"reset\" },",
        256,
        "]\n",
        "ok",
    ),
    (
        "[[guest]]\nname = \"a\"\nmac = \"00:50:56:00:00:01\"\nscript = [",
        "{ at = 9, do = \"reset\" },",
        257,
        "]\n",
        "guest 0 script: 257 out of range",
    ),
    (
        "[[guest]]\nname = \"a\"\nmac = \"00:50:56:00:00:01\"\nscript = [",
        "1,",
        257,
        "]\n",
        "guest 0 script: 257 out of range",
    ),
];

#[test]
fn there_are_at_most_256_actions(rt: HostRuntime) -> Result<(), Fail> {
    check_repeated(&rt, rt.alloc(), &COUNTS)?;
    Ok(())
}
