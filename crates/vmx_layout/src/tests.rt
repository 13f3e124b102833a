//! Words against fields that were laid out by hand from the published tables, with near misses.

use super::*;
use std::test::Fail;

#[test]
fn transmit_descriptors_have_their_words(rt: HostRuntime) {
    let plain = TxDesc {
        addr: 0,
        len: 60,
        generation: true,
        dtype: false,
        ext1: false,
        msscof: 0,
        hlen: 0,
        om: 0,
        eop: true,
        cq: true,
        ext2: false,
        ti: false,
        tci: 0,
    };
    let inverted = TxDesc {
        addr: 0,
        len: 60,
        generation: false,
        dtype: false,
        ext1: false,
        msscof: 0,
        hlen: 0,
        om: 0,
        eop: true,
        cq: true,
        ext2: false,
        ti: false,
        tci: 0,
    };
    let mixed = TxDesc {
        addr: 0x1020_3040_5060_7080,
        len: 0x1234,
        generation: false,
        dtype: true,
        ext1: false,
        msscof: 0x2abc,
        hlen: 0x155,
        om: 2,
        eop: false,
        cq: true,
        ext2: true,
        ti: false,
        tci: 0xbeef,
    };
    for (desc, words) in [
        (plain, [0, 0x0000_3000_0000_403c]),
        (inverted, [0, 0x0000_3000_0000_003c]),
        (mixed, [0x1020_3040_5060_7080, 0xbeef_6955_aaf1_1234]),
    ] {
        assert_eq!(rt; desc.to_words(), words, "of {desc:?}");
        assert_eq!(rt; TxDesc::of_words(words), Ok(desc), "at {words:?}");
        assert_eq!(rt; TxDesc::len_of_second(words[1]), desc.len);
        assert_eq!(rt; TxDesc::ends_packet(words[1]), desc.eop);
    }
    assert_eq!(rt;
        plain.to_words()[1].to_le_bytes(),
        [0x3c, 0x40, 0, 0, 0, 0x30, 0, 0]
    );
    assert_eq!(rt;
        inverted.to_words()[1].to_le_bytes(),
        [0x3c, 0, 0, 0, 0, 0x30, 0, 0]
    );
    for (second, fault) in [
        (
            0x0000_3000_0000_c03c,
            Some(FieldFault::Reserved { part: 2 }),
        ),
        (1 << 14, None),
        (1 << 15, Some(FieldFault::Reserved { part: 2 })),
        (1 << 16, None),
        (u64::MAX - (1 << 15), None),
        (u64::MAX, Some(FieldFault::Reserved { part: 2 })),
    ] {
        assert_eq!(rt;
            TxDesc::of_words([u64::MAX, second]).err(),
            fault,
            "at {second:x}"
        );
    }
}

#[test]
fn receive_descriptors_have_their_words(rt: HostRuntime) {
    let head = RxDesc {
        addr: 0,
        len: 2048,
        btype: BufferType::Head,
        dtype: false,
        generation: true,
    };
    let body = RxDesc {
        addr: 0,
        len: 4096,
        btype: BufferType::Body,
        dtype: false,
        generation: true,
    };
    let empty = RxDesc {
        addr: 1 << 63,
        len: 0,
        btype: BufferType::Head,
        dtype: true,
        generation: false,
    };
    for (desc, words) in [
        (head, [0, 0x8000_0800]),
        (body, [0, 0x8000_5000]),
        (empty, [1 << 63, 0x8000]),
    ] {
        assert_eq!(rt; desc.to_words(), words, "of {desc:?}");
        assert_eq!(rt; RxDesc::of_words(words), Ok(desc), "at {words:?}");
        assert_eq!(rt; RxDesc::len_of_second(words[1]), desc.len);
        assert_eq!(rt; RxDesc::is_body(words[1]), desc.btype == BufferType::Body);
    }
    assert_eq!(rt;
        head.to_words()[1].to_le_bytes(),
        [0, 8, 0, 0x80, 0, 0, 0, 0]
    );
    assert_eq!(rt;
        body.to_words()[1].to_le_bytes(),
        [0, 0x50, 0, 0x80, 0, 0, 0, 0]
    );
    for (second, fault) in [
        (1 << 15, None),
        (1 << 16, Some(FieldFault::Reserved { part: 2 })),
        (1 << 30, Some(FieldFault::Reserved { part: 2 })),
        (1 << 31, None),
        (1 << 32, Some(FieldFault::Reserved { part: 3 })),
        (1 << 63, Some(FieldFault::Reserved { part: 3 })),
        (1 << 63 | 1 << 30, Some(FieldFault::Reserved { part: 2 })),
    ] {
        assert_eq!(rt;
            RxDesc::of_words([u64::MAX, second]).err(),
            fault,
            "at {second:x}"
        );
    }
}

#[test]
fn transmit_completions_have_their_words(rt: HostRuntime) {
    let last = TxComp {
        txd_idx: 0xfff,
        kind: 0,
        generation: false,
    };
    let fresh = TxComp {
        txd_idx: 0xabc,
        kind: 0,
        generation: true,
    };
    for (comp, words) in [(last, [0xfff, 0]), (fresh, [0xabc, 1 << 63])] {
        assert_eq!(rt; comp.to_words(), words, "of {comp:?}");
        assert_eq!(rt; TxComp::of_words(words), Ok(comp), "at {words:?}");
        assert_eq!(rt; TxComp::index_of_first(words[0]), comp.txd_idx);
    }
    for (words, fault) in [
        ([1 << 12, 0], FieldFault::Reserved { part: 0 }),
        ([1 << 31, 0], FieldFault::Reserved { part: 0 }),
        ([1 << 32, 0], FieldFault::Reserved { part: 1 }),
        ([1 << 63, 0], FieldFault::Reserved { part: 1 }),
        ([0, 1], FieldFault::Reserved { part: 2 }),
        ([0, 1 << 31], FieldFault::Reserved { part: 2 }),
        ([0, 1 << 32], FieldFault::Reserved { part: 3 }),
        ([0, 1 << 55], FieldFault::Reserved { part: 3 }),
        ([0, 3 << 56 | 1 << 55], FieldFault::Reserved { part: 3 }),
        ([1 << 63, 1 << 55], FieldFault::Reserved { part: 1 }),
        ([0, 1 << 56], FieldFault::Kind { found: 1 }),
        ([0, 1 << 62], FieldFault::Kind { found: 64 }),
        ([7, 0xff << 56], FieldFault::Kind { found: 127 }),
    ] {
        assert_eq!(rt; TxComp::of_words(words), Err(fault), "at {words:?}");
    }
}

#[test]
fn receive_completions_have_their_words(rt: HostRuntime) {
    let comp = RxComp {
        rxd_idx: 0x9a5,
        eop: true,
        sop: false,
        rq_id: 0x2d3,
        rss_type: 9,
        cnc: true,
        rss_hash: 0xdead_beef,
        len: 0x1765,
        err: false,
        ts: true,
        tci: 0xcafe,
        csum: 0x1d0f,
        tuc: true,
        udp: false,
        tcp: true,
        ipc: true,
        v6: false,
        v4: true,
        frg: false,
        fcs: true,
        kind: 3,
        generation: true,
    };
    let words = [0xdead_beef_66d3_49a5, 0x83ad_1d0f_cafe_9765];
    assert_eq!(rt; comp.to_words(), words);
    assert_eq!(rt; RxComp::of_words(words), Ok(comp));
    assert_eq!(rt; RxComp::len_of_second(words[1]), 0x1765);
    assert_eq!(rt; RxComp::ends_packet(words[0]), true);
    for (words, fault) in [
        ([0, 0], Some(FieldFault::Kind { found: 0 })),
        ([0, 2 << 56], Some(FieldFault::Kind { found: 2 })),
        ([0, 0x7f << 56], Some(FieldFault::Kind { found: 127 })),
        ([0, 3 << 56], None),
        ([0xfff, 3 << 56], None),
        ([1 << 12, 3 << 56], Some(FieldFault::Reserved { part: 0 })),
        ([1 << 13, 0], Some(FieldFault::Reserved { part: 0 })),
        ([1 << 14, 3 << 56], None),
        ([1 << 30, 3 << 56], None),
        ([1 << 31, 3 << 56], Some(FieldFault::Reserved { part: 0 })),
        ([0xffff_ffff_7fff_cfff, 0x83ff_ffff_ffff_ffff], None),
    ] {
        assert_eq!(rt; RxComp::of_words(words).err(), fault, "at {words:?}");
    }
}

#[test]
fn commands_and_registers_have_their_numbers(rt: HostRuntime) -> Result<(), Fail> {
    for (number, command) in [
        (0xcafe_0000, Some(Command::ActivateDev)),
        (0xcafe_0001, Some(Command::QuiesceDev)),
        (0xcafe_0002, Some(Command::ResetDev)),
        (0xcafe_0003, Some(Command::UpdateRxMode)),
        (0xcafe_0004, Some(Command::UpdateMacFilters)),
        (0xcafe_0005, Some(Command::UpdateVlanFilters)),
        (0xcafe_0006, Some(Command::UpdateRssidt)),
        (0xcafe_0007, Some(Command::UpdateIml)),
        (0xcafe_0008, Some(Command::UpdatePmcfg)),
        (0xcafe_0009, Some(Command::UpdateFeature)),
        (0xcafe_000a, None),
        (0xcafe_0063, None),
        (0xf00c_ffff, None),
        (0xf00d_0000, Some(Command::GetQueueStatus)),
        (0xf00d_0001, Some(Command::GetStats)),
        (0xf00d_0002, Some(Command::GetLink)),
        (0xf00d_0003, Some(Command::GetPermMacLo)),
        (0xf00d_0004, Some(Command::GetPermMacHi)),
        (0xf00d_0005, Some(Command::GetDidLo)),
        (0xf00d_0006, Some(Command::GetDidHi)),
        (0xf00d_0007, Some(Command::GetDevExtraInfo)),
        (0xf00d_0008, Some(Command::GetConfIntr)),
        (0xf00d_0009, None),
    ] {
        assert_eq!(rt; Command::of(number), command, "at {number:x}");
        assert_eq!(rt; command.map(|c| c.number()).unwrap_or(number), number);
    }
    for (bar, offset, register) in [
        (1, 0, Some(Register::Vrrs)),
        (1, 8, Some(Register::Uvrs)),
        (1, 0x10, Some(Register::Dsal)),
        (1, 0x18, Some(Register::Dsah)),
        (1, 0x20, Some(Register::Cmd)),
        (1, 0x28, Some(Register::Macl)),
        (1, 0x30, Some(Register::Mach)),
        (1, 0x38, Some(Register::Icr)),
        (1, 0x40, Some(Register::Ecr)),
        (1, 0x48, None),
        (1, 0x21, None),
        (2, 0x20, None),
        (0, 0, Some(Register::Imr(InterruptIndex { number: 0 }))),
        (0, 0xc0, Some(Register::Imr(InterruptIndex { number: 24 }))),
        (0, 0xc8, None),
        (0, 4, None),
        (0, 0x5f8, None),
        (0, 0x600, Some(Register::TxProd(QueueIndex { number: 0 }))),
        (0, 0x638, Some(Register::TxProd(QueueIndex { number: 7 }))),
        (0, 0x640, None),
        (0, 0x808, Some(Register::RxProd(QueueIndex { number: 1 }))),
        (0, 0xa38, Some(Register::RxProd2(QueueIndex { number: 7 }))),
        (0, 0xa40, None),
    ] {
        assert_eq!(rt; Register::of(bar, offset), register, "at {bar} {offset:x}");
        assert_eq!(rt; register.map(|r| r.bar()).unwrap_or(bar), bar);
        assert_eq!(rt; register.map(|r| r.offset()).unwrap_or(offset), offset);
    }
    let reserved = format!(in rt.alloc(); "{}", FieldFault::Reserved { part: 2 })?;
    assert_eq!(rt; reserved.as_str(), "a bit without a name is set in part 2");
    let kind = format!(in rt.alloc(); "{}", FieldFault::Kind { found: 5 })?;
    assert_eq!(rt; kind.as_str(), "the type is 5");
    Ok(())
}

#[test]
fn memory_has_its_addresses(rt: HostRuntime) {
    for (address, published) in [
        (IMAGE, 0x10000),
        (QUEUE_DESCRIPTORS, 0x10400),
        (RSS_CONFIGURATION, 0x11400),
        (MULTICAST_TABLE, 0x11500),
        (tx_ring_address(0), 0x10000000),
        (tx_ring_address(7), 0x10700000),
        (tx_completion_ring_address(0), 0x10010000),
        (tx_completion_ring_address(3), 0x10310000),
        (tx_data_ring_address(0), 0x10020000),
        (tx_data_ring_address(1), 0x10120000),
        (tx_data_entry_address(0, 1), 0x10020080),
        (tx_data_entry_address(7, 4_095), 0x1079ff80),
        (tx_buffer_address(0, 0), 0x100000000),
        (tx_buffer_address(1, 1), 0x102001000),
        (tx_buffer_address(7, 4_095), 0x10efff000),
        (rx_ring1_address(0), 0x20000000),
        (rx_ring1_address(7), 0x20700000),
        (rx_ring2_address(0), 0x20010000),
        (rx_ring2_address(2), 0x20210000),
        (rx_completion_ring_address(0), 0x20020000),
        (rx_completion_ring_address(5), 0x20520000),
        (rx_data_ring_address(0), 0x20040000),
        (rx_data_ring_address(6), 0x20640000),
        (rx_data_entry_address(0, 1), 0x20040080),
        (rx_data_entry_address(7, 4_095), 0x207bff80),
        (rx_buffer_address(0, 1, 0), 0x200000000),
        (rx_buffer_address(0, 2, 0), 0x202000000),
        (rx_buffer_address(1, 1, 2), 0x204002000),
        (rx_buffer_address(7, 2, 4_095), 0x21efff000),
    ] {
        assert_eq!(rt; address, published);
    }
}
