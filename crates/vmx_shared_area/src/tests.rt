//! Images against bytes that were laid out by hand, and each check with a byte that just misses it.

ghost use Rattle.std.specs.Prelude.{◌<◌};

use super::*;
use std::test::Fail;

/// Two queues each way, one multicast address and an RSS setting with four entries.
fn busy() -> Setup {
    let multicast = MacTable {
        count: 1,
        macs: [[0; 6]; 256],
    };
    let filter = Filter {
        mode: RX_MODE_UCAST | RX_MODE_MCAST | RX_MODE_BCAST,
        multicast,
        vlans: [0; 128],
    };
    let rss = Rss {
        types: 15,
        key: [0x6d; 40],
        size: 4,
        table: [0; 128],
    };
    Setup {
        tx_queues: 2,
        rx_queues: 2,
        tx_ring: 512,
        rx_ring1: 256,
        rx_ring2: 256,
        mtu: 9000,
        filter,
        rss: Some(rss),
        auto_mask: true,
        levels: [0; 25],
        tx_data: false,
        rx_data: false,
        strip: false,
        csum: false,
    }
}

/// A setup with other data rings, tags taken out or not, checksums or not.
fn with(setup: Setup, tx_data: bool, rx_data: bool, strip: bool, csum: bool) -> Setup {
    let levels = setup.levels;
    Setup {
        tx_queues: setup.tx_queues,
        rx_queues: setup.rx_queues,
        tx_ring: setup.tx_ring,
        rx_ring1: setup.rx_ring1,
        rx_ring2: setup.rx_ring2,
        mtu: setup.mtu,
        filter: setup.filter,
        rss: setup.rss,
        auto_mask: setup.auto_mask,
        levels,
        tx_data,
        rx_data,
        strip,
        csum,
    }
}

/// Puts a byte, and answers the one that stood there.
fn put_byte(image: &mut Image, at: usize, byte: u8) -> u8
    requires { at < 8192 }
{
    let bytes = image.bytes_mut();
    let kept = bytes[at];
    bytes[at] = byte;
    kept
}

#[test]
fn a_setup_is_written_by_the_table(rt: HostRuntime) -> Result<(), Fail> {
    let mut image = Image::new(rt.alloc())?;
    write(&Setup::by_default(), &mut image);
    let bytes = image.bytes();
    for (at, part) in [
        (0, [0xe1, 0xfe, 0xbe, 0xba]),
        (4, [0, 0, 0, 0]),
        (16, [1, 0, 0, 0]),
        (20, [1, 0, 0, 0]),
        (24, [0, 0, 0, 0]),
        (40, [0x00, 0x04, 0x01, 0x00]),
        (44, [0, 0, 0, 0]),
        (52, [0x00, 0x02, 0, 0]),
        (56, [0xdc, 0x05, 0, 0]),
        (60, [16, 0, 1, 1]),
        (80, [1, 3, 2, 0]),
        (120, [7, 0, 0, 0]),
        (124, [0, 0, 0, 0]),
        (128, [0x00, 0x15, 0x01, 0x00]),
        (136, [0xff, 0xff, 0xff, 0xff]),
        (644, [0xff, 0xff, 0xff, 0xff]),
        (648, [0, 0, 0, 0]),
        (1040, [0, 0, 0, 0x10]),
        (1056, [0, 0, 0x01, 0x10]),
        (1080, [0x00, 0x02, 0, 0]),
        (1084, [0, 0, 0, 0]),
        (1088, [0x00, 0x02, 0, 0]),
        (1096, [0, 0, 0, 0]),
        (1296, [0, 0, 0, 0x20]),
        (1304, [0, 0, 0x01, 0x20]),
        (1312, [0, 0, 0x02, 0x20]),
        (1336, [0x00, 0x01, 0, 0]),
        (1340, [0x00, 0x01, 0, 0]),
        (1344, [0x00, 0x02, 0, 0]),
        (1352, [1, 0, 0, 0]),
        (5120, [0, 0, 0, 0]),
        (8188, [0, 0, 0, 0]),
    ] {
        assert!(rt; at <= 8188);
        assert_eq!(rt;
            [bytes[at], bytes[at + 1], bytes[at + 2], bytes[at + 3]],
            part,
            "at {at}"
        );
    }
    Ok(())
}

#[test]
fn data_rings_and_features_are_written_by_the_table(rt: HostRuntime) -> Result<(), Fail> {
    let mut image = Image::new(rt.alloc())?;
    write(&with(busy(), true, true, true, true), &mut image);
    let bytes = image.bytes();
    for (at, part) in [
        (24, [7, 0, 0, 0]),
        (28, [0, 0, 0, 0]),
        (1048, [0, 0, 0x02, 0x10]),
        (1052, [0, 0, 0, 0]),
        (1084, [0x00, 0x02, 0, 0]),
        (1096, [0, 0, 0, 0]),
        (1304, [0, 0, 0x12, 0x10]),
        (1340, [0x00, 0x02, 0, 0]),
        (1576, [0, 0, 0, 0]),
        (1584, [0, 0, 0x04, 0x20]),
        (1588, [0, 0, 0, 0]),
        (1608, [2, 0, 0x80, 0]),
        (1612, [0, 0, 0, 0]),
        (1840, [0, 0, 0x14, 0x20]),
        (1864, [3, 0, 0x80, 0]),
    ] {
        assert!(rt; at <= 8188);
        assert_eq!(rt;
            [bytes[at], bytes[at + 1], bytes[at + 2], bytes[at + 3]],
            part,
            "at {at}"
        );
    }
    Ok(())
}

#[test]
fn data_rings_and_features_just_miss(rt: HostRuntime) -> Result<(), Fail> {
    let mut image = Image::new(rt.alloc())?;
    write(&with(busy(), true, true, true, true), &mut image);
    for (at, byte, fault) in [
        (1085, 1, ImageFault::RingSize { found: 256 }),
        (1085, 0, ImageFault::RingSize { found: 512 }),
        (1341, 0, ImageFault::RingSize { found: 0 }),
        (1610, 127, ImageFault::RingSize { found: 127 }),
        (1610, 0, ImageFault::RingSize { found: 128 }),
        (1867, 1, ImageFault::RingSize { found: 384 }),
        (1050, 3, ImageFault::Address { found: 0x1003_0000 }),
        (1306, 2, ImageFault::Address { found: 0x1002_0000 }),
        (1586, 0, ImageFault::Address { found: 0x2000_0000 }),
        (1843, 0x10, ImageFault::Address { found: 0x1014_0000 }),
        (24, 15, ImageFault::Rss { found: 15 }),
        (24, 8, ImageFault::Rss { found: 8 }),
        (
            31,
            1,
            ImageFault::Rss {
                found: 0x0100_0000_0000_0007,
            },
        ),
    ] {
        assert!(rt; at < 8192);
        let kept = put_byte(&mut image, at, byte);
        assert_eq!(rt; read(&image), Err(fault), "byte {byte} at {at}");
        put_byte(&mut image, at, kept);
    }
    assert_eq!(rt; read(&image), Ok(with(busy(), true, true, true, true)));
    for (byte, strip, csum) in [(2, false, false), (3, false, true), (6, true, false)] {
        put_byte(&mut image, 24, byte);
        let expected = with(busy(), true, true, strip, csum);
        assert_eq!(rt; read(&image), Ok(expected), "features {byte}");
    }
    Ok(())
}

#[test]
fn a_data_ring_of_the_rings_size_is_read(rt: HostRuntime) -> Result<(), Fail> {
    let mut image = Image::new(rt.alloc())?;
    write(&Setup::by_default(), &mut image);
    put_byte(&mut image, 1085, 2);
    assert_eq!(rt; read(&image), Err(ImageFault::Address { found: 0 }));
    put_byte(&mut image, 1050, 2);
    put_byte(&mut image, 1051, 0x10);
    put_byte(&mut image, 24, 4);
    let expected = with(Setup::by_default(), true, false, true, false);
    assert_eq!(rt; read(&image), Ok(expected));
    Ok(())
}

#[test]
fn each_check_names_its_first_bad_field(rt: HostRuntime) -> Result<(), Fail> {
    let mut image = Image::new(rt.alloc())?;
    write(&busy(), &mut image);
    for (at, byte, fault) in [
        (0, 0xe0, ImageFault::Magic { found: 0xBABE_FEE0 }),
        (3, 0xbb, ImageFault::Magic { found: 0xBBBE_FEE1 }),
        (62, 0, ImageFault::Queues { found: 0 }),
        (62, 9, ImageFault::Queues { found: 9 }),
        (63, 0, ImageFault::Queues { found: 0 }),
        (63, 9, ImageFault::Queues { found: 9 }),
        (53, 5, ImageFault::Queues { found: 1280 }),
        (62, 1, ImageFault::Queues { found: 1024 }),
        (1080, 33, ImageFault::RingSize { found: 545 }),
        (1081, 0, ImageFault::RingSize { found: 0 }),
        (1081, 17, ImageFault::RingSize { found: 4352 }),
        (1081, 4, ImageFault::RingSize { found: 512 }),
        (1337, 1, ImageFault::RingSize { found: 256 }),
        (1084, 1, ImageFault::RingSize { found: 1 }),
        (1085, 2, ImageFault::RingSize { found: 0 }),
        (1341, 2, ImageFault::RingSize { found: 512 }),
        (1610, 128, ImageFault::RingSize { found: 0 }),
        (1866, 128, ImageFault::RingSize { found: 128 }),
        (1592, 1, ImageFault::RingSize { found: 257 }),
        (1597, 0x20, ImageFault::RingSize { found: 8192 }),
        (1853, 2, ImageFault::RingSize { found: 512 }),
        (1088, 32, ImageFault::CompSize { found: 544 }),
        (1600, 1, ImageFault::CompSize { found: 513 }),
        (1857, 3, ImageFault::CompSize { found: 768 }),
        (41, 5, ImageFault::Address { found: 0x10500 }),
        (1041, 2, ImageFault::Address { found: 0x1000_0200 }),
        (1058, 2, ImageFault::Address { found: 0x1002_0000 }),
        (1048, 1, ImageFault::Address { found: 1 }),
        (1808, 1, ImageFault::Address { found: 0x2010_0001 }),
        (1818, 0x12, ImageFault::Address { found: 0x2012_0000 }),
        (1826, 0x13, ImageFault::Address { found: 0x2013_0000 }),
        (56, 0x29, ImageFault::Mtu { found: 9001 }),
        (57, 0, ImageFault::Mtu { found: 40 }),
        (120, 32, ImageFault::Filter { found: 32 }),
        (121, 1, ImageFault::Filter { found: 263 }),
        (124, 5, ImageFault::Filter { found: 5 }),
        (125, 6, ImageFault::Filter { found: 1542 }),
        (129, 0x14, ImageFault::Filter { found: 0x11400 }),
        (1584, 1, ImageFault::Address { found: 1 }),
        (24, 10, ImageFault::Rss { found: 10 }),
        (25, 1, ImageFault::Rss { found: 258 }),
        (652, 0xb1, ImageFault::Rss { found: 177 }),
        (657, 0x15, ImageFault::Rss { found: 0x11500 }),
        (5120, 16, ImageFault::Rss { found: 16 }),
        (5122, 0, ImageFault::Rss { found: 0 }),
        (5124, 41, ImageFault::Rss { found: 41 }),
        (5126, 0, ImageFault::Rss { found: 0 }),
        (5126, 129, ImageFault::Rss { found: 129 }),
        (5171, 2, ImageFault::Rss { found: 2 }),
        (5172, 1, ImageFault::Rss { found: 1 }),
        (5295, 1, ImageFault::Rss { found: 1 }),
        (81, 6, ImageFault::Interrupt { found: 6 }),
        (80, 2, ImageFault::Interrupt { found: 2 }),
        (82, 3, ImageFault::Interrupt { found: 3 }),
        (1352, 0, ImageFault::Interrupt { found: 0 }),
        (1608, 1, ImageFault::Interrupt { found: 1 }),
    ] {
        assert!(rt; at < 8192);
        let kept = put_byte(&mut image, at, byte);
        assert_eq!(rt; read(&image), Err(fault), "byte {byte} at {at}");
        put_byte(&mut image, at, kept);
    }
    for at in [
        4, 8, 32, 48, 60, 64, 108, 126, 648, 664, 696, 720, 1024, 1064, 1072, 1104, 1112, 1200,
        1576, 1609, 1612, 5296, 5382, 8191,
    ] {
        assert!(rt; at < 8192);
        let kept = put_byte(&mut image, at, 0xa5);
        assert_eq!(rt; read(&image), Ok(busy()), "at {at}");
        put_byte(&mut image, at, kept);
    }
    Ok(())
}

#[test]
fn checks_come_in_order_with_their_numbers(rt: HostRuntime) -> Result<(), Fail> {
    let mut image = Image::new(rt.alloc())?;
    assert_eq!(rt; read(&image), Err(ImageFault::Magic { found: 0 }));
    write(&Setup::by_default(), &mut image);
    for (at, byte, number) in [
        (82, 9, 9),
        (24, 8, 8),
        (121, 4, 7),
        (57, 0x40, 6),
        (1040, 4, 5),
        (1088, 33, 4),
        (1080, 33, 3),
        (1081, 0, 3),
        (63, 2, 2),
        (0, 0, 1),
    ] {
        assert!(rt; at < 8192);
        put_byte(&mut image, at, byte);
        match read(&image) {
            Ok(_) => assert!(rt; false, "at {at}"),
            Err(fault) => assert_eq!(rt; fault.number(), number, "at {at}"),
        }
    }
    Ok(())
}

#[test]
fn a_ring_of_thirty_three_has_number_three(rt: HostRuntime) -> Result<(), Fail> {
    let mut image = Image::new(rt.alloc())?;
    write(&Setup::by_default(), &mut image);
    put_byte(&mut image, 1080, 33);
    put_byte(&mut image, 1081, 0);
    assert_eq!(rt; read(&image), Err(ImageFault::RingSize { found: 33 }));
    assert_eq!(rt; ImageFault::RingSize { found: 33 }.number(), 3);
    put_byte(&mut image, 0, 0);
    assert_eq!(rt; read(&image), Err(ImageFault::Magic { found: 0xBABE_FE00 }));
    assert_eq!(rt; ImageFault::Magic { found: 0xBABE_FE00 }.number(), 1);
    Ok(())
}

#[test]
fn single_readers_answer_their_part(rt: HostRuntime) -> Result<(), Fail> {
    let mut image = Image::new(rt.alloc())?;
    write(&busy(), &mut image);
    assert_eq!(rt; read_mode(&image), Some(7));
    assert_eq!(rt; read_features(&image), 2);
    assert_eq!(rt; read_rss(&image, 2), Ok(busy().rss));
    put_byte(&mut image, 5381, 9);
    put_byte(&mut image, 5382, 9);
    put_byte(&mut image, 137, 1);
    put_byte(&mut image, 107, 5);
    match read_multicast(&image) {
        Some(table) => {
            let count = table.count;
            let macs = table.macs;
            let first = macs[0];
            let second = macs[1];
            assert_eq!(rt; count, 1);
            assert_eq!(rt; first, [0, 0, 0, 0, 0, 9]);
            assert_eq!(rt; second, [0; 6]);
        }
        None => assert!(rt; false, "no multicast table"),
    }
    let vlans = read_vlans(&image);
    let levels = read_levels(&image);
    assert_eq!(rt; vlans[0], 256);
    assert_eq!(rt; levels[24], 5);
    put_byte(&mut image, 5170, 1);
    match read_table(&image, 2) {
        Some(table) => {
            let size = table.size;
            let entries = table.table;
            let third = entries[2];
            assert_eq!(rt; size, 4);
            assert_eq!(rt; third, 1);
        }
        None => assert!(rt; false, "no indirection table"),
    }
    assert_eq!(rt; read_table(&image, 1), None);
    assert_eq!(rt; read_rss(&image, 1), Err(ImageFault::Rss { found: 1 }));
    put_byte(&mut image, 24, 0);
    assert_eq!(rt; read_rss(&image, 1), Ok(None));
    put_byte(&mut image, 120, 32);
    put_byte(&mut image, 124, 7);
    assert_eq!(rt; read_mode(&image), None);
    assert_eq!(rt; read_multicast(&image), None);
    Ok(())
}

#[test]
fn statistics_and_status_change_their_bytes_alone(rt: HostRuntime) -> Result<(), Fail> {
    let mut image = Image::new(rt.alloc())?;
    write(&busy(), &mut image);
    let mut before = Image::new(rt.alloc())?;
    write(&busy(), &mut before);
    let stats = Stats {
        counts: [1, 2, 3, 4, 5, 6, 7, 8, 9, 10],
    };
    write_stats(&mut image, 2, Side::Rx, 1, &stats);
    write_status(&mut image, 2, Side::Tx, 1, Some(0x0102_0304));
    write_status(&mut image, 2, Side::Rx, 0, None);
    for (at, (now, was)) in image.bytes().iter().zip(before.bytes()).enumerate() {
        let expected = if (1880..1960).contains(&at) {
            if at % 8 == 0 {
                ((at - 1880) / 8 + 1) as u8
            } else {
                0
            }
        } else if (1360..1368).contains(&at) {
            [1, 0, 0, 0, 4, 3, 2, 1][at - 1360]
        } else {
            *was
        };
        assert_eq!(rt; *now, expected, "at {at}");
    }
    assert_eq!(rt; read_stats(&image, 2, Side::Rx, 1), stats);
    assert_eq!(rt; read_stats(&image, 3, Side::Rx, 0), stats);
    let none = Stats { counts: [0; 10] };
    assert_eq!(rt; read_stats(&image, 2, Side::Rx, 0), none);
    Ok(())
}
