//! The table of commands as numbers: a device is told one command after another, and each answer is compared.

ghost use Rattle.std.specs.Prelude.{◌<◌};

use crate::{EndCounts, PlainDevice};
use std::test::Fail;
use vmx_shared_area::{Image, Setup, write};

/// Changes one byte of an image.
fn put(image: &mut Image, at: usize, byte: u8)
    requires place { at < 8192 }
{
    image.bytes_mut()[at] = byte;
}

#[test]
fn each_command_has_its_answer(rt: HostRuntime) -> Result<(), Fail> {
    let mut image = Image::new(rt.alloc())?;
    let mut device = PlainDevice::new();
    // An image of zeros has no magic.
    assert!(rt; device.command(0xcafe_0000, &image, None) == Some(1));
    write(&Setup::by_default(), &mut image);
    let one = EndCounts { tx: 1, rx: 1 };
    let two = EndCounts { tx: 1, rx: 2 };
    for (number, ends, answer) in [
        (0xcafe_0000u32, None, Some(11u32)),
        (0xcafe_0000, Some(two), Some(11)),
        (0xcafe_0003, None, Some(0)),
        (0xcafe_0000, Some(one), Some(0)),
        (0xcafe_0000, Some(one), Some(10)),
        (0xcafe_0003, None, Some(0)),
        (0xcafe_0004, None, Some(0)),
        (0xcafe_0005, None, Some(0)),
        (0xcafe_0006, None, Some(8)),
        (0xcafe_0007, None, Some(0)),
        (0xcafe_0008, None, Some(0xffff_ffff)),
        (0xcafe_0009, None, Some(0)),
        (0xf00d_0000, None, None),
        (0xf00d_0008, None, None),
        (0xf00d_0009, None, Some(0xffff_ffff)),
        (0xcafe_0002, Some(one), Some(11)),
        (0xcafe_0002, None, Some(0)),
        (0xcafe_0001, Some(one), Some(0)),
    ] {
        assert!(rt; device.command(number, &image, ends) == answer);
    }
    assert!(rt; device.setup.is_none());
    write(&Setup::by_default(), &mut image);
    let _ = device.command(0xcafe_0000, &image, Some(one));
    // A receive mode of 32 has an unknown bit; a mode of 31 is taken.
    put(&mut image, 120, 32);
    assert!(rt; device.command(0xcafe_0003, &image, None) == Some(7));
    put(&mut image, 120, 31);
    assert!(rt; device.command(0xcafe_0003, &image, None) == Some(0));
    let Some(setup) = device.setup else {
        panic!(rt; "idle")
    };
    assert!(rt; setup.filter.mode == 31 && setup.mtu == 1500);
    Ok(())
}

#[test]
fn features_are_taken_anew(rt: HostRuntime) -> Result<(), Fail> {
    let mut image = Image::new(rt.alloc())?;
    write(&Setup::by_default(), &mut image);
    // An RSS configuration for one receive queue: its length, 176, its address, 0x11400, all kinds of flow, the Toeplitz hash, a key of
    // 40 bytes and a table of one entry.
    put(&mut image, 652, 176);
    put(&mut image, 657, 0x14);
    put(&mut image, 658, 0x01);
    put(&mut image, 5120, 15);
    put(&mut image, 5122, 1);
    put(&mut image, 5124, 40);
    put(&mut image, 5126, 1);
    let mut device = PlainDevice::new();
    let ends = Some(EndCounts { tx: 1, rx: 1 });
    assert!(rt; device.command(0xcafe_0000, &image, ends) == Some(0));
    // The features' word, the answer, and whether there is an RSS setting, tags are taken out and checksums are checked.
    for (word, answer, rss, strip, csum) in [
        (4u8, 0u32, false, true, false),
        (5, 0, false, true, true),
        (6, 0, true, true, false),
        (8, 8, true, true, false),
        (3, 0, true, false, true),
        (0, 0, false, false, false),
    ] {
        put(&mut image, 24, word);
        assert!(rt; device.command(0xcafe_0009, &image, None) == Some(answer));
        let Some(setup) = device.setup else {
            panic!(rt; "idle")
        };
        assert!(rt; setup.rss.is_some() == rss && setup.strip == strip && setup.csum == csum);
    }
    Ok(())
}
