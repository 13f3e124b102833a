//! Captures that are read, refused and written, with bytes laid out by hand.

use super::*;
use std::alloc::{AllocError, Global};
use std::process::Abort;
use std::test::Fail;
use vmx_io::Bytes;

/// Magic number, version 2.4, time zone and accuracy 0, snap length 65,535, Ethernet.
const HEADER: [u8; 24] = [
    0xd4, 0xc3, 0xb2, 0xa1, 2, 0, 4, 0, 0, 0, 0, 0, 0, 0, 0, 0, 0xff, 0xff, 0, 0, 1, 0, 0, 0,
];

/// A capture's bytes. Each record has the captured length and the number of bytes that are there; the n-th is stamped
/// n seconds and 7 microseconds, and filled with n.
fn laid_out(alloc: Global, records: &[(u32, usize)]) -> Result<Vec<u8>, AllocError> {
    let mut out = Vec::from_slice(alloc, &HEADER)?;
    let mut number = 0u8;
    for (captured, there) in records {
        out.extend_from_slice(&[number, 0, 0, 0, 7, 0, 0, 0])?;
        out.extend_from_slice(&captured.to_le_bytes())?;
        out.extend_from_slice(&[0xff, 0xff, 0, 0])?;
        for _ in 0..*there {
            out.push(number)?;
        }
        number = number.wrapping_add(1);
    }
    Ok(out)
}

/// What the reader answered, with the number of records and the tail.
fn answer_of(
    rt: &impl Abort,
    alloc: Global,
    bytes: &[u8],
    most: u32,
) -> Result<(usize, u32), CaptureFault> {
    assert!(rt; bytes.len() <= MAX_CAPTURE);
    let capture = read(alloc, bytes, most)?;
    Ok((capture.records.len(), capture.tail))
}

/// Writes over the bytes from a place on, as far as they are there.
fn patch(bytes: &mut [u8], place: usize, new: &[u8]) {
    for (at, byte) in bytes.iter_mut().skip(place).zip(new) {
        *at = *byte;
    }
}

/// A capture of one record of 60 bytes, patched at a place, reads so.
fn check_patches(
    rt: &impl Abort,
    alloc: Global,
    cases: &[(usize, [u8; 4], Result<(usize, u32), CaptureFault>)],
) -> Result<(), AllocError> {
    for (place, new, want) in cases {
        let mut bytes = laid_out(alloc, &[(60, 60)])?;
        patch(&mut bytes, *place, new);
        let got = answer_of(rt, alloc, &bytes, 9);
        assert_eq!(rt; got, *want, "with {new:?} at {place}");
    }
    Ok(())
}

#[test]
fn takes_or_refuses_a_header(rt: HostRuntime) -> Result<(), Fail> {
    check_patches(
        &rt,
        rt.alloc(),
        &[
            (0, [0xd4, 0xc3, 0xb2, 0xa1], Ok((1, 0))),
            (0, [0x4d, 0x3c, 0xb2, 0xa1], Ok((1, 0))),
            (
                0,
                [0xd4, 0xc3, 0xb2, 0xa0],
                Err(CaptureFault::Magic { found: 0xd4c3_b2a0 }),
            ),
            (
                0,
                [0xa1, 0xb2, 0xcd, 0x34],
                Err(CaptureFault::Magic { found: 0xa1b2_cd34 }),
            ),
            (
                0,
                [0x0a, 0x0d, 0x0d, 0x0a],
                Err(CaptureFault::Magic { found: 0x0a0d_0d0a }),
            ),
            (
                0,
                [0xa1, 0xb2, 0xc3, 0xd4],
                Err(CaptureFault::Version {
                    major: 512,
                    minor: 1024,
                }),
            ),
            (
                0,
                [0xa1, 0xb2, 0x3c, 0x4d],
                Err(CaptureFault::Version {
                    major: 512,
                    minor: 1024,
                }),
            ),
            (
                4,
                [3, 0, 4, 0],
                Err(CaptureFault::Version { major: 3, minor: 4 }),
            ),
            (
                4,
                [2, 0, 3, 0],
                Err(CaptureFault::Version { major: 2, minor: 3 }),
            ),
            (8, [1, 2, 3, 4], Ok((1, 0))),
            (16, [0, 0, 4, 0], Ok((1, 0))),
            (20, [113, 0, 0, 0], Err(CaptureFault::Link { found: 113 })),
            (
                20,
                [1, 0, 0, 0x24],
                Err(CaptureFault::Link { found: 0x2400_0001 }),
            ),
            (
                32,
                [1, 0, 4, 0],
                Err(CaptureFault::Long {
                    index: 0,
                    found: 262_145,
                }),
            ),
        ],
    )?;
    Ok(())
}

/// A capture of one record of 60 bytes, patched at two places, is refused with this fault.
fn check_two_faults(
    rt: &impl Abort,
    alloc: Global,
    cases: &[([usize; 2], [[u8; 4]; 2], CaptureFault)],
) -> Result<(), AllocError> {
    for (places, patches, want) in cases {
        let mut bytes = laid_out(alloc, &[(60, 60)])?;
        patch(&mut bytes, places[0], &patches[0]);
        patch(&mut bytes, places[1], &patches[1]);
        let got = answer_of(rt, alloc, &bytes, 0);
        assert_eq!(rt; got, Err(*want), "with {patches:?} at {places:?}");
    }
    Ok(())
}

#[test]
fn answers_the_first_of_two_faults(rt: HostRuntime) -> Result<(), Fail> {
    check_two_faults(
        &rt,
        rt.alloc(),
        &[
            (
                [0, 4],
                [[0; 4], [3, 0, 4, 0]],
                CaptureFault::Magic { found: 0 },
            ),
            (
                [4, 20],
                [[2, 0, 5, 0], [113, 0, 0, 0]],
                CaptureFault::Version { major: 2, minor: 5 },
            ),
            (
                [20, 32],
                [[113, 0, 0, 0], [1, 0, 4, 0]],
                CaptureFault::Link { found: 113 },
            ),
            (
                [32, 8],
                [[1, 0, 4, 0], [0; 4]],
                CaptureFault::Long {
                    index: 0,
                    found: 262_145,
                },
            ),
            ([8, 8], [[0; 4], [0; 4]], CaptureFault::Many { index: 0 }),
        ],
    )?;
    Ok(())
}

/// One record of two bytes, in the byte order of the magic number: 5 seconds, a fraction, captured and original length 2.
fn one_record(magic: [u8; 4], fraction: u32) -> [u8; 42] {
    let big = magic[0] == 0xa1;
    let ends = |n: u32| if big {
        n.to_be_bytes()
    } else {
        n.to_le_bytes()
    };
    let mut out = [0; 42];
    patch(&mut out, 0, &magic);
    patch(&mut out, 4, if big { &[0, 2, 0, 4] } else { &[2, 0, 4, 0] });
    patch(&mut out, 20, &ends(1));
    patch(&mut out, 24, &ends(5));
    patch(&mut out, 28, &ends(fraction));
    patch(&mut out, 32, &ends(2));
    patch(&mut out, 36, &ends(2));
    patch(&mut out, 40, &[0xaa, 0xbb]);
    out
}

/// Magic number, fraction as it stands, and the microseconds of the record.
const FRACTIONS: [([u8; 4], u32, u32); 6] = [
    ([0xd4, 0xc3, 0xb2, 0xa1], 1_999, 1_999),
    ([0xa1, 0xb2, 0xc3, 0xd4], 1_999, 1_999),
    ([0x4d, 0x3c, 0xb2, 0xa1], 1_999, 1),
    ([0xa1, 0xb2, 0x3c, 0x4d], 1_999, 1),
    ([0xa1, 0xb2, 0x3c, 0x4d], 999, 0),
    ([0x4d, 0x3c, 0xb2, 0xa1], 999_999_999, 999_999),
];

#[test]
fn reads_each_byte_order_and_unit(rt: HostRuntime) -> Result<(), Fail> {
    for (magic, fraction, micros) in FRACTIONS {
        let capture = read(rt.alloc(), &one_record(magic, fraction), 1)?;
        let [record] = capture.records.as_slice() else {
            return Err(Fail::from("one record"));
        };
        assert_eq!(&rt; record.seconds, 5, "{magic:?}");
        assert_eq!(&rt; record.micros, micros, "{magic:?}");
        assert_eq!(&rt; record.frame.as_slice(), [0xaa, 0xbb].as_slice());
    }
    Ok(())
}

/// A capture of these records, cut to a length, reads so within a number of records.
fn check_records(
    rt: &impl Abort,
    alloc: Global,
    cases: &[(
        [(u32, usize); 2],
        usize,
        u32,
        Result<(usize, u32), CaptureFault>,
    )],
) -> Result<(), AllocError> {
    for (records, len, most, want) in cases {
        let mut bytes = laid_out(alloc, records)?;
        bytes.truncate(*len);
        let got = answer_of(rt, alloc, &bytes, *most);
        assert_eq!(rt; got, *want, "{len} bytes of {records:?} within {most}");
    }
    Ok(())
}

/// Two whole records of 60 bytes.
const WHOLE: [(u32, usize); 2] = [(60, 60), (60, 60)];

#[test]
fn reads_whole_records_and_a_tail(rt: HostRuntime) -> Result<(), Fail> {
    check_records(
        &rt,
        rt.alloc(),
        &[
            (WHOLE, 0, 9, Err(CaptureFault::Header { len: 0 })),
            (WHOLE, 23, 9, Err(CaptureFault::Header { len: 23 })),
            (WHOLE, 24, 9, Ok((0, 0))),
            (WHOLE, 99, 9, Ok((0, 75))),
            (WHOLE, 146, 9, Ok((1, 46))),
            (WHOLE, 176, 2, Ok((2, 0))),
            (WHOLE, 176, 1, Err(CaptureFault::Many { index: 1 })),
            (WHOLE, 100, 0, Err(CaptureFault::Many { index: 0 })),
            (WHOLE, 175, 1, Ok((1, 75))),
            ([(0, 0), (0, 0)], 99, 9, Ok((2, 0))),
            ([(60, 60), (262_144, 0)], 116, 9, Ok((1, 16))),
            (
                [(60, 60), (262_145, 0)],
                116,
                1,
                Err(CaptureFault::Long {
                    index: 1,
                    found: 262_145,
                }),
            ),
        ],
    )?;
    Ok(())
}

#[test]
fn keeps_stamps_and_frames(rt: HostRuntime) -> Result<(), Fail> {
    let alloc = rt.alloc();
    let bytes = laid_out(alloc, &[(60, 60), (1514, 1514), (60, 60)])?;
    assert!(rt; bytes.len() <= MAX_CAPTURE);
    let capture = read(alloc, &bytes, 3)?;
    assert_eq!(rt; capture.records.len(), 3);
    assert_eq!(rt; capture.tail, 0);
    let mut number = 0u8;
    for (record, len) in capture.records.as_slice().iter().zip([60, 1514, 60]) {
        assert_eq!(rt; record.seconds, u32::from(number));
        assert_eq!(rt; record.micros, 7);
        let frame = vec![in alloc; number; len]?;
        assert_eq!(rt; record.frame.as_slice(), frame.as_slice());
        number = number.wrapping_add(1);
    }
    Ok(())
}

#[test]
fn writes_header_and_records(rt: HostRuntime) -> Result<(), Fail> {
    let alloc = rt.alloc();
    let empty = write(alloc, &[])?;
    assert_eq!(rt; empty.as_slice(), HEADER.as_slice());
    let records = [
        Stamped {
            seconds: 0x0102_0304,
            micros: 999_999,
            frame: Bytes::from_slice(alloc, &[0xaa, 0xbb, 0xcc])?,
        },
        Stamped {
            seconds: 2,
            micros: 0,
            frame: Bytes::new(alloc),
        },
    ];
    let want = [
        0xd4, 0xc3, 0xb2, 0xa1, 2, 0, 4, 0, 0, 0, 0, 0, 0, 0, 0, 0, 0xff, 0xff, 0, 0, 1, 0, 0, 0, //
        4, 3, 2, 1, 0x3f, 0x42, 0x0f, 0, 3, 0, 0, 0, 3, 0, 0, 0, 0xaa, 0xbb, 0xcc, //
        2, 0, 0, 0, 0, 0, 0, 0, 0, 0, 0, 0, 0, 0, 0, 0,
    ];
    let file = write(alloc, &records)?;
    assert_eq!(rt; file.as_slice(), want.as_slice());
    let over = write_over(file, &records)?;
    assert_eq!(rt; over.as_slice(), want.as_slice());
    let mut one_by_one = CaptureWriter::new(alloc, 0)?;
    one_by_one.push(0x0102_0304, 999_999, &[0xaa, 0xbb, 0xcc])?;
    one_by_one.push(2, 0, &[])?;
    assert_eq!(rt; one_by_one.into_bytes().as_slice(), want.as_slice());
    Ok(())
}
