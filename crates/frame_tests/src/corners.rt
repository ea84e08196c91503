use frame::field::Field;
use frame::packed::Packed;
use frame::pixel::{Sample, write_pixel};
use frame::planar::Planar;
use frame::readable::Readable;
use frame::writable::Writable;
use std::process::Abort;
use std::test::Fail;

/// Puts a word into each corner of a frame of three pixels and two channels, and reads the corners.
fn corners_hold<F: Writable>(rt: &impl Abort, frame: &mut F) {
    for (pixel, channel, word) in [(0, 0, 0x0102_0304), (0, 1, 2), (2, 0, 3), (2, 1, u32::MAX)] {
        assert!(rt; frame.put(pixel, channel, word).is_ok());
        assert_eq!(rt; frame.get(pixel, channel), Some(word));
    }
    assert_eq!(rt; frame.get(0, 0), Some(0x0102_0304));
    assert_eq!(rt; frame.get(1, 0), Some(9));
    assert_eq!(rt; frame.get(1, 1), Some(9));
}

/// A put just outside is refused and read as none.
fn outside_refused<F: Writable>(rt: &impl Abort, frame: &mut F) {
    for (pixel, channel) in [(3, 0), (0, 2), (3, 2), (usize::MAX, 0), (0, usize::MAX)] {
        assert!(rt; frame.put(pixel, channel, 1).is_err());
        assert_eq!(rt; frame.get(pixel, channel), None);
    }
}

#[test]
fn planar_corners(rt: HostRuntime) -> Result<(), Fail> {
    let mut frame = Planar::new(Vec::from_elem(rt.alloc(), 9u32, 6)?, 2);
    corners_hold(&rt, &mut frame);
    outside_refused(&rt, &mut frame);
    let words = frame.into_words();
    assert_eq!(rt;
        words.as_slice(),
        [0x0102_0304, 9, 3, 2, 9, u32::MAX].as_slice()
    );
    Ok(())
}

#[test]
fn packed_corners(rt: HostRuntime) -> Result<(), Fail> {
    let nine = [
        0, 0, 0, 9, 0, 0, 0, 9, 0, 0, 0, 9, 0, 0, 0, 9, 0, 0, 0, 9, 0, 0, 0, 9,
    ];
    let mut frame = Packed::new(nine.to_vec(rt.alloc())?, 2);
    corners_hold(&rt, &mut frame);
    outside_refused(&rt, &mut frame);
    let bytes = frame.into_bytes();
    assert_eq!(rt;
        bytes.as_slice(),
        [
            1, 2, 3, 4, 0, 0, 0, 2, 0, 0, 0, 9, 0, 0, 0, 9, 0, 0, 0, 3, 255, 255, 255, 255,
        ]
        .as_slice()
    );
    Ok(())
}

#[test]
fn field_reads(rt: HostRuntime) -> Result<(), Fail> {
    let frame = Field::new([5, 6].to_vec(rt.alloc())?, 3);
    assert_eq!(rt; frame.get(0, 0), Some(5));
    assert_eq!(rt; frame.get(2, 1), Some(6));
    assert_eq!(rt; frame.get(3, 0), None);
    assert_eq!(rt; frame.get(0, 2), None);
    assert_eq!(rt; frame.into_words().as_slice(), [5, 6].as_slice());
    Ok(())
}

#[test]
fn pixel_written_whole_or_not(rt: HostRuntime) -> Result<(), Fail> {
    let mut frame = Planar::new(Vec::from_elem(rt.alloc(), 9u32, 6)?, 2);
    let inside = [
        Sample {
            channel: 1,
            word: 7,
        },
        Sample {
            channel: 0,
            word: 8,
        },
    ];
    let outside = [
        Sample {
            channel: 0,
            word: 1,
        },
        Sample {
            channel: 2,
            word: 1,
        },
    ];
    assert!(rt; write_pixel(&mut frame, 1, &inside).is_ok());
    assert!(rt; write_pixel(&mut frame, 1, &outside).is_err());
    assert!(rt; write_pixel(&mut frame, 3, &inside).is_err());
    assert_eq!(rt;
        frame.into_words().as_slice(),
        [9, 8, 9, 9, 7, 9].as_slice()
    );
    Ok(())
}
