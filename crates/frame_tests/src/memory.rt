use frame::packed::Packed;
use frame::planar::Planar;
use frame::relabelled::Relabelled;
use frame::writable::Writable;
use std::test::Fail;

/// Asks for a put at many places, inside and outside.
fn put_everywhere<F: Writable>(frame: &mut F) {
    for pixel in 0..5 {
        for channel in 0..4 {
            let _ = frame.put(pixel, channel, 1);
        }
    }
}

#[test]
fn words_beyond_the_pixels_stay(rt: HostRuntime) -> Result<(), Fail> {
    let mut frame = Planar::new(Vec::from_elem(rt.alloc(), 9u32, 8)?, 3);
    put_everywhere(&mut frame);
    assert_eq!(rt;
        frame.into_words().as_slice(),
        [1, 1, 1, 1, 1, 1, 9, 9].as_slice()
    );
    Ok(())
}

#[test]
fn bytes_beyond_the_pixels_stay(rt: HostRuntime) -> Result<(), Fail> {
    let mut frame = Packed::new(Vec::from_elem(rt.alloc(), 9u8, 15)?, 3);
    put_everywhere(&mut frame);
    assert_eq!(rt;
        frame.into_bytes().as_slice(),
        [0, 0, 0, 1, 0, 0, 0, 1, 0, 0, 0, 1, 9, 9, 9].as_slice()
    );
    Ok(())
}

#[test]
fn memory_of_no_frame_stays(rt: HostRuntime) -> Result<(), Fail> {
    let mut frame = Planar::new(Vec::from_elem(rt.alloc(), 9u32, 4)?, 9);
    put_everywhere(&mut frame);
    assert_eq!(rt; frame.into_words().as_slice(), [9, 9, 9, 9].as_slice());
    Ok(())
}

#[test]
fn channels_not_in_the_list_stay(rt: HostRuntime) -> Result<(), Fail> {
    let below = Planar::new(Vec::from_elem(rt.alloc(), 9u32, 7)?, 3);
    let mut frame = Relabelled::new(below, &[2, 0]);
    put_everywhere(&mut frame);
    assert_eq!(rt;
        frame.into_below().into_words().as_slice(),
        [1, 1, 9, 9, 1, 1, 9].as_slice()
    );
    Ok(())
}
