use frame::field::Field;
use frame::packed::Packed;
use frame::planar::Planar;
use frame::readable::Readable;
use std::alloc::{AllocError, Global};
use std::test::Fail;

/// The pixel and channel counts of the frame that `new` makes of so many cells and a number of channels, or of pixels.
fn counts<T: Clone + Drop, F: Readable + Drop, N: FnOnce(Vec<T>, usize) -> F>(
    heap: Global,
    new: N,
    cell: T,
    cells: usize,
    number: usize,
) -> Result<(usize, usize), AllocError>
    requires { N.IsAlwaysCallable new }
{
    let frame = new(Vec::from_elem(heap, cell, cells)?, number);
    Ok((frame.pixels(), frame.channels()))
}

#[test]
fn planar_channels(rt: HostRuntime) -> Result<(), Fail> {
    let heap = rt.alloc();
    assert_eq!(rt; counts(heap, Planar::new, 1u32, 24, 0)?, (0, 0));
    assert_eq!(rt; counts(heap, Planar::new, 1u32, 24, 1)?, (24, 1));
    assert_eq!(rt; counts(heap, Planar::new, 1u32, 24, 8)?, (3, 8));
    assert_eq!(rt; counts(heap, Planar::new, 1u32, 24, 9)?, (0, 0));
    assert_eq!(rt; counts(heap, Planar::new, 1u32, 24, usize::MAX)?, (0, 0));
    Ok(())
}

#[test]
fn planar_whole_pixels(rt: HostRuntime) -> Result<(), Fail> {
    let heap = rt.alloc();
    assert_eq!(rt; counts(heap, Planar::new, 1u32, 0, 3)?, (0, 3));
    assert_eq!(rt; counts(heap, Planar::new, 1u32, 2, 3)?, (0, 3));
    assert_eq!(rt; counts(heap, Planar::new, 1u32, 3, 3)?, (1, 3));
    assert_eq!(rt; counts(heap, Planar::new, 1u32, 11, 3)?, (3, 3));
    Ok(())
}

#[test]
fn planar_most_pixels(rt: HostRuntime) -> Result<(), Fail> {
    let heap = rt.alloc();
    assert_eq!(rt;
        counts(heap, Planar::new, 1u32, 16_777_215, 1)?,
        (16_777_215, 1)
    );
    assert_eq!(rt;
        counts(heap, Planar::new, 1u32, 16_777_216, 1)?,
        (16_777_216, 1)
    );
    assert_eq!(rt;
        counts(heap, Planar::new, 1u32, 16_777_217, 1)?,
        (16_777_216, 1)
    );
    Ok(())
}

#[test]
fn packed_channels(rt: HostRuntime) -> Result<(), Fail> {
    let heap = rt.alloc();
    assert_eq!(rt; counts(heap, Packed::new, 1u8, 96, 0)?, (0, 0));
    assert_eq!(rt; counts(heap, Packed::new, 1u8, 96, 1)?, (24, 1));
    assert_eq!(rt; counts(heap, Packed::new, 1u8, 96, 8)?, (3, 8));
    assert_eq!(rt; counts(heap, Packed::new, 1u8, 96, 9)?, (0, 0));
    Ok(())
}

#[test]
fn packed_whole_pixels(rt: HostRuntime) -> Result<(), Fail> {
    let heap = rt.alloc();
    assert_eq!(rt; counts(heap, Packed::new, 1u8, 11, 3)?, (0, 3));
    assert_eq!(rt; counts(heap, Packed::new, 1u8, 12, 3)?, (1, 3));
    assert_eq!(rt; counts(heap, Packed::new, 1u8, 47, 3)?, (3, 3));
    Ok(())
}

#[test]
fn packed_most_pixels(rt: HostRuntime) -> Result<(), Fail> {
    let heap = rt.alloc();
    assert_eq!(rt;
        counts(heap, Packed::new, 1u8, 67_108_863, 1)?,
        (16_777_215, 1)
    );
    assert_eq!(rt;
        counts(heap, Packed::new, 1u8, 67_108_868, 1)?,
        (16_777_216, 1)
    );
    Ok(())
}

#[test]
fn field_limits(rt: HostRuntime) -> Result<(), Fail> {
    let heap = rt.alloc();
    assert_eq!(rt; counts(heap, Field::new, 1u32, 0, 5)?, (0, 0));
    assert_eq!(rt; counts(heap, Field::new, 1u32, 1, 0)?, (0, 1));
    assert_eq!(rt;
        counts(heap, Field::new, 1u32, 8, 16_777_216)?,
        (16_777_216, 8)
    );
    assert_eq!(rt; counts(heap, Field::new, 1u32, 8, 16_777_217)?, (0, 0));
    assert_eq!(rt; counts(heap, Field::new, 1u32, 9, 5)?, (0, 0));
    Ok(())
}
