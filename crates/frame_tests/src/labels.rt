use crate::{channels_of, get_first, put_first};
use frame::field::Field;
use frame::planar::Planar;
use frame::readable::Readable;
use frame::relabelled::Relabelled;
use frame::writable::Writable;
use std::alloc::{AllocError, Global};
use std::test::Fail;

/// A field of ten pixels and eight channels, whose words are 0 to 7.
fn eight(heap: Global) -> Result<Field, AllocError> {
    Ok(Field::new([0, 1, 2, 3, 4, 5, 6, 7].to_vec(heap)?, 10))
}

/// The pixel and channel counts of that field under these labels.
fn counts(heap: Global, labels: &[usize]) -> Result<(usize, usize), AllocError> {
    let frame = Relabelled::new(eight(heap)?, labels);
    Ok((frame.pixels(), frame.channels()))
}

#[test]
fn list_limits(rt: HostRuntime) -> Result<(), Fail> {
    let heap = rt.alloc();
    assert_eq!(rt; counts(heap, &[])?, (0, 0));
    assert_eq!(rt; counts(heap, &[7])?, (10, 1));
    assert_eq!(rt; counts(heap, &[8])?, (0, 0));
    assert_eq!(rt; counts(heap, &[3, 2, 3])?, (0, 0));
    assert_eq!(rt; counts(heap, &[7, 6, 5, 4, 3, 2, 1, 0])?, (10, 8));
    assert_eq!(rt; counts(heap, &[7, 6, 5, 4, 3, 2, 1, 0, 8])?, (0, 0));
    Ok(())
}

#[test]
fn field_below(rt: HostRuntime) -> Result<(), Fail> {
    let frame = Relabelled::new(eight(rt.alloc())?, &[5, 2]);
    assert_eq!(rt; get_first(&frame), Some(5));
    assert_eq!(rt; frame.get(9, 1), Some(2));
    assert_eq!(rt; frame.get(10, 0), None);
    assert_eq!(rt; frame.get(0, 2), None);
    assert_eq!(rt; frame.into_below().get(9, 7), Some(7));
    Ok(())
}

#[test]
fn planar_below(rt: HostRuntime) -> Result<(), Fail> {
    let below = Planar::new([1, 2, 3, 4, 5, 6].to_vec(rt.alloc())?, 3);
    let mut frame = Relabelled::new(below, &[2, 0]);
    assert!(rt; put_first(&mut frame, 7));
    assert!(rt; frame.put(1, 1, 8).is_ok());
    assert!(rt; frame.put(0, 2, 9).is_err());
    assert!(rt; frame.put(2, 0, 9).is_err());
    assert_eq!(rt;
        frame.into_below().into_words().as_slice(),
        [1, 8, 3, 4, 7, 6].as_slice()
    );
    Ok(())
}

#[test]
fn relabelled_below(rt: HostRuntime) -> Result<(), Fail> {
    let below = Planar::new([1, 2, 3, 4, 5, 6].to_vec(rt.alloc())?, 3);
    let mut frame = Relabelled::new(Relabelled::new(below, &[2, 0]), &[1]);
    assert_eq!(rt; frame.channels(), 1);
    assert_eq!(rt; channels_of(&frame), 1);
    assert_eq!(rt; frame.get(1, 0), Some(2));
    assert!(rt; frame.put(1, 0, 9).is_ok());
    assert!(rt; frame.put(1, 1, 9).is_err());
    assert_eq!(rt;
        frame.into_below().into_below().into_words().as_slice(),
        [1, 9, 3, 4, 5, 6].as_slice()
    );
    Ok(())
}
