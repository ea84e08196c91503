//! Pixels that run together: docs/RULES.md, "Rounds" and "The built-in transform". The expected rounds are worked out by hand.
use engine::batch::Batch;
use engine::budget::Budget;
use engine::settings::Settings;
use number::fixed::Fixed;
use std::test::Fail;
use transform::fork;

// The words of a pixel that has one only in channel 0.
fn words(first: u32) -> [u32; 8] {
    [first, 0, 0, 0, 0, 0, 0, 0]
}

// Ending, place, steps and the word of register 1, the output, of a pixel of the batch, if there is such a pixel at its end.
fn seen(batch: &Batch, index: usize) -> Option<(u8, u16, u16, u32)> {
    let pixel = batch.pixel(index)?;
    let ending = pixel.ending?;
    Some((
        ending.number(),
        pixel.place,
        pixel.steps,
        pixel.registers[1],
    ))
}

fn rounds(steps: u16, inputs: &[[u32; 8]], batch: &mut Batch) -> Result<u32, Fail> {
    let settings = Settings {
        transform: fork(),
        budget: Budget::new(steps)?,
        uniforms: &[],
    };
    Ok(settings.run_together::<Fixed>(inputs, batch))
}

#[test]
fn two_pixels_part_and_take_four_rounds(rt: HostRuntime) -> Result<(), Fail> {
    let mut batch = Batch::new();
    assert_eq!(rt; rounds(3, &[words(32768), words(131072)], &mut batch)?, 4);
    assert_eq!(rt; seen(&batch, 0), Some((0, 0, 3, 32768)));
    assert_eq!(rt; seen(&batch, 1), Some((0, 0, 3, 196608)));
    Ok(())
}

#[test]
fn two_pixels_spend_a_budget_of_two_steps_in_two_rounds(rt: HostRuntime) -> Result<(), Fail> {
    let mut batch = Batch::new();
    assert_eq!(rt; rounds(2, &[words(32768), words(131072)], &mut batch)?, 2);
    assert_eq!(rt; seen(&batch, 0), Some((4, 3, 2, 0)));
    assert_eq!(rt; seen(&batch, 1), Some((4, 4, 2, 0)));
    Ok(())
}

#[test]
fn pixels_that_go_one_way_take_a_round_for_each_step(rt: HostRuntime) -> Result<(), Fail> {
    let mut batch = Batch::new();
    assert_eq!(rt; rounds(3, &[words(32768); 64], &mut batch)?, 3);
    assert_eq!(rt; seen(&batch, 63), Some((0, 0, 3, 32768)));
    assert_eq!(rt; rounds(3, &[words(131072)], &mut batch)?, 3);
    Ok(())
}

#[test]
fn no_pixel_takes_no_round_and_a_batch_has_room_for_64(rt: HostRuntime) -> Result<(), Fail> {
    let mut batch = Batch::new();
    assert_eq!(rt; rounds(3, &[], &mut batch)?, 0);
    // only the last of 65 would part from the others, and it is past the room
    let mut inputs = [words(32768); 65];
    inputs[64] = words(131072);
    assert_eq!(rt; rounds(3, &inputs, &mut batch)?, 3);
    assert_eq!(rt; batch.pixel(64).is_none(), true);
    Ok(())
}
