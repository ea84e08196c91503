ghost use Rattle.std.specs.Prelude.{◌≡◌};
ghost use Rattle.frame.specs.Size.{channels_ok, kept, fitting, has_sample};

/// The most channels that a frame has.
pub(crate) const MOST_CHANNELS: usize = 8;

/// The most pixels that a frame has.
const MOST_PIXELS: usize = 16_777_216;

/// Is this a number of channels that a frame may have?
pub(crate) fn channels_suit(channels: usize) -> bool
    ensures { result ≡ channels_ok channels }
{
    (1..=MOST_CHANNELS).contains(&channels)
}

/// How many pixels and channels a frame has.
#[derive(Clone, Copy, Default)]
pub(crate) struct Size {
    pub(crate) pixels: usize,
    pub(crate) channels: usize,
}

impl Size {
    /// So many pixels and channels: none of either outside the limits.
    pub(crate) fn new(pixels: usize, channels: usize) -> Size
        ensures { result ≡ kept pixels channels }
    {
        if channels_suit(channels) && pixels <= MOST_PIXELS {
            Size { pixels, channels }
        } else {
            Size::default()
        }
    }

    /// As many whole pixels of so many channels as these samples make, within the limits.
    pub(crate) fn fitting(samples: usize, channels: usize) -> Size
        ensures { result ≡ fitting samples channels }
    {
        let pixels = samples.checked_div(channels).unwrap_or(0);
        Size::new(pixels.min(MOST_PIXELS), channels)
    }

    /// Is there such a sample?
    pub(crate) fn has(self, pixel: usize, channel: usize) -> bool
        ensures { result ≡ has_sample self pixel channel }
    {
        pixel < self.pixels && channel < self.channels
    }
}
