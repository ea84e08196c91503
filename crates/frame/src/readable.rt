ghost use Rattle.std.specs.Prelude.{◌≡◌};
ghost use Rattle.frame.specs.Image.{Image, sample};

// A pixel and a channel, and no struct of both: a place is asked for once and kept by nobody.
/// A picture that can be read. Its meaning is an image, and no question changes it.
pub trait Readable {
    ghost image: { Self → Image };

    /// How many pixels there are.
    fn pixels(&self) -> usize
        ensures { result ≡ (image self.now).pixels };

    /// How many channels each pixel has.
    fn channels(&self) -> usize
        ensures { result ≡ (image self.now).channels };

    /// The word at a pixel and a channel, none outside.
    fn get(&self, pixel: usize, channel: usize) -> Option<u32>
        ensures { result ≡ sample (image self.now) pixel channel };
}
