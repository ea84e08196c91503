//! The patches of the certificate.

/// One patch: its name and one word for each channel.
#[derive(Clone, Copy)]
pub struct Patch {
    pub name: &'static str,
    pub inputs: [u32; 1],
}

/// Words on each side of 00010000h, where the built-in transform parts, and two with all or none of the upper bits: to fixed
/// the ends of its range, to float a negative zero and a NaN.
pub const PATCHES: [Patch; 6] = [
    Patch {
        name: "patch 1",
        inputs: [0x0000_8000],
    },
    Patch {
        name: "patch 2",
        inputs: [0x0002_0000],
    },
    Patch {
        name: "patch 3",
        inputs: [0x0001_0000],
    },
    Patch {
        name: "patch 4",
        inputs: [0x0000_ffff],
    },
    Patch {
        name: "patch 5",
        inputs: [0x8000_0000],
    },
    Patch {
        name: "patch 6",
        inputs: [0x7fff_ffff],
    },
];
