// The numbers in a diagram's header.

// Signals, positions, start and records of a drawn game.
#[derive(Clone, Copy, PartialEq, Eq, Debug)]
pub struct Shape {
    pub inputs: u8,
    pub outputs: u8,
    pub size: u8,
    pub start: u8,
    pub records: u16,
}
