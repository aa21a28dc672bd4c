// The status page: one row for each live process.
#![tactic(auto)]

pub mod live;
pub mod page;

// A row, as C has it: five bytes and no padding.
#[repr(C)]
#[derive(Clone, Copy, PartialEq, Eq, Debug)]
pub struct Row {
    pub number: u8,
    // 1 current, 2 ready, 3 suspended, 4 waiting.
    pub state: u8,
    pub priority: u8,
    // What a waiter waits for, and its place in that queue counted from 1; 0 and 0 of the others.
    pub awaited: u8,
    pub place: u8,
}
