// What stands at a place of a pattern or value, as the code tells it; the definitions and laws of patterns.
#![tactic(auto)]

// A piece; a class is told by the place in the text of its first byte inside the brackets.
#[derive(Clone, Copy)]
pub enum PieceRead {
    Byte(u8),
    One,
    Star,
    StarStar,
    Class(usize),
}

// A part of a pattern or value: a piece, the use of the variable whose name stands from start to end in the text, or neither.
#[derive(Clone, Copy)]
pub enum PartRead {
    Is(PieceRead),
    Use { start: usize, end: usize },
    Bad,
}

// An item of a pattern: a part, or the alternatives that stand from start to end in the text.
#[derive(Clone, Copy)]
pub enum ItemRead {
    Single(PartRead),
    Among { start: usize, end: usize },
}
