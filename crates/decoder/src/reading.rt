// A reading: a condition and one kind with its own fields. It keeps every field that decides what the
// word does when it runs, each as the number that stands in the word. The questions (`question::names` and
// the others) answer for every number there, so a bit, an operation or a condition is no bool and no
// enum: either would ask more of their callers.

// What a data word works on beside Rn.
#[derive(Clone, Copy, Debug, PartialEq, Eq)]
pub enum Operand {
    // Bits 7..0, rotated right by twice bits 11..8.
    Immediate { rotation: u32, byte: u32 },
    // Rm, shifted by bits 11..7; bits 6..5 say how.
    Shifted { shift: u32, amount: u32, rm: u32 },
    // Rm, shifted by Rs.
    ShiftedByRs { shift: u32, rs: u32, rm: u32 },
}

#[derive(Clone, Copy, Debug, PartialEq, Eq)]
pub struct DataFields {
    pub operation: u32,
    pub s: u32,
    pub rn: u32,
    pub rd: u32,
    pub operand: Operand,
}

#[derive(Clone, Copy, Debug, PartialEq, Eq)]
pub struct MultiplyFields {
    pub accumulate: u32,
    pub s: u32,
    // Bits 19..16, the register written.
    pub target: u32,
    // Bits 15..12, the register added where the word accumulates.
    pub added: u32,
    pub rs: u32,
    pub rm: u32,
}

// What an access moves.
#[derive(Clone, Copy, Debug, PartialEq, Eq)]
pub enum Moved {
    // A word, or a byte where b is 1.
    Word { b: u32, rt: u32, distance: u32 },
    // A halfword where part, bits 6..5, is 1; a signed byte where it is 2, a signed halfword where 3.
    Halfword { part: u32, rt: u32, distance: u32 },
    // A word for each register whose bit of the list is set.
    Registers { list: u32 },
}

// What all accesses have, and what is moved. W writes the base back; so does P = 0, but of a list, where
// P only says whether a step comes before each word or after it.
#[derive(Clone, Copy, Debug, PartialEq, Eq)]
pub struct AccessFields {
    pub p: u32,
    pub u: u32,
    pub w: u32,
    pub l: u32,
    pub rn: u32,
    pub moved: Moved,
}

// Why a word is in no class: the first of these that holds.
#[derive(Clone, Copy, Debug, PartialEq, Eq)]
pub enum Why {
    // The condition is 15.
    Condition15 = 1,
    // Bits 27..24 are 15.
    SystemCall = 2,
    // Bits 27..25 are 011, and bit 4 is 0.
    RegisterIndexed = 3,
    // None of the above.
    Unlisted = 4,
}

#[derive(Clone, Copy, Debug, PartialEq, Eq)]
pub enum Kind {
    // The word is in no class.
    NoClass(Why),
    Data(DataFields),
    // top is 1 for movt and 0 for movw; number is all sixteen bits.
    HalfMove { top: u32, rd: u32, number: u32 },
    Nop,
    Multiply(MultiplyFields),
    // An access that is no literal load.
    Access(AccessFields),
    LiteralLoad { u: u32, rt: u32, distance: u32 },
    // offset is bits 23..0, not yet signed.
    Branch { call: u32, offset: u32 },
    RegisterBranch { call: u32, rm: u32 },
    // The literal head, in slot 0.
    Head,
    // A word after a literal head: any value. low is bits 27..0.
    Literal { low: u32 },
}

#[derive(Clone, Copy, Debug, PartialEq, Eq)]
pub struct Reading {
    pub condition: u32,
    pub kind: Kind,
}
