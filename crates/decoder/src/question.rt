// What is asked of a reading's kind. The rules look at the answers and never at the kind.
ghost use Rattle.std.specs.Prelude.{◌≡◌};
ghost use Rattle.decoder.specs.Question.{operand_names, multiply_names, moved_names, register_list, names, base_of, branch_register, writes_sp, keeps_flags, takes_sp, is_call, in_no_class, why_number, transfer_bytes};

use crate::access::list_names;
use crate::reading::{Kind, Moved, MultiplyFields, Operand, Why};
use crate::word::{is_compare, is_move};

// How many registers there are.
pub const REGISTERS: u32 = 16;

// Those that the rules speak of.
pub const THREAD: u32 = 9;

pub const SP: u32 = 13;

pub const PC: u32 = 15;

#[tactic(auto, unfolding(crate::specs::Question::operand_names))]
fn operand_names(r: u32, operand: Operand) -> bool
    ensures { result ≡ operand_names r operand }
{
    match operand {
        Operand::Immediate { .. } => false,
        Operand::Shifted { rm, .. } => rm == r,
        Operand::ShiftedByRs { rs, rm, .. } => (rm == r) | (rs == r),
    }
}

fn multiply_names(r: u32, fields: MultiplyFields) -> bool
    ensures { result ≡ multiply_names r fields }
{
    (fields.target == r)
        | (fields.rs == r)
        | (fields.rm == r)
        | ((fields.accumulate == 1) & (fields.added == r))
}

fn moved_names(r: u32, moved: Moved) -> bool
    ensures { result ≡ moved_names r moved }
{
    match moved {
        Moved::Word { rt, .. } | Moved::Halfword { rt, .. } => rt == r,
        Moved::Registers { list } => list_names(r, list),
    }
}

// The list, empty where one register is moved.
fn register_list(moved: Moved) -> u32
    ensures { result ≡ register_list moved }
{
    match moved {
        Moved::Word { .. } | Moved::Halfword { .. } => 0,
        Moved::Registers { list } => list,
    }
}

// A register field of the word is r, or its list names r; a literal load's base is left out.
#[tactic(auto, unfolding(crate::specs::Question::names))]
pub fn names(r: u32, kind: Kind) -> bool
    ensures { result ≡ names r kind }
{
    match kind {
        Kind::Data(fields) => {
            (!is_compare(fields.operation) & (fields.rd == r))
                | (!is_move(fields.operation) & (fields.rn == r))
                | operand_names(r, fields.operand)
        }
        Kind::HalfMove { rd, .. } => rd == r,
        Kind::Multiply(fields) => multiply_names(r, fields),
        Kind::Access(fields) => (fields.rn == r) | moved_names(r, fields.moved),
        Kind::LiteralLoad { rt, .. } => rt == r,
        Kind::RegisterBranch { rm, .. } => rm == r,
        _ => false,
    }
}

// The register that an access goes through.
#[tactic(auto, unfolding(crate::specs::Question::base_of))]
pub fn base(kind: Kind) -> Option<u32>
    ensures { result ≡ base_of kind }
{
    match kind {
        Kind::Access(fields) => Some(fields.rn),
        _ => None,
    }
}

// The register that a register branch goes to.
#[tactic(auto, unfolding(crate::specs::Question::branch_register))]
pub fn branch_register(kind: Kind) -> Option<u32>
    ensures { result ≡ branch_register kind }
{
    match kind {
        Kind::RegisterBranch { rm, .. } => Some(rm),
        _ => None,
    }
}

// A data word that writes r13.
#[tactic(auto, unfolding(crate::specs::Question::writes_sp))]
pub fn writes_sp(kind: Kind) -> bool
    ensures { result ≡ writes_sp kind }
{
    matches!(kind, Kind::Data(fields) if !is_compare(fields.operation) & (fields.rd == SP))
}

// A data word with S = 0.
#[tactic(auto, unfolding(crate::specs::Question::keeps_flags))]
pub fn keeps_flags(kind: Kind) -> bool
    ensures { result ≡ keeps_flags kind }
{
    matches!(kind, Kind::Data(fields) if fields.s == 0)
}

// r13 is written by a load or a half move, or named by a list, also to store, a multiply or a
// register branch.
#[tactic(auto, unfolding(crate::specs::Question::takes_sp))]
pub fn takes_sp(kind: Kind) -> bool
    ensures { result ≡ takes_sp kind }
{
    match kind {
        Kind::HalfMove { rd, .. } => rd == SP,
        Kind::Multiply(fields) => multiply_names(SP, fields),
        Kind::Access(fields) => {
            ((fields.l == 1) & moved_names(SP, fields.moved))
                | list_names(SP, register_list(fields.moved))
        }
        Kind::LiteralLoad { rt, .. } => rt == SP,
        Kind::RegisterBranch { rm, .. } => rm == SP,
        _ => false,
    }
}

// A branch with bit 24, or blx.
#[tactic(auto, unfolding(crate::specs::Question::is_call))]
pub fn is_call(kind: Kind) -> bool
    ensures { result ≡ is_call kind }
{
    match kind {
        Kind::Branch { call, .. } | Kind::RegisterBranch { call, .. } => call == 1,
        _ => false,
    }
}

// The word is in no class.
#[tactic(auto, unfolding(crate::specs::Question::in_no_class))]
pub fn in_no_class(kind: Kind) -> bool
    ensures { result ≡ in_no_class kind }
{
    matches!(kind, Kind::NoClass(_))
}

// The number of a why, 1 to 4.
impl From<Why> for u32 {
    ghost from_gives = { λ why number. number ≡ why_number why };

    fn from(why: Why) -> u32 {
        why as u32
    }
}

// The bytes that a multiple transfer moves, and 0 of every other kind.
#[tactic(auto, unfolding(crate::specs::Question::transfer_bytes))]
pub fn transfer_bytes(kind: Kind) -> u32
    ensures { result ≡ transfer_bytes kind }
{
    let Kind::Access(fields) = kind else {
        return 0;
    };
    4 * (register_list(fields.moved) % 0x1_0000).count_ones()
}
