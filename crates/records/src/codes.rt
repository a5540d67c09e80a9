//! What the codes of a record's fields say.
use vectors::Pairing;

/// A code that stands for nothing.
#[derive(Clone, Copy, PartialEq, Eq)]
pub struct UnknownCode;

/// What a variable is.
#[derive(Clone, Copy, PartialEq, Eq)]
pub enum Kind {
    Port,
    Register,
    Wire,
}

/// How a variable is labelled: by a level, or by a table and a selector.
#[derive(Clone, Copy, PartialEq, Eq)]
pub enum Form {
    Fixed,
    LookedUp,
}

/// What a block gives values to: wires, or registers.
#[derive(Clone, Copy, PartialEq, Eq)]
pub enum BlockKind {
    Settled,
    Clocked,
}

/// What a command does.
#[derive(Clone, Copy, PartialEq, Eq)]
pub enum Step {
    Idle,
    Both,
    Choose,
    Assign,
}

/// What an expression does.
#[derive(Clone, Copy, PartialEq, Eq)]
pub enum Operation {
    Constant,
    Variable,
    Not,
    Pair(Pairing),
    ShiftLeft,
    ShiftRight,
    Part,
    Above,
    Choose,
}

impl TryFrom<u8> for Kind {
    type Error = UnknownCode;

    ghost use Rattle.std.specs.Prelude.{◌≡◌};
    ghost use Rattle.std.specs.Result.{result_ok};
    ghost use Rattle.records.specs.Codes.{kind_from};

    ghost try_from_gives = { λ code r. result_ok r ≡ kind_from code };

    fn try_from(code: u8) -> Result<Kind, UnknownCode> {
        match code {
            0 => Ok(Kind::Port),
            1 => Ok(Kind::Register),
            2 => Ok(Kind::Wire),
            _ => Err(UnknownCode),
        }
    }
}

impl TryFrom<u8> for Form {
    type Error = UnknownCode;

    ghost use Rattle.std.specs.Prelude.{◌≡◌};
    ghost use Rattle.std.specs.Result.{result_ok};
    ghost use Rattle.records.specs.Codes.{form_from};

    ghost try_from_gives = { λ code r. result_ok r ≡ form_from code };

    fn try_from(code: u8) -> Result<Form, UnknownCode> {
        match code {
            0 => Ok(Form::Fixed),
            1 => Ok(Form::LookedUp),
            _ => Err(UnknownCode),
        }
    }
}

impl TryFrom<u32> for BlockKind {
    type Error = UnknownCode;

    ghost use Rattle.std.specs.Prelude.{◌≡◌};
    ghost use Rattle.std.specs.Result.{result_ok};
    ghost use Rattle.records.specs.Codes.{block_kind_from};

    ghost try_from_gives = { λ code r. result_ok r ≡ block_kind_from code };

    fn try_from(code: u32) -> Result<BlockKind, UnknownCode> {
        match code {
            0 => Ok(BlockKind::Settled),
            1 => Ok(BlockKind::Clocked),
            _ => Err(UnknownCode),
        }
    }
}

impl TryFrom<u32> for Step {
    type Error = UnknownCode;

    ghost use Rattle.std.specs.Prelude.{◌≡◌};
    ghost use Rattle.std.specs.Result.{result_ok};
    ghost use Rattle.records.specs.Codes.{step_from};

    ghost try_from_gives = { λ code r. result_ok r ≡ step_from code };

    fn try_from(code: u32) -> Result<Step, UnknownCode> {
        match code {
            0 => Ok(Step::Idle),
            1 => Ok(Step::Both),
            2 => Ok(Step::Choose),
            3 => Ok(Step::Assign),
            _ => Err(UnknownCode),
        }
    }
}

impl TryFrom<u8> for Operation {
    type Error = UnknownCode;

    ghost use Rattle.std.specs.Prelude.{◌≡◌};
    ghost use Rattle.std.specs.Result.{result_ok};
    ghost use Rattle.records.specs.Codes.{operation_from};

    ghost try_from_gives = { λ code r. result_ok r ≡ operation_from code };

    fn try_from(code: u8) -> Result<Operation, UnknownCode> {
        Ok(match code {
            0 => Operation::Constant,
            1 => Operation::Variable,
            2 => Operation::Not,
            3 => Operation::Pair(Pairing::And),
            4 => Operation::Pair(Pairing::Or),
            5 => Operation::Pair(Pairing::Xor),
            6 => Operation::Pair(Pairing::Sum),
            7 => Operation::Pair(Pairing::Difference),
            8 => Operation::Pair(Pairing::Equals),
            9 => Operation::Pair(Pairing::Less),
            10 => Operation::ShiftLeft,
            11 => Operation::ShiftRight,
            12 => Operation::Part,
            13 => Operation::Above,
            14 => Operation::Choose,
            _ => return Err(UnknownCode),
        })
    }
}
