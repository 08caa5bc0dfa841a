// Gate lists: their form, the values of their lines, and the card that each is drawn as. Definitions and laws, in specs/ and proofs/; here the functions of gates.
#![tactic(auto)]

ghost use Rattle.std.specs.Prelude.{◌≡◌};
ghost use Rattle.gatelist.specs.Drawn.{controlling, complements};
ghost use Rattle.gatelist.specs.Functions.{function_number, FunctionTold};

// What a gate has of its leads, in the order of the numbers in bits 28..26 of its header.
#[derive(Clone, Copy, PartialEq, Eq, Debug)]
pub enum Function {
    And,
    Or,
    Nand,
    Nor,
    Not,
    Buf,
}

// The function of the gate whose header is w, if there is one of that number.
pub fn function_of(w: u32) -> Option<Function>
    ensures { FunctionTold w result }
{
    match word32::gate_function(w) {
        0 => Some(Function::And),
        1 => Some(Function::Or),
        2 => Some(Function::Nand),
        3 => Some(Function::Nor),
        4 => Some(Function::Not),
        5 => Some(Function::Buf),
        _ => None,
    }
}

impl Function {
    // The value of a lead that decides the gate, whatever the others have.
    pub fn controlling(self) -> u32
        ensures { result ≡ controlling (function_number self) }
    {
        match self {
            Function::Or | Function::Nor => 1,
            _ => 0,
        }
    }

    // Whether the gate has the complement of what AND, OR or its only lead has.
    pub fn complements(self) -> bool
        ensures { result ≡ complements (function_number self) }
    {
        matches!(self, Function::Nand | Function::Nor | Function::Not)
    }
}
