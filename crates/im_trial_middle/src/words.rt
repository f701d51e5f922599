use im_num::{Cause, Kind};
use im_serve::Service;
use im_store::{BinaryOp, Comparison, UnaryOp};
use im_trial::{Case, Stop};

/// What is left of a line of code, whose words blanks part. A word that is no such thing ends the
/// case, which goes on with another.
#[derive(Drop)]
pub(crate) struct Left<'a> {
    text: &'a str,
    /// The number of an access in the line.
    access: u64,
}

impl<'a> Left<'a> {
    pub(crate) fn new(text: &'a str, access: u64) -> Left<'a> {
        Left { text, access }
    }

    pub(crate) fn access(&self) -> u64 {
        self.access
    }

    /// The next word, and nothing behind the last.
    pub(crate) fn word(&mut self) -> &'a str {
        match self.text.split_once(' ') {
            Some((word, rest)) => {
                self.text = rest;
                word
            }
            None => {
                let word = self.text;
                self.text = "";
                word
            }
        }
    }

    /// A number of 32 bits: a register, a slot, a block, an object, an offset, or how many.
    pub(crate) fn small(&mut self, case: &mut Case) -> u32 {
        let word = self.word();
        case.small(word)
    }

    /// A register, and none behind the last word.
    pub(crate) fn register_left(&mut self, case: &mut Case) -> Option<u32> {
        if self.text.is_empty() {
            return None;
        }
        Some(self.small(case))
    }

    /// A number, maybe with a sign.
    pub(crate) fn number(&mut self, case: &mut Case) -> i128 {
        let word = self.word();
        i128::from(case.number(word))
    }

    pub(crate) fn kind(&mut self, case: &mut Case) -> Kind {
        match self.word() {
            "I8" => Kind::I8,
            "U8" => Kind::U8,
            "I16" => Kind::I16,
            "U16" => Kind::U16,
            "I32" => Kind::I32,
            "U32" => Kind::U32,
            "Ptr" => Kind::Ptr,
            _ => {
                case.end(Stop::Row);
                Kind::I32
            }
        }
    }

    pub(crate) fn unary(&mut self, case: &mut Case) -> UnaryOp {
        match self.word() {
            "Negate" => UnaryOp::Negate,
            "Complement" => UnaryOp::Complement,
            _ => {
                case.end(Stop::Row);
                UnaryOp::Negate
            }
        }
    }

    pub(crate) fn operator(&mut self, case: &mut Case) -> BinaryOp {
        match self.word() {
            "Add" => BinaryOp::Add,
            "Subtract" => BinaryOp::Subtract,
            "Multiply" => BinaryOp::Multiply,
            "Divide" => BinaryOp::Divide,
            "BitAnd" => BinaryOp::BitAnd,
            "BitOr" => BinaryOp::BitOr,
            "BitXor" => BinaryOp::BitXor,
            "ShiftLeft" => BinaryOp::ShiftLeft,
            "ShiftRight" => BinaryOp::ShiftRight,
            _ => {
                case.end(Stop::Row);
                BinaryOp::Add
            }
        }
    }

    pub(crate) fn comparison(&mut self, case: &mut Case) -> Comparison {
        match self.word() {
            "Less" => Comparison::Less,
            "Greater" => Comparison::Greater,
            "LessOrEqual" => Comparison::LessOrEqual,
            "GreaterOrEqual" => Comparison::GreaterOrEqual,
            "Equal" => Comparison::Equal,
            "NotEqual" => Comparison::NotEqual,
            _ => {
                case.end(Stop::Row);
                Comparison::Equal
            }
        }
    }

    pub(crate) fn cause(&mut self, case: &mut Case) -> Cause {
        match self.word() {
            "Entry" => Cause::Entry,
            "Return" => Cause::Return,
            "Loop" => Cause::Loop,
            _ => {
                case.end(Stop::Row);
                Cause::Return
            }
        }
    }

    pub(crate) fn service(&mut self, case: &mut Case) -> Service {
        match self.word() {
            "Getchar" => Service::Getchar,
            "Putchar" => Service::Putchar,
            _ => {
                case.end(Stop::Row);
                Service::Getchar
            }
        }
    }

    /// Whether the word is that of a move to lower offsets, `back`, or to higher ones, `on`.
    pub(crate) fn back(&mut self, case: &mut Case) -> bool {
        match self.word() {
            "back" => true,
            "on" => false,
            _ => {
                case.end(Stop::Row);
                false
            }
        }
    }

    /// Ends the case unless all words were read.
    pub(crate) fn finish(&self, case: &mut Case) {
        if !self.text.is_empty() {
            case.end(Stop::Row);
        }
    }
}
