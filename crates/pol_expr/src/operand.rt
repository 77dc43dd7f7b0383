//! Texts of operands, as an expression's text is made of them.

ghost use Rattle.std.specs.Prelude.{◌≡◌, ◌++◌, true, false, IfOk, OnOk};
ghost use Rattle.pol_expr.specs.Infix.{enclosed_text};

use std::alloc::{AllocError, Global};
use std::collections::VecDeque;
use std::marker::Model;

/// The text of an operand, and whether its own operator stands between two operands. A text grows at both ends.
#[derive(Drop)]
pub struct Operand {
    text: VecDeque<u8>,
    is_binary: bool,
}

impl Model for Operand {
    ghost use Rattle.pol_expr.specs.Infix.{Operand};

    ghost Value = { Operand };

    ghost view = { λ o. record { text = o.text.items; is_binary = o.is_binary } };
}

impl Operand {
    /// The operand that is a leaf.
    pub fn leaf(alloc: Global, text: &[u8]) -> Result<Operand, AllocError>
        ensures { IfOk result (λ o. o ≡ record { text = text.now; is_binary = false }) }
    {
        Ok(Operand::from_text(Vec::from_slice(alloc, text)?))
    }

    /// The operand that is a leaf, of an owned text.
    pub fn from_text(text: Vec<u8>) -> Operand
        ensures { result ≡ record { text = text.items; is_binary = false } }
    {
        Operand {
            text: VecDeque::from_vec(text),
            is_binary: false,
        }
    }

    /// The operand negated by a word before it.
    pub fn negated(self, word: &[u8]) -> Result<Operand, AllocError>
        ensures { IfOk result (λ o. o ≡ record { text = word.now ++ enclosed_text self; is_binary = false }) }
    {
        let mut text = self.enclosed()?;
        push_front(&mut text, word)?;
        Ok(Operand {
            text,
            is_binary: false,
        })
    }

    /// The operand and one to its right, joined by a word between them.
    pub fn joined(self, word: &[u8], right: Operand) -> Result<Operand, AllocError>
        ensures { IfOk result (λ o. o ≡ record { text = enclosed_text self ++ word.now ++ enclosed_text right; is_binary = true }) }
    {
        let mut left = self.enclosed()?;
        push_back(&mut left, word)?;
        left.append(&mut right.enclosed()?)?;
        Ok(Operand {
            text: left,
            is_binary: true,
        })
    }

    /// The text alone.
    pub fn into_text(self) -> Vec<u8>
        ensures { result.items ≡ self.text }
    {
        self.text.into_vec()
    }

    // The text, in parentheses where the operator stands between two operands.
    fn enclosed(self) -> Result<VecDeque<u8>, AllocError>
        ensures { IfOk result (λ text. text.items ≡ enclosed_text self) }
    {
        let Operand {
            mut text,
            is_binary,
        } = self;
        if is_binary {
            text.push_front(b'(')?;
            text.push_back(b')')?;
        }
        Ok(text)
    }
}

// Puts a word before a text.
fn push_front(text: &mut VecDeque<u8>, word: &[u8]) -> Result<(), AllocError>
    ensures { OnOk result (text.new.items ≡ word.now ++ text.old.items) }
{
    for i in 0..word.len() {
        text.push_front(word[word.len() - i - 1])?;
    }
    Ok(())
}

// Puts a word behind a text.
fn push_back(text: &mut VecDeque<u8>, word: &[u8]) -> Result<(), AllocError>
    ensures { OnOk result (text.new.items ≡ text.old.items ++ word.now) }
{
    for byte in word {
        text.push_back(*byte)?;
    }
    Ok(())
}
