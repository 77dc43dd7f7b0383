// The edges of a node, as a text that is made edge by edge.
ghost use Rattle.std.specs.Prelude.{◌≡◌, ◌+◌, ◌<◌, ◌^◌, ◌++◌, OnOk, length};
ghost use Rattle.se_walks.specs.WalkTexts.{edge_item, end_item};

use crate::EdgeTexts;
use crate::ends_texts::push_edge;
use pol_texts::push_decimal;
use se_items::Pieces;
use std::alloc::AllocError;

/// The edges between a node and others, from a number on.
#[derive(Drop)]
pub struct EdgeItems<'q, T> {
    pub texts: &'q T,
    pub node: u32,
    // the edges come from the others
    pub reverse: bool,
    pub ends: &'q [u32],
    pub number: u64,
    pub ghost fits: { number + length ends.now < 2 ^ 64 },
}

impl<T: EdgeTexts> Pieces for EdgeItems<'_, T> {
    ghost use Rattle.std.specs.Prelude.{⊤};
    ghost use Rattle.se_walks.specs.Inner.EdgeItems.{edges_left};

    ghost left = { edges_left T.words };

    ghost stands = { λ _. ⊤ };

    fn push_piece(&mut self, buffer: &mut Vec<u8>) -> Result<bool, AllocError> {
        let Some((end, others)) = self.ends.split_first() else {
            return Ok(false);
        };
        push_end(
            self.texts,
            self.number,
            self.node,
            self.reverse,
            *end,
            buffer,
        )?;
        self.ends = others;
        self.number += 1;
        Ok(true)
    }
}

// Adds the item of the edge to a node or, in the reverse, from it.
fn push_end<T: EdgeTexts>(
    texts: &T,
    number: u64,
    node: u32,
    reverse: bool,
    end: u32,
    buffer: &mut Vec<u8>,
) -> Result<(), AllocError>
    ensures { OnOk result (buffer.new.items ≡ buffer.old.items ++ end_item (T.words texts.now) node reverse number end) }
{
    if reverse {
        push_edge_item(texts, number, end, node, buffer)
    } else {
        push_edge_item(texts, number, node, end, buffer)
    }
}

// Adds the item of an edge.
#[tactic(auto, unfolding(crate::specs::WalkTexts::edge_item))]
fn push_edge_item<T: EdgeTexts>(
    texts: &T,
    number: u64,
    from: u32,
    to: u32,
    buffer: &mut Vec<u8>,
) -> Result<(), AllocError>
    ensures { OnOk result (buffer.new.items ≡ buffer.old.items ++ edge_item (T.words texts.now) number from to) }
{
    buffer.extend_from_slice(texts.word())?;
    buffer.extend_from_slice(b" ")?;
    push_decimal(buffer, number)?;
    buffer.extend_from_slice(b": ")?;
    push_edge(texts, b"   ", from, to, buffer)
}
