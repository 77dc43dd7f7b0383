// The entries of ports.
use crate::context_entries::ComparedEntry;
use crate::key_elements::{context_alone, push_bytes, push_number};
use diff_entries::{Key, Part};
use pol_contexts::{PortRec, PortView};
use pol_symbols::Symbols;
use pol_texts::{push_ports_text, push_protocol_name};
use std::alloc::{AllocError, Global};

impl ComparedEntry for PortRec {
    ghost use Rattle.diff_contexts.specs.ContextEntries.{alone, port_head, port_key};

    ghost key_of = { port_key };

    ghost parts_of = { λ symbols port. alone symbols port.context };

    ghost head_of = { port_head };

    #[tactic(auto, unfolding(crate::specs::ContextEntries::port_key))]
    fn key(alloc: Global, port: &PortView<'_>) -> Result<Key, AllocError> {
        let mut protocol = Vec::new(alloc);
        push_protocol_name(&mut protocol, port.protocol())?;
        let mut key = Key::new(alloc);
        push_bytes(alloc, &mut key, &protocol)?;
        push_number(alloc, &mut key, port.low())?;
        push_number(alloc, &mut key, port.high())?;
        Ok(key)
    }

    fn parts<'a>(
        alloc: Global,
        symbols: &Symbols<'a>,
        port: &PortView<'_>,
    ) -> Result<Vec<Part<'a>>, AllocError> {
        context_alone(alloc, symbols, &port.context())
    }

    #[tactic(auto, unfolding(crate::specs::ContextEntries::port_head))]
    fn push_head(buffer: &mut Vec<u8>, port: &PortView<'_>) -> Result<(), AllocError> {
        buffer.extend_from_slice(b"portcon ")?;
        push_protocol_name(buffer, port.protocol())?;
        buffer.push(b' ')?;
        push_ports_text(buffer, port.low(), port.high())
    }
}
