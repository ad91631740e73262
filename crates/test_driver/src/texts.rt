//! What texts say, by the word that asks.
use crate::attributes::{attribute_line, attributes_line, decimal_line, hexadecimal_line};
use crate::durations::{duration_line, fraction_line, rounded_line, seconds_line, sum_line};
use crate::escapes::bytes_of;
use crate::sections::{rewritten_line, section_line};
use crate::values::{command_line, components_line, heading_line, program_line};
use attr_list::AttrFault;
use scte35_codec::SpliceFault;
use std::alloc::{AllocError, Global};
use std::io;
use std::io::Print;

fn memory_line(alloc: Global) -> Result<String, AllocError> {
    let (attributes, section) = (AttrFault::from(AllocError), SpliceFault::from(AllocError));
    format!(in alloc; "{attributes} {section}")
}

fn line_of(alloc: Global, word: &str, text: &str) -> Result<String, AllocError> {
    match word {
        "section" => section_line(alloc, text),
        "rewritten" => rewritten_line(alloc, text),
        "program" => program_line(alloc, text),
        "components" => components_line(alloc, text),
        "heading" => heading_line(alloc, text),
        "command" => command_line(alloc, text),
        "attributes" => attributes_line(alloc, text),
        "attribute" => attribute_line(alloc, text),
        "decimal" => decimal_line(alloc, text),
        "hexadecimal" => hexadecimal_line(alloc, text),
        "duration" => duration_line(alloc, text),
        "fraction" => fraction_line(alloc, text),
        "seconds" => seconds_line(alloc, text),
        "rounded" => rounded_line(alloc, text),
        "sum" => sum_line(alloc, text),
        "memory" => memory_line(alloc),
        _ => format!(in alloc; "no event"),
    }
}

/// Prints what the text that `body` stands for says, by the question `word`; or that its bytes are no text, or that
/// no question has this word.
pub(crate) fn print_text(rt: &impl Print, alloc: Global, word: &str, body: &str) -> io::Result<()> {
    let bytes = bytes_of(alloc, body)?;
    match std::str::from_utf8(bytes.as_slice()) {
        Ok(text) => println!(rt; "{}", line_of(alloc, word, text)?),
        Err(_) => println!(rt; "no text"),
    }
}
