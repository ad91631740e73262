//! The lines of attribute lists, and of the numbers in them.
use crate::shown::push_shown;
use attr_list::{Attr, AttrList, read_decimal, read_hex_u128};
use std::alloc::{AllocError, Global};

/// Each attribute of the list `text` with its place, or the fault of the list.
pub(crate) fn attributes_line(alloc: Global, text: &str) -> Result<String, AllocError> {
    match AttrList::read(alloc, text) {
        Ok(list) => line_of(alloc, list.as_slice()),
        Err(fault) => format!(in alloc; "{fault}"),
    }
}

fn line_of(alloc: Global, attrs: &[Attr<'_>]) -> Result<String, AllocError> {
    let mut line = String::new(alloc);
    for attr in attrs {
        if !line.is_empty() {
            line.push(' ')?;
        }
        push_attribute(&mut line, attr)?;
    }
    Ok(line)
}

fn push_attribute(line: &mut String, attr: &Attr<'_>) -> Result<(), AllocError> {
    write!(line, "{}..{} ", attr.span.start, attr.span.end)?;
    line.push_str(attr.name)?;
    push_value(line, attr)
}

/// The value that a list gives a name: the name is in the first line of `text`, the list in the second.
pub(crate) fn attribute_line(alloc: Global, text: &str) -> Result<String, AllocError> {
    let (name, text) = text.split_once('\n').unwrap_or((text, ""));
    match AttrList::read(alloc, text) {
        Ok(list) => value_line(alloc, list.get(name)),
        Err(fault) => format!(in alloc; "{fault}"),
    }
}

fn value_line(alloc: Global, found: Option<&Attr<'_>>) -> Result<String, AllocError> {
    let Some(attr) = found else {
        return format!(in alloc; "none");
    };
    let mut line = String::new(alloc);
    push_value(&mut line, attr)?;
    Ok(line)
}

fn push_value(line: &mut String, attr: &Attr<'_>) -> Result<(), AllocError> {
    let quote = if attr.quoted { "\"" } else { "" };
    write!(line, "={quote}")?;
    push_shown(line, attr.value)?;
    line.push_str(quote)
}

/// The decimal number that `text` states, or its fault.
pub(crate) fn decimal_line(alloc: Global, text: &str) -> Result<String, AllocError> {
    match read_decimal(text) {
        Ok(number) => format!(in alloc; "{number}"),
        Err(fault) => format!(in alloc; "{fault}"),
    }
}

/// The number of the hexadecimal sequence `text`, or its fault.
pub(crate) fn hexadecimal_line(alloc: Global, text: &str) -> Result<String, AllocError> {
    match read_hex_u128(text) {
        Ok(number) => format!(in alloc; "{number}"),
        Err(fault) => format!(in alloc; "{fault}"),
    }
}
