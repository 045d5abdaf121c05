//! The form of a file of rows.
//!
//! A file is ASCII text. A line that begins with `#` is a comment, and one without a character says
//! nothing. Each other line is a key, a `:` and a space, and the text of the key. `row: NAME` begins
//! a row. The lines in front of the first row are the head of the file: they stand for each row that
//! has no line of the same key. Lines of one key that follow one another are one text, with a line
//! feed between them. In a text `%` and two digits of base 16, with small letters, are one byte.

use crate::row::{Given, RowFault};
use std::alloc::{AllocError, Global};

/// A key, and its text.
#[derive(Drop)]
pub(crate) struct Cell {
    pub(crate) key: String,
    pub(crate) text: Vec<u8>,
}

/// A row: its name, and its lines.
#[derive(Drop)]
pub(crate) struct Row {
    pub(crate) name: String,
    pub(crate) cells: Vec<Cell>,
}

/// What a file of rows says.
#[derive(Drop)]
pub(crate) struct Sheet {
    pub(crate) head: Vec<Cell>,
    pub(crate) rows: Vec<Row>,
}

impl Sheet {
    /// Reads the text of a file.
    pub(crate) fn read(alloc: Global, text: &str) -> Result<Sheet, RowFault> {
        let mut sheet = Sheet {
            head: Vec::new(alloc),
            rows: Vec::new(alloc),
        };
        let mut number: u64 = 0;
        for line in text.lines() {
            number = number.saturating_add(1);
            if !line.is_empty() && !line.starts_with('#') {
                sheet.take(alloc, line, number)?;
            }
        }
        if sheet.rows.is_empty() {
            return Err(RowFault::NoRow);
        }
        Ok(sheet)
    }

    /// Takes the line with this number.
    fn take(&mut self, alloc: Global, line: &str, number: u64) -> Result<(), RowFault> {
        let Some((key, text)) = line.split_once(':') else {
            return Err(RowFault::BadLine(number));
        };
        if !line.is_ascii() {
            return Err(RowFault::BadLine(number));
        }
        let text = text.strip_prefix(' ').unwrap_or(text);
        if key == "row" {
            self.rows.push(Row {
                name: String::from_str(alloc, text)?,
                cells: Vec::new(alloc),
            })?;
            return Ok(());
        }
        match self.rows.last_mut() {
            Some(row) => put(alloc, &mut row.cells, key, text)?,
            None => put(alloc, &mut self.head, key, text)?,
        }
        Ok(())
    }

    /// Returns what a row is given.
    pub(crate) fn given<'a>(&'a self, row: &'a Row) -> Given<'a> {
        Given {
            head: self.head.as_slice(),
            row: row.cells.as_slice(),
        }
    }
}

/// Puts a line behind the last cell, or into it where it has the same key.
fn put(alloc: Global, cells: &mut Vec<Cell>, key: &str, text: &str) -> Result<(), RowFault> {
    if let Some(last) = cells.last_mut() {
        if last.key.as_str() == key {
            last.text.push(b'\n')?;
            put_bytes(&mut last.text, text)?;
            return Ok(());
        }
    }
    let mut cell = Cell {
        key: String::from_str(alloc, key)?,
        text: Vec::new(alloc),
    };
    put_bytes(&mut cell.text, text)?;
    cells.push(cell)?;
    Ok(())
}

/// Appends the bytes that a text stands for.
fn put_bytes(bytes: &mut Vec<u8>, text: &str) -> Result<(), AllocError> {
    let mut pieces = text.split('%');
    bytes.extend_from_slice(pieces.next().unwrap_or("").as_bytes())?;
    for piece in pieces {
        let piece = piece.as_bytes();
        match byte_of(piece) {
            Some(byte) => {
                bytes.push(byte)?;
                bytes.extend_from_slice(piece.get(2..).unwrap_or(b""))?;
            }
            None => {
                bytes.push(b'%')?;
                bytes.extend_from_slice(piece)?;
            }
        }
    }
    Ok(())
}

/// Returns the byte whose two digits a text begins with.
fn byte_of(text: &[u8]) -> Option<u8> {
    match text {
        [high, low, ..] => Some(digit(*high)?.wrapping_mul(16).wrapping_add(digit(*low)?)),
        _ => None,
    }
}

/// Returns the value of a digit of base 16.
fn digit(byte: u8) -> Option<u8> {
    match byte {
        b'0'..=b'9' => Some(byte - b'0'),
        b'a'..=b'f' => Some(byte - b'a' + 10),
        _ => None,
    }
}
