//! Columns of text.

ghost use Rattle.std.specs.Prelude.{◌-◌, length, replicate};
ghost use Rattle.acd_reports.specs.Layout.{left_aligned, right, number_or_hyphen, Appends, numbers_text};

use itoa::Buffer;
use std::alloc::AllocError;

// Spaces to the end of a column after a text.
fn push_spaces(line: &mut String, width: usize, text: &str) -> Result<(), AllocError>
    ensures { Appends result line.old line.new (replicate (width - length text.now) 32) }
{
    for _ in 0..width.saturating_sub(text.len()) {
        line.push(' ')?;
    }
    Ok(())
}

/// Text at the left of a column.
pub(crate) fn push_left(line: &mut String, width: usize, text: &str) -> Result<(), AllocError>
    ensures { Appends result line.old line.new (left_aligned width text.now) }
{
    line.push_str(text)?;
    push_spaces(line, width, text)
}

// Text at the right of a column.
fn push_right(line: &mut String, width: usize, text: &str) -> Result<(), AllocError>
    ensures { Appends result line.old line.new (right width text.now) }
{
    push_spaces(line, width, text)?;
    line.push_str(text)
}

// A number at the right of a column, or a hyphen where there is none.
fn push_number(line: &mut String, width: usize, number: Option<u64>) -> Result<(), AllocError>
    ensures { Appends result line.old line.new (right width (number_or_hyphen number)) }
{
    let mut buffer = Buffer::new();
    match number {
        Some(number) => push_right(line, width, buffer.format(number)),
        None => push_right(line, width, "-"),
    }
}

/// Numbers at the right of their columns, a hyphen where there is none, and a space before each column.
pub(crate) fn push_numbers(
    line: &mut String,
    numbers: &[(usize, Option<u64>)],
) -> Result<(), AllocError>
    ensures { Appends result line.old line.new (numbers_text numbers.now) }
{
    for &(width, number) in numbers {
        line.push(' ')?;
        push_number(line, width, number)?;
    }
    Ok(())
}
