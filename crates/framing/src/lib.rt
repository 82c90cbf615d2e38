// How a file is cut into records: rules 1 to 4, over a record's size and the most records that a file may have.
#![tactic(auto)]

ghost use Rattle.framing.specs.Answers.{Cut, CutLength, WrongEnd};

mod refusals;

pub use refusals::{Reason, Refusal};

// The form of a file: what stands after each record, 0 nothing, 1 LF, 2 CR LF. Callers in C pass any number: hence no enum.
#[repr(C)]
#[derive(Clone, Copy)]
pub struct Form {
    pub line_end: u64,
}

// A file without line ends.
pub const PLAIN: Form = Form { line_end: 0 };

// The width of a record with its line end, and the number of records.
#[derive(Clone, Copy)]
pub struct Frame {
    pub width: usize,
    pub count: usize,
}

// How a file of some length is cut: its bytes have no say in it.
pub fn cut_length(form: Form, size: u16, most: u32, length: usize) -> Result<Frame, Refusal>
    ensures { CutLength form size most length result }
{
    if 2 < form.line_end {
        return Err(Reason::UnknownLineEnd.at(0));
    }
    let width = size as usize + form.line_end as usize;
    if width == 0 {
        if length == 0 {
            return Ok(Frame { width: 0, count: 0 });
        }
        return Err(Reason::UnevenLength.at(0));
    }
    if length % width != 0 {
        return Err(Reason::UnevenLength.at(0));
    }
    let count = length / width;
    if (most as usize) < count {
        return Err(Reason::TooManyRecords.at(0));
    }
    Ok(Frame { width, count })
}

pub fn cut(form: Form, size: u16, most: u32, file: &[u8]) -> Result<Frame, Refusal>
    ensures { Cut form size most file.now result }
{
    cut_length(form, size, most, file.len())
}

// Whether what stands after a record is not the form's line end.
pub fn wrong_end(form: Form, after: &[u8]) -> bool
    ensures { WrongEnd form after.now result }
{
    if form.line_end == 0 {
        return after.len() != 0;
    }
    if form.line_end == 1 {
        return !zones::same(after, b"\n");
    }
    !zones::same(after, b"\r\n")
}
