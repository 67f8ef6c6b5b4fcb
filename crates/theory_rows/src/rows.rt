use std::alloc::Global;
use theory_rows_method::fault::RowFault;

/// A row: its call, what the call is given, and what is owed.
#[derive(Drop)]
pub struct Row<'a> {
    pub call: &'a str,
    pub given: Vec<&'a str>,
    pub owed: &'a str,
}

/// The row of a line; None where the line is blank or a comment.
pub fn read_row<'a>(alloc: Global, line: &'a str) -> Result<Option<Row<'a>>, RowFault> {
    let line = line.trim();
    if line.is_empty() || line.starts_with('#') {
        return Ok(None);
    }
    let mut given = fields(alloc, line)?;
    let owed = given.pop().unwrap_or("");
    if given.is_empty() {
        return Err(RowFault::Unreadable);
    }
    let call = given.remove(0);
    Ok(Some(Row { call, given, owed }))
}

fn fields<'a>(alloc: Global, line: &'a str) -> Result<Vec<&'a str>, RowFault> {
    let mut fields = Vec::new(alloc);
    for field in line.split('|') {
        fields.push(field.trim())?;
    }
    Ok(fields)
}
