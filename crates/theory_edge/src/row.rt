ghost use Rattle.std.specs.Prelude.{◌≡◌, ◌↔◌, [], ◌∷◌, ◌++◌, IfOk, OnOk, OnErr, IsTrue};
ghost use Rattle.theory_edge.specs.Rows.{IsRowFit};

use std::alloc::Global;
use std::marker::Model;
use theory_points::{Bytes, Name, NoMemory};

// The greatest numbers of bytes in a row that every keeper takes.
const MOST_MODEL_BYTES: usize = 32;

const MOST_ID_BYTES: usize = 64;

const MOST_BODY_BYTES: usize = 65_536;

/// An accepted request, as it is kept.
#[derive(Debug, Drop)]
pub struct Row {
    /// The number of the grammar that spells the body: 1 has no division, 2 has it.
    pub format: u8,
    pub model: Name,
    /// The version that the request made, from 1.
    pub version: u32,
    /// The version that it was made on, 0 for the first.
    pub base: u32,
    pub id: Name,
    pub body: Bytes,
}

impl Row {
    /// Whether every keeper takes the row.
    pub fn is_fit(&self) -> bool
        ensures { IsTrue result ↔ IsRowFit self.now }
    {
        self.model.as_slice().len() <= MOST_MODEL_BYTES
            && self.id.as_slice().len() <= MOST_ID_BYTES
            && self.body.len() <= MOST_BODY_BYTES
    }

    /// An equal row.
    pub fn copy(&self, alloc: Global) -> Result<Self, NoMemory>
        ensures { IfOk result (λ row. row ≡ self.now) }
    {
        Ok(Row {
            format: self.format,
            model: self.model.copy(alloc)?,
            version: self.version,
            base: self.base,
            id: self.id.copy(alloc)?,
            body: self.body.copy(alloc)?,
        })
    }
}

/// Rows in the order in which they were kept.
#[derive(Debug, Drop)]
pub struct Rows {
    items: Vec<Row>,
}

impl Model for Rows {
    ghost use Rattle.std.specs.Prelude.{List};
    ghost use Rattle.theory_edge.specs.declared.row.Row.{Row};

    ghost Value = { List Row };

    ghost view = { λ r. r.items.items };
}

impl Rows {
    pub fn new(alloc: Global) -> Self
        ensures { result ≡ [] }
    {
        Rows {
            items: Vec::new(alloc),
        }
    }

    pub fn as_slice(&self) -> &[Row]
        ensures { result.now ≡ self.now }
    {
        self.items.as_slice()
    }

    /// The rows as a vector, without copying them.
    pub fn into_vec(self) -> Vec<Row>
        ensures { result.items ≡ self }
    {
        self.items
    }

    /// Adds a row at the end.
    pub fn push(&mut self, row: Row) -> Result<(), NoMemory>
        ensures ok { OnOk result (self.new ≡ self.old ++ row ∷ []) }
        ensures err { OnErr result (self.new ≡ self.old) }
    {
        self.items.push(row)?;
        Ok(())
    }

    /// Equal rows.
    pub fn copy(&self, alloc: Global) -> Result<Self, NoMemory>
        ensures { IfOk result (λ rows. rows ≡ self.now) }
    {
        let mut copies = Rows::new(alloc);
        for row in self.as_slice() {
            copies.push(row.copy(alloc)?)?;
        }
        Ok(copies)
    }
}
