//! Lists of rows and names, as the fields of other types hold them.
ghost use Rattle.std.specs.Prelude.{◌≡◌};

use super::rows::Row;
use kb_name::Name;
use std::marker::Model;

/// A list of names.
#[derive(Debug, Drop)]
pub struct Names {
    items: Vec<Name>,
}

impl Model for Names {
    ghost use Rattle.std.specs.Prelude.{List, ℕ};

    ghost Value = { List (List ℕ) };

    ghost view = { λ n. n.items.items };
}

impl Names {
    pub fn new(items: Vec<Name>) -> Self
        ensures { result ≡ items.items }
    {
        Names { items }
    }

    pub fn as_slice(&self) -> &[Name]
        ensures { result.now ≡ self.now }
    {
        &self.items
    }

    pub fn into_vec(self) -> Vec<Name>
        ensures { result.items ≡ self }
    {
        self.items
    }
}

/// A list of rows.
#[derive(Debug, Drop)]
pub struct Rows {
    items: Vec<Row>,
}

impl Model for Rows {
    ghost use Rattle.std.specs.Prelude.{List};
    ghost use Rattle.std.specs.Coded.{coded_list};
    ghost use Rattle.kb_ops.specs.declared.rows.Row.{Row};
    ghost use Rattle.kb_ops.specs.Codes.{coded_row};

    ghost Value = { List Row };

    ghost coded = { coded_list coded_row };

    ghost view = { λ r. r.items.items };
}

impl Rows {
    pub fn new(items: Vec<Row>) -> Self
        ensures { result ≡ items.items }
    {
        Rows { items }
    }

    pub fn as_slice(&self) -> &[Row]
        ensures { result.now ≡ self.now }
    {
        &self.items
    }

    pub fn into_vec(self) -> Vec<Row>
        ensures { result.items ≡ self }
    {
        self.items
    }
}

/// A row with the names of its path.
#[derive(Debug, Drop)]
pub struct Placed {
    pub names: Names,
    pub row: Row,
}

/// A list of rows with their paths.
#[derive(Debug, Drop)]
pub struct PlacedRows {
    items: Vec<Placed>,
}

impl Model for PlacedRows {
    ghost use Rattle.std.specs.Prelude.{List};
    ghost use Rattle.std.specs.Coded.{coded_list};
    ghost use Rattle.kb_ops.specs.declared.shown.Placed.{Placed};
    ghost use Rattle.kb_ops.specs.Placing.{coded_placed};

    ghost Value = { List Placed };

    ghost coded = { coded_list coded_placed };

    ghost view = { λ r. r.items.items };
}

impl PlacedRows {
    pub fn new(items: Vec<Placed>) -> Self
        ensures { result ≡ items.items }
    {
        PlacedRows { items }
    }

    pub fn as_slice(&self) -> &[Placed]
        ensures { result.now ≡ self.now }
    {
        &self.items
    }

    pub fn into_vec(self) -> Vec<Placed>
        ensures { result.items ≡ self }
    {
        self.items
    }
}
