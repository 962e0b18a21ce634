//! The tables of each list of a document.

ghost use Rattle.std.specs.Prelude.{IfOk};
ghost use Rattle.toml.specs.View.{table_view};
ghost use Rattle.samr_problem.specs.Tables.{AreTables};

use crate::lookup::tables_at;
use std::alloc::{AllocError as NoMemory, Global};
use toml::Table;

/// The tables of each list of a document.
#[derive(Debug, Drop)]
pub struct Tables<'a> {
    pub fields: Vec<&'a Table>,
    pub parts: Vec<&'a Table>,
    pub boxes: Vec<&'a Table>,
    pub balls: Vec<&'a Table>,
}

impl<'a> Tables<'a> {
    ghost use Rattle.std.specs.Prelude.{IfOk};
    ghost use Rattle.toml.specs.View.{table_view};
    ghost use Rattle.samr_problem.specs.Tables.{AreTables};

    /// The tables of each list of a document.
    pub fn of(alloc: Global, doc: &'a Table) -> Result<Tables<'a>, NoMemory>
        ensures { IfOk result (λ t. AreTables t (table_view doc.now)) }
    {
        let fields = tables_at(alloc, doc, "field")?;
        let parts = tables_at(alloc, doc, "part")?;
        let boxes = tables_at(alloc, doc, "box")?;
        let balls = tables_at(alloc, doc, "ball")?;
        Ok(Tables {
            fields,
            parts,
            boxes,
            balls,
        })
    }
}
