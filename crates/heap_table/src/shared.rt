//! The words of a heap that its seats share.

ghost use Rattle.std.specs.Prelude.{◌≡◌};

use crate::rule::HeapTable;
use std::marker::Model;

/// A heap that is shared by its seats. It owns the table of its words.
#[derive(Drop)]
pub struct Shared {
    pub(crate) table: HeapTable,
    ghost no_slots: { table.shared.table_id.slots ≡ 0 },
}

impl Model for Shared {
    ghost use Rattle.std.specs.Prelude.{◌≡◌};
    ghost use Rattle.core_model.specs.Memory.{table_length};
    ghost use Rattle.heap_table.specs.Rule.{setup_for};
    ghost use Rattle.heap_table.specs.AtTable.{SharedView};

    ghost Value = { SharedView };

    ghost view = { λ a. record {
      table = a.table.shared.table_id;
      opening = a.table.shared.key;
    } };

    ghost invariant = { λ a. a.table.shared.table_id.words
        ≡ table_length (setup_for a.table.shared.key).capacity };
}

impl Shared {
    ghost use Rattle.core_model.specs.Memory.{table_length};
    ghost use Rattle.heap_table.specs.Rule.{setup_for};

    /// The table is as long as the heap that it was opened with needs.
    pub fn has_its_length(&self)
        ensures { self.now.table.words ≡ table_length (setup_for self.now.opening).capacity }
    {
        let _table = &self.table;
    }
}
