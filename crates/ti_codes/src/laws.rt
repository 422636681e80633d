ghost use Rattle.ti_codes.specs.Laws.{RowsDiffer, RowsAreListed};

/// Does nothing, and is there for its contract: the laws of the tables.
pub fn table_laws()
    // No two rows share a number or a name.
    ensures differ { RowsDiffer }

    // Each row is in the list of its table.
    ensures listed { RowsAreListed }
{}
