//! What holds of all tables.
ghost use Rattle.router_table.specs.Laws.{ApartIsUnreachable, HandingEnds, OneTable, TablesAreRead, TablesCarry};

/// The laws of tables: each spelling of a table is read as that one table, where there is memory for it; where a scheme serves a
/// network, its tables hand a packet over a good trip wherever a walk leads, and where none does it isn't launched; and whatever tables
/// are asked, handing ends, after fewer hops than the first of them has nodes. It does nothing: its contract is the laws.
pub fn table_laws()
    ensures read { TablesAreRead }
    ensures one { OneTable }
    ensures carry { TablesCarry }
    ensures apart { ApartIsUnreachable }
    ensures ends { HandingEnds }
{}
